// The contractum of a plan: whether it has room, and making it.
ghost use Rattle.records.specs.View.{records_in};
ghost use Rattle.contraction.specs.Making.{CanMeasure, TellsFits, CanMake, MakesBlock};

use crate::plans::Plan;

// A contractum that is made: its place, how many records it has, and how many variables gave way.
#[derive(Clone, Copy)]
pub struct Block {
    pub at: usize,
    pub size: usize,
    pub replaced: usize,
}

// Whether the contractum has at most `room` records.
pub fn fits(w: &[u8], plan: Plan, room: usize) -> bool
    requires { CanMeasure (records_in w.now) plan }
    ensures { TellsFits (records_in w.now) plan room result }
{
    match plan {
        Plan::Tree(at, _) => terms::skip(w, at) - at <= room,
        Plan::Body(at, g) => sizes::replaced_fits(w, at, g, room),
        Plan::Made(g) => sizes::argument_size(w, g, true) <= room,
    }
}

// Makes the contractum. A tree that it is already stays in its place, and else it is written from `dst` on.
pub fn make(w: &mut [u8], plan: Plan, dst: usize) -> Block
    requires { CanMake (records_in w.old) plan dst }
    ensures { MakesBlock (records_in w.old) (records_in w.new) plan dst result }
{
    match plan {
        Plan::Tree(at, replaced) => {
            let end = terms::skip(w, at);
            Block {
                at,
                size: end - at,
                replaced,
            }
        }
        Plan::Body(at, g) => {
            let c = substitution::copy_replaced(w, at, dst, 0, g);
            Block {
                at: dst,
                size: c.end - dst,
                replaced: c.replaced,
            }
        }
        Plan::Made(g) => {
            let end = substitution::copy_argument(w, g, dst, 0);
            Block {
                at: dst,
                size: end - dst,
                replaced: 0,
            }
        }
    }
}
