// From a focus down to a tree inside it: the records on the way become frames.
ghost use Rattle.records.specs.View.{records_in};
ghost use Rattle.navigation.specs.Descending.{CanTellChild, TellsChild, CanDescend, Descends};

use terms::skip;
use zipper::{Ahead, open_ahead};

// Which of the children that stand from `first` on the record at `p` is in, counted from 0. The trees are followed, and no bound of their number is known here.
#[tactic(auto, using(crate::proofs::Downward::towards))]
fn child_towards(w: &[u8], first: usize, p: usize) -> u16
    requires { CanTellChild (records_in w.now) first p }
    ensures { TellsChild (records_in w.now) first p result }
{
    let mut at = first;
    let mut j: u16 = 0;
    loop {
        let next = skip(w, at);
        if p < next {
            return j;
        }
        at = next;
        j += 1;
    }
}

// Goes down to the tree whose root is at `p`, which stays at its place.
#[tactic(auto, using(crate::proofs::Downward::deepening))]
pub fn descend(w: &mut [u8], from: Ahead, p: usize) -> Ahead
    requires { CanDescend (records_in w.old) from p }
    ensures { Descends (records_in w.old) (records_in w.new) from p result }
{
    let mut at = from;
    while at.r != p {
        let j = child_towards(w, at.r + 1, p);
        at = open_ahead(w, at, j);
    }
    at
}
