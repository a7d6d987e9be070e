// A tree that was made, or a part of a redex, becomes the focus: it is moved up to the front of the right side.
ghost use Rattle.terms.specs.Moves.{Moved};
ghost use Rattle.records.specs.View.{records_in};
ghost use Rattle.zipper.specs.Moving.{CanMoveUp, CanPutAhead, PutsAhead, HasMatch, Drops, IsHole};

use crate::focus::{Ahead, Focus, link_at, skip_all};

// Copies the `n` records from `src` on up to `dst`, as they are, from the last one on: the two parts may have records in common.
// Record by record, as `copy_flat` does.
fn copy_up(w: &mut [u8], src: usize, dst: usize, n: usize)
    requires { CanMoveUp (records_in w.old) src dst n }
    ensures { Moved (records_in w.old) (records_in w.new) src dst n }
{
    if src == dst {
        return;
    }
    for i in (0..n).rev() {
        records::copy(w, src + i, dst + i);
    }
}

// Fills the hole at `h` with the tree of `n` records at `src`, which is the focus then.
pub fn put_ahead(w: &mut [u8], h: Ahead, src: usize, n: usize) -> Ahead
    requires { CanPutAhead (records_in w.old) h src n }
    ensures { PutsAhead (records_in w.old) (records_in w.new) h src n result }
{
    let r = h.r - n;
    copy_up(w, src, r, n);
    Ahead {
        l: h.l,
        r,
        top: h.top,
        level: h.level,
    }
}

// The hole that is left where the focus is taken out, at its level.
pub fn hole_of(z: Focus, level: u16) -> Ahead
    ensures { IsHole z level result }
{
    Ahead {
        l: z.s,
        r: z.r,
        top: z.top,
        level,
    }
}

// The hole that is left where the match is taken out whose code is the focus.
#[tactic(auto, using(crate::proofs::Filling::dropping))]
pub fn dropped(w: &[u8], z: Focus) -> Ahead
    requires { HasMatch (records_in w.now) z }
    ensures { Drops (records_in w.now) z result }
{
    let link = link_at(w, z.top);
    let end = skip_all(w, z.r, 2);
    Ahead {
        l: z.top,
        r: end,
        top: link,
        level: 0,
    }
}
