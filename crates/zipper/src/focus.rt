// The focus of a term by value, and its moves. Each moves one block of records over the gap, which no block is long enough to fill.
// A focus that is to be searched is the first tree after the gap; one that is done or is rewritten is the last before it.
ghost use Rattle.std.specs.Prelude.{◌<◌, length};
ghost use Rattle.records.specs.View.{records_in};
ghost use Rattle.zipper.specs.Focusing.{LinkIs, HasTrees, SkipsAll, HasFrame, CountsAfter, CanClose, Closes, CanCloseAll, ClosesAll, HasAhead, Brings, CanOpen, Opens};

use terms::{mark_root, relink, root_kind, skip};

// A focus before the gap: the records from `s` to `l`. The right side stands from `r` on, and the innermost frame's record is at `top`.
#[derive(Clone, Copy)]
pub struct Focus {
    pub s: usize,
    pub l: usize,
    pub r: usize,
    pub top: usize,
}

// A focus after the gap, at its level: the left side ends at `l`, and the right side begins with the focus at `r`.
#[derive(Clone, Copy)]
pub struct Ahead {
    pub l: usize,
    pub r: usize,
    pub top: usize,
    pub level: u16,
}

// The place of the frame around it, from the record of a frame at `i`.
pub fn link_at(w: &[u8], i: usize) -> usize
    requires { i < length (records_in w.now) }
    ensures { LinkIs (records_in w.now) i result }
{
    let r = records::get(w, i);
    r.first as usize
}

// The place after `n` trees that stand one after another from `i` on.
#[tactic(auto, using(crate::proofs::Rows::skipping))]
pub fn skip_all(w: &[u8], i: usize, n: u16) -> usize
    requires { HasTrees (records_in w.now) i n }
    ensures { SkipsAll (records_in w.now) i n result }
{
    let mut at = i;
    for _ in 0..n {
        at = skip(w, at);
    }
    at
}

// How many children the innermost frame has after its hole: those that don't stand between its record and the focus, which is one itself.
#[tactic(auto, using(crate::proofs::Rows::counting))]
pub fn children_after(w: &[u8], z: Focus) -> u16
    requires { HasFrame (records_in w.now) z }
    ensures { CountsAfter (records_in w.now) z result }
{
    let kind = root_kind(w, z.top);
    let mut left = kind.children() - 1;
    let mut at = z.top + 1;
    while at < z.s {
        at = skip(w, at);
        left -= 1;
    }
    left
}

// Closes the innermost frame, whichever child its hole is: the frame's tree is the focus then.
#[tactic(auto, using(crate::proofs::Closing::closing))]
pub fn close(w: &mut [u8], z: Focus) -> Focus
    requires { CanClose (records_in w.old) z }
    ensures { Closes (records_in w.old) (records_in w.new) z result }
{
    let top = z.top;
    let link = link_at(w, top);
    let after = children_after(w, z);
    let end = skip_all(w, z.r, after);
    let n = end - z.r;
    terms::copy_flat(w, z.r, z.l, n);
    let last = mark_root(w, top);
    Focus {
        s: top,
        l: last,
        r: end,
        top: link,
    }
}

// Closes every frame: the whole term is the focus then.
#[tactic(auto, using(crate::proofs::Wholes::closing_all))]
pub fn close_all(w: &mut [u8], z: Focus) -> Focus
    requires { CanCloseAll (records_in w.old) z }
    ensures { ClosesAll (records_in w.old) (records_in w.new) z result }
{
    let mut at = z;
    while at.s != 0 {
        at = close(w, at);
    }
    at
}

// Brings the focus over the gap: it is the last tree on the left then.
pub fn bring(w: &mut [u8], a: Ahead) -> Focus
    requires { HasAhead (records_in w.old) a }
    ensures { Brings (records_in w.old) (records_in w.new) a result }
{
    let l = a.l;
    let r = a.r;
    let end = skip(w, r);
    let n = end - r;
    terms::copy_flat(w, r, l, n);
    Focus {
        s: l,
        l: l + n,
        r: end,
        top: a.top,
    }
}

// Makes a frame of the focus's root, with its child `j`, counted from 0, in the hole: the root and the children before the hole go over the gap.
#[tactic(auto, using(crate::proofs::Opening::opening))]
pub fn open_ahead(w: &mut [u8], a: Ahead, j: u16) -> Ahead
    requires { CanOpen (records_in w.old) a j }
    ensures { Opens (records_in w.old) (records_in w.new) a j result }
{
    let l = a.l;
    let r = a.r;
    let kind = root_kind(w, r);
    let level = kind.first_level(a.level);
    let start = skip_all(w, r + 1, j);
    let n = start - r;
    terms::copy_flat(w, r, l, n);
    let link = a.top as u16;
    relink(w, l, link, 0);
    Ahead {
        l: l + n,
        r: start,
        top: l,
        level,
    }
}
