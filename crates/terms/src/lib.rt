// Terms in a slice of records, each in preorder: the kind gives the number of children, and in place of links a root holds measures of its tree.
#![tactic(auto)]

mod measuring; // the measures of trees, read and written

ghost use Rattle.std.specs.Prelude.{◌≡◌};
ghost use Rattle.rules.specs.Format.{record_no};
ghost use Rattle.rules.specs.Links.{tree_of};
ghost use Rattle.records.specs.View.{records_in};
ghost use Rattle.terms.specs.Preorder.{preorder, Stored};
ghost use Rattle.terms.specs.Moves.{CanMove, Moved};
ghost use Rattle.records.specs.Places.{Within};
ghost use Rattle.terms.specs.Loads.{CanPutRoot, PutsRoot, CanLoad};

pub use measuring::{
    binders_over, bound_at, is_match_at, is_plain_at, mark_root, relink, root_is, root_kind, skip,
};

// Copies the `n` records from `src` on to `dst`, as they are. The first goes first, so that the two parts may overlap where `dst` is before `src`.
// Record by record: by one `copy_within` for all a step of a small term takes 1.08 times as long.
pub fn copy_flat(w: &mut [u8], src: usize, dst: usize, n: usize)
    requires { CanMove (records_in w.old) src dst n }
    ensures { Moved (records_in w.old) (records_in w.new) src dst n }
{
    for i in 0..n {
        records::copy(w, src + i, dst + i);
    }
}

// Writes record `n` of a program's records, counted from 1, to `dst`. Returns its link to its first child.
fn put_root(program: &[u8], n: u16, w: &mut [u8], dst: usize) -> u16
    requires { CanPutRoot (records_in program.now) n (records_in w.old) dst }
    ensures { PutsRoot (records_in program.now) n (records_in w.old) dst (records_in w.new) result }
{
    let r = records::record_no(program, n);
    records::put(w, dst, r);
    r.first
}

// The link of record `n` to its following sibling.
fn sibling(program: &[u8], n: u16) -> u16
    requires { Within (records_in program.now) n }
    ensures { result ≡ (record_no (records_in program.now) n).next }
{
    let r = records::record_no(program, n);
    r.next
}

// Writes the tree that the links of a program's records make from record `n` to `dst`, in preorder: the root, the children, and then, in place of
// the root's links, the measures of the tree, which are made of the children's. Returns the place after it. Links go up, so that `left` generations
// are enough.
pub fn load(program: &[u8], n: u16, left: u16, w: &mut [u8], dst: usize) -> usize
    requires { CanLoad (records_in program.now) n left (records_in w.old) dst }
    ensures { Stored (records_in w.old) (records_in w.new) dst (preorder (tree_of left (records_in program.now) n)) result }
{
    let mut child = put_root(program, n, w, dst);
    let mut at = dst + 1;
    while 0 < child {
        at = load(program, child, left - 1, w, at);
        child = sibling(program, child);
    }
    mark_root(w, dst)
}
