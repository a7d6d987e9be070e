// The parts of a copy that wrapping and replacing have in common.
ghost use Rattle.std.specs.Prelude.{◌≡◌, ◌<◌, length};
ghost use Rattle.rules.specs.Indices.{names_removed};
ghost use Rattle.records.specs.View.{records_in};
ghost use Rattle.records.specs.Meant.{record_meant};
ghost use Rattle.terms.specs.Moves.{CanMove};
ghost use Rattle.terms.specs.Preorder.{HasTree};
ghost use Rattle.copies.specs.Copying.{is_named, TreeSize, BlockMoved, PutsIndexed};

use records::Record;

// Copies the `n` records from `src` on to `dst` as they are. Returns the place after the copy.
pub fn copy_block(w: &mut [u8], src: usize, dst: usize, n: usize) -> usize
    requires { CanMove (records_in w.old) src dst n }
    ensures { BlockMoved (records_in w.old) (records_in w.new) src dst n result }
{
    terms::copy_flat(w, src, dst, n);
    dst + n
}

// The size of the tree at `at`.
pub fn tree_size(w: &[u8], at: usize) -> usize
    requires { HasTree (records_in w.now) at }
    ensures { TreeSize (records_in w.now) at result }
{
    let r = records::get(w, at);
    r.first as usize
}

// Whether index i names one of the m binders next to d.
fn names_removed(i: u16, d: u16, m: u16) -> bool
    ensures { result ≡ names_removed m d i }
{
    d <= i && i - d < m
}

// Whether a root with so many children, whose bound is above d, is a variable of one of the m binders next to d.
#[tactic(auto, using(crate::proofs::Parts::parts))]
pub fn gives_way(children: u16, i: u16, d: u16, m: u16) -> bool
    ensures { result ≡ is_named children m d i }
{
    children == 0 && names_removed(i, d, m)
}

// Writes the record with another field a.
pub fn put_indexed(w: &mut [u8], dst: usize, r: Record, a: u16)
    requires { dst < length (records_in w.old) }
    ensures { PutsIndexed (records_in w.old) (records_in w.new) dst (record_meant r) a }
{
    records::put(w, dst, Record { a, ..r });
}
