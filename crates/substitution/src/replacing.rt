// A copy of a tree with variables replaced by what arguments stand for, with the measures of the copy.
ghost use Rattle.std.specs.Prelude.{◌≡◌};
ghost use Rattle.rules.specs.Lists.{pick};
ghost use Rattle.rules.specs.Indices.{lowered_index};
ghost use Rattle.kinds.specs.Named.{kind_meant};
ghost use Rattle.records.specs.View.{records_in};
ghost use Rattle.copies.specs.Roots.{moved_field};
ghost use Rattle.copies.specs.Copying.{CanCopy};
ghost use Rattle.substitution.specs.Replacing.{Replacing, Replaces};

use crate::arguments::Arguments;
use crate::making::copy_argument;
use copies::{copy_block, gives_way, put_indexed};
use kinds::{Kind, Use};
use terms::{binders_over, mark_root, skip};

// The place after a copy, and how many variables gave way in it.
#[derive(Clone, Copy)]
pub struct Copied {
    pub end: usize,
    pub replaced: usize,
}

// An index under d binders that stay, where m binders next to them are removed.
fn lowered_index(i: u16, m: u16, d: u16) -> u16
    ensures { result ≡ lowered_index m d i }
{
    if i < d { i } else { i.saturating_sub(m) }
}

// The field a of a record of this kind, lowered where it is an index.
#[tactic(auto, unfolding(copies::specs::Roots::moved_field))]
fn lowered_field(kind: Kind, a: u16, m: u16, d: u16) -> u16
    ensures { result ≡ moved_field (lowered_index m d) (kind_meant kind) a }
{
    if kind.use_of_a() == Use::Index {
        lowered_index(a, m, d)
    } else {
        a
    }
}

// What is for the variable of the innermost removed binder, or for another.
pub fn chosen<T: Copy>(first: T, second: T, inner: bool) -> T
    ensures { result ≡ pick inner first second }
{
    if inner { first } else { second }
}

// Copies the tree at `src` to `dst`, the variables of the binders next to d of its own replaced by what the arguments stand for, and the indices
// beyond lowered by their number. A tree without an index that reaches so far is copied as a block. The root's measures are known once its children
// are copied.
pub fn copy_replaced(w: &mut [u8], src: usize, dst: usize, d: u16, g: Arguments) -> Copied
    requires { CanCopy (Replacing g) (records_in w.old) src dst d }
    ensures { Replaces (records_in w.old) (records_in w.new) src dst d g result }
{
    let r = records::get(w, src);
    if r.next / 2 <= d {
        let end = copy_block(w, src, dst, r.first as usize);
        return Copied { end, replaced: 0 };
    }
    let kind = Kind::known(r.kind);
    let children = kind.children();
    if gives_way(children, r.a, d, g.count()) {
        let end = copy_argument(w, g.of(r.a == d), dst, d);
        return Copied { end, replaced: 1 };
    }
    let a = lowered_field(kind, r.a, g.count(), d);
    put_indexed(w, dst, r, a);
    let mut at = src + 1;
    let mut to = dst + 1;
    let mut replaced = 0;
    for j in 0..children {
        let after = skip(w, at);
        let child = copy_replaced(w, at, to, d + binders_over(kind, j), g);
        to = child.end;
        replaced += child.replaced;
        at = after;
    }
    let end = mark_root(w, dst);
    Copied { end, replaced }
}
