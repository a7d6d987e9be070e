// A copy of a tree with each use of a variable wrapped in a splice, with the measures of the copy.
ghost use Rattle.std.specs.Prelude.{◌+◌, ◌<◌};
ghost use Rattle.records.specs.View.{records_in};
ghost use Rattle.records.specs.Meant.{record_meant};
ghost use Rattle.copies.specs.Copying.{CanCopy, Copies};
ghost use Rattle.copies.specs.Wrapping.{Wrapping, RoomForUse, PutsUse};

use crate::copying::{copy_block, gives_way, put_indexed};
use crate::raising::{copy_raised, raised_field};
use kinds::Kind;
use records::Record;
use terms::{binders_over, mark_root, skip};

// Writes a use of the variable, whose record is r, of type `code` now, in a splice of the type that it had. Returns the place after both.
fn put_use(w: &mut [u8], dst: usize, r: Record, code: u16) -> usize
    requires { RoomForUse (records_in w.old) dst }
    ensures { PutsUse (records_in w.old) (records_in w.new) dst (record_meant r) code result }
{
    let splice = Record {
        kind: Kind::Splice.number(),
        ty: r.ty,
        a: 0,
        b: 0,
        first: 2,
        next: 2 * (r.next / 2),
        value: 0,
    };
    records::put(w, dst + 1, Record { ty: code, ..r });
    records::put(w, dst, splice);
    dst + 2
}

// Copies the tree at `src` to `dst`, each use of the variable of the binder next to d of its own wrapped in a splice, in which it has the type
// `code`, and the indices beyond raised by n. A use is known by its bound, which is its index and one more; any other leaf is raised by n or by 0. A larger
// tree without an index that reaches so far is copied as a block. The root's measures are known once its children are copied. Returns the place
// after the copy.
pub fn copy_wrapped(w: &mut [u8], src: usize, dst: usize, n: u16, d: u16, code: u16) -> usize
    requires { CanCopy (Wrapping n code) (records_in w.old) src dst d }
    ensures { Copies (Wrapping n code) (records_in w.old) (records_in w.new) src dst d result }
{
    let r = records::get(w, src);
    let bound = r.next / 2;
    let kind = Kind::known(r.kind);
    let children = kind.children();
    if gives_way(children, bound, d + 1, 1) {
        return put_use(w, dst, r, code);
    }
    if children == 0 {
        copy_raised(w, src, dst, n, d + 1);
        return dst + 1;
    }
    if bound <= d {
        return copy_block(w, src, dst, r.first as usize);
    }
    let a = raised_field(kind, r.a, n, d + 1);
    put_indexed(w, dst, r, a);
    let mut at = src + 1;
    let mut to = dst + 1;
    for j in 0..children {
        let after = skip(w, at);
        to = copy_wrapped(w, at, to, n, d + binders_over(kind, j), code);
        at = after;
    }
    mark_root(w, dst)
}
