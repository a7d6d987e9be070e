// Copies of trees with their indices raised, with the measures of the copies.
ghost use Rattle.std.specs.Prelude.{◌≡◌, ◌<◌};
ghost use Rattle.rules.specs.Indices.{raised_index};
ghost use Rattle.kinds.specs.Named.{kind_meant};
ghost use Rattle.records.specs.View.{records_in};
ghost use Rattle.copies.specs.Roots.{moved_field};
ghost use Rattle.copies.specs.Raising.{FieldFits, CanRaise, Raises, CanRaiseRoot, RaisesRoot};

use crate::copying::tree_size;
use kinds::Kind;
use records::Record;

// An index under d binders that stay, raised by n.
fn raised_index(i: u16, n: u16, d: u16) -> u16
    requires { raised_index n d i < 65536 }
    ensures { result ≡ raised_index n d i }
{
    i + n * ((d <= i) as u16)
}

// The field a of a record of this kind, raised where it is an index.
pub fn raised_field(kind: Kind, a: u16, n: u16, d: u16) -> u16
    requires { FieldFits n d (kind_meant kind) a }
    ensures { result ≡ moved_field (raised_index n d) (kind_meant kind) a }
{
    let indexed = (kind == Kind::Variable) as u16 + (kind == Kind::MatchVariable) as u16;
    raised_index(a, n * indexed, d)
}

// Copies the root of the tree at `src`, in which some index is raised: the size stays, and so does whether it is plain.
fn raise_root(w: &mut [u8], src: usize, dst: usize, n: u16, d: u16)
    requires { CanRaiseRoot (records_in w.old) src dst n d }
    ensures { RaisesRoot (records_in w.old) (records_in w.new) src dst n d }
{
    let r = records::get(w, src);
    let a = raised_field(Kind::known(r.kind), r.a, n, d);
    let next = r.next + 2 * n;
    records::put(w, dst, Record { a, next, ..r });
}

// Copies the tree at `src` to `dst`, its indices beyond d binders raised by n: record by record, and by a call where the tree binds. The index of a
// leaf, and its bound with it, is raised by n or by 0. A larger tree without such an index is copied as a block.
pub fn copy_raised(w: &mut [u8], src: usize, dst: usize, n: u16, d: u16)
    requires { CanRaise (records_in w.old) src dst n d }
    ensures { Raises (records_in w.old) (records_in w.new) src dst n d }
{
    let all = tree_size(w, src);
    let mut done = 0;
    while done < all {
        let at = src + done;
        let to = dst + done;
        let r = records::get(w, at);
        let size = r.first as usize;
        if size == 1 {
            let raise = n * ((d < r.next / 2) as u16);
            let a = r.a + raise;
            let next = r.next + 2 * raise;
            records::put(w, to, Record { a, next, ..r });
            done += 1;
        } else if r.next / 2 <= d {
            terms::copy_flat(w, at, to, size);
            done += size;
        } else {
            raise_root(w, at, to, n, d);
            done += 1;
            let kind = Kind::known(r.kind);
            if kind.binders_first() == 1 {
                let body = tree_size(w, src + done);
                copy_raised(w, src + done, dst + done, n, d + 1);
                done += body;
            } else if kind.binders_second() != 0 {
                let code = tree_size(w, src + done);
                copy_raised(w, src + done, dst + done, n, d);
                done += code;
                let success = tree_size(w, src + done);
                copy_raised(w, src + done, dst + done, n, d + kind.binders_second());
                done += success;
            }
        }
    }
}
