// The measures of trees: read at their roots, and written there from those of the root's children.
ghost use Rattle.std.specs.Prelude.{◌≡◌, ◌+◌, ◌-◌, ◌*◌, ◌<◌, length};
ghost use Rattle.rules.specs.Lists.{pick};
ghost use Rattle.kinds.specs.Named.{kind_meant};
ghost use Rattle.records.specs.View.{records_in};
ghost use Rattle.terms.specs.Preorder.{HasTree, Skips};
ghost use Rattle.terms.specs.Measuring.{binders_over, HasKind, KindIs, RootIs, MatchIs, BoundIs, PlainIs, OwnIndexFits, OwnIs, Joins, HasRooted, MeasuresTree, Relinks, MarksRoot};

use kinds::{Kind, Use};
use records::Record;

// What is known of a tree and of as many of its children as stand before `end`: how far their free indices reach, and whether they are plain.
#[derive(Clone, Copy)]
struct Measure {
    pub end: usize,
    pub bound: u16,
    pub plain: bool,
}

// The kind of the record at `i`, which has a known one, as a tree's root and a frame's record have.
pub fn root_kind(w: &[u8], i: usize) -> Kind
    requires { HasKind (records_in w.now) i }
    ensures { KindIs (records_in w.now) i result }
{
    let r = records::get(w, i);
    Kind::known(r.kind)
}

// Whether the record at `i` is of this kind. Numbers are compared: no kind is made of the record's.
pub fn root_is(w: &[u8], i: usize, kind: Kind) -> bool
    requires { HasKind (records_in w.now) i }
    ensures { RootIs (records_in w.now) i kind result }
{
    let r = records::get(w, i);
    r.kind == kind.number()
}

// Whether the record at `i` is a match: those are the kinds after the splice.
pub fn is_match_at(w: &[u8], i: usize) -> bool
    requires { HasKind (records_in w.now) i }
    ensures { MatchIs (records_in w.now) i result }
{
    let r = records::get(w, i);
    Kind::Splice.number() < r.kind
}

// The place after the tree at `i`.
pub fn skip(w: &[u8], i: usize) -> usize
    requires { HasTree (records_in w.now) i }
    ensures { Skips (records_in w.now) i result }
{
    let r = records::get(w, i);
    i + r.first as usize
}

// The free bound of the tree at `i`.
pub fn bound_at(w: &[u8], i: usize) -> u16
    requires { HasTree (records_in w.now) i }
    ensures { BoundIs (records_in w.now) i result }
{
    let r = records::get(w, i);
    r.next / 2
}

// Whether the tree at `i` is plain.
pub fn is_plain_at(w: &[u8], i: usize) -> bool
    requires { HasTree (records_in w.now) i }
    ensures { PlainIs (records_in w.now) i result }
{
    let r = records::get(w, i);
    r.next % 2 == 1
}

// How many variables a record of this kind binds over its child `j`, counted from 0.
pub fn binders_over(kind: Kind, j: u16) -> u16
    ensures { result ≡ binders_over (kind_meant kind) j }
{
    match j {
        0 => kind.binders_first(),
        1 => kind.binders_second(),
        _ => 0,
    }
}

// What a record's own index adds to the bound of its tree.
fn own_bound(kind: Kind, a: u16) -> u16
    requires { OwnIndexFits (kind_meant kind) a }
    ensures { OwnIs (kind_meant kind) a result }
{
    if kind.use_of_a() == Use::Index {
        a + 1
    } else {
        0
    }
}

// The measure `m`, joined with the child that stands at its end, over which so many variables are bound.
fn with_child(w: &[u8], m: Measure, binders: u16) -> Measure
    requires { HasTree (records_in w.now) m.end }
    ensures { Joins (records_in w.now) m binders result }
{
    let i = m.end;
    let bound = bound_at(w, i);
    let plain = is_plain_at(w, i);
    Measure {
        end: skip(w, i),
        bound: m.bound.max(bound.saturating_sub(binders)),
        plain: m.plain & plain,
    }
}

// The measure of the tree whose root is at `i`, from its root and its children.
fn measured(w: &[u8], i: usize) -> Measure
    requires { HasRooted (records_in w.now) i }
    ensures { MeasuresTree (records_in w.now) i result }
{
    let r = records::get(w, i);
    let kind = Kind::of(r.kind);
    let mut m = Measure {
        end: i + 1,
        bound: own_bound(kind, r.a),
        plain: kind.is_plain(),
    };
    for j in 0..kind.children() {
        m = with_child(w, m, binders_over(kind, j));
    }
    m
}

// A free bound and whether a tree is plain, in one number.
fn bound_and_plain(bound: u16, plain: bool) -> u16
    requires { 2 * bound + 1 < 65536 }
    ensures { result ≡ 2 * bound + pick plain 1 0 }
{
    if plain { 2 * bound + 1 } else { 2 * bound }
}

// Writes other links to the record at `i`.
pub fn relink(w: &mut [u8], i: usize, first: u16, next: u16)
    requires { i < length (records_in w.old) }
    ensures { Relinks (records_in w.old) (records_in w.new) i first next }
{
    let r = records::get(w, i);
    records::put(w, i, Record { first, next, ..r });
}

// Writes the measures of the tree whose root is at `i` to its root. Returns the place after the tree.
pub fn mark_root(w: &mut [u8], i: usize) -> usize
    requires { HasRooted (records_in w.old) i }
    ensures { MarksRoot (records_in w.old) (records_in w.new) i result }
{
    let m = measured(w, i);
    let end = m.end;
    let size = (end - i) as u16;
    let next = bound_and_plain(m.bound, m.plain);
    relink(w, i, size, next);
    end
}
