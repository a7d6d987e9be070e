// The walk over the tree of a record, in preorder: the first faulty record and its lowest number of 10 to 12. It calls itself on each child's
// tree with the records left as the falling number. What a record binds over a child is bound before that child's tree is walked, and left after it.
#![tactic(auto)]

ghost use Rattle.std.specs.Prelude.{[], ◌+◌, ◌*◌, ◌≤◌, length};
ghost use Rattle.rules.specs.Check.{walked};
ghost use Rattle.records.specs.View.{entries_in, records_in};
ghost use Rattle.refusals.specs.Reports.{Reports};
ghost use Rattle.judging.specs.Stack.{binders_of, capacity};
ghost use Rattle.typing.specs.Reading.{IsType};
ghost use Rattle.typing.specs.Pushing.{PushesFirst, PushesSecond};
ghost use Rattle.typing.specs.Walking.{CanReadChildren, JudgesRead, OfJudging, refusal_in, Packs, CanWalk, Walks, MakeTree};

use judging::{Binder, Binders};
use kinds::Kind;
use records::Record;
use refusals::{Reason, Refusal};

// What the walk over a tree says is one number: below this how many records are left after the tree, where nothing is refused; else a refusal, its
// number times this and its place. It is handed back in a register: by a `Result` three values came back by memory, and a check took up to 1.26 times
// as long; with the records left in a struct of the walk it took 1.07 times as long.
const REFUSED: u32 = 65536;

// A refusal as one number.
#[tactic(auto, using(crate::proofs::NumberLaws::packs))]
fn packed(reason: Reason, place: u16) -> u32
    ensures { Packs reason place result }
{
    REFUSED * (reason.number() as u32) + (place as u32)
}

// What such a number says of the tree: well, or the refusal that it holds, which is one of 10 to 12.
#[tactic(auto, using(crate::proofs::NumberLaws::telling))]
fn verdict_in(q: u32) -> Result<(), Refusal>
    requires { OfJudging (refusal_in q) }
    ensures { Reports result (refusal_in q) }
{
    let place = (q % REFUSED) as u16;
    match q / REFUSED {
        0 => Ok(()),
        10 => Err(Refusal {
            reason: Reason::BadIndex,
            place,
        }),
        11 => Err(Refusal {
            reason: Reason::BadLevel,
            place,
        }),
        _ => Err(Refusal {
            reason: Reason::BadType,
            place,
        }),
    }
}

// The written type of record n; 0 for no record.
fn type_of(records: &[u8], n: u16) -> u16
    requires { n ≤ length (records_in records.now) }
    ensures { IsType (records_in records.now) n result }
{
    if n == 0 {
        return 0;
    }
    let r = records::record_no(records, n);
    r.ty
}

// The fault of r, one of the records, which is of this kind and stands at this level under the binders. Where the kind is named, no more of its
// children is read than the kind's rules ask.
#[tactic(auto, using(crate::proofs::OwnLaws::own_told))]
fn judge_as(
    table: &[u8],
    records: &[u8],
    binders: &Binders<'_>,
    level: u16,
    kind: Kind,
    r: Record,
) -> Result<(), Reason>
    requires { CanReadChildren (records_in records.now) binders.now r }
    ensures { JudgesRead (entries_in table.now) (records_in records.now) (binders_of binders.now) level kind r result }
{
    let s = records::next_of(records, r.first);
    let e = records::next_of(records, s);
    let x = type_of(records, r.first);
    let y = type_of(records, s);
    let z = type_of(records, e);
    judging::judge(table, binders, level, kind, r, [x, y, z])
}

// The same. Kinds of which there are many are named, so that each has code of its own.
fn own_refusal(
    table: &[u8],
    records: &[u8],
    binders: &Binders<'_>,
    level: u16,
    kind: Kind,
    r: Record,
) -> Result<(), Reason>
    requires { CanReadChildren (records_in records.now) binders.now r }
    ensures { JudgesRead (entries_in table.now) (records_in records.now) (binders_of binders.now) level kind r result }
{
    match kind {
        Kind::Number => judge_as(table, records, binders, level, Kind::Number, r),
        Kind::Variable => judge_as(table, records, binders, level, Kind::Variable, r),
        Kind::Function => judge_as(table, records, binders, level, Kind::Function, r),
        Kind::Application => judge_as(table, records, binders, level, Kind::Application, r),
        Kind::Quote => judge_as(table, records, binders, level, Kind::Quote, r),
        Kind::Splice => judge_as(table, records, binders, level, Kind::Splice, r),
        _ => judge_as(table, records, binders, level, kind, r),
    }
}

// Binds what a record of this kind binds over its first child.
pub fn push_first(binders: &mut Binders<'_>, kind: Kind, level: u16, a: u16)
    requires { length (binders_of binders.old) + 2 ≤ capacity binders.old }
    ensures { PushesFirst kind level a binders.old binders.new }
{
    if kind.binders_first() == 0 {
        return;
    }
    binders.push(level, a);
}

// Binds what a record of this kind binds over its second child, a then b at level 0.
pub fn push_second(binders: &mut Binders<'_>, kind: Kind, a: u16, b: u16)
    requires { length (binders_of binders.old) + 2 ≤ capacity binders.old }
    ensures { PushesSecond kind a b binders.old binders.new }
{
    let count = kind.binders_second();
    if count == 0 {
        return;
    }
    binders.push(0, a);
    if count == 1 {
        return;
    }
    binders.push(0, b);
}

// The first fault in the tree of record n, which stands at this level under the binders, or how many records are left after it, as one number.
// `left` is how many records are left, and enough for the tree. The first child's tree gets all but n, the second's what the first's leaves, the
// third's what that leaves. The record is read once, and whether there is a second child after the first's tree is walked: a
// check of a balanced tree that asks it before takes 1.01 times as long.
fn walk(
    table: &[u8],
    records: &[u8],
    binders: &mut Binders<'_>,
    level: u16,
    n: u16,
    left: u16,
) -> u32
    requires { CanWalk (records_in records.now) binders.old n left }
    ensures { Walks (entries_in table.now) (records_in records.now) binders.old binders.new level n left result }
{
    let r = records::record_no(records, n);
    let kind = Kind::of(r.kind);
    if let Err(reason) = own_refusal(table, records, binders, level, kind, r) {
        return packed(reason, n);
    }
    let rest = left - 1;
    if r.first == 0 {
        return rest as u32;
    }
    let depth = binders.depth();
    push_first(binders, kind, level, r.a);
    let under = kind.first_level(level);
    let first = walk(table, records, binders, under, r.first, rest);
    binders.truncate(depth);
    if REFUSED <= first {
        return first;
    }
    let next = records::next_of(records, r.first);
    if next == 0 {
        return first;
    }
    let e = records::next_of(records, next);
    push_second(binders, kind, r.a, r.b);
    let second = walk(table, records, binders, level, next, first as u16);
    binders.truncate(depth);
    if REFUSED <= second || e == 0 {
        return second;
    }
    walk(table, records, binders, level, e, second as u16)
}

// The first fault in the tree of record 1, the root, at level 0 under no binders. There is room for N binders, two of each record.
fn root_refusal<const N: usize>(table: &[u8], records: &[u8]) -> Result<(), Refusal>
    requires whole { MakeTree (records_in records.now) }
    requires room { 2 * length (records_in records.now) ≤ N }
    requires small { N ≤ 4096 }
    ensures { Reports result (walked (length (records_in records.now)) (entries_in table.now) (records_in records.now) [] 0 1) }
{
    let count = records::record_count(records);
    let mut slots = [Binder { level: 0, ty: 0 }; N];
    let mut binders = Binders::none(&mut slots);
    verdict_in(walk(table, records, &mut binders, 0, 1, count))
}

// The same. A smaller program has a smaller stack, which is sooner cleared.
pub fn types_refusal(table: &[u8], records: &[u8]) -> Result<(), Refusal>
    requires { MakeTree (records_in records.now) }
    ensures { Reports result (walked (length (records_in records.now)) (entries_in table.now) (records_in records.now) [] 0 1) }
{
    match records::record_count(records) {
        0..=64 => root_refusal::<128>(table, records),
        65..=512 => root_refusal::<1024>(table, records),
        _ => root_refusal::<4096>(table, records),
    }
}
