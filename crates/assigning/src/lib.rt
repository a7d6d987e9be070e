// The type of one record whose children have theirs: the one type that it can have, made from its kind, fields, binders and children's types, and then
// judged as check judges a written one. A type that the table lacks is appended to it.
#![tactic(auto)]

ghost use Rattle.std.specs.Prelude.{◌≤◌, length};
ghost use Rattle.records.specs.View.{entries_in};
ghost use Rattle.judging.specs.Stack.{binders_of, capacity};
ghost use Rattle.judging.specs.Tests.{Judges};
ghost use Rattle.tables.specs.Having.{entries_of, HasBytes};
ghost use Rattle.assigning.specs.Assigning.{Wants, CanHold, HasCandidate, JudgesOwn, JudgesWhole, CanAssign, Assigns};

use judging::Binders;
use kinds::Kind;
use records::{Entry, Record};
use refusals::{Reason, Refusal};
use tables::Table;

// The type that a record must have, if it can have one: a number that is known, or the number of an entry that is made. An enum of its own, since
// neither is an error.
#[derive(Clone, Copy)]
pub enum Candidate {
    Known(u16),
    Made(Entry),
}

// What is wanted for record r under the binders, whose children have these types.
fn wanted(table: &[u8], binders: &Binders<'_>, r: Record, children: [u16; 3]) -> Candidate
    requires { length (binders_of binders.now) ≤ capacity binders.now }
    ensures { Wants (entries_in table.now) (binders_of binders.now) r children result }
{
    let [x, y, _] = children;
    match Kind::of(r.kind) {
        Kind::Number => Candidate::Made(Entry::nat()),
        Kind::Variable => {
            let b = binders.at(r.a);
            Candidate::Known(b.ty)
        }
        Kind::Function => Candidate::Made(Entry::function(r.a, x)),
        Kind::Application => {
            let e = judging::entry_if_any(table, x);
            Candidate::Known(e.b)
        }
        Kind::Fix | Kind::Splice => {
            let e = judging::entry_if_any(table, x);
            Candidate::Known(e.a)
        }
        Kind::Lift | Kind::Quote => Candidate::Made(Entry::code(x)),
        _ => Candidate::Known(y),
    }
}

// The number of the wanted type in the table, which holds it then.
fn hold(table: &mut Table<'_>, w: Candidate) -> u16
    requires { CanHold table.old w }
    ensures { HasCandidate table.old table.new w result }
{
    match w {
        Candidate::Known(number) => number,
        Candidate::Made(e) => table.have(e),
    }
}

// The fault of r, of this kind, by rules 10 to 12, at this level under the binders, where its children have these types. As in check's walk the kinds of
// which there are many are named, so that each has code of its own; there the children are read by the kind as well, so that no one list serves both.
fn own_number(
    table: &[u8],
    binders: &Binders<'_>,
    level: u16,
    kind: Kind,
    r: Record,
    children: [u16; 3],
) -> Result<(), Reason>
    requires { length (binders_of binders.now) ≤ capacity binders.now }
    ensures { Judges (entries_in table.now) (binders_of binders.now) level kind r children result }
{
    match kind {
        Kind::Number => judging::judge(table, binders, level, Kind::Number, r, children),
        Kind::Variable => judging::judge(table, binders, level, Kind::Variable, r, children),
        Kind::Function => judging::judge(table, binders, level, Kind::Function, r, children),
        Kind::Application => {
            judging::judge(table, binders, level, Kind::Application, r, children)
        }
        Kind::Quote => judging::judge(table, binders, level, Kind::Quote, r, children),
        Kind::Splice => judging::judge(table, binders, level, Kind::Splice, r, children),
        _ => judging::judge(table, binders, level, kind, r, children),
    }
}

// The fault of r by rules 10 to 12.
#[tactic(auto, using(crate::proofs::Faults::judges_own))]
fn own_fault(
    table: &[u8],
    binders: &Binders<'_>,
    level: u16,
    r: Record,
    children: [u16; 3],
) -> Result<(), Reason>
    requires { length (binders_of binders.now) ≤ capacity binders.now }
    ensures { JudgesOwn (entries_in table.now) (binders_of binders.now) level r children result }
{
    let kind = Kind::of(r.kind);
    own_number(table, binders, level, kind, r, children)
}

// The fault of r with its type, in the table that has that type: its lowest of 10, 11, 12 and 14.
fn fault(
    table: &Table<'_>,
    binders: &Binders<'_>,
    level: u16,
    r: Record,
    children: [u16; 3],
) -> Result<(), Reason>
    requires has_bytes { HasBytes table.now }
    requires deep { length (binders_of binders.now) ≤ capacity binders.now }
    ensures { JudgesWhole (entries_of table.now) (binders_of binders.now) level r children result }
{
    own_fault(table.entries(), binders, level, r, children)?;
    if kinds::MOST_TYPES < table.types() {
        return Err(Reason::TableFull);
    }
    Ok(())
}

// Gives record n, which is r, its type, at this level under the binders, where its children have these types. Tells the type's number.
#[tactic(auto, using(crate::proofs::Faults::grows_in_bytes, crate::proofs::Faults::held_bytes, crate::proofs::Faults::can_hold, crate::proofs::Faults::assigns))]
pub fn assign(
    table: &mut Table<'_>,
    binders: &Binders<'_>,
    level: u16,
    n: u16,
    r: Record,
    children: [u16; 3],
) -> Result<u16, Refusal>
    requires { CanAssign table.old binders.now r children }
    ensures { Assigns table.old table.new (binders_of binders.now) level n r children result }
{
    let w = wanted(table.entries(), binders, r, children);
    let ty = hold(table, w);
    match fault(table, binders, level, Record { ty, ..r }, children) {
        Ok(()) => Ok(ty),
        Err(reason) => Err(Refusal { reason, place: n }),
    }
}
