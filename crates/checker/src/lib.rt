// Check's refusals, 3 to 12, in document 01's order, and those of a program's layout alone, 3 to 9 with document 02's 13, where types are
// omitted. The first check that refuses is the answer.
#![tactic(auto)]

ghost use Rattle.std.specs.Prelude.{◌≡◌, ◌<◌, length};
ghost use Rattle.rules.specs.Conditions.{holds};
ghost use Rattle.kinds.specs.Meant.{edition_meant, type_fields_meant};
ghost use Rattle.rules.specs.Refusals.{type_written, lowest};
ghost use Rattle.rules.specs.FieldUses.{omitted};
ghost use Rattle.rules.specs.Check.{counts_rule, omitted_rule, form_refusal, size_refusal, layout_refusal, refusal};
ghost use Rattle.records.specs.View.{entries_in, records_in};
ghost use Rattle.refusals.specs.Reports.{Reports, ReportsWhole};
ghost use Rattle.checker.specs.Limits.{InLimits};
ghost use Rattle.checker.specs.Refused.{SizePasses, refusal_with};

use kinds::{Edition, MOST_RECORDS, MOST_TYPES};
use parts::Parts;
use refusals::{Reason, Refusal};

// Whether both counts are within their limits.
fn counts_ok(types: u16, count: u16) -> bool
    ensures { result ≡ holds (counts_rule types count) }
{
    (1..=MOST_TYPES).contains(&types) && (1..=MOST_RECORDS).contains(&count)
}

// Refusal 13, where types are not given.
#[tactic(auto, using(crate::proofs::Ordering::given_told, crate::proofs::Ordering::omitted_told))]
fn written_refusal(records: &[u8], given: bool) -> Result<(), Refusal>
    requires { length (records_in records.now) < 65536 }
    ensures { Reports result (lowest (omitted_rule (type_fields_meant given) (records_in records.now)) type_written 1 (length (records_in records.now))) }
{
    if given {
        return Ok(());
    }
    fields::omitted_refusal(records)
}

// Refusals 6, 7, 13, 8 and 9 of a table and records.
#[tactic(auto, using(crate::proofs::Ordering::ordering))]
fn form_refusal(table: &[u8], records: &[u8], edition: Edition, given: bool) -> Result<(), Refusal>
    requires { InLimits (entries_in table.now) (records_in records.now) }
    ensures { Reports result (form_refusal (type_fields_meant given) (edition_meant edition) (entries_in table.now) (records_in records.now)) }
{
    fields::entries_refusal(table)?;
    fields::fields_refusal(table, records, edition, given)?;
    written_refusal(records, given)?;
    links::links_refusal(records)?;
    links::children_refusal(records)
}

// The refusal of a program for its length and its counts: 3, 4 and 5.
#[tactic(auto, using(crate::proofs::Counts::counting))]
pub fn size_refusal(program: &[u8]) -> Result<(), Reason>
    ensures { ReportsWhole result (size_refusal program.now) }
{
    let length = program.len();
    if length < 4 {
        return Err(Reason::ProgramShort);
    }
    let types = records::get16(program, 0);
    let count = records::get16(program, 2);
    if !counts_ok(types, count) {
        return Err(Reason::BadCounts);
    }
    let end = 4 + 6 * (types as usize);
    if length != end + 16 * (count as usize) {
        return Err(Reason::BadLength);
    }
    Ok(())
}

// The refusal of a program of the edition whose length and counts are good: those of its table and records, and then, where its types are given, those
// of its types.
#[tactic(auto, using(crate::proofs::Parts::parting, crate::proofs::Passed::walking_on))]
pub fn parts_refusal(program: &[u8], edition: Edition, given: bool) -> Result<(), Refusal>
    requires { SizePasses program.now }
    ensures { Reports result (refusal_with (type_fields_meant given) (edition_meant edition) program.now) }
{
    let Parts { table, records } = parts::parts_of(program);
    form_refusal(table, records, edition, given)?;
    if !given {
        return Ok(());
    }
    typing::types_refusal(table, records)
}

// The refusal of a program of the edition for its layout, before its types are looked at, which are omitted.
#[tactic(auto, using(crate::proofs::Parts::size_refused_omitted, crate::proofs::Passed::with_omitted))]
pub fn layout_refusal(program: &[u8], edition: Edition) -> Result<(), Refusal>
    ensures { Reports result (layout_refusal omitted (edition_meant edition) program.now) }
{
    size_refusal(program)?;
    parts_refusal(program, edition, false)
}

// The refusal of a program of the edition, or none where it is passed. Two names for the two over one function: a flag at each caller would say less.
#[tactic(auto, using(crate::proofs::Parts::size_refused_given, crate::proofs::Passed::with_given))]
pub fn program_refusal(program: &[u8], edition: Edition) -> Result<(), Refusal>
    ensures { Reports result (refusal (edition_meant edition) program.now) }
{
    size_refusal(program)?;
    parts_refusal(program, edition, true)
}
