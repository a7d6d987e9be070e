// Refusals 6, 7 and 13: the type entries, the records' fields, and types that are written where they are to be omitted. Each is a scan that stops at the lowest fault.
#![tactic(auto)]

ghost use Rattle.std.specs.Prelude.{◌≡◌, ◌-◌, ◌*◌, ◌≤◌, ◌<◌, length, eqb};
ghost use Rattle.rules.specs.Conditions.{between, met, holds};
ghost use Rattle.rules.specs.FieldUses.{omitted};
ghost use Rattle.rules.specs.Format.{record_no};
ghost use Rattle.kinds.specs.Meant.{edition_meant, type_fields_meant};
ghost use Rattle.kinds.specs.Named.{use_meant};
ghost use Rattle.rules.specs.Refusals.{bad_entry, bad_field, type_written, lowest};
ghost use Rattle.rules.specs.Check.{kind_rule, alike, entry_rule, fields_rule, omitted_rule};
ghost use Rattle.records.specs.View.{entries_in, records_in};
ghost use Rattle.records.specs.Meant.{entry_meant, record_meant};
ghost use Rattle.refusals.specs.Reports.{Reports};
ghost use Rattle.records.specs.Places.{Within};
ghost use Rattle.fields.specs.Fields.{FieldTested, FieldsTested};
ghost use Rattle.fields.specs.BitSets.{Inserted};
ghost use Rattle.fields.specs.Noting.{CanNote, Notes, CanScanTable};

use kinds::{Edition, Kind, Use};
use records::{Entry, Record};
use refusals::{Reason, Refusal, lowest_refusal};

// Whether x is the number of an entry before entry n.
fn is_earlier(x: u16, n: u16) -> bool
    requires { 1 ≤ n }
    ensures { result ≡ met (between 1 x (n - 1)) }
{
    (1..n).contains(&x)
}

// Whether entry n, e, is of a kind that there is, and its parts are earlier entries. The kinds of entries are told apart here alone, by their numbers as they
// stand in the bytes; `Entry::nat`, `function` and `code` name them elsewhere.
fn kind_ok(e: Entry, n: u16) -> bool
    requires { 1 ≤ n }
    ensures { result ≡ holds (kind_rule n (entry_meant e)) }
{
    match e.kind {
        1 => (e.a == 0) & (e.b == 0),
        2 => is_earlier(e.a, n) & is_earlier(e.b, n),
        3 => is_earlier(e.a, n) & (e.b == 0),
        _ => false,
    }
}

// Whether no entry before entry n is like it.
fn alone(table: &[u8], n: u16) -> bool
    requires { Within (entries_in table.now) n }
    ensures { result ≡ eqb (alike (entries_in table.now) n) 0 }
{
    let e = records::entry_no(table, n);
    for m in 1..n {
        if records::entry_no(table, m) == e {
            return false;
        }
    }
    true
}

// Whether entry n is good.
fn entry_ok(table: &[u8], n: u16) -> bool
    requires { Within (entries_in table.now) n }
    ensures { result ≡ holds (entry_rule (entries_in table.now) n) }
{
    alone(table, n) & kind_ok(records::entry_no(table, n), n)
}

// Refusal 6, each entry compared with each earlier one.
fn pairs_refusal(table: &[u8]) -> Result<(), Refusal>
    requires { length (entries_in table.now) < 65536 }
    ensures { Reports result (lowest (entry_rule (entries_in table.now)) bad_entry 1 (length (entries_in table.now))) }
{
    let types = records::entry_count(table);
    lowest_refusal(
        Reason::BadEntry,
        types,
        |n: u16| -> bool
            requires { Within (entries_in table.now) n }
            ensures { result ≡ holds (entry_rule (entries_in table.entry.now) n) }
        { entry_ok(table, n) },
    )
}

// Puts k into a set of numbers, and says whether it was not in it.
#[tactic(auto, using(crate::proofs::BitLaws::is_there, crate::proofs::BitLaws::sum_fits))]
fn insert(set: &mut [u64], k: usize) -> bool
    requires { k < 64 * length set.old }
    ensures { Inserted set.old set.new k result }
{
    let word = set[k / 64];
    let bit = (k % 64) as u32;
    if (word >> bit) % 2 == 1 {
        return false;
    }
    set[k / 64] = word + (1u64 << bit);
    true
}

// Whether entry n is good, where the parts of the entries before it are noted in the set. Where it is good, its own are noted too.
fn note(table: &[u8], seen: &mut [u64], n: u16) -> bool
    requires { CanNote (entries_in table.now) seen.old n }
    ensures { Notes (entries_in table.now) seen.new n result }
{
    let e = records::entry_no(table, n);
    if !kind_ok(e, n) {
        return false;
    }
    insert(seen, 256 * (e.a as usize) + (e.b as usize))
}

// Refusal 6, each entry looked up in the set of the parts noted, which has N words and is empty at first. A loop of its own: of a closure that changes
// the set the scan's contract would have to chain the states from call to call, and the proof here to take that apart again.
fn set_refusal<const N: usize>(table: &[u8]) -> Result<(), Refusal>
    requires { CanScanTable (entries_in table.now) N }
    ensures { Reports result (lowest (entry_rule (entries_in table.now)) bad_entry 1 (length (entries_in table.now))) }
{
    let types = records::entry_count(table);
    let mut seen = [0u64; N];
    for i in 0..types {
        let n = i + 1;
        if !note(table, &mut seen, n) {
            return Err(Refusal {
                reason: Reason::BadEntry,
                place: n,
            });
        }
    }
    Ok(())
}

// Refusal 6: the lowest entry that is bad. Few entries are sooner compared each with each than a set is cleared, more have a set of their size, and
// none has a place for the parts of more than 256.
pub fn entries_refusal(table: &[u8]) -> Result<(), Refusal>
    requires { length (entries_in table.now) < 65536 }
    ensures { Reports result (lowest (entry_rule (entries_in table.now)) bad_entry 1 (length (entries_in table.now))) }
{
    match records::entry_count(table) {
        7..=64 => set_refusal::<256>(table),
        65..=256 => set_refusal::<1024>(table),
        _ => pairs_refusal(table),
    }
}

// Whether x is the number of one of the `types` entries.
fn is_entry(types: u16, x: u32) -> bool
    ensures { result ≡ met (between 1 x types) }
{
    (1..=types as u32).contains(&x)
}

// Whether a field x is good for its use, where there are `types` entries. An index and a number may be any.
fn field_ok(usage: Use, types: u16, x: u32) -> bool
    ensures { FieldTested (use_meant usage) types x result }
{
    match usage {
        Use::Unused => x == 0,
        Use::Entry => is_entry(types, x),
        Use::Index | Use::Value => true,
    }
}

// Whether a record's kind is one of the edition's and its fields are good, where there are `types` entries. Its type is looked at where types are
// given.
fn fields_ok(types: u16, r: Record, edition: Edition, given: bool) -> bool
    ensures { FieldsTested (type_fields_meant given) (edition_meant edition) types (record_meant r) result }
{
    if r.kind < 1 || edition.last_kind < r.kind {
        return false;
    }
    let kind = Kind::of(r.kind);
    (!given || is_entry(types, r.ty as u32))
        && field_ok(kind.use_of_a(), types, r.a as u32)
        && field_ok(kind.use_of_b(), types, r.b as u32)
        && field_ok(kind.use_of_value(), types, r.value)
}

// Refusal 7: the lowest record with a bad kind, type, a, b or value. Where types are not given, but omitted, it "doesn't look at the type field".
pub fn fields_refusal(
    table: &[u8],
    records: &[u8],
    edition: Edition,
    given: bool,
) -> Result<(), Refusal>
    requires entries { length (entries_in table.now) < 65536 }
    requires records { length (records_in records.now) < 65536 }
    ensures { Reports result (lowest (λ n. fields_rule (type_fields_meant given) (edition_meant edition) (entries_in table.now) (record_no (records_in records.now) n)) bad_field 1 (length (records_in records.now))) }
{
    let types = records::entry_count(table);
    let count = records::record_count(records);
    lowest_refusal(
        Reason::BadField,
        count,
        |n: u16| -> bool
            requires { Within (records_in records.now) n }
            ensures { FieldsTested (type_fields_meant given) (edition_meant edition) types (record_no (records_in records.entry.now) n) result }
        { fields_ok(types, records::record_no(records, n), edition, given) },
    )
}

// Refusal 13, where types are omitted: the lowest record with a nonzero type field.
pub fn omitted_refusal(records: &[u8]) -> Result<(), Refusal>
    requires { length (records_in records.now) < 65536 }
    ensures { Reports result (lowest (omitted_rule omitted (records_in records.now)) type_written 1 (length (records_in records.now))) }
{
    let count = records::record_count(records);
    lowest_refusal(
        Reason::TypeWritten,
        count,
        |n: u16| -> bool
            requires { Within (records_in records.now) n }
            ensures { result ≡ holds (omitted_rule omitted (records_in records.entry.now) n) }
        { records::record_no(records, n).ty == 0 },
    )
}
