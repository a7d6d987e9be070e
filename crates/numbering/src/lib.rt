// Tables in order of use: a term is written with just the types that it needs, numbered by first need in preorder. Each record is read once: its
// types get their numbers, and it is put back with these; the entries of the types that have numbers are put in their order; and what is
// there then is written as a program.
#![tactic(auto)]

ghost use Rattle.std.specs.Prelude.{◌≡◌, ◌<◌, length, get_or};
ghost use Rattle.records.specs.View.{entries_in, records_in};
ghost use Rattle.records.specs.Meant.{record_meant};
ghost use Rattle.kinds.specs.Named.{use_meant};
ghost use Rattle.order.specs.Order.{renumbered_in};
ghost use Rattle.numbering.specs.Numbering.{type_named, CanNeed, Needs, CanNeedRecord, RecordNeeds};
ghost use Rattle.numbering.specs.Renumbering.{CanRenumberRecord, RenumbersRecord, CanRenumber, Renumbers};
ghost use Rattle.numbering.specs.Tables.{CanOrderEntry, OrdersEntry, CanOrderTable, OrdersTable};
ghost use Rattle.numbering.specs.InOrder.{CanWriteInOrder, CanWriteWith, WritesInOrder};

use kinds::{Kind, Use};
use records::{Entry, Record};

// A place for the number of each type that a table can have, and of 0.
const NUMBERS: usize = 257;

// The bytes of the largest table.
const TABLE: usize = 1536;

// How a program was written: its length, and the type of its root, a number in the written table.
#[derive(Clone, Copy)]
pub struct Ordered {
    pub length: usize,
    pub root: u16,
}

// Gives type x a number where it has none, after its parts, left first. `new` holds the number of each type, 0 where it has none, and `count` types
// have one; tells how many have one then. A part that an entry hasn't is 0. Parts are earlier entries: it calls itself with x as the falling number.
fn need(table: &[u8], x: u16, new: &mut [u16], count: u16) -> u16
    requires { CanNeed (entries_in table.now) x new.old count }
    ensures { Needs (entries_in table.now) x new.old count new.new result }
{
    if x == 0 {
        return count;
    }
    let at = x as usize;
    if new[at] != 0 {
        return count;
    }
    let e = records::entry_no(table, x);
    let first = need(table, e.a, new, count);
    let second = need(table, e.b, new, first);
    let next = second + 1;
    new[at] = next;
    next
}

// The same for the type that a field x names that is used so, if it names one. Most types have their number already.
fn need_field(table: &[u8], usage: Use, x: u16, new: &mut [u16], count: u16) -> u16
    requires { CanNeed (entries_in table.now) (type_named (use_meant usage) x) new.old count }
    ensures { Needs (entries_in table.now) (type_named (use_meant usage) x) new.old count new.new result }
{
    if usage != Use::Entry {
        return count;
    }
    if new[x as usize] != 0 {
        return count;
    }
    need(table, x, new, count)
}

// The same for the types that a record names: its type, then a and b where they name types.
fn need_record(table: &[u8], r: Record, new: &mut [u16], count: u16) -> u16
    requires { CanNeedRecord (entries_in table.now) (record_meant r) new.old count }
    ensures { RecordNeeds (entries_in table.now) (record_meant r) new.old count new.new result }
{
    let kind = Kind::of(r.kind);
    let first = need_field(table, Use::Entry, r.ty, new, count);
    let second = need_field(table, kind.use_of_a(), r.a, new, first);
    need_field(table, kind.use_of_b(), r.b, new, second)
}

// A field x that is used so, with the new number of the type that it names, if it names one.
fn number_named(new: &[u16], usage: Use, x: u16) -> u16
    requires { type_named (use_meant usage) x < length new.now }
    ensures { result ≡ renumbered_in (λ y. get_or new.now y 0) (use_meant usage) x }
{
    if usage == Use::Entry {
        new[x as usize]
    } else {
        x
    }
}

// A record with the new numbers of the types that it names.
fn with_numbers(r: Record, new: &[u16]) -> Record
    requires { CanRenumberRecord (record_meant r) new.now }
    ensures { RenumbersRecord (record_meant r) new.now (record_meant result) }
{
    let kind = Kind::of(r.kind);
    Record {
        ty: number_named(new, Use::Entry, r.ty),
        a: number_named(new, kind.use_of_a(), r.a),
        b: number_named(new, kind.use_of_b(), r.b),
        ..r
    }
}

// Gives the types that the records name their numbers, and puts each record back with these: a number once given never changes. Tells how many types
// have one.
fn renumber(table: &[u8], records: &mut [u8], new: &mut [u16]) -> u16
    requires { CanRenumber (entries_in table.now) (records_in records.old) new.old }
    ensures { Renumbers (entries_in table.now) (records_in records.old) (length (records_in records.old)) (records_in records.new) new.new result }
{
    let mut count: u16 = 0;
    for i in 0..records::record_count(records) {
        let at = i as usize;
        let r = records::get(records, at);
        count = need_record(table, r, new, count);
        records::put(records, at, with_numbers(r, new));
    }
    count
}

// Puts the entry of type x, its parts by their new numbers, at its new place in `ordered`, if it has a number.
fn order_entry(table: &[u8], x: u16, new: &[u16], ordered: &mut [u8])
    requires { CanOrderEntry (entries_in table.now) x new.now (entries_in ordered.old) }
    ensures { OrdersEntry (entries_in table.now) x new.now (entries_in ordered.old) (entries_in ordered.new) }
{
    let number = new[x as usize];
    if number == 0 {
        return;
    }
    let e = records::entry_no(table, x);
    let renumbered_term = Entry {
        kind: e.kind,
        a: new[e.a as usize],
        b: new[e.b as usize],
    };
    records::put_entry(ordered, (number - 1) as usize, renumbered_term)
}

// The same for each type of the table.
fn order_table(table: &[u8], new: &[u16], ordered: &mut [u8])
    requires { CanOrderTable (entries_in table.now) new.now (entries_in ordered.old) }
    ensures { OrdersTable (entries_in table.now) (length (entries_in table.now)) new.now (entries_in ordered.old) (entries_in ordered.new) }
{
    for i in 0..records::entry_count(table) {
        let x = i + 1;
        order_entry(table, x, new, ordered);
    }
}

// Writes the tree whose records these are as a program with the table of its types in order of use. The numbers stand in `new`, the table in `ordered`.
// The records have their new numbers then.
fn write_with(
    table: &[u8],
    records: &mut [u8],
    new: &mut [u16],
    ordered: &mut [u8],
    out: &mut [u8],
) -> Ordered
    requires { CanWriteWith table.now (records_in records.old) new.old ordered.old out.old }
    ensures { WritesInOrder table.now (records_in records.old) out.old out.new result }
{
    let used = renumber(table, records, new);
    order_table(table, new, ordered);
    let end = 6 * (used as usize);
    let length = writing::write_program(&ordered[..end], records, out);
    let root = records::get(records, 0);
    Ordered {
        length,
        root: root.ty,
    }
}

// The same, with arrays of its own.
pub fn write_in_order(table: &[u8], records: &mut [u8], out: &mut [u8]) -> Ordered
    requires { CanWriteInOrder table.now (records_in records.old) out.old }
    ensures { WritesInOrder table.now (records_in records.old) out.old out.new result }
{
    let mut new = [0u16; NUMBERS];
    let mut ordered = [0u8; TABLE];
    write_with(table, records, &mut new, &mut ordered, out)
}
