// A program whose types are omitted, written with the types that are given for its records in preorder.
#![tactic(auto)]

ghost use Rattle.std.specs.Prelude.{◌≤◌, length};
ghost use Rattle.records.specs.View.{records_in};
ghost use Rattle.retyping.specs.Retyping.{PutsTypes, CanWriteTyped, WritesTyped};

use records::Record;

// Puts the types, which are given in preorder, into the records of the tree at the front of `w`.
fn put_types(w: &mut [u8], given: &[u16])
    requires { length given.now ≤ length (records_in w.old) }
    ensures { PutsTypes (records_in w.old) given.now (records_in w.new) }
{
    for (i, ty) in given.iter().enumerate() {
        let r = records::get(w, i);
        records::put(w, i, Record { ty: *ty, ..r });
    }
}

// Writes a program with its types: loads the tree of the root of `records` into the work buffer, puts the types into it, and writes it with the table. Tells
// the length.
pub fn write_typed(
    records: &[u8],
    given: &[u16],
    table: &[u8],
    work: &mut [u8],
    output: &mut [u8],
) -> usize
    requires { CanWriteTyped (records_in records.now) given.now table.now (records_in work.old) output.old }
    ensures { WritesTyped (records_in records.now) given.now table.now (records_in work.old) output.old output.new result }
{
    let count = records::record_count(records);
    terms::load(records, 1, count, work, 0);
    put_types(work, given);
    let end = 16 * (count as usize);
    writing::write_program(table, &work[..end], output)
}
