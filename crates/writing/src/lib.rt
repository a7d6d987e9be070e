// A term written out as a program: the two counts, the type table, and the records in preorder, numbered as they are written.
// The term is read from a list of records with measures in place of links: a root holds the size of its tree, so that the number of the next
// sibling is known before a tree is written, and each record is written once.
#![tactic(auto)]

ghost use Rattle.std.specs.Prelude.{◌+◌, ◌<◌, ◌≤◌, ◌≡◌, length};
ghost use Rattle.records.specs.Overwritten.{overwritten};
ghost use Rattle.records.specs.View.{records_in};
ghost use Rattle.writing.specs.Slots.{link_to, CanHead, Heads};
ghost use Rattle.writing.specs.State.{CanPutRecord, PutsRecord};
ghost use Rattle.writing.specs.Tree.{CanWrite, Writes};
ghost use Rattle.writing.specs.Program.{CanWriteRecords, WritesRecords, CanWriteProgram, WritesProgram};

use kinds::Kind;

// What is written next: the number of the next record, and the bytes written so far. Only `put` moves it on.
#[derive(Clone, Copy)]
pub struct Writer {
    pub number: u16,
    pub length: usize,
}

// The number that is `size` after `number`, as the link to a record of which there are `count`: 0 where there is none.
#[tactic(auto, unfolding(crate::specs::Slots::link_to))]
fn link(count: u16, number: u16, size: u16) -> u16
    requires { number + size < 65536 }
    ensures { result ≡ link_to count (number + size) }
{
    if count == 0 { 0 } else { number + size }
}

// Writes the record at `i` of `w` as record `number` with the sibling `next`, and tells how many children it has. The first of them is the record
// after it.
fn write_head(w: &[u8], i: usize, out: &mut [u8], number: u16, next: u16) -> u16
    requires { CanHead (records_in w.now) i out.old number }
    ensures { Heads (records_in w.now) i out.old number next out.new result }
{
    let mut r = records::get(w, i);
    let children = Kind::of(r.kind).children();
    r.first = link(children, number, 1);
    r.next = next;
    records::put(out, (number - 1) as usize, r);
    children
}

impl Writer {
    // Writes the record at `i` of `w` under the next number, with the sibling `next`, and moves on by that record. Tells how many children it has.
    fn put(&mut self, w: &[u8], i: usize, out: &mut [u8], next: u16) -> u16
        requires { CanPutRecord (records_in w.now) i out.old self.old }
        ensures { PutsRecord (records_in w.now) i out.old self.old next out.new self.new result }
    {
        let children = write_head(w, i, out, self.number, next);
        self.number += 1;
        self.length += 16;
        children
    }
}

// What a record's writing leaves: how many children it has, and the state after it.
#[derive(Clone, Copy)]
struct Begun {
    pub children: u16,
    pub state: Writer,
}

// Lends the state for the writing of the record at `i` of `w`, so that no caller needs a reference to it.
fn put_record(w: &[u8], i: usize, out: &mut [u8], mut state: Writer, next: u16) -> Begun
    requires { CanPutRecord (records_in w.now) i out.old state }
    ensures { PutsRecord (records_in w.now) i out.old state next out.new result.state result.children }
{
    let children = state.put(w, i, out, next);
    Begun { children, state }
}

// Writes the tree at `i` of `w` from the state's number on, its root with the sibling `next`: the root, and then its children one after another.
pub fn write_tree(w: &[u8], i: usize, out: &mut [u8], state: Writer, next: u16) -> Writer
    requires { CanWrite (records_in w.now) i out.old state }
    ensures { Writes (records_in w.now) i out.old out.new state next result }
{
    let root = put_record(w, i, out, state, next);
    let mut done = root.state;
    let mut at = i + 1;
    for child in 0..root.children {
        let left = root.children - 1 - child;
        let after = terms::skip(w, at);
        let sibling = link(left, done.number, (after - at) as u16);
        done = write_tree(w, at, out, done, sibling);
        at = after;
    }
    done
}

// Copies `from` over the bytes of `out` from place `at` on. By `copy_from_slice` the library for C would need a function more from outside, `memmove`.
#[tactic(auto, using(crate::proofs::Copying::copying))]
pub fn copy_bytes(from: &[u8], out: &mut [u8], at: usize)
    requires { at + length from.now ≤ length out.old }
    ensures { out.new ≡ overwritten out.old at from.now }
{
    for i in 0..from.len() {
        out[at + i] = from[i];
    }
}

// Writes the records of the tree at the front of `records` from byte `start` on, and tells where they end.
#[tactic(auto, using(crate::proofs::Records::can_write_rest, crate::proofs::Records::wrote_rest))]
fn write_records(records: &[u8], out: &mut [u8], start: usize) -> usize
    requires { CanWriteRecords (records_in records.now) out.old start }
    ensures { WritesRecords (records_in records.now) out.old out.new start result }
{
    let first = Writer {
        number: 1,
        length: start,
    };
    let done = write_tree(records, 0, &mut out[start..], first, 0);
    done.length
}

// Writes the table and the tree whose records these are as a program, and tells its length.
#[tactic(auto, using(crate::proofs::Program::program_written))]
pub fn write_program(table: &[u8], records: &[u8], out: &mut [u8]) -> usize
    requires { CanWriteProgram table.now (records_in records.now) out.old }
    ensures { WritesProgram table.now (records_in records.now) out.old out.new result }
{
    records::put16(out, 0, records::entry_count(table));
    records::put16(out, 2, records::record_count(records));
    copy_bytes(table, out, 4);
    write_records(records, out, 4 + table.len())
}
