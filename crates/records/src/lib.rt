// Little-endian fields, type entries of 6 bytes and records of 16 bytes in a slice of bytes: read and written by value.
// The contracts say what the bytes mean by the definitions of `rules`; a caller knows a slice as a list of entries or records. Each of the two has functions of
// its own: a trait for both would need, beside a size, what each means in the rules and the laws of it, for six functions of a line or seven.
#![tactic(auto)]

ghost use Rattle.std.specs.Prelude.{◌≡◌, ◌+◌, ◌*◌, ◌<◌, ◌≤◌, length, get_or, drop};
ghost use Rattle.rules.specs.Terms.{number_held};
ghost use Rattle.rules.specs.Types.{no_entry, Nat, Fn, Code};
ghost use Rattle.rules.specs.Format.{u16, u32, bytes16, bytes32, entry_of, entry_bytes, record_of, record_bytes, no_record};
ghost use Rattle.records.specs.Overwritten.{overwritten};
ghost use Rattle.records.specs.View.{entries_in, records_in, EntryPut, RecordPut};
ghost use Rattle.records.specs.Meant.{entry_meant, record_meant};
ghost use Rattle.records.specs.Places.{Within, IsEntry, IsRecord, InChain, Follows};

// A record of the program form. Its kind is a number still, which may be any: the bytes of a program are any.
#[derive(Clone, Copy)]
pub struct Record {
    pub kind: u16,
    pub ty: u16,
    pub a: u16,
    pub b: u16,
    pub first: u16,
    pub next: u16,
    pub value: u32,
}

// An entry of the type table. Its kind is a number for the same reason.
#[derive(Clone, Copy, PartialEq, Eq)]
pub struct Entry {
    pub kind: u16,
    pub a: u16,
    pub b: u16,
}

impl Entry {
    // No entry: no kind of type has number 0.
    pub fn none() -> Entry
        ensures { entry_meant result ≡ no_entry }
    {
        Entry {
            kind: 0,
            a: 0,
            b: 0,
        }
    }

    // The type of numbers.
    pub fn nat() -> Entry
        ensures { entry_meant result ≡ Nat }
    {
        Entry {
            kind: 1,
            a: 0,
            b: 0,
        }
    }

    // The type of functions from a to b.
    pub fn function(a: u16, b: u16) -> Entry
        ensures { entry_meant result ≡ Fn a b }
    {
        Entry { kind: 2, a, b }
    }

    // The type of code of type a.
    pub fn code(a: u16) -> Entry
        ensures { entry_meant result ≡ Code a }
    {
        Entry { kind: 3, a, b: 0 }
    }
}

// The field of two bytes at `at`, low byte first.
pub fn get16(s: &[u8], at: usize) -> u16
    requires { at + 1 < length s.now }
    ensures { result ≡ u16 s.now at }
{
    u16::from_le_bytes([s[at], s[at + 1]])
}

// The field of four bytes at `at`, low half first.
pub fn get32(s: &[u8], at: usize) -> u32
    requires { at + 3 < length s.now }
    ensures { result ≡ u32 s.now at }
{
    u32::from_le_bytes([s[at], s[at + 1], s[at + 2], s[at + 3]])
}

// Writes the field of two bytes at `at`.
pub fn put16(s: &mut [u8], at: usize, v: u16)
    requires { at + 1 < length s.old }
    ensures { s.new ≡ overwritten s.old at (bytes16 v) }
{
    let bytes = v.to_le_bytes();
    s[at] = bytes[0];
    s[at + 1] = bytes[1];
}

// Writes the field of four bytes at `at`, as two of two bytes, as the definition reads it.
pub fn put32(s: &mut [u8], at: usize, v: u32)
    requires { at + 3 < length s.old }
    ensures { s.new ≡ overwritten s.old at (bytes32 v) }
{
    put16(s, at, (v % 65536) as u16);
    put16(s, at + 2, (v / 65536) as u16);
}

// The entry at byte `x`.
fn entry_at(s: &[u8], x: usize) -> Entry
    requires { x + 6 ≤ length s.now }
    ensures { entry_meant result ≡ entry_of (drop x s.now) }
{
    Entry {
        kind: get16(s, x),
        a: get16(s, x + 2),
        b: get16(s, x + 4),
    }
}

// Entry `i`, counted from 0.
#[tactic(auto, using(crate::proofs::Entries::entries_read))]
pub fn get_entry(s: &[u8], i: usize) -> Entry
    requires { i < length (entries_in s.now) }
    ensures { entry_meant result ≡ get_or (entries_in s.now) i no_entry }
{
    entry_at(s, 6 * i)
}

// Writes an entry at byte `x`.
fn put_entry_at(s: &mut [u8], x: usize, e: Entry)
    requires { x + 6 ≤ length s.old }
    ensures { s.new ≡ overwritten s.old x (entry_bytes (entry_meant e)) }
{
    put16(s, x, e.kind);
    put16(s, x + 2, e.a);
    put16(s, x + 4, e.b);
}

// Writes entry `i`, and nothing else.
pub fn put_entry(s: &mut [u8], i: usize, e: Entry)
    requires { i < length (entries_in s.old) }
    ensures { EntryPut s.old i (entry_meant e) s.new }
{
    put_entry_at(s, 6 * i, e)
}

// The record at byte `x`.
fn record_at(s: &[u8], x: usize) -> Record
    requires { x + 16 ≤ length s.now }
    ensures { record_meant result ≡ record_of (drop x s.now) }
{
    Record {
        kind: get16(s, x),
        ty: get16(s, x + 2),
        a: get16(s, x + 4),
        b: get16(s, x + 6),
        first: get16(s, x + 8),
        next: get16(s, x + 10),
        value: get32(s, x + 12),
    }
}

// Record `i`, counted from 0.
#[tactic(auto, using(crate::proofs::Records::records_read))]
pub fn get(s: &[u8], i: usize) -> Record
    requires { i < length (records_in s.now) }
    ensures { record_meant result ≡ get_or (records_in s.now) i no_record }
{
    record_at(s, 16 * i)
}

// The number that a record of kind 1 or 9 holds.
pub fn number_held(r: Record) -> u32
    ensures { result ≡ number_held (record_meant r).fields }
{
    r.value
}

// Writes a record at byte `x`.
fn put_at(s: &mut [u8], x: usize, r: Record)
    requires { x + 16 ≤ length s.old }
    ensures { s.new ≡ overwritten s.old x (record_bytes (record_meant r)) }
{
    put16(s, x, r.kind);
    put16(s, x + 2, r.ty);
    put16(s, x + 4, r.a);
    put16(s, x + 6, r.b);
    put16(s, x + 8, r.first);
    put16(s, x + 10, r.next);
    put32(s, x + 12, r.value);
}

// Writes record `i`, and nothing else.
pub fn put(s: &mut [u8], i: usize, r: Record)
    requires { i < length (records_in s.old) }
    ensures { RecordPut s.old i (record_meant r) s.new }
{
    put_at(s, 16 * i, r)
}

// Copies record `i` to place `j`, and changes nothing else. Its sixteen bytes move as one block: field by field a step of a large term takes up to
// twice as long.
pub fn copy(s: &mut [u8], i: usize, j: usize)
    requires from { i < length (records_in s.old) }
    requires to { j < length (records_in s.old) }
    ensures { RecordPut s.old j (get_or (records_in s.old) i no_record) s.new }
{
    s.copy_within(16 * i..16 * i + 16, 16 * j);
}

// How many entries a table has.
#[tactic(auto, using(crate::proofs::Entries::entries_length))]
pub fn entry_count(table: &[u8]) -> u16
    requires { length (entries_in table.now) < 65536 }
    ensures { result ≡ length (entries_in table.now) }
{
    (table.len() / 6) as u16
}

// How many records there are.
#[tactic(auto, using(crate::proofs::Records::records_length))]
pub fn record_count(records: &[u8]) -> u16
    requires { length (records_in records.now) < 65536 }
    ensures { result ≡ length (records_in records.now) }
{
    (records.len() / 16) as u16
}

// Entry `n`, counted from 1.
pub fn entry_no(table: &[u8], n: u16) -> Entry
    requires { Within (entries_in table.now) n }
    ensures { IsEntry (entries_in table.now) n result }
{
    get_entry(table, (n - 1) as usize)
}

// Record `n`, counted from 1.
pub fn record_no(records: &[u8], n: u16) -> Record
    requires { Within (records_in records.now) n }
    ensures { IsRecord (records_in records.now) n result }
{
    get(records, (n - 1) as usize)
}

// The record that follows record `n` in its chain, or 0; 0 is followed by 0.
pub fn next_of(records: &[u8], n: u16) -> u16
    requires { InChain (records_in records.now) n }
    ensures { Follows (records_in records.now) n result }
{
    if n == 0 {
        return 0;
    }
    let r = record_no(records, n);
    r.next
}
