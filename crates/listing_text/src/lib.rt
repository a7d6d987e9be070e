// The text of a listing, made in a buffer that the caller lends: a first line, and a line for each record.
#![tactic(auto)]

ghost use Rattle.std.specs.Prelude.{◌≡◌, length};
ghost use Rattle.records.specs.View.{records_in};
ghost use Rattle.records.specs.Meant.{record_meant};
ghost use Rattle.listing_text.specs.Decimal.{decimal};
ghost use Rattle.listing_text.specs.Text.{spaced, numbers, ending_word, refused_text, first_line, record_line, record_lines, accepted_text};
ghost use Rattle.listing_text.specs.Parts.{HasRoom, Takes};
ghost use Rattle.listing_text.specs.Buffers.{RoomForRecords, OneLine, Listable, Prints};

use records::Record;

// How many digits a number has.
#[tactic(auto, using(crate::proofs::Decimals::one_counted, crate::proofs::Decimals::more_counted))]
fn digit_count(n: u32) -> usize
    ensures { result ≡ length (decimal n) }
{
    if n < 10 { 1 } else { 1 + digit_count(n / 10) }
}

// A text that is made at the front of lent bytes. Each method adds its part, and leaves the bytes behind it.
#[derive(Drop)]
struct Text<'a> {
    bytes: &'a mut [u8],
    length: usize,
}

impl Text<'_> {
    // Adds these bytes.
    fn put(&mut self, part: &[u8])
        requires { HasRoom self.old part.now }
        ensures { Takes self.old part.now self.new }
    {
        let end = self.length + part.len();
        self.bytes[self.length..end].copy_from_slice(part);
        self.length = end;
    }

    // The digits of a number. By `write!` they would be promised only where it returns Ok, and nothing says that it does. They are written where they
    // stand: made in a buffer of their own and copied, a listing of 2,046 records takes 1.4 times as long with its run.
    fn put_decimal(&mut self, n: u32)
        requires { HasRoom self.old (decimal n) }
        ensures { Takes self.old (decimal n) self.new }
    {
        let end = self.length + digit_count(n);
        itoa::write_digits(n as u64, self.bytes, end);
        self.length = end;
    }

    // A space and a number.
    fn put_spaced(&mut self, n: u32)
        requires { HasRoom self.old (spaced n) }
        ensures { Takes self.old (spaced n) self.new }
    {
        self.put(b" ");
        self.put_decimal(n);
    }

    // What follows the first word of a line: numbers, each after a space, and a newline.
    fn put_numbers(&mut self, ns: &[u32])
        requires { HasRoom self.old (numbers ns.now) }
        ensures { Takes self.old (numbers ns.now) self.new }
    {
        for n in ns {
            self.put_spaced(*n);
        }
        self.put(b"\n");
    }

    // The word of an ending, which is told by its number, as the answer for C has it.
    fn put_ending(&mut self, ending: u32)
        requires { HasRoom self.old (ending_word ending) }
        ensures { Takes self.old (ending_word ending) self.new }
    {
        match ending {
            1 => self.put(b"value"),
            2 => self.put(b"spent"),
            _ => self.put(b"full"),
        }
    }

    // The first line of an accepted run.
    fn put_first(&mut self, ending: u32, steps: u32, root: u32, count: u32)
        requires { HasRoom self.old (first_line ending steps root count) }
        ensures { Takes self.old (first_line ending steps root count) self.new }
    {
        self.put_ending(ending);
        self.put_numbers(&[steps, root, count]);
    }

    // The line of record `n`.
    fn put_record(&mut self, n: u32, r: Record)
        requires { HasRoom self.old (record_line n (record_meant r)) }
        ensures { Takes self.old (record_line n (record_meant r)) self.new }
    {
        self.put_decimal(n);
        self.put_numbers(&[
            r.kind as u32,
            r.ty as u32,
            r.a as u32,
            r.b as u32,
            r.first as u32,
            r.next as u32,
            r.value,
        ]);
    }

    // The lines of `count` records, numbered from 1.
    fn put_records(&mut self, records: &[u8], count: usize)
        requires { RoomForRecords (records_in records.now) count self.old.bytes.now self.old.length }
        ensures { Takes self.old (record_lines 1 (records_in records.now)) self.new }
    {
        for i in 0..count {
            let n = (i + 1) as u32;
            let r = records::get(records, i);
            self.put_record(n, r);
        }
    }
}

// The text of a refusal. Returns its length.
pub fn refused_text(number: u32, place: u32, text: &mut [u8]) -> usize
    requires { OneLine text.old }
    ensures { Prints text.old (refused_text number place) text.new result }
{
    let mut line = Text {
        bytes: text,
        length: 0,
    };
    line.put(b"refused");
    line.put_numbers(&[number, place]);
    line.length
}

// The text of an accepted run: its first line, and a line for each of the records that it wrote. Returns its length.
pub fn accepted_text(ending: u32, steps: u32, root: u32, records: &[u8], text: &mut [u8]) -> usize
    requires { Listable ending (records_in records.now) text.old }
    ensures { Prints text.old (accepted_text ending steps root (records_in records.now)) text.new result }
{
    let count = records.len() / 16;
    let mut lines = Text {
        bytes: text,
        length: 0,
    };
    lines.put_first(ending, steps, root, count as u32);
    lines.put_records(records, count);
    lines.length
}
