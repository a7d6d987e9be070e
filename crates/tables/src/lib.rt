// A type table that grows in a lent buffer. "A type missing from the table is appended."
#![tactic(auto)]

ghost use Rattle.std.specs.Prelude.{◌≡◌};
ghost use Rattle.inference.specs.Inference.{before};
ghost use Rattle.records.specs.Meant.{entry_meant};
ghost use Rattle.tables.specs.Having.{entries_of, IsOf, HasBytes, AreEntries, CanLookUp, CanHave, Has};

use records::Entry;

// The first `types` entries of a buffer that has room for more.
#[derive(Drop)]
pub struct Table<'a> {
    bytes: &'a mut [u8],
    types: u16,
}

impl<'a> Table<'a> {
    // The table of the first `types` entries in these bytes.
    pub fn of(bytes: &'a mut [u8], types: u16) -> Table<'a>
        ensures { IsOf bytes.entry types result }
    {
        Table { bytes, types }
    }

    // How many entries it has.
    pub fn types(&self) -> u16
        ensures { result ≡ self.now.types }
    {
        self.types
    }

    // The bytes of its entries.
    pub fn entries(&self) -> &[u8]
        requires { HasBytes self.now }
        ensures { AreEntries self.now result.now }
    {
        &self.bytes[..6 * (self.types as usize)]
    }

    // How many entries stand before the one that is `e`: all of them where none is. None of the first `from` is, so that they are not read.
    fn count_before(&self, from: u16, e: Entry) -> u16
        requires { CanLookUp self.now from (entry_meant e) }
        ensures { result ≡ before (entries_of self.now) (entry_meant e) }
    {
        for i in from..self.types {
            if records::get_entry(self.bytes, i as usize) == e {
                return i;
            }
        }
        self.types
    }

    // The number of the entry `e`, which is appended where none is like it. An entry stands after its parts, so that it is looked for from there on.
    pub fn have(&mut self, e: Entry) -> u16
        requires { CanHave self.old (entry_meant e) }
        ensures { Has self.old self.new (entry_meant e) result }
    {
        let found = self.count_before(e.a.max(e.b), e);
        if found == self.types {
            records::put_entry(self.bytes, self.types as usize, e);
            self.types += 1;
        }
        found + 1
    }
}
