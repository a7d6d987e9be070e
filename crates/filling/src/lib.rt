// The walk that gives each record of a tree its type, children first, in chain order. It calls itself on each child's tree with the records left as
// the falling number. The binders over a record are a stack; the table grows in a lent buffer; the types are kept by the record's number in preorder,
// so that a tree's are together.
#![tactic(auto)]

ghost use Rattle.std.specs.Prelude.{◌*◌, ◌≤◌, length};
ghost use Rattle.records.specs.View.{records_in};
ghost use Rattle.filling.specs.Filling.{CanSettle, Settles, CanFill, Fills, CanFillAll, FillsAll};

use judging::{Binder, Binders};
use kinds::Kind;
use records::Record;
use refusals::Refusal;
use tables::Table;

// How far the walk has come: the binders over the record where it stands, the table, the types that are given so far, and how many records are left.
#[derive(Drop)]
struct Filler<'a, 'b, 'c> {
    records: &'a [u8],
    binders: Binders<'b>,
    table: &'a mut Table<'c>,
    given: &'b mut [u16],
    left: u16,
}

impl Filler<'_, '_, '_> {
    // Gives record n, which is r and whose children's trees are done, its type, at its place among the types: its children have these types.
    fn settle(
        &mut self,
        n: u16,
        r: Record,
        level: u16,
        at: usize,
        children: [u16; 3],
    ) -> Result<u16, Refusal>
        requires { CanSettle self.old r at children }
        ensures { Settles self.old self.new level n r at children result }
    {
        let ty = assigning::assign(self.table, &self.binders, level, n, r, children)?;
        self.given[at] = ty;
        Ok(ty)
    }

    // Gives each record of the tree of record n its type, at this level under the binders. There are enough records left for the tree.
    fn tree(&mut self, n: u16, level: u16) -> Result<u16, Refusal>
        requires { CanFill self.old n }
        ensures { Fills self.old self.new level n result }
    {
        let r = records::record_no(self.records, n);
        let kind = Kind::of(r.kind);
        let at = self.given.len() - (self.left as usize);
        self.left -= 1;
        let depth = self.binders.depth();
        let s = records::next_of(self.records, r.first);
        let e = records::next_of(self.records, s);
        typing::push_first(&mut self.binders, kind, level, r.a);
        let x = if r.first == 0 {
            0
        } else {
            self.tree(r.first, kind.first_level(level))?
        };
        self.binders.truncate(depth);
        typing::push_second(&mut self.binders, kind, r.a, r.b);
        let y = if s == 0 { 0 } else { self.tree(s, level)? };
        self.binders.truncate(depth);
        let z = if e == 0 { 0 } else { self.tree(e, level)? };
        self.settle(n, r, level, at, [x, y, z])
    }
}

// Gives each record of the tree of record 1, the root, its type, at level 0 under no binders, with a stack of room for N of them, two a record.
fn fill_in<const N: usize>(
    records: &[u8],
    table: &mut Table<'_>,
    given: &mut [u16],
) -> Result<u16, Refusal>
    requires can_fill { CanFillAll (records_in records.now) table.old given.old }
    requires enough_room { 2 * length (records_in records.now) ≤ N }
    requires fits_a_stack { N ≤ 4096 }
    ensures { FillsAll (records_in records.now) table.old table.new given.new result }
{
    let mut slots = [Binder { level: 0, ty: 0 }; N];
    let mut filler = Filler {
        records,
        binders: Binders::none(&mut slots),
        table,
        given,
        left: records::record_count(records),
    };
    let root = filler.tree(1, 0);
    // What was lent is taken out of the struct, so that the proof has what it ends as.
    let (_given, _table) = (filler.given, filler.table);
    root
}

// The same. A smaller program has a smaller stack, which is sooner cleared.
pub fn fill_all(records: &[u8], table: &mut Table<'_>, given: &mut [u16]) -> Result<u16, Refusal>
    requires { CanFillAll (records_in records.now) table.old given.old }
    ensures { FillsAll (records_in records.now) table.old table.new given.new result }
{
    match records::record_count(records) {
        0..=64 => fill_in::<128>(records, table, given),
        65..=512 => fill_in::<1024>(records, table, given),
        _ => fill_in::<4096>(records, table, given),
    }
}
