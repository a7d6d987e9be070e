// "A record is judged from its binders, its level and its children's written types": refusals 10 to 12 of one record.
// Each kind has a type rule of its own, and kinds 2 and 10 ask something of their binder: for these the kind is matched here. Which field is an
// index and at which levels a kind may stand are asked of the tables of `kinds`. The kind stands beside the record's fields, so that a caller who
// names it gets the code of that kind's rules alone.
#![tactic(auto)]

ghost use Rattle.std.specs.Prelude.{◌≡◌, ◌≤◌, ◌<◌, [], ◌∷◌, length};
ghost use Rattle.rules.specs.Kinds.{match_application, match_function, match_fix};
ghost use Rattle.rules.specs.Types.{Nat, Fn, Code};
ghost use Rattle.rules.specs.Typing.{bind};
ghost use Rattle.records.specs.View.{entries_in};
ghost use Rattle.records.specs.Meant.{entry_meant};
ghost use Rattle.records.specs.Places.{IsEntry};
ghost use Rattle.judging.specs.Stack.{binders_of, capacity, outermost, Rebinds};
ghost use Rattle.judging.specs.Tests.{IsBinder, Tests, EntryTest, match_children_rule, IsMatch, ShapeTest, PatternTest, IndexTest, LevelTest, TypeTest, Judges};

use kinds::{Kind, Use};
use records::{Entry, Record};
use refusals::Reason;

// The level of a binder's variable, and its type.
#[derive(Clone, Copy)]
pub struct Binder {
    pub level: u16,
    pub ty: u16,
}

// Entry n, counted from 1; all its fields are 0 where there is none.
pub fn entry_if_any(table: &[u8], n: u16) -> Entry
    ensures { IsEntry (entries_in table.now) n result }
{
    if n == 0 || table.len() < 6 * (n as usize) {
        return Entry::none();
    }
    records::entry_no(table, n)
}

// Whether entry n is this one.
fn is_entry(table: &[u8], n: u16, e: Entry) -> bool
    ensures { EntryTest (entries_in table.now) n (entry_meant e) result }
{
    entry_if_any(table, n) == e
}

// Whether it is Nat.
fn is_nat(table: &[u8], n: u16) -> bool
    ensures { EntryTest (entries_in table.now) n Nat result }
{
    is_entry(table, n, Entry::nat())
}

// Whether it is Fn(p,q).
fn is_fn(table: &[u8], n: u16, p: u16, q: u16) -> bool
    ensures { EntryTest (entries_in table.now) n (Fn p q) result }
{
    is_entry(table, n, Entry::function(p, q))
}

// Whether it is Code(c).
fn is_code(table: &[u8], n: u16, c: u16) -> bool
    ensures { EntryTest (entries_in table.now) n (Code c) result }
{
    is_entry(table, n, Entry::code(c))
}

// The binders over a record, the innermost last: a stack in an array that is lent, as a call allocates nothing.
#[derive(Drop)]
pub struct Binders<'a> {
    slots: &'a mut [Binder],
    depth: usize,
}

impl<'a> Binders<'a> {
    // No binders.
    #[tactic(auto, using(crate::proofs::Stacking::none_bound))]
    pub fn none(slots: &'a mut [Binder]) -> Binders<'a>
        ensures none { binders_of result ≡ [] }
        ensures room { capacity result ≡ length slots.old }
    {
        Binders { slots, depth: 0 }
    }

    // How many there are.
    #[tactic(auto, using(crate::proofs::Stacking::stack_length))]
    pub fn depth(&self) -> usize
        ensures { result ≡ length (binders_of self.now) }
    {
        self.depth
    }

    // Binds a variable of type ty at this level.
    #[tactic(auto, using(crate::proofs::Stacking::stack_length))]
    pub fn push(&mut self, level: u16, ty: u16)
        requires { length (binders_of self.old) < capacity self.old }
        ensures { Rebinds self.old self.new (bind level ty ∷ binders_of self.old) }
    {
        self.slots[self.depth] = Binder { level, ty };
        self.depth += 1;
    }

    // Leaves the outermost ones, as many as this.
    #[tactic(auto, using(crate::proofs::Stacking::binds_outermost))]
    pub fn truncate(&mut self, depth: usize)
        requires { depth ≤ length (binders_of self.old) }
        ensures { Rebinds self.old self.new (outermost depth (binders_of self.old)) }
    {
        self.depth = depth;
    }

    // The binder that index i names; level 2 and type 0 where there is none.
    #[tactic(auto, using(crate::proofs::Stacking::stack_length, crate::proofs::Reading::binder_read, crate::proofs::Reading::no_binder))]
    pub fn at(&self, i: u16) -> Binder
        requires { length (binders_of self.now) ≤ capacity self.now }
        ensures { IsBinder (binders_of self.now) i result }
    {
        let at = i as usize;
        if at < self.depth {
            return self.slots[self.depth - 1 - at];
        }
        Binder { level: 2, ty: 0 }
    }
}

// 10: an index is below its binders.
fn index_ok(kind: Kind, a: u16, depth: usize) -> bool
    ensures { IndexTest kind a depth result }
{
    (kind.use_of_a() != Use::Index) | ((a as usize) < depth)
}

// 11: the kind stands at a level where it may, and so does the binder that its index names.
fn level_ok(kind: Kind, level: u16, bound: u16) -> bool
    ensures { LevelTest kind level bound result }
{
    if kind == Kind::Variable {
        return bound == level;
    }
    if kind == Kind::MatchVariable {
        return (level == 0) & (bound == 1);
    }
    kind.may_stand(level)
}

// Kinds 9 to 14: the code child's type is Code(C), success and failure have the record's type.
fn match_children_ok(table: &[u8], ty: u16, x: u16, y: u16, z: u16) -> bool
    ensures { Tests (match_children_rule (entries_in table.now) ty x y z) result }
{
    let e = entry_if_any(table, x);
    (y == ty) & (z == ty) & is_code(table, x, e.a)
}

// 11: b = Code(p), a = Code(Fn(p,C)).
fn application_ok(table: &[u8], r: Record, c: u16) -> bool
    ensures { ShapeTest (entries_in table.now) match_application r c result }
{
    let arg = entry_if_any(table, r.b);
    let fun = entry_if_any(table, r.a);
    is_code(table, r.b, arg.a) & is_code(table, r.a, fun.a) & is_fn(table, fun.a, arg.a, c)
}

// 13: C = Fn(p,q), a = Fn(Code(p), Code(q)).
fn function_ok(table: &[u8], r: Record, c: u16) -> bool
    ensures { ShapeTest (entries_in table.now) match_function r c result }
{
    let e = entry_if_any(table, c);
    let fun = entry_if_any(table, r.a);
    is_fn(table, c, e.a, e.b)
        & is_fn(table, r.a, fun.a, fun.b)
        & is_code(table, fun.a, e.a)
        & is_code(table, fun.b, e.b)
}

// 14: a = Code(Fn(C,C)).
fn fix_ok(table: &[u8], r: Record, c: u16) -> bool
    ensures { ShapeTest (entries_in table.now) match_fix r c result }
{
    let e = entry_if_any(table, r.a);
    is_code(table, r.a, e.a) & is_fn(table, e.a, c, c)
}

// What a match, of kind 9 to 14, asks of C.
fn pattern_ok(table: &[u8], bound: u16, kind: Kind, r: Record, c: u16) -> bool
    requires { IsMatch kind }
    ensures { PatternTest (entries_in table.now) bound kind r c result }
{
    match kind {
        Kind::MatchNumber => is_nat(table, c),
        Kind::MatchVariable => bound == c,
        Kind::MatchApplication => application_ok(table, r, c),
        Kind::MatchLift => is_nat(table, c) & is_nat(table, r.a),
        Kind::MatchFunction => function_ok(table, r, c),
        _ => fix_ok(table, r, c),
    }
}

// 12: the type rule of the record's kind; `bound` is the type of the binder that its index names.
fn type_ok(table: &[u8], bound: u16, kind: Kind, r: Record, children: [u16; 3]) -> bool
    ensures { TypeTest (entries_in table.now) bound kind r children result }
{
    let [x, y, z] = children;
    match kind {
        Kind::Number => is_nat(table, r.ty),
        Kind::Variable => bound == r.ty,
        Kind::Function => is_fn(table, r.ty, r.a, x),
        Kind::Application => is_fn(table, x, y, r.ty),
        Kind::Fix => is_fn(table, x, r.ty, r.ty),
        Kind::Lift => is_nat(table, x) & is_code(table, r.ty, x),
        Kind::Quote => is_code(table, r.ty, x),
        Kind::Splice => is_code(table, x, r.ty),
        _ => {
            let e = entry_if_any(table, x);
            match_children_ok(table, r.ty, x, y, z) & pattern_ok(table, bound, kind, r, e.a)
        }
    }
}

// A record of this kind with the fields of r, at this level under the binders, whose children have these written types: the lowest of 10 to 12 that
// it breaks, or none.
#[tactic(auto, using(crate::proofs::Order::ordering))]
pub fn judge(
    table: &[u8],
    binders: &Binders<'_>,
    level: u16,
    kind: Kind,
    r: Record,
    children: [u16; 3],
) -> Result<(), Reason>
    requires { length (binders_of binders.now) ≤ capacity binders.now }
    ensures { Judges (entries_in table.now) (binders_of binders.now) level kind r children result }
{
    let bound = binders.at(r.a);
    if !index_ok(kind, r.a, binders.depth) {
        return Err(Reason::BadIndex);
    }
    if !level_ok(kind, level, bound.level) {
        return Err(Reason::BadLevel);
    }
    if !type_ok(table, bound.ty, kind, r, children) {
        return Err(Reason::BadType);
    }
    Ok(())
}
