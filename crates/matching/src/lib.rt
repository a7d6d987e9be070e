// What a match becomes. It is open: its code stands behind its record, and its success and its failure stand elsewhere, one after the other.
#![tactic(auto)]

ghost use Rattle.records.specs.View.{entries_in, records_in};
ghost use Rattle.records.specs.Places.{Within};
ghost use Rattle.matching.specs.Matches.{IsOpened, HasApplication, SecondType, HasCode, TellsMatch, CanSucceed, PlansSuccess, HasMatch, TellsMatchRule, CanPlanMatch, PlansMatch};

use contraction::{Plan, Rule, body_with, body_with_one, body_with_tree};
use kinds::Kind;
use substitution::{Argument, Arguments};

// The function of type `ty` that a match on a function binds, of the body at `at`.
fn opened_at(table: &[u8], at: usize, ty: u16) -> Argument
    requires { Within (entries_in table.now) ty }
    ensures { IsOpened (entries_in table.now) at ty result }
{
    let e = records::entry_no(table, ty);
    Argument::Opened(at, ty, e.a, e.b)
}

// The type of the argument of the application at `i`.
fn second_type(w: &[u8], i: usize) -> u16
    requires { HasApplication (records_in w.now) i }
    ensures { SecondType (records_in w.now) i result }
{
    let at = terms::skip(w, i + 1);
    let r = records::get(w, at);
    r.ty
}

// Whether the match at `p` matches its code.
fn matches(table: &[u8], w: &[u8], p: usize) -> bool
    requires { HasCode (entries_in table.now) (records_in w.now) p }
    ensures { TellsMatch (entries_in table.now) (records_in w.now) p result }
{
    let r = records::get(w, p);
    let code = records::get(w, p + 2);
    let kind = Kind::known(r.kind);
    if kind.sought() != Some(Kind::known(code.kind)) {
        return false;
    }
    match kind {
        Kind::MatchNumber => records::number_held(code) == records::number_held(r),
        Kind::MatchVariable => code.a == r.a,
        Kind::MatchApplication => {
            let b = records::entry_no(table, r.b);
            second_type(w, p + 2) == b.a
        }
        _ => true,
    }
}

// The plan of a match that succeeds: its success, at `s`, with its variables replaced. A match on a number or a variable binds nothing.
fn success(table: &[u8], w: &[u8], p: usize, s: usize) -> Plan
    requires { CanSucceed (entries_in table.now) (records_in w.now) p s }
    ensures { PlansSuccess (entries_in table.now) (records_in w.now) p s result }
{
    let r = records::get(w, p);
    match Kind::known(r.kind) {
        Kind::MatchApplication => {
            let argument = terms::skip(w, p + 3);
            let b = Argument::Quote(argument, r.b);
            let a = Argument::Quote(p + 3, r.a);
            let both = Arguments {
                first: b,
                second: Some(a),
            };
            body_with(w, s, both)
        }
        Kind::MatchLift => body_with_tree(w, s, p + 2),
        Kind::MatchFunction => body_with_one(w, s, opened_at(table, p + 3, r.a)),
        Kind::MatchFix => body_with_one(w, s, Argument::Quote(p + 3, r.a)),
        _ => Plan::Tree(s, 0),
    }
}

// The rule that rewrites the match at `p`, whose success is at `s`: that of its kind's success, or of its failure.
pub fn match_rule(table: &[u8], w: &[u8], p: usize, s: usize) -> Rule
    requires { HasMatch (entries_in table.now) (records_in w.now) p s }
    ensures { TellsMatchRule (entries_in table.now) (records_in w.now) p s result }
{
    let kind = terms::root_kind(w, p);
    if matches(table, w, p) {
        Rule::Success(kind)
    } else {
        Rule::Failure(kind)
    }
}

// "A match becomes success, with its variables replaced, or failure." Its record is at `p`, its success at `s`.
pub fn plan_match(table: &[u8], w: &[u8], p: usize, s: usize, rule: Rule) -> Plan
    requires { CanPlanMatch (entries_in table.now) (records_in w.now) p s rule }
    ensures { PlansMatch (entries_in table.now) (records_in w.now) p s rule result }
{
    match rule {
        Rule::Success(_) => success(table, w, p, s),
        _ => Plan::Tree(terms::skip(w, s), 0),
    }
}
