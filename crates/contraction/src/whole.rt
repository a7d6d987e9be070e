// What a redex becomes that stands whole in the slice: an application, a fix, a lift or a splice.
ghost use Rattle.rules.specs.Contractions.{on_application, on_fix, on_lift};
ghost use Rattle.records.specs.View.{records_in};
ghost use Rattle.contraction.specs.Redexes.{HasRedex, PlansRedex, CanPlanWhole, TellsRule, PlansWhole};

use crate::bodies::body_with_tree;
use crate::plans::Plan;
use crate::rule::Rule;
use kinds::Kind;
use substitution::Argument;

// "The argument replaces the function's variable in its body."
fn apply(w: &[u8], s: usize) -> Plan
    requires { HasRedex (records_in w.now) s on_application }
    ensures { PlansRedex (records_in w.now) s on_application result }
{
    let argument = terms::skip(w, s + 1);
    body_with_tree(w, s + 2, argument)
}

// "The whole fix replaces the variable of its function in that body."
fn unroll(w: &[u8], s: usize) -> Plan
    requires { HasRedex (records_in w.now) s on_fix }
    ensures { PlansRedex (records_in w.now) s on_fix result }
{
    let function = s + 1;
    body_with_tree(w, function + 1, s)
}

// "Lift of a number: quote of that number."
fn lift(w: &[u8], s: usize) -> Plan
    requires { HasRedex (records_in w.now) s on_lift }
    ensures { PlansRedex (records_in w.now) s on_lift result }
{
    let r = records::get(w, s);
    Plan::Made(Argument::Quote(s + 1, r.ty))
}

// The rule that rewrites the redex at `s`, by its kind: "1 application, 2 fix, 3 lift, 4 splice".
pub fn whole_rule(w: &[u8], s: usize) -> Rule
    requires { CanPlanWhole (records_in w.now) s }
    ensures { TellsRule (records_in w.now) s result }
{
    match terms::root_kind(w, s) {
        Kind::Application => Rule::Application,
        Kind::Fix => Rule::Fix,
        Kind::Lift => Rule::Lift,
        _ => Rule::Splice,
    }
}

// What the redex at `s` becomes, by the rule of its kind. "Splice of a quote: the quoted tree"; that is the kind left beside the named ones.
pub fn plan_whole(w: &[u8], s: usize) -> Plan
    requires { CanPlanWhole (records_in w.now) s }
    ensures { PlansWhole (records_in w.now) s result }
{
    match terms::root_kind(w, s) {
        Kind::Application => apply(w, s),
        Kind::Fix => unroll(w, s),
        Kind::Lift => lift(w, s),
        _ => Plan::Tree(s + 2, 0),
    }
}
