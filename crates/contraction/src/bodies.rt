// A body whose variables give way, as a plan.
ghost use Rattle.records.specs.View.{records_in};
ghost use Rattle.terms.specs.Preorder.{HasTree};
ghost use Rattle.contraction.specs.Plans.{only_one, PlansBody, PlansTree};

use crate::plans::Plan;
use kinds::Kind;
use substitution::{Argument, Arguments};

// The tree at `at`, its variables replaced. Where no index is free in it, none of them is used, and it stays as it is.
pub fn body_with(w: &[u8], at: usize, g: Arguments) -> Plan
    requires { HasTree (records_in w.now) at }
    ensures { PlansBody (records_in w.now) at g result }
{
    if terms::bound_at(w, at) == 0 {
        Plan::Tree(at, 0)
    } else {
        Plan::Body(at, g)
    }
}

// The same with one variable.
pub fn body_with_one(w: &[u8], at: usize, g: Argument) -> Plan
    requires { HasTree (records_in w.now) at }
    ensures { PlansBody (records_in w.now) at (only_one g) result }
{
    let one = Arguments {
        first: g,
        second: None,
    };
    body_with(w, at, one)
}

// The same with one variable that gives way to the tree at `arg`. Where the body is the variable itself, it becomes that tree.
pub fn body_with_tree(w: &[u8], at: usize, arg: usize) -> Plan
    requires { HasTree (records_in w.now) at }
    ensures { PlansTree (records_in w.now) at arg result }
{
    if terms::bound_at(w, at) == 1 && terms::root_is(w, at, Kind::Variable) {
        Plan::Tree(arg, 1)
    } else {
        body_with_one(w, at, Argument::Tree(arg))
    }
}
