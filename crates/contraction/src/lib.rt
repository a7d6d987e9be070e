// Contraction: what a redex becomes, by the places of trees.
#![tactic(auto)]

mod bodies; // a body whose variables give way
mod making; // the contractum, measured and made
mod plans; // what a redex becomes, as a value
mod rule; // the rules of steps
mod whole; // what a redex of the other kinds becomes

pub use bodies::{body_with, body_with_one, body_with_tree};
pub use making::{Block, fits, make};
pub use plans::Plan;
pub use rule::Rule;
pub use whole::{plan_whole, whole_rule};
