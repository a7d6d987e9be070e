// Substitution: copies of trees in which indices move and variables give way, with the measures of the copies.
#![tactic(auto)]

mod arguments; // what variables give way to
mod making; // arguments, written out
mod replacing; // copies with variables replaced

pub use arguments::{Argument, Arguments};
pub use making::copy_argument;
pub use replacing::{Copied, chosen, copy_replaced};
