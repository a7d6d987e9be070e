// A refusal by value, as the checks hand it on, and the scan for the lowest one.
#![tactic(auto)]

mod reasons; // why something is refused
mod lowest; // the lowest number that breaks a rule

pub use lowest::lowest_refusal;
pub use reasons::{Reason, Refusal};
