// The kinds of records by name, with their tables, and what a program may use and have.
#![tactic(auto)]

mod bounds; // how many types and records a program may have
mod editions; // what a program may use
mod names; // the kinds by name, and their tables
mod uses; // what fields are used for

pub use bounds::{MOST_RECORDS, MOST_TYPES};
pub use editions::{Edition, first_edition};
pub use names::Kind;
pub use uses::Use;
