// The way of a focus through its term: from one that is done to the next, and down to a tree inside it.
#![tactic(auto)]

mod ascending; // from a focus that is done to the next
mod descending; // from a focus down to a tree inside it

pub use ascending::{Turn, ascend, reach};
