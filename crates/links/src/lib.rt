// Refusals 8 and 9: the links of the records, and the chains of children that they make.
#![tactic(auto)]

mod chains; // 9: how many children a record has
mod naming; // 8: what links name, and how often a record is named

pub use chains::children_refusal;
pub use naming::links_refusal;
