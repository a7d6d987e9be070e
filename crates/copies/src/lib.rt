// Copies of trees in which indices move or the uses of a variable are wrapped, with the measures of the copies. Substitution is made of them.
#![tactic(auto)]

mod copying; // what copies have in common
mod raising; // copies with their indices raised
mod wrapping; // copies with uses of a variable wrapped

pub use copying::{copy_block, gives_way, put_indexed, tree_size};
pub use raising::copy_raised;
pub use wrapping::copy_wrapped;
