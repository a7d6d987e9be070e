// A term laid out around its focus in one buffer.
#![tactic(auto)]

mod focus; // the focus, and its moves
mod moving; // a tree that was made becomes the focus

pub use focus::{Ahead, Focus, bring, children_after, close, close_all, open_ahead};
pub use moving::{dropped, hole_of, put_ahead};
