// A run's state, and the step that it makes.
#![tactic(auto)]

mod events; // the event of a step
mod state; // the state and its step

pub use events::Event;
pub use state::{State, Step};
