// The public calls, which the crates `check_call`, `infer_call` and `run_call` make. None has a condition. `engine_c` has their entries for C.
#![tactic(auto)]

pub use check_call::{CheckAnswer, check};
pub use infer_call::{InferAnswer, infer};
pub use lending::{OUTPUT, WORK};
pub use run_call::{RunAnswer, run};
