//! What a shader stage does: the machine that runs a module's instructions one by one, and the outcome of a run.
#![tactic(auto)]

mod inputs;
mod outcome;

pub use inputs::Inputs;
pub use outcome::{Ended, Kind};
