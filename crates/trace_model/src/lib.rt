//! Traces: their text, what they mean, and what a play of one prints.
#![tactic(auto)]

pub mod limit;
pub mod line_fault;
mod serve;
pub mod whole;

pub use serve::Serve;
