//! What is valid in a SPIR-V module: its ids and their meanings, types, constants and decorations, as definitions.
#![tactic(auto)]

mod meaning;
mod type_fault;

pub use meaning::{IdFacts, Meaning, Members, Shape};
pub use type_fault::TypeFault;
