//! Which modules are valid (SPIR-V specification, section 2.16 "Validation Rules"): entry points, visibility, the types of
//! operands, storage and interfaces, as definitions. Words, blocks, ids and types have models of their own below.
#![tactic(auto)]

mod components;
mod fault;
mod stage;

pub use components::{Component, Components, Part};
pub use fault::CheckFault;
pub use stage::Stage;
