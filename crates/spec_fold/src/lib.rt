//! Specializing a module by a key's entries: what is known before the module runs is carried out, and goes.
#![tactic(auto)]

mod decide;
mod entries;
mod facts;
mod given;
mod inputs;
mod loops;
mod marks;
mod notes;
mod pass;
mod phis;
mod results;
mod scalars;
mod settle;
mod specialiser;
mod walk;
mod ways;
mod within;

pub use specialiser::specialise;
pub use spv_check::Module;
pub use state_model::SpecValues;
pub use std::alloc::AllocError as Memory;
