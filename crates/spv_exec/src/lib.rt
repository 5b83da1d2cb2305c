//! The interpreter: what a module's run leaves.
#![tactic(auto)]

mod accesses;
mod block_offsets;
mod branches;
mod components;
mod composites;
mod constants;
mod copies;
mod member_starts;
mod module_frame;
mod operations;
mod origins;
mod outputs;
mod phis;
mod places;
mod prepared;
mod results;
mod stand;
mod variables;
mod walk;

pub use prepared::{Prepared, run_stage};
pub use spirv_model::{Inst, Items};
pub use stage_model::{Ended, Kind};
pub use std::alloc::AllocError as Memory;
