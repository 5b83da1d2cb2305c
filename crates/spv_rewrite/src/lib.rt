//! Changing a module by a plan: what becomes of each instruction of its function, and which ids stand for others.
#![tactic(auto)]

mod change;
mod constants;
mod ends;
mod listing;
mod phi_pairs;
mod renaming;
mod writing;

pub use change::{fate_at, inst_at, name_of, still_leads};
pub use change_model::Fate;
pub use constants::{inst_with, scalar_constant};
pub use ends::{block_ends, next_label};
pub use listing::{function_place, rewrite};
pub use spirv_model::{Inst, Items};
pub use spv_check::Module;
pub use std::alloc::AllocError as Memory;
