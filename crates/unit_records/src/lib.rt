//! Records of modules: the words of a vertex module and of a fragment module, if there is one, behind how many they are.
#![tactic(auto)]

mod read;
mod write;

pub use read::{Unit, unit_of_record};
pub use spv_check::Module;
pub use std::alloc::AllocError as Memory;
pub use write::library_record;
