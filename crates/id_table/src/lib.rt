//! Tables of values by id: a vector where the ids are dense, and an ordered map where they aren't.
#![tactic(auto)]

mod table;

pub use std::alloc::AllocError as Memory;
pub use table::IdTable;

#[cfg(test)]
mod tests;
