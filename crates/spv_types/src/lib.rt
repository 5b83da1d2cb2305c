//! The ids of a module: its types, its constants and what else ids mean.
#![tactic(auto)]

mod blocks;
mod built_ins;
mod constants;
mod decoration_words;
mod decorations;
mod definitions;
mod earlier_facts;
mod first_fault;
mod ids;
mod knowledge;
mod meanings;
mod module_facts;
mod operations;
mod pairs;
mod pass;
mod shapes;
mod types;
mod variables;

pub use ids::{Ids, ids_of};
pub use valid_model::{Meaning, Members, Shape, TypeFault};
