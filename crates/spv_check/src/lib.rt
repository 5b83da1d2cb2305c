//! The checker of modules: a module is accepted exactly where it is valid (SPIR-V specification, section 2.16 "Validation
//! Rules"), and else the first fault is answered.
#![tactic(auto)]

mod branches;
mod checks;
mod composite_operands;
mod copy;
mod entry_points;
mod hidden_ids;
mod interfaces;
mod list_faults;
mod memory_operands;
mod module;
mod operand_types;
mod scalar_operands;
mod sequence_limits;
mod spec_ids;
mod storage;
mod typing;
mod used_ids;
mod uses;
mod visibility;

pub use check_model::{CheckFault, Stage};
pub use checks::{check, check_list};
pub use copy::valid_module;
pub use module::Module;
pub use sequence_limits::limits_of;
