//! Modules as text, both ways: the listing of a module's words, and the words that a listing is assembled to.
#![tactic(auto)]

mod fault_text;
mod fields;
mod line;
mod lines;
mod list;
mod names;
mod parts;

pub use fault_text::fault_line;
pub use lines::assemble;
pub use list::{list_text, push_module};
pub use listing_model::{LISTING_BYTES, ListFault, TextCause, TextFault};
pub use spirv_model::WordsFault;
