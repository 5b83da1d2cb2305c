//! Modules as text: the listing of a module, and what assembling a listing is, as definitions.
#![tactic(auto)]

mod fault;

pub use fault::{LISTING_BYTES, ListFault, TextCause, TextFault};
