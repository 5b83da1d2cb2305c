//! How a module may be changed: what a change keeps, how two machines follow one another, and single changes with their laws.
#![tactic(auto)]

mod fate;

pub use fate::Fate;
