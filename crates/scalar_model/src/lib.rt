//! SPIR-V's scalar operations on 32-bit words and truth values, as definitions.
#![tactic(auto)]

mod scalar_value;

pub use scalar_value::Scalar;
