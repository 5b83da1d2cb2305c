//! Execution models by SPIR-V's names (SPIR-V specification, section 3.3 "Execution Model").

pub const VERTEX: u32 = 0;

pub const FRAGMENT: u32 = 4;
