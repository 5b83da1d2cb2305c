//! Storage classes by SPIR-V's names (SPIR-V specification, section 3.7 "Storage Class").

pub const INPUT: u32 = 1;

pub const UNIFORM: u32 = 2;

pub const OUTPUT: u32 = 3;

pub const PRIVATE: u32 = 6;

pub const FUNCTION: u32 = 7;

pub const PUSH_CONSTANT: u32 = 9;
