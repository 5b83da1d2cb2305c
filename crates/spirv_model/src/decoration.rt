//! Decorations by SPIR-V's names (SPIR-V specification, section 3.20 "Decoration").

pub const SPEC_ID: u32 = 1;

pub const BLOCK: u32 = 2;

pub const ARRAY_STRIDE: u32 = 6;

pub const BUILT_IN: u32 = 11;

pub const FLAT: u32 = 14;

pub const LOCATION: u32 = 30;

pub const BINDING: u32 = 33;

pub const DESCRIPTOR_SET: u32 = 34;

pub const OFFSET: u32 = 35;
