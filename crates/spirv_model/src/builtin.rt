//! Built-ins by SPIR-V's names (SPIR-V specification, section 3.21 "BuiltIn").

pub const POSITION: u32 = 0;

pub const FRAG_COORD: u32 = 15;

pub const FRONT_FACING: u32 = 17;

pub const VERTEX_INDEX: u32 = 42;

pub const INSTANCE_INDEX: u32 = 43;
