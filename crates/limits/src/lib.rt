//! The limits and widths that more than one crate speaks of, each once. Code and definitions both read them here, and
//! `proofs/Numbers.antt` holds each of them as a plain number.
#![tactic(auto)]

/// 64-bit words of a pipeline's key.
pub const KEY_WORDS: usize = 56;

/// Locations of a stage's inputs or outputs, and so vertex attributes.
pub const LOCATIONS: usize = 8;
/// Components of one location.
pub const COMPONENTS: usize = 4;
/// Vertex buffer bindings of a state.
pub const VERTEX_BINDINGS: usize = 4;
/// Descriptor sets of a pipeline layout.
pub const DESCRIPTOR_SETS: usize = 4;
/// Bindings of one descriptor set.
pub const DESCRIPTOR_BINDINGS: usize = 8;
/// 32-bit words of push constants.
pub const PUSH_WORDS: u8 = 32;
/// Specialization entries of one stage.
pub const ENTRIES: usize = 16;
/// Colour attachments of a state.
pub const ATTACHMENTS: usize = 8;
/// The greatest stride of a vertex binding, in 32-bit words.
pub const MAX_STRIDE: u32 = 1024;
/// The greatest offset of an attribute, in 32-bit words.
pub const MAX_OFFSET: u32 = 1023;

/// Shader modules of a trace, and so the bound on a module's number.
pub const MODULES: u32 = 64;
/// Bytes of a trace.
pub const TRACE_BYTES: usize = 16_777_216;

/// 32-bit words of a module.
pub const MODULE_WORDS: usize = 16_384;
/// The greatest id bound of a module.
pub const MAX_BOUND: u32 = 65_536;
/// 32-bit words of one type.
pub const TYPE_WORDS: u32 = 4_096;
/// Selections and loops that may be open at once.
pub const NESTING: u32 = 64;
/// Loop back edges that end an invocation as lost.
pub const BACK_EDGES: u32 = 4_096;

/// The width and the height of a target, in pixels, at most.
pub const MAX_SIDE: u32 = 256;
/// Steps of a position's x and y in one pixel.
pub const SUBPIXELS: u32 = 256;
/// The guard band: a primitive is dropped where a corner's x or y is above this or below its negative, in 1/256 pixel.
pub const GUARD_BAND: u32 = 1_048_576;
