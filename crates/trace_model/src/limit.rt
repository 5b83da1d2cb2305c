//! How much a trace may hold. `proofs/TraceLimits.antt` holds each of these as a plain number. The number of modules and the
//! bytes of a trace stand in `limits`.

/// Buffers of a trace.
pub const BUFFERS: usize = 64;
/// 32-bit words of one buffer.
pub const BUFFER_WORDS: usize = 65_536;
/// Pipeline layouts of a trace.
pub const LAYOUTS: usize = 64;
/// Libraries of a trace, the four kinds together.
pub const LIBRARIES: usize = 256;
/// Pipes of a trace.
pub const PIPES: usize = 256;
/// Libraries that one pipe names.
pub const PIPE_LIBRARIES: usize = 8;
/// Targets of a trace.
pub const TARGETS: usize = 32;
/// 32-bit words of all targets together.
pub const TARGET_WORDS: usize = 1_048_576;
/// Draws of a trace.
pub const DRAWS: usize = 4_096;
/// Recorders of a trace.
pub const RECORDERS: usize = 4;
/// Colour attachments in a trace of version 1.
pub const FIRST_ATTACHMENTS: usize = 4;
/// Specialization entries of one stage in a trace of version 1.
pub const FIRST_ENTRIES: usize = 4;
