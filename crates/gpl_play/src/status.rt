//! How a run ended, as the program's exit status.

/// All text was written.
pub const DONE: u8 = 0;
/// The words aren't those of a call.
pub const USAGE: u8 = 1;
/// What was read is no trace.
pub const REFUSED: u8 = 2;
/// A read failed.
pub const READ_FAILED: u8 = 3;
/// A write failed.
pub const WRITE_FAILED: u8 = 4;
/// Memory ran out.
pub const NO_MEMORY: u8 = 5;
