use limits::KEY_WORDS;

/// One draw that was served a pipeline.
#[derive(Clone, Copy, Debug, Drop, PartialEq, Eq)]
pub struct Serve {
    pub recorder: u8,
    /// The draw's number over the whole trace, from 0.
    pub draw: u32,
    /// The row of its instance.
    pub row: u32,
    pub key: [u64; KEY_WORDS],
    /// The optimised modules ran, and not those of the libraries.
    pub optimised: bool,
    /// How many instructions were run.
    pub work: u64,
}
