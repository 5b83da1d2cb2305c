use stage_model::Kind;

/// Where an invocation stands.
#[derive(Clone, Copy, Debug, Drop, PartialEq, Eq)]
pub struct Stand {
    /// The place of the next instruction.
    pub place: usize,
    /// The block that runs.
    pub label: u32,
    /// The block before it.
    pub before: u32,
    /// The back edges that were taken.
    pub back_edges: u32,
    /// The instructions that were run.
    pub work: u64,
}

/// How an invocation ended, and how many instructions were run.
#[derive(Clone, Copy, Debug, Drop, PartialEq, Eq)]
pub struct End {
    pub kind: Kind,
    pub work: u64,
}
