use limits::{COMPONENTS, LOCATIONS};

/// How an invocation ended.
#[derive(Clone, Copy, Debug, Drop, PartialEq, Eq)]
pub enum Kind {
    /// It returned.
    Done,
    /// It was discarded by OpKill.
    Killed,
    /// It took too many back edges.
    Lost,
}

/// What a shader invocation leaves. Where it isn't `Done`, the position and all slots are zeros.
#[derive(Debug, Drop)]
pub struct Ended {
    pub kind: Kind,
    /// The words of the output variable with the built-in Position; zeros without one.
    pub position: [u32; COMPONENTS],
    /// By location, the words of the output variable there; zeros where there is none, and in the components that it lacks.
    pub slots: [[u32; COMPONENTS]; LOCATIONS],
    /// How many instructions were run.
    pub work: u64,
}
