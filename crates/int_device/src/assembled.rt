use limits::{COMPONENTS, LOCATIONS};

/// What the vertices of a primitive leave.
#[derive(Debug, Drop)]
pub struct Assembled {
    /// Whether no vertex was lost.
    pub whole: bool,
    /// The positions of the vertices; a point's stands three times.
    pub corners: [[u32; COMPONENTS]; 3],
    /// The outputs of the first vertex, by location.
    pub slots: [[u32; COMPONENTS]; LOCATIONS],
    /// The steps of all its invocations.
    pub work: u64,
}
