use limits::{COMPONENTS, LOCATIONS};
use state_model::Topology;

/// A primitive that is rasterized.
#[derive(Debug, Drop)]
pub struct Primitive {
    /// What it is.
    pub topology: Topology,
    /// The positions of its vertices; a point's stands three times.
    pub corners: [[u32; COMPONENTS]; 3],
    /// Whether it is front-facing.
    pub front: bool,
    /// The outputs of its first vertex, by location.
    pub slots: [[u32; COMPONENTS]; LOCATIONS],
}
