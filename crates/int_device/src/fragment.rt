use limits::{COMPONENTS, LOCATIONS};

/// One pixel of a layer that a primitive covers, with the primitive's depth, facing and outputs.
#[derive(Debug, Drop)]
pub struct Fragment<'a> {
    /// The layer's number, below 4.
    pub layer: u8,
    /// In pixels, below 256.
    pub x: u32,
    /// In pixels, below 256.
    pub y: u32,
    /// The primitive's.
    pub depth: u32,
    /// Whether the primitive is front-facing.
    pub front: bool,
    /// By location.
    pub slots: &'a [[u32; COMPONENTS]; LOCATIONS],
}
