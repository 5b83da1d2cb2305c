use sqlite_items::Items;

/// The format of a depth target: one signed 32-bit word. The colour formats are those of `state_model::format`.
pub const DEPTH_FORMAT: u8 = 9;
/// Layers of a target, at most.
pub const MAX_LAYERS: u8 = 4;

/// An image that draws write (Vulkan specification, "The Framebuffer").
#[derive(Debug, Drop)]
pub struct Target {
    /// A colour format of `state_model::format`, or `DEPTH_FORMAT`.
    pub format: u8,
    /// In pixels, 1 to 256.
    pub width: u32,
    /// In pixels, 1 to 256.
    pub height: u32,
    /// 1 to 4.
    pub layers: u8,
    /// Samples of each pixel: 1, 2 or 4.
    pub samples: u8,
    /// Layer by layer, row by row, pixel by pixel, sample by sample, the components of the format.
    pub words: Items<u32>,
}

/// The targets that a draw may write.
#[derive(Debug, Drop)]
pub struct Targets {
    /// By the targets' numbers.
    pub list: Items<Target>,
}
