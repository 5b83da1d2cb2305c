use limits::{ATTACHMENTS, DESCRIPTOR_SETS, ENTRIES, LOCATIONS, VERTEX_BINDINGS};

/// `VkPrimitiveTopology`, point list or triangle list.
#[derive(Clone, Copy, Debug, PartialEq, Eq)]
pub enum Topology {
    /// `VK_PRIMITIVE_TOPOLOGY_POINT_LIST`.
    Points,
    /// `VK_PRIMITIVE_TOPOLOGY_TRIANGLE_LIST`.
    Triangles,
}

/// One vertex buffer binding: how far apart the vertices, or the instances, lie in it.
#[derive(Clone, Copy, Debug, PartialEq, Eq)]
pub struct VertexBinding {
    /// In 32-bit words, 0 to 1024.
    pub stride: u32,
    /// Whether it steps by instance and not by vertex (`VK_VERTEX_INPUT_RATE_INSTANCE`).
    pub per_instance: bool,
}

/// What one location of the vertex shader reads.
#[derive(Clone, Copy, Debug, PartialEq, Eq)]
pub struct Attribute {
    /// The vertex buffer binding, 0 to 3.
    pub binding: u8,
    /// Components, 1 to 4.
    pub comps: u8,
    /// Whether the components are signed.
    pub signed: bool,
    /// In 32-bit words, 0 to 1023.
    pub offset: u32,
}

/// A pipeline layout: push constants and descriptor sets.
#[derive(Clone, Copy, Debug, PartialEq, Eq)]
pub struct Layout {
    /// `VK_PIPELINE_LAYOUT_CREATE_INDEPENDENT_SETS_BIT_EXT`.
    pub independent: bool,
    /// 32-bit words of push constants, 0 to 32.
    pub push_words: u8,
    /// For each set that is defined, the mask of its bindings.
    pub sets: [Option<u8>; DESCRIPTOR_SETS],
}

/// A specialization constant's value.
#[derive(Clone, Copy, Debug, PartialEq, Eq)]
pub struct Entry {
    /// The `SpecId`.
    pub id: u32,
    /// The constant's 32 bits.
    pub value: u32,
}

/// The specialization constants of one stage.
#[derive(Clone, Copy, Debug, PartialEq, Eq)]
pub struct SpecValues {
    /// No two with one id.
    pub entries: [Option<Entry>; ENTRIES],
}

/// The depth test.
#[derive(Clone, Copy, Debug, PartialEq, Eq)]
pub struct Depth {
    /// One of the `COMPARE_OP`s of `vulkan`.
    pub compare: u8,
    /// Whether a depth that passes is stored (`depthWriteEnable`).
    pub write: bool,
}

/// The multisample state.
#[derive(Clone, Copy, Debug, PartialEq, Eq)]
pub struct Multisample {
    /// One of the `SAMPLE_COUNT`s of `vulkan`.
    pub samples: u8,
    /// Bit i for sample i; below 2 to the number of samples.
    pub mask: u8,
}

/// One colour attachment.
#[derive(Clone, Copy, Debug, PartialEq, Eq)]
pub struct Attachment {
    /// One of the `FORMAT`s of `format`.
    pub format: u8,
    /// Bit i for component i; below 2 to the number of components.
    pub write_mask: u8,
}

/// The vertex input interface (`VK_GRAPHICS_PIPELINE_LIBRARY_VERTEX_INPUT_INTERFACE_BIT_EXT`).
#[derive(Clone, Copy, Debug, PartialEq, Eq)]
pub struct VertexPart {
    /// Whether link time optimization information is retained.
    pub retain: bool,
    /// How vertices make primitives.
    pub topology: Topology,
    /// By the bindings' numbers.
    pub bindings: [Option<VertexBinding>; VERTEX_BINDINGS],
    /// By location.
    pub attributes: [Option<Attribute>; LOCATIONS],
}

/// The pre-rasterization shaders (`VK_GRAPHICS_PIPELINE_LIBRARY_PRE_RASTERIZATION_SHADERS_BIT_EXT`).
#[derive(Clone, Copy, Debug, PartialEq, Eq)]
pub struct PrerastPart {
    /// Whether link time optimization information is retained.
    pub retain: bool,
    /// The vertex module's number, below 64.
    pub module: u32,
    /// What the shader's descriptors and push constants are declared as.
    pub layout: Layout,
    /// Bit i for view i, below 16.
    pub view_mask: u8,
    /// `rasterizerDiscardEnable`.
    pub discard: bool,
    /// One of the `CULL_MODE`s of `vulkan`.
    pub cull: u8,
    /// Whether counter-clockwise triangles are front-facing.
    pub ccw: bool,
    /// The values of the module's specialization constants.
    pub entries: SpecValues,
}

/// The fragment shader (`VK_GRAPHICS_PIPELINE_LIBRARY_FRAGMENT_SHADER_BIT_EXT`).
#[derive(Clone, Copy, Debug, PartialEq, Eq)]
pub struct FragmentPart {
    /// Whether link time optimization information is retained.
    pub retain: bool,
    /// The fragment module's number, below 64.
    pub module: u32,
    /// What the shader's descriptors and push constants are declared as.
    pub layout: Layout,
    /// Bit i for view i, below 16.
    pub view_mask: u8,
    /// The depth test, where it is enabled.
    pub depth: Option<Depth>,
    /// Where it is there, that of the fragment output interface.
    pub multisample: Option<Multisample>,
    /// The values of the module's specialization constants.
    pub entries: SpecValues,
}

/// The fragment output interface (`VK_GRAPHICS_PIPELINE_LIBRARY_FRAGMENT_OUTPUT_INTERFACE_BIT_EXT`).
#[derive(Clone, Copy, Debug, PartialEq, Eq)]
pub struct OutputPart {
    /// Whether link time optimization information is retained.
    pub retain: bool,
    /// Bit i for view i, below 16.
    pub view_mask: u8,
    /// The samples of each pixel, and which of them are written.
    pub multisample: Multisample,
    /// One of the `LOGIC_OP`s of `vulkan`, where logic operations are enabled.
    pub logic: Option<u8>,
    /// By location.
    pub attachments: [Option<Attachment>; ATTACHMENTS],
}

/// The whole state of a graphics pipeline.
#[derive(Clone, Copy, Debug, PartialEq, Eq)]
pub struct State {
    /// Which vertices there are, and what they read.
    pub vertex: VertexPart,
    /// The vertex shader and rasterization.
    pub prerast: PrerastPart,
    /// Where rasterization isn't discarded.
    pub fragment: Option<FragmentPart>,
    /// Where rasterization isn't discarded.
    pub output: Option<OutputPart>,
}
