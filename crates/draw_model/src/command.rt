use limits::{
    ATTACHMENTS, COMPONENTS, DESCRIPTOR_BINDINGS, DESCRIPTOR_SETS, PUSH_WORDS, VERTEX_BINDINGS,
};

/// Vertices times instances of one draw, at most.
pub const DRAW_VERTICES: u32 = 65_536;

/// What is set before a draw and is no part of the pipeline's state.
#[derive(Debug, Drop)]
pub struct Dynamic {
    /// The push constants.
    pub push: [u32; PUSH_WORDS as usize],
    /// By vertex binding, the number of the buffer that is bound there.
    pub vertex: [Option<u16>; VERTEX_BINDINGS],
    /// By set and binding, the number of the buffer that is bound there.
    pub uniforms: [[Option<u16>; DESCRIPTOR_BINDINGS]; DESCRIPTOR_SETS],
    /// The scissor's left side, upper side, width and height, in pixels; the sides end at 256 at most.
    pub scissor: [u32; COMPONENTS],
    /// By location, the number of the target that is bound there.
    pub colour: [Option<u16>; ATTACHMENTS],
    /// The number of the target that is bound for depth.
    pub depth: Option<u16>,
}

/// Which vertices of which instances are drawn (Vulkan specification, "Programmable Primitive Shading", `vkCmdDraw`). The
/// product of both counts is at most `DRAW_VERTICES`.
#[derive(Clone, Copy, Debug, Drop, PartialEq, Eq)]
pub struct DrawCall {
    /// The VertexIndex of the first vertex.
    pub first_vertex: u32,
    /// How many vertices each instance has.
    pub vertices: u32,
    /// The InstanceIndex of the first instance.
    pub first_instance: u32,
    /// How many instances there are.
    pub instances: u32,
}
