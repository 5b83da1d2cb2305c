use limits::{COMPONENTS, DESCRIPTOR_BINDINGS, DESCRIPTOR_SETS, LOCATIONS, PUSH_WORDS};

/// What a shader invocation reads.
#[derive(Debug, Drop)]
pub struct Inputs {
    /// By location, four words; an input with fewer components takes the first ones.
    pub slots: [[u32; COMPONENTS]; LOCATIONS],
    /// The built-in VertexIndex.
    pub vertex_index: u32,
    /// The built-in InstanceIndex.
    pub instance_index: u32,
    /// The built-in FragCoord.
    pub frag_coord: [u32; COMPONENTS],
    /// The built-in FrontFacing.
    pub front: bool,
    /// The push constants.
    pub push: [u32; PUSH_WORDS as usize],
    /// By set and binding, the number of the buffer that is bound there.
    pub uniforms: [[Option<u16>; DESCRIPTOR_BINDINGS]; DESCRIPTOR_SETS],
}
