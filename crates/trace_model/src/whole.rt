use draw_model::DrawCall;
use draw_model::framebuffer::Target;
use limits::ATTACHMENTS;
use spirv_model::Words;
use sqlite_items::Items;
use state_model::{Buffers, FragmentPart, OutputPart, PrerastPart, VertexPart};

/// One pipeline library of a trace. The interfaces of its module follow from the module.
#[derive(Clone, Copy, Debug, Drop, PartialEq, Eq)]
pub enum Library {
    /// The vertex input interface.
    Vertex(VertexPart),
    /// The pre-rasterization shaders.
    Prerast(PrerastPart),
    /// The fragment shader.
    Fragment(FragmentPart),
    /// The fragment output interface.
    Output(OutputPart),
}

/// What one recorder records: something that its later draws are made with, or a draw.
#[derive(Debug, Drop)]
pub enum Step {
    /// These push constants, from the one with this number on.
    Push {
        at: u8,
        words: Items<u32>,
    },
    /// The buffer for a vertex binding, by its number, or none.
    Vbuf {
        slot: u8,
        buffer: Option<u16>,
    },
    /// The buffer for a binding of a descriptor set, by its number, or none.
    Ubuf {
        set: u8,
        binding: u8,
        buffer: Option<u16>,
    },
    /// The scissor's left side, upper side, width and height, in pixels.
    Scissor {
        rect: [u32; 4],
    },
    /// The targets by their numbers: one for each location, and the one for depth.
    Bind {
        colour: [Option<u16>; ATTACHMENTS],
        depth: Option<u16>,
    },
    /// A draw with a pipe, by its number.
    Draw {
        pipe: u16,
        call: DrawCall,
    },
}

/// A whole trace: the objects that its lines make, each kind by number, and what its recorders record. What a line of version
/// 1 has no place for is absent here, so both versions have the same traces.
#[derive(Debug, Drop)]
pub struct Trace {
    pub modules: Items<Words>,
    pub buffers: Buffers,
    /// The four kinds together.
    pub libs: Items<Library>,
    /// The numbers of the libraries that each pipe is linked from.
    pub pipes: Items<Items<u16>>,
    /// Each with the recorder whose it is, and as it is cleared.
    pub targets: Items<(u8, Target)>,
    /// Each with the recorder that records it, in the order of the lines.
    pub steps: Items<(u8, Step)>,
}

/// Which lines a trace may have, by its first line.
#[derive(Clone, Copy, Debug, Drop, PartialEq, Eq)]
pub enum Version {
    /// Four attachments, and four specialization entries for each stage.
    First,
    /// Eight attachments, and sixteen specialization entries for each stage.
    Second,
}
