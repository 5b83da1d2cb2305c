use draw_model::framebuffer::Target;
use spv_check::Module;
use sqlite_items::Items;
use state_model::Buffers;
use std::marker::Model;
use trace_model::whole::{Library, Step};

/// A whole trace: the objects that its lines make, each kind by number, and what its recorders record. Its modules are kept as
/// they were checked. Contracts see the trace with each module as its instructions and its id bound.
#[derive(Drop)]
pub struct Trace {
    pub modules: Items<Module>,
    pub buffers: Buffers,
    /// The four kinds together.
    pub libs: Items<Library>,
    /// The numbers of the libraries that each pipe is linked from.
    pub pipes: Items<Items<u16>>,
    /// Each with the recorder whose it is, and as it is cleared.
    pub targets: Items<(u8, Target)>,
    /// Each with the recorder that records it, in the order of the lines.
    pub steps: Items<(u8, Step)>,
}

impl Model for Trace {
    ghost use Rattle.trace_model.specs.declared.whole.Trace as plain;

    ghost Value = { plain.Trace };

    ghost view = { λ t. record {
      modules = t.modules;
      buffers = t.buffers;
      libs = t.libs;
      pipes = t.pipes;
      targets = t.targets;
      steps = t.steps;
    } };
}
