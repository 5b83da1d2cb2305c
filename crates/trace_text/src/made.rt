//! What the lines so far have made.
ghost use Rattle.std.specs.Prelude.{◌≡◌};
ghost use Rattle.trace_model.specs.LinesBefore.{nothing_before};
ghost use Rattle.trace_text.specs.Taking.{before_of};

use crate::few::Few;
use crate::kept_steps::KeptSteps;
use crate::kept_targets::KeptTargets;
use spv_check::Module;
use sqlite_items::Items;
use state_model::Layout;
use std::alloc::Global;
use trace_model::whole::Library;

/// The objects of a trace, each kind by number, and what its recorders record.
#[derive(Drop)]
pub struct Made {
    pub layouts: Few<Layout>,
    pub modules: Few<Module>,
    pub buffers: Few<Items<u32>>,
    pub libs: Few<Library>,
    pub pipes: Few<Items<u16>>,
    pub targets: KeptTargets,
    pub steps: KeptSteps,
}

impl Made {
    /// Nothing yet.
    pub fn new(alloc: Global) -> Made
        ensures { before_of result ≡ nothing_before }
    {
        Made {
            layouts: Few::new(alloc),
            modules: Few::new(alloc),
            buffers: Few::new(alloc),
            libs: Few::new(alloc),
            pipes: Few::new(alloc),
            targets: KeptTargets::new(alloc),
            steps: KeptSteps::new(alloc),
        }
    }
}
