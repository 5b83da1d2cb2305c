//! Which pipeline libraries link, and the state that they make.
#![tactic(auto)]

mod contents;
mod counts;

ghost use Rattle.std.specs.Prelude.{◌≡◌, Some};
ghost use Rattle.std.specs.Result.{result_err};
ghost use Rattle.state_model.specs.Lawful.{IsLawful};
ghost use Rattle.state_model.specs.Link.{failed_rule, Links, linked_state};

pub use fragment_lib::FragmentLib;
pub use output_lib::OutputLib;
pub use prerast_lib::PrerastLib;
pub use state_model::{Rule, State};
pub use vertex_lib::VertexLib;

/// The libraries that a pipeline is given, by subset.
#[derive(Debug, Drop)]
pub struct Libs {
    /// Vertex input interfaces.
    pub vertex: Vec<VertexLib>,
    /// Pre-rasterization shaders.
    pub prerast: Vec<PrerastLib>,
    /// Fragment shaders.
    pub fragment: Vec<FragmentLib>,
    /// Fragment output interfaces.
    pub output: Vec<OutputLib>,
}

ghost use Rattle.link_rules.specs.Libs.{libraries};
ghost use Rattle.link_rules.specs.Parts.{HoldsLawfulParts};

impl Libs {
    /// The state that linked libraries make: each subset's part.
    pub fn state(&self) -> State
        requires links { Links (libraries self.now) }
        requires parts { HoldsLawfulParts (libraries self.now) }
        ensures parts { linked_state (libraries self.now) ≡ Some result }
        ensures lawful { IsLawful result }
    {
        contents::state_of_single(&counts::single_of(self))
    }
}

/// Whether the libraries link, or the first rule, by number, that fails. L10 counts for an optimized link alone.
#[tactic(auto, unfolding(state_model::specs::Link::failed_rule, state_model::specs::Link::rule_if))]
pub fn link(libs: &Libs, optimise: bool) -> Result<(), Rule>
    ensures { result_err result ≡ failed_rule (libraries libs.now) optimise }
{
    if counts::lacks_subset(libs) {
        return Err(Rule::L1);
    }
    if counts::repeats_subset(libs) {
        return Err(Rule::L2);
    }
    contents::link_contents(&counts::single_of(libs), optimise)
}
