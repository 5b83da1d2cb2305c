//! How many libraries of each subset there are.
ghost use Rattle.std.specs.Prelude.{◌≡◌, false};
ghost use Rattle.state_model.specs.Link.{lacks_subset, repeats_subset};
ghost use Rattle.link_rules.specs.Libs.{libraries};
ghost use Rattle.link_rules.specs.Single.{libraries_of_single};

use crate::Libs;
use crate::contents::SingleLibs;

#[tactic(auto, unfolding(state_model::specs::Link::lacks_subset))]
/// Whether a subset that the pipeline needs isn't given.
pub fn lacks_subset(libs: &Libs) -> bool
    ensures { result ≡ lacks_subset (libraries libs.now) }
{
    libs.vertex.is_empty()
        || libs.prerast.is_empty()
        || (!libs.prerast[0].part.discard && (libs.fragment.is_empty() || libs.output.is_empty()))
}

#[tactic(auto, unfolding(state_model::specs::Link::repeats_subset))]
/// Whether a subset is given more than once.
pub fn repeats_subset(libs: &Libs) -> bool
    ensures { result ≡ repeats_subset (libraries libs.now) }
{
    libs.vertex.len() > 1
        || libs.prerast.len() > 1
        || libs.fragment.len() > 1
        || libs.output.len() > 1
}

/// The one library of each subset.
#[tactic(auto, unfolding(state_model::specs::Link::lacks_subset, state_model::specs::Link::repeats_subset))]
pub fn single_of(libs: &Libs) -> SingleLibs
    requires lacks_none { lacks_subset (libraries libs.now) ≡ false }
    requires repeats_none { repeats_subset (libraries libs.now) ≡ false }
    ensures { libraries libs.now ≡ libraries_of_single result }
{
    SingleLibs {
        vertex: libs.vertex[0],
        prerast: libs.prerast[0],
        fragment: libs.fragment.first().copied(),
        output: libs.output.first().copied(),
    }
}
