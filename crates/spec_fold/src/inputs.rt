//! Inputs that are zeros.
ghost use Rattle.std.specs.Prelude.{◌≡◌};
ghost use Rattle.body_model.specs.Switches as switches;
ghost use Rattle.change_model.specs.PlanRules as rules;

use crate::scalars::{definition_of, meaning_of};
use spirv_model::{op, storage_class};
use spv_check::Module;
use spv_rewrite::inst_at;
use valid_model::Meaning;

/// The variable that an id leads to: it is a chain from it, or the variable itself.
#[tactic(auto, unfolding(change_model::specs::PlanRules::root_of))]
pub fn root_of(of: &Module, id: u32) -> u32
    ensures { result ≡ rules.root_of of.now.insts id }
{
    let Some(place) = definition_of(of, id) else {
        return id;
    };
    let inst = inst_at(of.insts(), place as usize);
    if inst.op == op::ACCESS_CHAIN {
        return inst.word(2);
    }
    id
}

/// Whether an id is an input variable at one of these locations (SPIR-V specification, sections 3.7 "Storage Class" and
/// 3.20 "Decoration").
pub fn is_zero_input(of: &Module, zeros: &[u32], id: u32) -> bool
    ensures { result ≡ rules.is_zero_input of.now.insts zeros.now id }
{
    is_input(meaning_of(of, id))
        && of.ids().built_in(id).is_none()
        && is_among_locations(zeros, of.ids().location(id))
}

fn is_input(meaning: &Meaning) -> bool
    ensures { result ≡ rules.is_input_of meaning.now }
{
    match meaning {
        Meaning::Variable { class, .. } => u32::from(*class) == storage_class::INPUT,
        _ => false,
    }
}

fn is_among_locations(zeros: &[u32], location: Option<u32>) -> bool
    ensures { result ≡ rules.is_among_locations zeros.now location }
{
    match location {
        Some(location) => is_among(location, zeros),
        None => false,
    }
}

fn is_among(word: u32, words: &[u32]) -> bool
    ensures { result ≡ switches.is_among word words.now }
{
    words.contains(&word)
}
