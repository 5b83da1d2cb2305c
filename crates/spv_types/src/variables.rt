//! Which variables are allowed by their decorations.
ghost use Rattle.std.specs.Prelude.{◌≡◌};
ghost use Rattle.valid_model.specs.Variables as spec;
ghost use Rattle.spv_types.specs.FactsIn.{facts_in, before_in};

use crate::blocks::points_to_block;
use crate::earlier_facts::EarlierTables;
use crate::module_facts::{ModuleTables, decoration_of, has_position, is_decorated};
use crate::shapes::holds_integers;
use spirv_model::{decoration, storage_class};

fn bad_interface(whole: &ModuleTables, id: u32, class: u32) -> bool
    ensures { result ≡ spec.bad_interface (facts_in whole.now) id class }
{
    (class == storage_class::INPUT || class == storage_class::OUTPUT)
        && is_decorated(whole, id, decoration::LOCATION)
            == is_decorated(whole, id, decoration::BUILT_IN)
}

fn bad_location(whole: &ModuleTables, id: u32, ty: u32) -> bool
    ensures { result ≡ spec.bad_location (facts_in whole.now) id ty }
{
    is_decorated(whole, id, decoration::LOCATION) && !holds_integers(whole, ty)
}

fn bad_slot(seen: &EarlierTables, set: Option<u32>, binding: Option<u32>) -> bool
    ensures { result ≡ spec.bad_slot (before_in seen.now) set binding }
{
    match (set, binding) {
        (Some(set), Some(binding)) => seen.slots.contains(&(set, binding)),
        _ => true,
    }
}

fn bad_uniform(whole: &ModuleTables, seen: &EarlierTables, ty: u32, id: u32, class: u32) -> bool
    ensures { result ≡ spec.bad_uniform (facts_in whole.now) (before_in seen.now) ty id class }
{
    let set = decoration_of(whole, id, decoration::DESCRIPTOR_SET);
    let binding = decoration_of(whole, id, decoration::BINDING);
    class == storage_class::UNIFORM && (bad_slot(seen, set, binding) || !points_to_block(whole, ty))
}

fn bad_push(whole: &ModuleTables, seen: &EarlierTables, ty: u32, class: u32) -> bool
    ensures { result ≡ spec.bad_push (facts_in whole.now) (before_in seen.now) ty class }
{
    class == storage_class::PUSH_CONSTANT && (seen.push || !points_to_block(whole, ty))
}

fn second_position(whole: &ModuleTables, seen: &EarlierTables, id: u32) -> bool
    ensures { result ≡ spec.second_position (facts_in whole.now) (before_in seen.now) id }
{
    has_position(whole, id) && seen.position
}

/// Whether OpVariable mustn't have this type, id and class.
#[tactic(auto, unfolding(valid_model::specs::Variables::bad_variable))]
pub fn bad_variable(
    whole: &ModuleTables,
    seen: &EarlierTables,
    ty: u32,
    id: u32,
    class: u32,
) -> bool
    ensures { result ≡ spec.bad_variable (facts_in whole.now) (before_in seen.now) ty id class }
{
    bad_interface(whole, id, class)
        || bad_location(whole, id, ty)
        || bad_uniform(whole, seen, ty, id, class)
        || bad_push(whole, seen, ty, class)
        || second_position(whole, seen, id)
}
