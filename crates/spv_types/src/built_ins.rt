//! Which variables take a built-in (SPIR-V specification, section 3.21 "BuiltIn").
ghost use Rattle.std.specs.Prelude.{◌≡◌};
ghost use Rattle.valid_model.specs.BuiltIns as spec;
ghost use Rattle.spv_types.specs.FactsIn.{facts_in, id_meaning, variable_takes};

use crate::module_facts::{ModuleTables, is_vertex};
use crate::shapes::{holds_bool, holds_integer, holds_position};
use spirv_model::{builtin, storage_class};
use valid_model::{IdFacts, Meaning};

fn is_built_in(whole: &ModuleTables, number: u32, class: u32, ty: u32) -> bool
    ensures { result ≡ variable_takes whole.now number class ty }
{
    let vertex = is_vertex(whole);
    match number {
        builtin::VERTEX_INDEX | builtin::INSTANCE_INDEX => {
            vertex && class == storage_class::INPUT && holds_integer(whole, ty)
        }
        builtin::POSITION => vertex && class == storage_class::OUTPUT && holds_position(whole, ty),
        builtin::FRAG_COORD => !vertex
            && class == storage_class::INPUT
            && holds_position(whole, ty),
        builtin::FRONT_FACING => !vertex && class == storage_class::INPUT && holds_bool(whole, ty),
        _ => false,
    }
}

/// Whether the id is a variable that takes this built-in.
pub fn takes_built_in(whole: &ModuleTables, number: u32, id: u32) -> bool
    ensures { result ≡ spec.takes_built_in (facts_in whole.now) number (id_meaning whole.now id) }
{
    match whole.known.get(id) {
        Some(
            IdFacts {
                meaning: Meaning::Variable { ty, class },
                ..
            },
        ) => is_built_in(whole, number, u32::from(*class), *ty),
        _ => false,
    }
}
