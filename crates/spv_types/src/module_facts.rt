//! What a whole module says, as far as the rules of decorations ask.
ghost use Rattle.std.specs.Prelude.{◌≡◌};
ghost use Rattle.spirv_model.specs.Operands.{class_of};
ghost use Rattle.valid_model.specs.ModuleFacts as spec;
ghost use Rattle.spv_types.specs.FactsIn.{facts_in};

use crate::decoration_words::Decorations;
use crate::definitions::Places;
use crate::knowledge::Table;
use spirv_model::class::Class;
use spirv_model::{Inst, builtin, decoration, execution_model, op};
use spv_words::class_of;

/// The tables of a module's ids, and its first entry point's execution model.
#[derive(Debug, Drop)]
pub struct ModuleTables<'a> {
    pub decorations: &'a Decorations,
    pub known: &'a Table,
    pub places: &'a Places,
    pub insts: &'a [Inst],
    pub model: Option<u32>,
}

/// The word of an id's decoration.
pub fn decoration_of(whole: &ModuleTables, id: u32, decoration: u32) -> Option<u32>
    ensures { result ≡ (facts_in whole.now).decoration id decoration }
{
    whole
        .decorations
        .words
        .get(&(id, decoration as usize))
        .copied()
}

/// Whether the id has this decoration.
pub fn is_decorated(whole: &ModuleTables, id: u32, decoration: u32) -> bool
    ensures { result ≡ spec.is_decorated (facts_in whole.now) id decoration }
{
    decoration_of(whole, id, decoration).is_some()
}

/// The offset of a structure's member.
pub fn offset_of(whole: &ModuleTables, id: u32, member: usize) -> Option<u32>
    ensures { result ≡ (facts_in whole.now).offset id member }
{
    whole.decorations.offsets.get(&(id, member)).copied()
}

fn opcode_at(insts: &[Inst], place: usize) -> u16
    ensures { result ≡ spec.opcode_at insts.now place }
{
    match insts.get(place) {
        Some(inst) => inst.op,
        None => op::NOP,
    }
}

fn is_spec_op(opcode: u16) -> bool
    ensures { result ≡ spec.is_spec_class (class_of opcode) }
{
    matches!(class_of(opcode), Some(Class::SpecConstant))
}

/// Whether the id is a specialization constant of its own.
pub fn is_spec_constant(whole: &ModuleTables, id: u32) -> bool
    ensures { result ≡ spec.is_spec_op ((facts_in whole.now).opcode id) }
{
    match whole.places.get(id) {
        Some(place) => is_spec_op(opcode_at(whole.insts, *place as usize)),
        None => false,
    }
}

/// Whether the first entry point is that of a vertex shader.
pub fn is_vertex(whole: &ModuleTables) -> bool
    ensures { result ≡ spec.is_vertex (facts_in whole.now) }
{
    whole.model == Some(execution_model::VERTEX)
}

/// Whether the id has the built-in Position.
pub fn has_position(whole: &ModuleTables, id: u32) -> bool
    ensures { result ≡ spec.has_position (facts_in whole.now) id }
{
    decoration_of(whole, id, decoration::BUILT_IN) == Some(builtin::POSITION)
}

/// The execution model of the first entry point.
#[tactic(auto, unfolding(valid_model::specs::ModuleFacts::model_of))]
pub fn model_of(insts: &[Inst]) -> Option<u32>
    ensures { result ≡ spec.model_of insts.now }
{
    let entry = insts.iter().find(|inst| inst.op == op::ENTRY_POINT)?;
    Some(entry.word(0))
}
