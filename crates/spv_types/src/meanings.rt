//! What an instruction makes known of its result.
ghost use Rattle.std.specs.Prelude.{◌≡◌, IfOk};
ghost use Rattle.valid_model.specs.Meanings as spec;
ghost use Rattle.spv_types.specs.Tables.{in_table};

use crate::knowledge::{Table, is_storage_class, means};
use crate::types::{array_length, is_type, type_of};
use spirv_model::class::Class;
use spirv_model::{Inst, op};
use spv_words::class_of;
use std::alloc::{AllocError, Global};
use valid_model::{IdFacts, Meaning};

/// Whether an instruction with this opcode makes a constant or a specialization constant.
pub fn is_constant(opcode: u16) -> bool
    ensures { result ≡ spec.is_constant opcode }
{
    matches!(
        class_of(opcode),
        Some(Class::Constant | Class::SpecConstant | Class::SpecConstantResult)
    )
}

fn constant_known(table: &Table, opcode: u16, ty: u32, word: u32) -> IdFacts
    ensures { result ≡ spec.constant_known (in_table table.now) opcode ty word }
{
    let length = array_length(table, opcode, ty, word);
    IdFacts {
        meaning: Meaning::Constant { ty },
        size: 0,
        length,
    }
}

fn variable_meaning(ty: u32, class: u32) -> Meaning
    ensures { result ≡ spec.variable_meaning ty class }
{
    if is_storage_class(class) {
        let class = class as u8;
        Meaning::Variable { ty, class }
    } else {
        Meaning::Other
    }
}

fn other_meaning(opcode: u16, ty: u32) -> Meaning
    ensures { result ≡ spec.other_meaning opcode ty }
{
    match opcode {
        op::LABEL => Meaning::Label,
        op::FUNCTION | op::EXT_INST_IMPORT => Meaning::Other,
        _ => Meaning::Value { ty },
    }
}

/// What is known of the result of an instruction.
#[tactic(auto, unfolding(valid_model::specs::Meanings::known_of))]
pub fn known_of(alloc: Global, table: &Table, inst: &Inst) -> Result<IdFacts, AllocError>
    ensures { IfOk result (λ known. known ≡ spec.known_of (in_table table.now) inst.now) }
{
    if is_type(inst.op) {
        let made = type_of(alloc, table, inst)?;
        return Ok(made.unwrap_or(means(Meaning::Other)));
    }
    let ty = inst.word(0);
    if is_constant(inst.op) {
        return Ok(constant_known(table, inst.op, ty, inst.word(2)));
    }
    if inst.op == op::VARIABLE {
        return Ok(means(variable_meaning(ty, inst.word(2))));
    }
    Ok(means(other_meaning(inst.op, ty)))
}
