//! The constants of the module's level that results become (SPIR-V specification, section 3.49.7 "Constant-Creation
//! Instructions").
ghost use Rattle.std.specs.Prelude.{◌≡◌, ◌++◌, Some, IfOk, OnOk};
ghost use Rattle.stage_model.specs.Start.{of_scalar};
ghost use Rattle.change_model.specs.Constants as spec;
ghost use Rattle.change_model.specs.Plans.{constant_as};

use change_model::Fate;
use scalar_model::Scalar;
use spirv_model::{Inst, Items, op};
use std::alloc::{AllocError, Global};

/// Pushes the constant that stands for the result of an instruction with this fate, if one does.
pub fn push_constant(
    alloc: Global,
    list: &mut Items<Inst>,
    inst: &Inst,
    fate: Fate,
) -> Result<(), AllocError>
    ensures { OnOk result (list.new ≡ list.old ++ constant_as inst.now fate) }
{
    match fate {
        Fate::Folds(scalar) => {
            let constant = scalar_constant(alloc, inst.word(0), inst.word(1), scalar)?;
            list.push(constant)
        }
        Fate::Nulls => {
            let null = inst_with(alloc, op::CONSTANT_NULL, &[inst.word(0), inst.word(1)])?;
            list.push(null)
        }
        _ => Ok(()),
    }
}

/// The constant of a type with an id that is this scalar.
pub fn scalar_constant(alloc: Global, ty: u32, id: u32, scalar: Scalar) -> Result<Inst, AllocError>
    ensures { IfOk result (λ inst. spec.scalar_constant ty id (Some (of_scalar scalar))
        ≡ Some inst) }
{
    match scalar {
        Scalar::Bool(true) => inst_with(alloc, op::CONSTANT_TRUE, &[ty, id]),
        Scalar::Bool(false) => inst_with(alloc, op::CONSTANT_FALSE, &[ty, id]),
        Scalar::Word(word) => inst_with(alloc, op::CONSTANT, &[ty, id, word]),
    }
}

/// An instruction with this opcode and these words.
pub fn inst_with(alloc: Global, op: u16, words: &[u32]) -> Result<Inst, AllocError>
    ensures { IfOk result (λ inst. inst ≡ record { op = op; words = words.now }) }
{
    let words = Items::from_slice(alloc, words)?;
    Ok(Inst { op, words })
}
