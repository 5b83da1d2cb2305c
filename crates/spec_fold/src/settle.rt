//! The list with constants for the specialization constants (SPIR-V specification, sections 2.12 "Specialization" and
//! 3.49.7 "Constant-Creation Instructions").
ghost use Rattle.std.specs.Prelude.{◌≡◌, ◌+◌, ◌<◌, ◌++◌, length, IfOk, OnOk};
ghost use Rattle.change_model.specs.Constants as spec;
ghost use Rattle.spec_fold.specs.Settles.{IsSettledBefore, Notes, pushed_for, settled_with};

use crate::given::scalar_given;
use id_table::IdTable;
use scalar_model::Scalar;
use spirv_model::{Inst, Items, decoration, op};
use spv_check::Module;
use spv_rewrite::{inst_at, inst_with, scalar_constant};
use state_model::SpecValues;
use std::alloc::{AllocError, Global};

/// The module's list with constants for its specialization constants, with the values that these entries give them, and without
/// the numbers by which they are set. The time is linear in the words of the module.
#[tactic(auto, unfolding(change_model::specs::Constants::constants))]
pub fn settled(alloc: Global, of: &Module, values: &SpecValues) -> Result<Items<Inst>, AllocError>
    ensures { IfOk result (λ list. list ≡ spec.constants values.now of.now.insts) }
{
    let count = of.insts().len();
    let mut list = Items::new(alloc);
    let mut scalars = IdTable::new(alloc, of.bound(), count)?;
    for place in 0..count {
        step(alloc, of, values, place, &mut list, &mut scalars)?;
    }
    Ok(list)
}

/// Goes over the instruction at a place.
fn step(
    alloc: Global,
    of: &Module,
    values: &SpecValues,
    place: usize,
    list: &mut Items<Inst>,
    scalars: &mut IdTable<Scalar>,
) -> Result<(), AllocError>
    requires within { place < length of.now.insts }
    requires before { IsSettledBefore values.now of.now.insts place scalars.old list.old }
    ensures { OnOk result
        (IsSettledBefore values.now of.now.insts (place + 1) scalars.new list.new) }
{
    let inst = inst_at(of.insts(), place);
    let scalar = scalar_given(of, values, scalars, inst);
    push_settled(alloc, list, inst, scalar)?;
    note(scalars, inst.word(1), scalar)
}

/// From now on an id is this scalar, if it is one.
fn note(scalars: &mut IdTable<Scalar>, id: u32, scalar: Option<Scalar>) -> Result<(), AllocError>
    ensures { OnOk result (Notes id scalar scalars.old scalars.new) }
{
    match scalar {
        Some(scalar) => scalars.insert(id, scalar),
        None => Ok(()),
    }
}

/// Pushes what stands for an instruction that gives its result this scalar.
fn push_settled(
    alloc: Global,
    list: &mut Items<Inst>,
    inst: &Inst,
    scalar: Option<Scalar>,
) -> Result<(), AllocError>
    ensures { OnOk result (list.new ≡ list.old ++ pushed_for scalar inst.now) }
{
    if is_spec_id(inst) {
        return Ok(());
    }
    let settled = settled_with(alloc, inst, scalar)?;
    list.push(settled)
}

/// What stands for an instruction that gives its result this scalar.
fn settled_with(alloc: Global, inst: &Inst, scalar: Option<Scalar>) -> Result<Inst, AllocError>
    ensures { IfOk result (λ settled. settled ≡ settled_with scalar inst.now) }
{
    if inst.op == op::SPEC_CONSTANT_COMPOSITE {
        return inst_with(alloc, op::CONSTANT_COMPOSITE, inst.words.as_slice());
    }
    match scalar {
        Some(scalar) if is_spec_scalar(inst.op) => {
            scalar_constant(alloc, inst.word(0), inst.word(1), scalar)
        }
        _ => inst_with(alloc, inst.op, inst.words.as_slice()),
    }
}

/// Whether an instruction gives a specialization constant its number.
fn is_spec_id(inst: &Inst) -> bool
    ensures { result ≡ spec.is_spec_id inst.now }
{
    inst.op == op::DECORATE && inst.word(1) == decoration::SPEC_ID
}

/// Whether an instruction makes a specialization constant that is a scalar.
fn is_spec_scalar(op: u16) -> bool
    ensures { result ≡ spec.is_spec_scalar op }
{
    matches!(
        op,
        op::SPEC_CONSTANT_TRUE | op::SPEC_CONSTANT_FALSE | op::SPEC_CONSTANT | op::SPEC_CONSTANT_OP
    )
}
