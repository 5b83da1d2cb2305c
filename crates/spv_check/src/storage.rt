//! Where variables stand and what is written (SPIR-V specification, section 3.7 "Storage Class").
ghost use Rattle.std.specs.Prelude.{◌≡◌};
ghost use Rattle.check_model.specs.Storage as spec;
ghost use Rattle.check_model.specs.Typing.{type_of};
ghost use Rattle.spv_check.specs.TypingIn.{typing_in};

use crate::typing::{ModuleIds, type_id};
use spirv_model::{Inst, op, storage_class};
use spv_types::{Meaning, Shape};

/// Whether variables of this class are only read.
fn is_read_only(class: u8) -> bool
    ensures { result ≡ spec.is_read_only class }
{
    let class = u32::from(class);
    class == storage_class::INPUT
        || class == storage_class::UNIFORM
        || class == storage_class::PUSH_CONSTANT
}

fn points_to_read_only(meaning: &Meaning) -> bool
    ensures { result ≡ spec.points_to_read_only meaning.now }
{
    match meaning {
        Meaning::Shape(Shape::Pointer { class, .. }) => is_read_only(*class),
        _ => false,
    }
}

/// Whether the id is a pointer to what is only read.
fn is_for_reading(typing: &ModuleIds, id: u32) -> bool
    ensures { result ≡ spec.points_to_read_only (type_of (typing_in typing.now) id) }
{
    match type_id(typing.ids.at(id)) {
        Some(ty) => points_to_read_only(typing.ids.at(ty)),
        None => false,
    }
}

/// Whether the instruction, in the function or outside it, stores to what is only read, or is a variable of a storage class
/// that can't stand there.
#[tactic(auto, unfolding(check_model::specs::Storage::is_wrong_storage))]
pub fn is_wrong_storage(typing: &ModuleIds, in_function: bool, inst: &Inst) -> bool
    ensures { result ≡ spec.is_wrong_storage (typing_in typing.now) in_function inst.now }
{
    match inst.op {
        op::STORE => is_for_reading(typing, inst.word(0)),
        op::VARIABLE => in_function != (inst.word(2) == storage_class::FUNCTION),
        _ => false,
    }
}
