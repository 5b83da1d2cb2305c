//! Which types the operands of an instruction have.
ghost use Rattle.std.specs.Prelude.{◌≡◌, ◌&&◌, not};
ghost use Rattle.std.specs.List.{list_all};
ghost use Rattle.valid_model.specs.Knowledge as knowledge;
ghost use Rattle.check_model.specs.OperandTypes as spec;
ghost use Rattle.check_model.specs.Typing as typing_spec;
ghost use Rattle.check_model.specs.Visibility.{incoming_in};
ghost use Rattle.spv_check.specs.TypingIn.{typing_in};

use crate::composite_operands::composite_operands_fit;
use crate::memory_operands::memory_operands_fit;
use crate::scalar_operands::scalar_operands_fit;
use crate::typing::{ModuleIds, has_type, is_integer_value, is_truth_value};
use spirv_model::class::Class;
use spirv_model::{Inst, op};
use spv_types::{Meaning, Shape};
use spv_words::class_of;

fn is_pointer(meaning: &Meaning) -> bool
    ensures { result ≡ spec.is_pointer meaning.now }
{
    matches!(meaning, Meaning::Shape(Shape::Pointer { .. }))
}

fn is_data_shape(shape: &Shape) -> bool
    ensures { result ≡ knowledge.is_data_shape shape.now }
{
    !matches!(shape, Shape::Void | Shape::Pointer { .. } | Shape::Function)
}

/// Whether the type is one that arrays, structures and variables may hold.
fn is_data(meaning: &Meaning) -> bool
    ensures { result ≡ knowledge.is_data meaning.now }
{
    match meaning {
        Meaning::Shape(shape) => is_data_shape(shape),
        _ => false,
    }
}

/// Whether the value has the type, which is that of pointers or isn't.
fn value_fits(typing: &ModuleIds, ty: u32, pointer: bool, value: u32) -> bool
    ensures { result ≡ (typing_spec.has_type (typing_in typing.now) ty value && not pointer) }
{
    has_type(typing, ty, value) && !pointer
}

/// Whether the values of a phi, each before the block that it comes from, have the phi's type and are no pointers.
fn incoming_fit(typing: &ModuleIds, ty: u32, words: &[u32]) -> bool
    ensures { let known = typing_in typing.now in
        result ≡ list_all (spec.incoming_fits known ty) (incoming_in words.now) }
{
    let pointer = is_pointer(typing.ids.at(ty));
    let mut rest = words;
    while let Some((value, after)) = rest.split_first() {
        let Some((_, after)) = after.split_first() else {
            return true;
        };
        if !value_fits(typing, ty, pointer, *value) {
            return false;
        }
        rest = after;
    }
    true
}

fn terminator_operands_fit(typing: &ModuleIds, inst: &Inst) -> bool
    ensures { result ≡ spec.terminator_operands_fit (typing_in typing.now) inst.now }
{
    match inst.op {
        op::BRANCH_CONDITIONAL => is_truth_value(typing, inst.word(0)),
        op::SWITCH => is_integer_value(typing, inst.word(0)),
        op::KILL => !typing.vertex,
        _ => true,
    }
}

/// Whether the operands of the instruction have the types that it takes (SPIR-V specification, section 3.49
/// "Instructions").
#[tactic(auto, unfolding(check_model::specs::OperandTypes::operands_fit))]
pub fn operands_fit(typing: &ModuleIds, inst: &Inst) -> bool
    ensures { result ≡ spec.operands_fit (typing_in typing.now) inst.now }
{
    match class_of(inst.op) {
        Some(Class::Undef) => is_data(typing.ids.at(inst.word(0))),
        Some(Class::Memory) => memory_operands_fit(typing, inst),
        Some(Class::Composite) => composite_operands_fit(typing, inst),
        Some(Class::Scalar(class)) => {
            scalar_operands_fit(typing, class, inst.word(0), inst.words_from(2))
        }
        Some(Class::Phi) => incoming_fit(typing, inst.word(0), inst.words_from(2)),
        Some(Class::Terminator) => terminator_operands_fit(typing, inst),
        _ => true,
    }
}
