//! The operands of operations on integers and truth values, component by component (SPIR-V specification, sections
//! 3.49.11 "Conversion Instructions" and 3.49.13 to 3.49.15). Signedness need not agree.
ghost use Rattle.std.specs.Prelude.{◌≡◌};
ghost use Rattle.check_model.specs.ScalarOperands as spec;
ghost use Rattle.check_model.specs.Typing.{components_in, type_of};
ghost use Rattle.spv_check.specs.TypingIn.{typing_in};

use crate::typing::{ModuleIds, components_in, components_of, has_type, is_truth_value};
use check_model::{Component, Components};
use spirv_model::class::ScalarClass;

fn is_truth(component: Component) -> bool
    ensures { result ≡ spec.is_truth component }
{
    matches!(component, Component::Truth)
}

/// Whether they are truth values or integers, so many.
fn are_so_many(truths: bool, count: u8, of: Option<Components>) -> bool
    ensures { result ≡ spec.are_so_many truths count of }
{
    match of {
        Some(of) => truths == is_truth(of.component) && of.count == count,
        None => false,
    }
}

/// Whether both are scalars or vectors with equal numbers of components, which are truth values or integers.
fn match_in(
    of_truths: bool,
    from_truths: bool,
    result_type: Option<Components>,
    operand: Option<Components>,
) -> bool
    ensures { result ≡ spec.match_in of_truths from_truths result_type operand }
{
    match result_type {
        Some(of) => {
            of_truths == is_truth(of.component) && are_so_many(from_truths, of.count, operand)
        }
        None => false,
    }
}

/// Whether it is an operand of an operation of this kind, and this the type of its result.
fn operand_fits(typing: &ModuleIds, of_truths: bool, from_truths: bool, ty: u32, a: u32) -> bool
    ensures { let known = typing_in typing.now in
        result ≡ spec.operand_fits of_truths from_truths (known.meaning ty) (type_of known a) }
{
    let made = components_in(typing.ids.at(ty));
    match_in(of_truths, from_truths, made, components_of(typing, a))
}

/// Whether both are operands of an operation of this kind, and this the type of its result.
fn both_fit(typing: &ModuleIds, of_truths: bool, from_truths: bool, ty: u32, a: u32, b: u32) -> bool
    ensures { let known = typing_in typing.now in let made = known.meaning ty in
        result ≡ spec.both_fit of_truths from_truths made (type_of known a) (type_of known b) }
{
    let made = components_in(typing.ids.at(ty));
    match_in(of_truths, from_truths, made, components_of(typing, a))
        && match_in(of_truths, from_truths, made, components_of(typing, b))
}

fn unary_fits(typing: &ModuleIds, class: ScalarClass, ty: u32, a: u32) -> bool
    ensures { let known = typing_in typing.now in
        result ≡ spec.unary_fits class (known.meaning ty) (type_of known a) }
{
    match class {
        ScalarClass::Bitcast | ScalarClass::WordFromWord => {
            operand_fits(typing, false, false, ty, a)
        }
        ScalarClass::TruthFromTruth => operand_fits(typing, true, true, ty, a),
        _ => false,
    }
}

fn binary_fits(typing: &ModuleIds, class: ScalarClass, ty: u32, a: u32, b: u32) -> bool
    ensures { let known = typing_in typing.now in
        result ≡ spec.binary_fits class (known.meaning ty) (type_of known a) (type_of known b) }
{
    match class {
        ScalarClass::WordFromWords => both_fit(typing, false, false, ty, a, b),
        ScalarClass::TruthFromWords => both_fit(typing, true, false, ty, a, b),
        ScalarClass::TruthFromTruths => both_fit(typing, true, true, ty, a, b),
        _ => false,
    }
}

/// Whether the id is one truth value, or as many as there are components.
fn condition_fits(typing: &ModuleIds, condition: u32, of: Option<Components>) -> bool
    ensures { result ≡ spec.condition_fits (type_of (typing_in typing.now) condition) of }
{
    match of {
        Some(of) => {
            is_truth_value(typing, condition)
                || are_so_many(true, of.count, components_of(typing, condition))
        }
        None => false,
    }
}

fn is_select(class: ScalarClass) -> bool
    ensures { result ≡ spec.is_select class }
{
    matches!(class, ScalarClass::Select)
}

fn select_fits(typing: &ModuleIds, ty: u32, condition: u32, a: u32, b: u32) -> bool
    ensures { result ≡ spec.select_fits (typing_in typing.now) ty condition a b }
{
    condition_fits(typing, condition, components_in(typing.ids.at(ty)))
        && has_type(typing, ty, a)
        && has_type(typing, ty, b)
}

/// Whether the operands of a scalar operation fit it and the type of its result.
#[tactic(auto, unfolding(check_model::specs::ScalarOperands::scalar_operands_fit))]
pub fn scalar_operands_fit(
    typing: &ModuleIds,
    class: ScalarClass,
    ty: u32,
    operands: &[u32],
) -> bool
    ensures { result ≡ spec.scalar_operands_fit (typing_in typing.now) class ty operands.now }
{
    match operands {
        [a] => unary_fits(typing, class, ty, *a),
        [a, b] => binary_fits(typing, class, ty, *a, *b),
        [condition, a, b] => is_select(class) && select_fits(typing, ty, *condition, *a, *b),
        _ => false,
    }
}
