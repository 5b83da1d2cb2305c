//! The operations of OpSpecConstantOp (SPIR-V specification, section 3.49.7 "Constant-Creation Instructions").
ghost use Rattle.std.specs.Prelude.{◌≡◌};
ghost use Rattle.valid_model.specs.Operations as spec;
ghost use Rattle.spv_types.specs.Tables.{in_table};

use crate::knowledge::{Table, is_bool, is_constant_of, is_integer, is_truth, is_word};
use spirv_model::class::{Class, ScalarClass};
use spv_words::class_of_operand;

fn unary_fits(table: &Table, ty: u32, class: Option<Class>, a: u32) -> bool
    ensures { result ≡ spec.unary_operation_fits (in_table table.now) ty class a }
{
    match class {
        Some(Class::Scalar(ScalarClass::WordFromWord)) => is_integer(table, ty)
            && is_word(table, a),
        Some(Class::Scalar(ScalarClass::TruthFromTruth)) => is_bool(table, ty)
            && is_truth(table, a),
        _ => false,
    }
}

fn binary_fits(table: &Table, ty: u32, class: Option<Class>, a: u32, b: u32) -> bool
    ensures { result ≡ spec.binary_operation_fits (in_table table.now) ty class a b }
{
    match class {
        Some(Class::Scalar(ScalarClass::WordFromWords)) => {
            is_integer(table, ty) && is_word(table, a) && is_word(table, b)
        }
        Some(Class::Scalar(ScalarClass::TruthFromWords)) => {
            is_bool(table, ty) && is_word(table, a) && is_word(table, b)
        }
        Some(Class::Scalar(ScalarClass::TruthFromTruths)) => {
            is_bool(table, ty) && is_truth(table, a) && is_truth(table, b)
        }
        _ => false,
    }
}

fn is_select(class: Option<Class>) -> bool
    ensures { result ≡ spec.is_select class }
{
    matches!(class, Some(Class::Scalar(ScalarClass::Select)))
}

fn select_fits(table: &Table, ty: u32, condition: u32, a: u32, b: u32) -> bool
    ensures { result ≡ spec.select_fits (in_table table.now) ty condition a b }
{
    is_truth(table, condition)
        && (is_bool(table, ty) || is_integer(table, ty))
        && is_constant_of(table, ty, a)
        && is_constant_of(table, ty, b)
}

/// Whether the operation with this opcode fits its operands and the type of its result.
pub fn operation_fits(table: &Table, ty: u32, opcode: u32, operands: &[u32]) -> bool
    ensures { result ≡ spec.operation_fits (in_table table.now) ty opcode operands.now }
{
    let class = class_of_operand(opcode);
    match operands {
        [a] => unary_fits(table, ty, class, *a),
        [a, b] => binary_fits(table, ty, class, *a, *b),
        [condition, a, b] => is_select(class) && select_fits(table, ty, *condition, *a, *b),
        _ => false,
    }
}
