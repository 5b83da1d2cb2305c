ghost use Rattle.std.specs.Prelude.{◌≡◌};
ghost use Rattle.valid_model.specs.Constants as spec;
ghost use Rattle.spv_types.specs.Tables.{constant_type_by, in_table, meaning_by};

use crate::knowledge::{Table, is_bool, is_constant_of, is_data, is_integer, is_truth};
use crate::meanings::is_constant;
use crate::operations::operation_fits;
use spirv_model::{Inst, op};
use valid_model::{IdFacts, Meaning, Shape};

fn is_integer_like(table: &Table, signed: bool, id: u32) -> bool
    ensures { result ≡ spec.is_integer_like signed (meaning_by table.now id) }
{
    match table.get(id) {
        Some(
            IdFacts {
                meaning: Meaning::Shape(Shape::Int { signed: own }),
                ..
            },
        ) => *own == signed,
        _ => false,
    }
}

/// Whether the id is a constant whose type is an integer of this signedness.
fn is_word_like(table: &Table, signed: bool, id: u32) -> bool
    ensures { result ≡ spec.is_integer_like signed (constant_type_by table.now id) }
{
    match table.get(id) {
        Some(
            IdFacts {
                meaning: Meaning::Constant { ty },
                ..
            },
        ) => is_integer_like(table, signed, *ty),
        _ => false,
    }
}

fn are_truths(table: &Table, parts: &[u32]) -> bool
    ensures { result ≡ spec.are_truths (in_table table.now) parts.now }
{
    parts.iter().all(|part| is_truth(table, *part))
}

fn are_words_like(table: &Table, signed: bool, parts: &[u32]) -> bool
    ensures { result ≡ spec.are_words_like (in_table table.now) signed parts.now }
{
    parts.iter().all(|part| is_word_like(table, signed, *part))
}

fn are_constants_of(table: &Table, ty: u32, parts: &[u32]) -> bool
    ensures { result ≡ spec.are_constants_of (in_table table.now) ty parts.now }
{
    parts.iter().all(|part| is_constant_of(table, ty, *part))
}

fn are_constants_of_each(table: &Table, types: &[u32], parts: &[u32]) -> bool
    ensures { result ≡ spec.are_constants_of_each (in_table table.now) types.now parts.now }
{
    types
        .iter()
        .zip(parts)
        .all(|(ty, part)| is_constant_of(table, *ty, *part))
}

fn are_parts(table: &Table, shape: &Shape, parts: &[u32]) -> bool
    ensures { result ≡ spec.are_parts (in_table table.now) shape.now parts.now }
{
    match shape {
        Shape::BoolVector { comps } => {
            parts.len() == *comps as usize && are_truths(table, parts)
        }
        Shape::IntVector { comps, signed } => {
            parts.len() == *comps as usize && are_words_like(table, *signed, parts)
        }
        Shape::Array { elem, len } => {
            parts.len() == *len as usize && are_constants_of(table, *elem, parts)
        }
        Shape::Struct { members } => {
            let types = members.list.as_slice();
            parts.len() == types.len() && are_constants_of_each(table, types, parts)
        }
        _ => false,
    }
}

fn composite_fits(table: &Table, ty: u32, parts: &[u32]) -> bool
    ensures { result ≡ spec.composite_constant_fits (in_table table.now) ty parts.now }
{
    match table.get(ty) {
        Some(
            IdFacts {
                meaning: Meaning::Shape(shape),
                ..
            },
        ) => are_parts(table, shape, parts),
        _ => false,
    }
}

/// Whether the type and the parts of a constant fit.
#[tactic(auto, unfolding(valid_model::specs::Constants::constant_fits))]
fn constant_fits(table: &Table, inst: &Inst) -> bool
    ensures { result ≡ spec.constant_fits (in_table table.now) inst.now }
{
    let ty = inst.word(0);
    match inst.op {
        op::CONSTANT | op::SPEC_CONSTANT => is_integer(table, ty),
        op::CONSTANT_COMPOSITE | op::SPEC_CONSTANT_COMPOSITE => {
            composite_fits(table, ty, inst.words_from(2))
        }
        op::CONSTANT_NULL => is_data(table, ty),
        op::SPEC_CONSTANT_OP => { operation_fits(table, ty, inst.word(2), inst.words_from(3)) }
        _ => is_bool(table, ty),
    }
}

/// Whether the instruction is a constant that doesn't fit.
pub fn breaks_constants(table: &Table, inst: &Inst) -> bool
    ensures { result ≡ spec.breaks_constants (in_table table.now) inst.now }
{
    is_constant(inst.op) && !constant_fits(table, inst)
}
