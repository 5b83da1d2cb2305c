//! Which types, variables and functions are allowed (SPIR-V specification, section 3.49.6 "Type-Declaration Instructions").
ghost use Rattle.std.specs.Prelude.{◌≡◌, ◌<◌, length, IfOk};
ghost use Rattle.valid_model.specs.Types as spec;
ghost use Rattle.spv_types.specs.Tables.{HasPlaces, in_table, meaning_by};

use crate::definitions::{Places, inst_at};
use crate::knowledge::{Table, a_type, is_data, is_storage_class, is_void, length, size};
use limits::TYPE_WORDS;
use spirv_model::class::Class;
use spirv_model::table::{Entry, Operand};
use spirv_model::{Inst, Items, op};
use spv_words::{class_of, entry_of};
use std::alloc::{AllocError, Global};
use valid_model::{IdFacts, Meaning, Members, Shape};

/// Whether an instruction with this opcode declares a type.
pub fn is_type(opcode: u16) -> bool
    ensures { result ≡ spec.is_type opcode }
{
    matches!(class_of(opcode), Some(Class::TypeDeclaration))
}

fn integer_type(width: u32, signedness: u32) -> Option<IdFacts>
    ensures { result ≡ spec.integer_type width signedness }
{
    if width == 32 && signedness <= 1 {
        let signed = signedness == 1;
        Some(a_type(Shape::Int { signed }, 1))
    } else {
        None
    }
}

fn vector_type(table: &Table, component: u32, count: u32) -> Option<IdFacts>
    ensures { result ≡ spec.vector_type (meaning_by table.now component) count }
{
    if count < 2 || count > 4 {
        return None;
    }
    let comps = count as u8;
    match table.get(component)?.meaning {
        Meaning::Shape(Shape::Bool) => Some(a_type(Shape::BoolVector { comps }, count)),
        Meaning::Shape(Shape::Int { signed }) => {
            Some(a_type(Shape::IntVector { comps, signed }, count))
        }
        _ => None,
    }
}

/// The elements of an array whose length is an OpConstant of this type and word.
fn constant_length(table: &Table, ty: u32, word: u32) -> u32
    ensures { result ≡ spec.constant_length (meaning_by table.now ty) word }
{
    match table.get(ty) {
        Some(
            IdFacts {
                meaning: Meaning::Shape(Shape::Int { signed }),
                ..
            },
        ) => {
            if *signed && word >= 0x8000_0000 {
                0
            } else {
                word
            }
        }
        _ => 0,
    }
}

/// The elements of an array whose length is the result of an instruction with this opcode, this type and this word: those
/// of an OpConstant.
pub fn array_length(table: &Table, opcode: u16, ty: u32, word: u32) -> u32
    ensures { result ≡ spec.array_length opcode (meaning_by table.now ty) word }
{
    if opcode == op::CONSTANT {
        constant_length(table, ty, word)
    } else {
        0
    }
}

fn array_type(table: &Table, elem: u32, len: u32) -> Option<IdFacts>
    ensures { result ≡ spec.array_type (in_table table.now elem) elem len }
{
    if !is_data(table, elem) || len == 0 {
        return None;
    }
    let words = u64::from(len) * u64::from(size(table, elem));
    if words > u64::from(TYPE_WORDS) {
        return None;
    }
    Some(a_type(Shape::Array { elem, len }, words as u32))
}

/// The words of all members, where they are data and not too many.
fn struct_size(table: &Table, members: &[u32]) -> Option<u32>
    ensures { result ≡ spec.struct_size (in_table table.now) members.now }
{
    let mut words = 0;
    for member in members {
        if !is_data(table, *member) {
            return None;
        }
        words += u64::from(size(table, *member));
        if words > u64::from(TYPE_WORDS) {
            return None;
        }
    }
    Some(words as u32)
}

fn struct_type(alloc: Global, table: &Table, members: &[u32]) -> Result<Option<IdFacts>, AllocError>
    ensures { IfOk result (λ made. made ≡ spec.struct_type (in_table table.now) members.now) }
{
    let Some(size) = struct_size(table, members) else {
        return Ok(None);
    };
    let list = Items::from_slice(alloc, members)?;
    let members = Members { list };
    Ok(Some(a_type(Shape::Struct { members }, size)))
}

fn pointer_type(table: &Table, class: u32, to: u32) -> Option<IdFacts>
    ensures { result ≡ spec.pointer_type (meaning_by table.now to) class to }
{
    if !is_storage_class(class) || !is_data(table, to) {
        return None;
    }
    let class = class as u8;
    Some(a_type(Shape::Pointer { class, to }, 0))
}

fn function_type(table: &Table, returned: u32) -> Option<IdFacts>
    ensures { result ≡ spec.function_type (meaning_by table.now returned) }
{
    if is_void(table, returned) {
        Some(a_type(Shape::Function, 0))
    } else {
        None
    }
}

/// The type that an instruction declares, where it is allowed.
#[tactic(auto, unfolding(valid_model::specs::Types::type_of))]
pub fn type_of(alloc: Global, table: &Table, inst: &Inst) -> Result<Option<IdFacts>, AllocError>
    ensures { IfOk result (λ made. made ≡ spec.type_of (in_table table.now) inst.now) }
{
    Ok(match inst.op {
        op::TYPE_VOID => Some(a_type(Shape::Void, 0)),
        op::TYPE_BOOL => Some(a_type(Shape::Bool, 1)),
        op::TYPE_INT => integer_type(inst.word(1), inst.word(2)),
        op::TYPE_VECTOR => vector_type(table, inst.word(1), inst.word(2)),
        op::TYPE_ARRAY => {
            let len = length(table, inst.word(2));
            array_type(table, inst.word(1), len)
        }
        op::TYPE_STRUCT => struct_type(alloc, table, inst.words_from(1))?,
        op::TYPE_POINTER => pointer_type(table, inst.word(1), inst.word(2)),
        op::TYPE_FUNCTION => function_type(table, inst.word(1)),
        _ => None,
    })
}

fn is_pointer_of(table: &Table, class: u32, id: u32) -> bool
    ensures { result ≡ spec.is_pointer_of class (meaning_by table.now id) }
{
    match table.get(id) {
        Some(
            IdFacts {
                meaning: Meaning::Shape(Shape::Pointer { class: own, .. }),
                ..
            },
        ) => u32::from(*own) == class,
        _ => false,
    }
}

fn is_function(table: &Table, id: u32) -> bool
    ensures { result ≡ spec.is_function (meaning_by table.now id) }
{
    matches!(
        table.get(id),
        Some(IdFacts {
            meaning: Meaning::Shape(Shape::Function),
            ..
        })
    )
}

/// Whether the instruction declares a type, a variable or a function that isn't allowed.
#[tactic(auto, unfolding(valid_model::specs::Types::breaks_types))]
pub fn breaks_types(alloc: Global, table: &Table, inst: &Inst) -> Result<bool, AllocError>
    ensures { IfOk result (λ breaks. breaks ≡ spec.breaks_types (in_table table.now) inst.now) }
{
    if is_type(inst.op) {
        let made = type_of(alloc, table, inst)?;
        return Ok(made.is_none());
    }
    Ok(match inst.op {
        op::VARIABLE => !is_pointer_of(table, inst.word(2), inst.word(0)),
        op::FUNCTION => !(is_void(table, inst.word(0)) && is_function(table, inst.word(3))),
        _ => false,
    })
}

/// The id of the instruction's result type.
#[tactic(auto, unfolding(valid_model::specs::Types::result_type))]
fn result_type(inst: &Inst) -> Option<u32>
    ensures { result ≡ spec.result_type inst.now }
{
    let Some(Entry::Listed(_, operands)) = entry_of(inst.op) else {
        return None;
    };
    match operands.listed.0 {
        Some(Operand::IdResultType) => Some(inst.word(0)),
        _ => None,
    }
}

/// Whether a type is defined there, after the place.
fn is_type_after(insts: &[Inst], place: usize, at: Option<u32>) -> bool
    ensures { result ≡ spec.is_type_after insts.now place at }
{
    let Some(at) = at else {
        return false;
    };
    let at = at as usize;
    if at >= insts.len() {
        return false;
    }
    place < at && is_type(inst_at(insts, at).op)
}

/// Whether the result type is a type that is defined later.
#[tactic(auto, unfolding(valid_model::specs::Types::has_later_type))]
pub fn has_later_type(insts: &[Inst], places: &Places, place: usize) -> bool
    requires within { place < length insts.now }
    requires defined { HasPlaces places.now insts.now }
    ensures { result ≡ spec.has_later_type insts.now place }
{
    let Some(ty) = result_type(inst_at(insts, place)) else {
        return false;
    };
    is_type_after(insts, place, places.get(ty).copied())
}
