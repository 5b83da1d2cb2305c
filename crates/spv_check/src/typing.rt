//! What is known of ids where operands are judged.
ghost use Rattle.std.specs.Prelude.{◌≡◌};
ghost use Rattle.valid_model.specs.Definitions.{inst_at};
ghost use Rattle.valid_model.specs.Knowledge as knowledge;
ghost use Rattle.valid_model.specs.Shapes as shapes;
ghost use Rattle.check_model.specs.Typing as spec;
ghost use Rattle.spv_check.specs.TypingIn.{typing_in};

use check_model::{Component, Components};
use spirv_model::{Inst, op};
use spv_types::{Ids, Meaning, Shape};

/// The instructions of a module, what its ids mean, and whether it is one of a vertex shader.
#[derive(Debug, Drop)]
pub struct ModuleIds<'a> {
    pub insts: &'a [Inst],
    pub ids: &'a Ids,
    pub vertex: bool,
}

fn constant_in(inst: &Inst) -> Option<u32>
    ensures { result ≡ spec.constant_in inst.now }
{
    if inst.op == op::CONSTANT {
        Some(inst.word(2))
    } else {
        None
    }
}

fn constant_at(insts: &[Inst], place: usize) -> Option<u32>
    ensures { result ≡ spec.constant_in (inst_at insts.now place) }
{
    match insts.get(place) {
        Some(inst) => constant_in(inst),
        None => None,
    }
}

/// The word of the OpConstant that defines the id.
pub fn constant_word(typing: &ModuleIds, id: u32) -> Option<u32>
    ensures { result ≡ (typing_in typing.now).constant id }
{
    match typing.ids.place(id) {
        Some(place) => constant_at(typing.insts, place as usize),
        None => None,
    }
}

/// The id of the type of a constant, a variable or a value.
pub fn type_id(meaning: &Meaning) -> Option<u32>
    ensures { result ≡ spec.type_id meaning.now }
{
    match meaning {
        Meaning::Constant { ty } | Meaning::Variable { ty, .. } | Meaning::Value { ty } => {
            Some(*ty)
        }
        _ => None,
    }
}

/// Whether the id is of the type with this id.
pub fn has_type(typing: &ModuleIds, ty: u32, id: u32) -> bool
    ensures { result ≡ spec.has_type (typing_in typing.now) ty id }
{
    match type_id(typing.ids.at(id)) {
        Some(own) => own == ty,
        None => false,
    }
}

/// What a scalar or a vector of this type is made of.
pub fn components_in(meaning: &Meaning) -> Option<Components>
    ensures { result ≡ spec.components_in meaning.now }
{
    let Meaning::Shape(shape) = meaning else {
        return None;
    };
    let (component, count) = match shape {
        Shape::Bool => (Component::Truth, 1),
        Shape::Int { signed } => (Component::Integer { signed: *signed }, 1),
        Shape::BoolVector { comps } => (Component::Truth, *comps),
        Shape::IntVector { comps, signed } => (Component::Integer { signed: *signed }, *comps),
        _ => return None,
    };
    Some(Components { component, count })
}

/// What the scalar or the vector with this id is made of.
pub fn components_of(typing: &ModuleIds, id: u32) -> Option<Components>
    ensures { result ≡ spec.components_in (spec.type_of (typing_in typing.now) id) }
{
    match type_id(typing.ids.at(id)) {
        Some(ty) => components_in(typing.ids.at(ty)),
        None => None,
    }
}

/// Whether this is OpTypeBool.
pub fn is_bool(meaning: &Meaning) -> bool
    ensures { result ≡ knowledge.is_bool meaning.now }
{
    matches!(meaning, Meaning::Shape(Shape::Bool))
}

/// Whether the id is one truth value.
pub fn is_truth_value(typing: &ModuleIds, id: u32) -> bool
    ensures { result ≡ knowledge.is_bool (spec.type_of (typing_in typing.now) id) }
{
    match type_id(typing.ids.at(id)) {
        Some(ty) => is_bool(typing.ids.at(ty)),
        None => false,
    }
}

fn is_integer(meaning: &Meaning) -> bool
    ensures { result ≡ knowledge.is_integer meaning.now }
{
    matches!(meaning, Meaning::Shape(Shape::Int { .. }))
}

/// Whether the id is one integer.
pub fn is_integer_value(typing: &ModuleIds, id: u32) -> bool
    ensures { result ≡ knowledge.is_integer (spec.type_of (typing_in typing.now) id) }
{
    match type_id(typing.ids.at(id)) {
        Some(ty) => is_integer(typing.ids.at(ty)),
        None => false,
    }
}

/// The type that a pointer type points to.
pub fn pointee_id(meaning: &Meaning) -> Option<u32>
    ensures { result ≡ shapes.pointee_id meaning.now }
{
    match meaning {
        Meaning::Shape(Shape::Pointer { to, .. }) => Some(*to),
        _ => None,
    }
}

/// The type that the pointer with this id points to.
pub fn pointee_of(typing: &ModuleIds, id: u32) -> Option<u32>
    ensures { result ≡ shapes.pointee_id (spec.type_of (typing_in typing.now) id) }
{
    match type_id(typing.ids.at(id)) {
        Some(ty) => pointee_id(typing.ids.at(ty)),
        None => None,
    }
}
