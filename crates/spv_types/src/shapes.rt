//! What shapes the ids of types have.
ghost use Rattle.std.specs.Prelude.{◌≡◌};
ghost use Rattle.valid_model.specs.Knowledge as knowledge;
ghost use Rattle.valid_model.specs.Shapes as spec;
ghost use Rattle.spv_types.specs.FactsIn.{facts_in};
ghost use Rattle.spv_types.specs.Tables.{meaning_by};

use crate::knowledge::{Table, is_bool, is_integer};
use crate::module_facts::ModuleTables;
use valid_model::{IdFacts, Meaning, Shape};

/// Whether the id is the type of an integer or of a vector of integers.
pub fn is_integers(table: &Table, id: u32) -> bool
    ensures { result ≡ spec.is_integers (meaning_by table.now id) }
{
    matches!(
        table.get(id),
        Some(IdFacts {
            meaning: Meaning::Shape(Shape::Int { .. } | Shape::IntVector { .. }),
            ..
        })
    )
}

/// Whether the id is the type of four signed integers.
fn is_position_type(table: &Table, id: u32) -> bool
    ensures { result ≡ spec.is_position_type (meaning_by table.now id) }
{
    match table.get(id) {
        Some(
            IdFacts {
                meaning: Meaning::Shape(Shape::IntVector { comps, signed }),
                ..
            },
        ) => *comps == 4 && *signed,
        _ => false,
    }
}

/// Whether the id is the type of an array.
pub fn is_array(table: &Table, id: u32) -> bool
    ensures { result ≡ spec.is_array (meaning_by table.now id) }
{
    matches!(
        table.get(id),
        Some(IdFacts {
            meaning: Meaning::Shape(Shape::Array { .. }),
            ..
        })
    )
}

/// The type that a pointer type points to.
pub fn pointee_id(table: &Table, id: u32) -> Option<u32>
    ensures { result ≡ spec.pointee_id (meaning_by table.now id) }
{
    match table.get(id) {
        Some(
            IdFacts {
                meaning: Meaning::Shape(Shape::Pointer { to, .. }),
                ..
            },
        ) => Some(*to),
        _ => None,
    }
}

/// Whether a variable of this type holds an integer or a vector of integers.
pub fn holds_integers(whole: &ModuleTables, ty: u32) -> bool
    ensures { result ≡ spec.is_integers (spec.held_type (facts_in whole.now) ty) }
{
    match pointee_id(whole.known, ty) {
        Some(to) => is_integers(whole.known, to),
        None => false,
    }
}

/// Whether a variable of this type holds an integer.
pub fn holds_integer(whole: &ModuleTables, ty: u32) -> bool
    ensures { result ≡ knowledge.is_integer (spec.held_type (facts_in whole.now) ty) }
{
    match pointee_id(whole.known, ty) {
        Some(to) => is_integer(whole.known, to),
        None => false,
    }
}

/// Whether a variable of this type holds a truth value.
pub fn holds_bool(whole: &ModuleTables, ty: u32) -> bool
    ensures { result ≡ knowledge.is_bool (spec.held_type (facts_in whole.now) ty) }
{
    match pointee_id(whole.known, ty) {
        Some(to) => is_bool(whole.known, to),
        None => false,
    }
}

/// Whether a variable of this type holds four signed integers.
pub fn holds_position(whole: &ModuleTables, ty: u32) -> bool
    ensures { result ≡ spec.is_position_type (spec.held_type (facts_in whole.now) ty) }
{
    match pointee_id(whole.known, ty) {
        Some(to) => is_position_type(whole.known, to),
        None => false,
    }
}
