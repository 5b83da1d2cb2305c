//! What is known of the ids of a module, and what that says of types and of constants.
ghost use Rattle.std.specs.Prelude.{◌≡◌};
ghost use Rattle.valid_model.specs.Knowledge as spec;
ghost use Rattle.spv_types.specs.Tables.{constant_type_by, in_table, meaning_by};

use id_table::IdTable;
use spirv_model::storage_class;
use valid_model::{IdFacts, Meaning, Shape};

/// What is known of each id that is defined so far.
pub type Table = IdTable<IdFacts>;

/// Whether the id is OpTypeVoid.
pub fn is_void(table: &Table, id: u32) -> bool
    ensures { result ≡ spec.is_void (meaning_by table.now id) }
{
    matches!(
        table.get(id),
        Some(IdFacts {
            meaning: Meaning::Shape(Shape::Void),
            ..
        })
    )
}

/// Whether the id is OpTypeBool.
pub fn is_bool(table: &Table, id: u32) -> bool
    ensures { result ≡ spec.is_bool (meaning_by table.now id) }
{
    matches!(
        table.get(id),
        Some(IdFacts {
            meaning: Meaning::Shape(Shape::Bool),
            ..
        })
    )
}

/// Whether the id is the type of an integer.
pub fn is_integer(table: &Table, id: u32) -> bool
    ensures { result ≡ spec.is_integer (meaning_by table.now id) }
{
    matches!(
        table.get(id),
        Some(IdFacts {
            meaning: Meaning::Shape(Shape::Int { .. }),
            ..
        })
    )
}

fn is_data_shape(shape: &Shape) -> bool
    ensures { result ≡ spec.is_data_shape shape.now }
{
    !matches!(shape, Shape::Void | Shape::Pointer { .. } | Shape::Function)
}

/// Whether the id is a type that arrays, structures and variables may hold.
pub fn is_data(table: &Table, id: u32) -> bool
    ensures { result ≡ spec.is_data (meaning_by table.now id) }
{
    match table.get(id) {
        Some(
            IdFacts {
                meaning: Meaning::Shape(shape),
                ..
            },
        ) => is_data_shape(shape),
        _ => false,
    }
}

/// The words of the type's values.
pub fn size(table: &Table, id: u32) -> u32
    ensures { result ≡ spec.size_in (in_table table.now id) }
{
    table.get(id).map_or(0, |known| known.size)
}

/// The elements of an array that has this id for its length.
pub fn length(table: &Table, id: u32) -> u32
    ensures { result ≡ spec.length_in (in_table table.now id) }
{
    table.get(id).map_or(0, |known| known.length)
}

/// Whether pointers and variables may have this storage class.
pub fn is_storage_class(class: u32) -> bool
    ensures { result ≡ spec.is_storage_class class }
{
    class == storage_class::INPUT
        || class == storage_class::UNIFORM
        || class == storage_class::OUTPUT
        || class == storage_class::PRIVATE
        || class == storage_class::FUNCTION
        || class == storage_class::PUSH_CONSTANT
}

/// A type of this shape and so many words.
pub fn a_type(shape: Shape, size: u32) -> IdFacts
    ensures { result ≡ spec.a_type shape size }
{
    IdFacts {
        meaning: Meaning::Shape(shape),
        size,
        length: 0,
    }
}

/// An id with this meaning that is no type and no length of an array.
pub fn means(meaning: Meaning) -> IdFacts
    ensures { result ≡ spec.means meaning }
{
    IdFacts {
        meaning,
        size: 0,
        length: 0,
    }
}

/// Whether the id is a constant of this type.
pub fn is_constant_of(table: &Table, ty: u32, id: u32) -> bool
    ensures { result ≡ spec.is_constant_of ty (meaning_by table.now id) }
{
    match table.get(id) {
        Some(
            IdFacts {
                meaning: Meaning::Constant { ty: own },
                ..
            },
        ) => *own == ty,
        _ => false,
    }
}

/// Whether the id is a constant whose type is OpTypeBool.
pub fn is_truth(table: &Table, id: u32) -> bool
    ensures { result ≡ spec.is_bool (constant_type_by table.now id) }
{
    match table.get(id) {
        Some(
            IdFacts {
                meaning: Meaning::Constant { ty },
                ..
            },
        ) => is_bool(table, *ty),
        _ => false,
    }
}

/// Whether the id is a constant whose type is an integer.
pub fn is_word(table: &Table, id: u32) -> bool
    ensures { result ≡ spec.is_integer (constant_type_by table.now id) }
{
    match table.get(id) {
        Some(
            IdFacts {
                meaning: Meaning::Constant { ty },
                ..
            },
        ) => is_integer(table, *ty),
        _ => false,
    }
}
