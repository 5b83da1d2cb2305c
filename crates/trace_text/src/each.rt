//! What several fields of a line say.
ghost use Rattle.std.specs.Prelude.{◌≡◌, ◌≤◌, ℕ, IfOk, IfSome, List, Option, length};
ghost use Rattle.trace_model.specs.Fields as spec;

use crate::field_cursor::FieldCursor;
use crate::field_values::{
    attachment_value, binding_value, depth_value, entry_value, mask_value, multisample_value,
};
use crate::number::Number;
use crate::numbers::hex_word;
use limits::DESCRIPTOR_BINDINGS;
use sqlite_items::Items;
use state_model::{Attachment, Depth, Entry, Multisample, VertexBinding};
use std::alloc::{AllocError, Global};

/// What a field may say.
pub trait FieldValue<'a>: Sized + Drop {
    /// What a field says, if it says such a thing.
    ghost value: { List ℕ → Option Self };

    fn read(field: &'a [u8]) -> Option<Self>
        ensures { result ≡ value field.now };
}

/// A word.
impl FieldValue<'_> for u32 {
    ghost use Rattle.trace_model.specs.Text.{word_value};

    ghost value = { word_value };

    fn read(field: &[u8]) -> Option<u32> {
        hex_word(field)
    }
}

/// The number of an object.
impl<'a> FieldValue<'a> for Number<'a> {
    ghost use Rattle.trace_model.specs.Fields.{number_value};

    ghost value = { number_value };

    fn read(field: &'a [u8]) -> Option<Number<'a>> {
        Number::read(field)
    }
}

/// The mask of a set's bindings.
impl FieldValue<'_> for u8 {
    ghost use Rattle.limits.specs.declared.TheConstants.{DESCRIPTOR_BINDINGS};
    ghost use Rattle.trace_model.specs.Fields.{mask_value};

    ghost value = { mask_value DESCRIPTOR_BINDINGS };

    fn read(field: &[u8]) -> Option<u8> {
        mask_value(DESCRIPTOR_BINDINGS as u8, field)
    }
}

impl FieldValue<'_> for VertexBinding {
    ghost use Rattle.trace_model.specs.LibraryLines.{binding_value};

    ghost value = { binding_value };

    fn read(field: &[u8]) -> Option<VertexBinding> {
        binding_value(field)
    }
}

impl FieldValue<'_> for Entry {
    ghost use Rattle.trace_model.specs.LibraryLines.{entry_value};

    ghost value = { entry_value };

    fn read(field: &[u8]) -> Option<Entry> {
        entry_value(field)
    }
}

impl FieldValue<'_> for Depth {
    ghost use Rattle.trace_model.specs.LibraryLines.{depth_value};

    ghost value = { depth_value };

    fn read(field: &[u8]) -> Option<Depth> {
        depth_value(field)
    }
}

impl FieldValue<'_> for Multisample {
    ghost use Rattle.trace_model.specs.Fields.{multisample_value};

    ghost value = { multisample_value };

    fn read(field: &[u8]) -> Option<Multisample> {
        multisample_value(field)
    }
}

impl FieldValue<'_> for Attachment {
    ghost use Rattle.trace_model.specs.LibraryLines.{attachment_value};

    ghost value = { attachment_value };

    fn read(field: &[u8]) -> Option<Attachment> {
        attachment_value(field)
    }
}

/// `-` for none.
impl<'a, T: FieldValue<'a>> FieldValue<'a> for Option<T> {
    ghost use Rattle.trace_model.specs.Fields.{optional};

    ghost value = { optional T.value };

    fn read(field: &'a [u8]) -> Option<Option<T>> {
        if field == b"-".as_slice() {
            return Some(None);
        }
        let value = T::read(field)?;
        Some(Some(value))
    }
}

/// What each of the fields left says, in their order, if each says such a thing.
pub fn each<'a, T: FieldValue<'a>>(
    alloc: Global,
    fields: &mut FieldCursor<'a>,
) -> Result<Option<Items<T>>, AllocError>
    ensures { IfOk result (λ values. values ≡ spec.each T.value fields.old) }
{
    let mut values = Items::new(alloc);
    while let Some(field) = fields.next_part() {
        let Some(value) = T::read(field) else {
            return Ok(None);
        };
        values.push(value)?;
    }
    Ok(Some(values))
}

/// The same of exactly so many fields.
#[tactic(auto, using(crate::proofs::Counts::counted))]
pub fn exactly<'a, T: FieldValue<'a>>(
    alloc: Global,
    count: usize,
    fields: &mut FieldCursor<'a>,
) -> Result<Option<Items<T>>, AllocError>
    ensures values { IfOk result (λ values. values ≡ spec.exactly count T.value fields.old) }
    ensures count { IfOk result (λ values. IfSome values (λ xs. length xs ≡ count)) }
{
    let Some(values) = each::<T>(alloc, fields)? else {
        return Ok(None);
    };
    if values.len() != count {
        return Ok(None);
    }
    Ok(Some(values))
}

/// The same of at most so many fields.
#[tactic(auto, using(crate::proofs::Counts::counted))]
pub fn at_most<'a, T: FieldValue<'a>>(
    alloc: Global,
    count: usize,
    fields: &mut FieldCursor<'a>,
) -> Result<Option<Items<T>>, AllocError>
    ensures values { IfOk result (λ values. values ≡ spec.at_most count T.value fields.old) }
    ensures count { IfOk result (λ values. IfSome values (λ xs. length xs ≤ count)) }
{
    let Some(values) = each::<T>(alloc, fields)? else {
        return Ok(None);
    };
    if values.len() > count {
        return Ok(None);
    }
    Ok(Some(values))
}

/// The same of at least one field and at most so many.
#[tactic(auto, using(crate::proofs::Counts::counted))]
pub fn some_of<'a, T: FieldValue<'a>>(
    alloc: Global,
    count: usize,
    fields: &mut FieldCursor<'a>,
) -> Result<Option<Items<T>>, AllocError>
    ensures values { IfOk result (λ values. values ≡ spec.some_of count T.value fields.old) }
    ensures count { IfOk result (λ values. IfSome values (λ xs. length xs ≤ count)) }
{
    let Some(values) = at_most::<T>(alloc, count, fields)? else {
        return Ok(None);
    };
    if values.len() == 0 {
        return Ok(None);
    }
    Ok(Some(values))
}
