//! What one field of a line says.
ghost use Rattle.std.specs.Prelude.{◌≡◌, ◌+◌, ◌≤◌, ◌<◌, ◌^◌, IfSome, suc};
ghost use Rattle.trace_model.specs.Text as text;
ghost use Rattle.trace_model.specs.Fields as spec;
ghost use Rattle.trace_model.specs.LibraryLines as library;
ghost use Rattle.state_model.specs.Lawful.{format_components};
ghost use Rattle.trace_text.specs.Values.{format_named, signed_format_named};

use crate::field_cursor::FieldCursor;
use crate::numbers::{decimal_digit, hex_word};
use draw_model::framebuffer::DEPTH_FORMAT;
use limits::MAX_STRIDE;
use state_model::format::FORMAT_R32_UINT;
use state_model::vulkan::{COMPARE_OP_ALWAYS, SAMPLE_COUNT_1, SAMPLE_COUNT_2, SAMPLE_COUNT_4};
use state_model::{Attachment, Depth, Entry, Multisample, Topology, VIEWS, VertexBinding};

/// A decimal number up to the limit, without a sign or a leading zero.
pub fn decimal_value(limit: u32, field: &[u8]) -> Option<u32>
    ensures value { result ≡ text.decimal_value limit field.now }
    ensures within { IfSome result (λ n. n ≤ limit) }
{
    let (first, others) = field.split_first()?;
    if *first == b'0' && !others.is_empty() {
        return None;
    }
    decimal_onto(limit, field)
}

/// The number with these digits, if it stays within the limit.
fn decimal_onto(limit: u32, digits: &[u8]) -> Option<u32>
    ensures value { result ≡ text.decimal_onto limit 0 digits.now }
    ensures within { IfSome result (λ n. n ≤ limit) }
{
    let greatest = u64::from(limit);
    let mut value = 0u64;
    for b in digits {
        let digit = decimal_digit(*b)?;
        let next = 10 * value + u64::from(digit);
        if next > greatest {
            return None;
        }
        value = next;
    }
    Some(value as u32)
}

/// A decimal number between two limits.
pub fn range_value(least: u32, greatest: u32, field: &[u8]) -> Option<u32>
    ensures value { result ≡ spec.range_value least greatest field.now }
    ensures within { IfSome result (λ n. n ≤ greatest) }
{
    let n = decimal_value(greatest, field)?;
    if n < least {
        return None;
    }
    Some(n)
}

/// A decimal number below a bound.
pub fn below(bound: u32, field: &[u8]) -> Option<u32>
    requires { 0 < bound }
    ensures value { result ≡ spec.below bound field.now }
    ensures within { IfSome result (λ n. n < bound) }
{
    decimal_value(bound - 1, field)
}

/// A small decimal number below a bound.
pub fn small_below(bound: u8, field: &[u8]) -> Option<u8>
    requires { 0 < bound }
    ensures value { result ≡ spec.below bound field.now }
    ensures within { IfSome result (λ n. n < bound) }
{
    let n = below(u32::from(bound), field)?;
    Some(n as u8)
}

/// A decimal number of 32 bits.
pub fn word_number(field: &[u8]) -> Option<u32>
    ensures { result ≡ spec.below (2 ^ 32) field.now }
{
    decimal_value(u32::MAX, field)
}

pub fn flag_value(field: &[u8]) -> Option<bool>
    ensures { result ≡ spec.flag_value field.now }
{
    let n = decimal_value(1, field)?;
    Some(n == 1)
}

/// Which of two words a field is: `true` for the second.
pub fn word_choice(first: &[u8], second: &[u8], field: &[u8]) -> Option<bool>
    ensures { result ≡ spec.word_choice first.now second.now field.now }
{
    if field == first {
        return Some(false);
    }
    if field == second {
        return Some(true);
    }
    None
}

/// A number of samples: 1, 2 or 4.
pub fn samples_value(field: &[u8]) -> Option<u8>
    ensures value { result ≡ spec.samples_value field.now }
    ensures few { IfSome result (λ samples. samples ≤ 4) }
{
    let n = decimal_value(u32::from(SAMPLE_COUNT_4), field)? as u8;
    if n == SAMPLE_COUNT_1 || n == SAMPLE_COUNT_2 || n == SAMPLE_COUNT_4 {
        return Some(n);
    }
    None
}

/// A mask of so many bits.
pub fn mask_value(bits: u8, field: &[u8]) -> Option<u8>
    requires { bits ≤ 8 }
    ensures { result ≡ spec.mask_value bits field.now }
{
    let n = below(1 << bits, field)?;
    Some(n as u8)
}

pub fn view_mask_value(field: &[u8]) -> Option<u8>
    ensures { result ≡ library.view_mask_value field.now }
{
    mask_value(VIEWS as u8, field)
}

/// `samples:mask`.
pub fn multisample_value(field: &[u8]) -> Option<Multisample>
    ensures { result ≡ spec.multisample_value field.now }
{
    let mut parts = FieldCursor::new(field, b':');
    let (samples, mask) = parts.next_two()?;
    if !parts.is_done() {
        return None;
    }
    let samples = samples_value(samples)?;
    let mask = mask_value(samples, mask)?;
    Some(Multisample { samples, mask })
}

/// The format with this name.
pub fn format_value(field: &[u8]) -> Option<u8>
    ensures value { result ≡ spec.format_value field.now }
    ensures within { IfSome result (λ format. format ≤ 9) }
{
    format_named(field)
}

fn format_named(name: &[u8]) -> Option<u8>
    ensures value { result ≡ format_named name.now }
    ensures within { IfSome result (λ format. format ≤ 9) }
{
    if name == b"u1".as_slice() {
        return Some(1);
    }
    if name == b"u2".as_slice() {
        return Some(2);
    }
    if name == b"u3".as_slice() {
        return Some(3);
    }
    if name == b"u4".as_slice() {
        return Some(4);
    }
    signed_format_named(name)
}

fn signed_format_named(name: &[u8]) -> Option<u8>
    ensures value { result ≡ signed_format_named name.now }
    ensures within { IfSome result (λ format. format ≤ 9) }
{
    if name == b"s1".as_slice() {
        return Some(5);
    }
    if name == b"s2".as_slice() {
        return Some(6);
    }
    if name == b"s3".as_slice() {
        return Some(7);
    }
    if name == b"s4".as_slice() {
        return Some(8);
    }
    if name == b"z".as_slice() {
        return Some(DEPTH_FORMAT);
    }
    None
}

/// The same without the depth format.
pub fn colour_value(field: &[u8]) -> Option<u8>
    ensures value { result ≡ spec.colour_value field.now }
    ensures within { IfSome result (λ format. format ≤ 9) }
{
    let format = format_value(field)?;
    if format == DEPTH_FORMAT {
        return None;
    }
    Some(format)
}

/// The components of a format.
pub fn format_components(format: u8) -> u8
    ensures value { result ≡ format_components format }
    ensures few { result ≤ 4 }
{
    format.saturating_sub(FORMAT_R32_UINT) % 4 + 1
}

pub fn topology_value(field: &[u8]) -> Option<Topology>
    ensures { result ≡ library.topology_value field.now }
{
    if word_choice(b"points", b"triangles", field)? {
        return Some(Topology::Triangles);
    }
    Some(Topology::Points)
}

/// `v:stride` or `i:stride`.
pub fn binding_value(field: &[u8]) -> Option<VertexBinding>
    ensures { result ≡ library.binding_value field.now }
{
    let mut parts = FieldCursor::new(field, b':');
    let (rate, stride) = parts.next_two()?;
    if !parts.is_done() {
        return None;
    }
    let per_instance = word_choice(b"v", b"i", rate)?;
    let stride = range_value(0, MAX_STRIDE, stride)?;
    Some(VertexBinding {
        stride,
        per_instance,
    })
}

/// `id=W`.
pub fn entry_value(field: &[u8]) -> Option<Entry>
    ensures { result ≡ library.entry_value field.now }
{
    let mut parts = FieldCursor::new(field, b'=');
    let (id, value) = parts.next_two()?;
    if !parts.is_done() {
        return None;
    }
    let id = word_number(id)?;
    let value = hex_word(value)?;
    Some(Entry { id, value })
}

/// `compare:write`.
pub fn depth_value(field: &[u8]) -> Option<Depth>
    ensures { result ≡ library.depth_value field.now }
{
    let mut parts = FieldCursor::new(field, b':');
    let (compare, write) = parts.next_two()?;
    if !parts.is_done() {
        return None;
    }
    let compare = range_value(0, u32::from(COMPARE_OP_ALWAYS), compare)? as u8;
    let write = flag_value(write)?;
    Some(Depth { compare, write })
}

/// `format:mask`.
pub fn attachment_value(field: &[u8]) -> Option<Attachment>
    ensures { result ≡ library.attachment_value field.now }
{
    let mut parts = FieldCursor::new(field, b':');
    let (format, mask) = parts.next_two()?;
    if !parts.is_done() {
        return None;
    }
    let format = colour_value(format)?;
    let write_mask = mask_value(format_components(format), mask)?;
    Some(Attachment { format, write_mask })
}
