ghost use Rattle.std.specs.Prelude.{◌≡◌, ◌∷◌, ◌++◌, ◌<◌, IfOk, OnOk};
ghost use Rattle.std.specs.List.{flat_map};
ghost use Rattle.spirv_model.specs.Operands as operands_spec;
ghost use Rattle.listing_model.specs.Assembly.{line_inst};
ghost use Rattle.listing_model.specs.Spelling as spec;
ghost use Rattle.spv_text.specs.Parts.{TakesFirst};
ghost use Rattle.spv_text.specs.Pieces.{with_result_of, words_of_digits};

use crate::names::op_named;
use crate::parts::Parts;
use spirv_model::table::{Entry, Operand, Operands};
use spirv_model::{Inst, Items};
use spv_words::entry_of;
use std::alloc::{AllocError, Global};

/// The instruction that a line speaks of, if its name is an opcode's.
#[tactic(auto, unfolding(listing_model::specs::Assembly::line_inst, listing_model::specs::Spelling::spoken_of))]
pub fn line_inst(alloc: Global, line: &[u8]) -> Result<Option<Inst>, AllocError>
    ensures { IfOk result (λ inst. inst ≡ line_inst line.now) }
{
    let mut fields = Parts::new(line, b' ');
    let Some(first) = fields.next_part() else {
        return Ok(None);
    };
    let Some(name) = name_field(first, &mut fields) else {
        return Ok(None);
    };
    let Some(op) = op_named(name) else {
        return Ok(None);
    };
    let (_, digits) = first.split_at(first.len().min(1));
    let words = with_result(op, number(digits), other_words(alloc, &mut fields)?)?;
    Ok(Some(Inst {
        op,
        words: Items::from_vec(words),
    }))
}

/// The name of a line with this first field and these others; it is taken from them.
fn name_field<'a>(first: &'a [u8], fields: &mut Parts<'a>) -> Option<&'a [u8]>
    ensures { TakesFirst result (spec.named_fields (first.now ∷ fields.old)) fields.new }
{
    if first.first().copied().unwrap_or(0) != b'%' {
        return Some(first);
    }
    let _ = fields.next_part();
    fields.next_part()
}

/// The words with the result's id at its place.
fn with_result(op: u16, id: u32, mut words: Vec<u32>) -> Result<Vec<u32>, AllocError>
    ensures { IfOk result (λ all. all.items ≡ with_result_of op id words.items) }
{
    let place = match entry_of(op) {
        Some(Entry::Listed(_, operands)) => result_place(operands),
        _ => None,
    };
    if let Some(place) = place {
        words.insert(place.min(words.len()), id)?;
    }
    Ok(words)
}

/// The place of the result's id among an instruction's words, if it has one.
fn result_place(operands: &Operands) -> Option<usize>
    ensures { result ≡ operands_spec.result_place (operands_spec.listed_of operands.now) }
{
    match (operands.listed.0, operands.listed.1) {
        (Some(Operand::IdResult), _) => Some(0),
        (Some(Operand::IdResultType), Some(Operand::IdResult)) => Some(1),
        _ => None,
    }
}

/// The words that all fields left speak of.
fn other_words(alloc: Global, fields: &mut Parts<'_>) -> Result<Vec<u32>, AllocError>
    ensures { IfOk result (λ words. words.items ≡ flat_map spec.field_words fields.old) }
{
    let mut words = Vec::new(alloc);
    while let Some(field) = fields.next_part() {
        push_field(&mut words, field)?;
    }
    Ok(words)
}

/// Pushes the words that a field speaks of.
fn push_field(words: &mut Vec<u32>, field: &[u8]) -> Result<(), AllocError>
    ensures { OnOk result (words.new.items ≡ words.old.items ++ spec.field_words field.now) }
{
    let Some((first, others)) = field.split_first() else {
        return Ok(());
    };
    if *first == b'x' {
        return push_string(words, others);
    }
    if *first == b'%' {
        words.push(number(others))?;
        return Ok(());
    }
    words.push(number(field))?;
    Ok(())
}

/// The low 32 bits of the number with these decimal digits.
pub fn number(digits: &[u8]) -> u32
    ensures { result ≡ spec.number_onto 0 digits.now }
{
    let mut value = 0u32;
    for digit in digits {
        let next = 10 * u64::from(value) + u64::from(*digit % 16);
        value = (next % 4_294_967_296) as u32;
    }
    value
}

/// Pushes the words of a text with these digits.
fn push_string(words: &mut Vec<u32>, digits: &[u8]) -> Result<(), AllocError>
    ensures { OnOk result (words.new.items ≡ words.old.items ++ words_of_digits digits.now) }
{
    let mut rest = digits;
    while rest.len() >= 8 {
        words.push(digits_word(rest))?;
        let (_, after) = rest.split_at(8);
        rest = after;
    }
    words.push(digits_word(rest))?;
    Ok(())
}

/// The word whose four bytes' digits stand at the front.
fn digits_word(digits: &[u8]) -> u32
    ensures { result ≡ spec.digits_word digits.now }
{
    byte_at(digits, 0)
        + 256 * byte_at(digits, 2)
        + 65_536 * byte_at(digits, 4)
        + 16_777_216 * byte_at(digits, 6)
}

/// The byte whose two digits stand at this place, or zero past the end.
fn byte_at(digits: &[u8], place: usize) -> u32
    requires { place < 8 }
    ensures value { result ≡ spec.byte_at place digits.now }
    ensures within { result < 256 }
{
    let high = digits.get(place).copied().unwrap_or(0);
    let low = digits.get(place + 1).copied().unwrap_or(0);
    (16 * hex_value(high) + hex_value(low)) % 256
}

/// The value of a hexadecimal digit.
fn hex_value(digit: u8) -> u32
    ensures value { result ≡ spec.hex_value digit }
    ensures within { result < 32 }
{
    let low = u32::from(digit % 16);
    if digit < 58 { low } else { low + 9 }
}
