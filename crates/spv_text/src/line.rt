ghost use Rattle.std.specs.Prelude.{◌≡◌, ◌++◌, ◌<◌, IsSome, OnOk};
ghost use Rattle.std.specs.Fmt.{decimal};
ghost use Rattle.spirv_model.specs.Operands.{kinds, listed_of, operand_words};
ghost use Rattle.listing_model.specs.Listing as spec;
ghost use Rattle.spv_text.specs.Pieces.{Fit, PushesBytes, PushesOperand, PushesString, ids_text, literals_text, operand_text, others_text, pairs_text, rest_text, spaced};

use crate::names::name_of;
use itoa::Buffer;
use spirv_model::Inst;
use spirv_model::table::{Entry, Operand, Operands, Rest};
use spv_words::{entry_of, result};
use std::alloc::AllocError;

/// Pushes an instruction: its result's id, its name, and its other operands in the order of the words.
#[tactic(auto, unfolding(listing_model::specs::Listing::inst_text))]
pub fn push_inst(text: &mut Vec<u8>, inst: &Inst) -> Result<(), AllocError>
    requires { IsSome (kinds inst.now) }
    ensures { OnOk result (text.new.items ≡ text.old.items ++ spec.inst_text inst.now) }
{
    push_result(text, result(inst))?;
    if let Some(name) = name_of(inst.op) {
        text.extend_from_slice(name)?;
    }
    push_others(text, inst)?;
    Ok(())
}

fn push_result(text: &mut Vec<u8>, id: Option<u32>) -> Result<(), AllocError>
    ensures { OnOk result (text.new.items ≡ text.old.items ++ spec.result_text id) }
{
    let Some(id) = id else {
        return Ok(());
    };
    push_id(text, id)?;
    text.extend_from_slice(b" = ")?;
    Ok(())
}

fn push_id(text: &mut Vec<u8>, id: u32) -> Result<(), AllocError>
    ensures { OnOk result (text.new.items ≡ text.old.items ++ spec.id_text id) }
{
    text.push(b'%')?;
    push_decimal(text, id)?;
    Ok(())
}

/// Pushes the decimal digits of a number.
pub fn push_decimal(text: &mut Vec<u8>, number: u32) -> Result<(), AllocError>
    ensures { OnOk result (text.new.items ≡ text.old.items ++ decimal number) }
{
    let mut buffer = Buffer::new();
    text.extend_from_slice(buffer.format(number).as_bytes())?;
    Ok(())
}

/// Pushes the fields of an instruction's words.
fn push_others(text: &mut Vec<u8>, inst: &Inst) -> Result<(), AllocError>
    requires { IsSome (kinds inst.now) }
    ensures { OnOk result (text.new.items ≡ text.old.items ++ others_text inst.now) }
{
    match entry_of(inst.op) {
        Some(Entry::Listed(_, operands)) => push_fields(text, operands, inst.words.as_slice()),
        _ => Ok(()),
    }
}

/// Pushes the fields of words that fit these operands.
fn push_fields(text: &mut Vec<u8>, operands: &Operands, words: &[u32]) -> Result<(), AllocError>
    requires { Fit (listed_of operands.now) operands.now.rest words.now }
    ensures { OnOk result (text.new.items ≡ text.old.items ++ operand_text operands.now words.now) }
{
    let (first, second, third, fourth, fifth) = operands.listed;
    let listed = [first, second, third, fourth, fifth];
    push_listed(text, &listed, operands.rest, words)
}

/// Pushes the fields of words that fit these operands, which begin with the listed ones.
fn push_listed(
    text: &mut Vec<u8>,
    listed: &[Option<Operand>],
    rest: Rest,
    words: &[u32],
) -> Result<(), AllocError>
    requires { Fit listed.now rest words.now }
    ensures { OnOk result (text.new.items ≡ text.old.items ++ spaced listed.now rest words.now) }
{
    let Some((first, more)) = listed.split_first() else {
        return push_rest(text, rest, words);
    };
    let Some(operand) = *first else {
        return push_rest(text, rest, words);
    };
    let after = push_operand(text, operand, words)?;
    push_listed(text, more, rest, after)
}

/// Pushes the fields of the words at the front that stand for an operand, and gives the words after them.
fn push_operand<'a>(
    text: &mut Vec<u8>,
    operand: Operand,
    words: &'a [u32],
) -> Result<&'a [u32], AllocError>
    requires { IsSome (operand_words operand words.now) }
    ensures { PushesOperand text.old.items text.new.items operand words.now result }
{
    let Some((first, after)) = words.split_first() else {
        return Ok(words);
    };
    match operand {
        Operand::IdResult => {}
        Operand::IdResultType | Operand::IdRef => {
            text.push(b' ')?;
            push_id(text, *first)?;
        }
        Operand::LiteralInteger | Operand::Fixed(_) => {
            text.push(b' ')?;
            push_decimal(text, *first)?;
        }
        Operand::LiteralString => {
            text.extend_from_slice(b" x")?;
            return push_string(text, words);
        }
    }
    Ok(after)
}

/// Pushes the digits of the text at the front, and gives the words after it.
fn push_string<'a>(text: &mut Vec<u8>, words: &'a [u32]) -> Result<&'a [u32], AllocError>
    ensures { PushesString text.old.items text.new.items words.now result }
{
    let mut rest = words;
    while let Some((word, after)) = rest.split_first() {
        if push_word(text, *word)? {
            return Ok(after);
        }
        rest = after;
    }
    Ok(rest)
}

/// Pushes the digits of a word's bytes up to the first zero byte, and tells whether there is one.
fn push_word(text: &mut Vec<u8>, word: u32) -> Result<bool, AllocError>
    ensures { PushesBytes text.old.items text.new.items (spec.bytes_of word) result }
{
    let bytes = [
        (word % 256) as u8,
        (word / 256 % 256) as u8,
        (word / 65_536 % 256) as u8,
        (word / 16_777_216) as u8,
    ];
    push_bytes(text, &bytes)
}

/// Pushes the digits of bytes up to the first zero byte, and tells whether there is one.
fn push_bytes(text: &mut Vec<u8>, bytes: &[u8]) -> Result<bool, AllocError>
    ensures { PushesBytes text.old.items text.new.items bytes.now result }
{
    for byte in bytes {
        if *byte == 0 {
            return Ok(true);
        }
        text.extend_from_slice(&[hex_digit(*byte / 16), hex_digit(*byte % 16)])?;
    }
    Ok(false)
}

/// The character of a hexadecimal digit.
fn hex_digit(value: u8) -> u8
    requires { value < 16 }
    ensures { result ≡ spec.hex_digit value }
{
    if value < 10 {
        b'0' + value
    } else {
        b'a' + (value - 10)
    }
}

/// Pushes the fields of the words after the listed operands.
fn push_rest(text: &mut Vec<u8>, rest: Rest, words: &[u32]) -> Result<(), AllocError>
    ensures { OnOk result (text.new.items ≡ text.old.items ++ rest_text rest words.now) }
{
    match rest {
        Rest::Nothing => Ok(()),
        Rest::IdRefs => push_ids(text, words),
        Rest::LiteralIntegers => push_literals(text, words),
        Rest::PairsIdRefIdRef => push_ids(text, words),
        Rest::PairsLiteralIntegerIdRef => push_pairs(text, words),
    }
}

fn push_ids(text: &mut Vec<u8>, ids: &[u32]) -> Result<(), AllocError>
    ensures { OnOk result (text.new.items ≡ text.old.items ++ ids_text ids.now) }
{
    for id in ids {
        text.push(b' ')?;
        push_id(text, *id)?;
    }
    Ok(())
}

fn push_literals(text: &mut Vec<u8>, literals: &[u32]) -> Result<(), AllocError>
    ensures { OnOk result (text.new.items ≡ text.old.items ++ literals_text literals.now) }
{
    for literal in literals {
        text.push(b' ')?;
        push_decimal(text, *literal)?;
    }
    Ok(())
}

/// Pushes literals and ids by turns.
fn push_pairs(text: &mut Vec<u8>, words: &[u32]) -> Result<(), AllocError>
    ensures { OnOk result (text.new.items ≡ text.old.items ++ pairs_text words.now) }
{
    let mut rest = words;
    while let Some((literal, after)) = rest.split_first() {
        text.push(b' ')?;
        push_decimal(text, *literal)?;
        let Some((id, after)) = after.split_first() else {
            return Ok(());
        };
        text.push(b' ')?;
        push_id(text, *id)?;
        rest = after;
    }
    Ok(())
}
