//! The words of an instruction, with other names for the ids among them that are neither its result nor the result's type.
ghost use Rattle.std.specs.Prelude.{◌≡◌, ◌++◌, map, is_some, IsSome, IfOk, OnOk};
ghost use Rattle.spirv_model.specs.Operands.{kinds, listed_of, operand_words, text_end};
ghost use Rattle.change_model.specs.Plans.{renamed_by, name_in};
ghost use Rattle.spv_rewrite.specs.Renaming.{Fit, PushesOperand, PushesText, all_left, cases_left, rest_left, words_left};

use crate::change::name_of;
use spirv_model::table::{Entry, Operand, Operands, Rest};
use spirv_model::{Inst, Items};
use spv_words::entry_of;
use std::alloc::{AllocError, Global};

/// The words of an instruction, which fit its operands, with these names.
#[tactic(auto, unfolding(spirv_model::specs::Operands::kinds))]
pub fn renamed_words(alloc: Global, names: &[u32], inst: &Inst) -> Result<Items<u32>, AllocError>
    requires { IsSome (kinds inst.now) }
    ensures { IfOk result (λ words. words
        ≡ renamed_by (name_in names.now) (kinds inst.now) inst.now.words) }
{
    match entry_of(inst.op) {
        Some(Entry::Listed(_, operands)) => {
            renamed_fitting(alloc, names, operands, inst.words.as_slice())
        }
        _ => Items::from_slice(alloc, inst.words.as_slice()),
    }
}

/// Words that fit these operands, with these names.
fn renamed_fitting(
    alloc: Global,
    names: &[u32],
    operands: &Operands,
    words: &[u32],
) -> Result<Items<u32>, AllocError>
    requires { Fit (listed_of operands.now) operands.now.rest words.now }
    ensures { IfOk result (λ list. list ≡ all_left (name_in names.now) operands.now words.now) }
{
    let (first, second, third, fourth, fifth) = operands.listed;
    let listed = [first, second, third, fourth, fifth];
    let mut list = Items::new(alloc);
    push_listed(&mut list, names, &listed, operands.rest, words)?;
    Ok(list)
}

/// Pushes words that fit these operands, which begin with the listed ones.
fn push_listed(
    list: &mut Items<u32>,
    names: &[u32],
    listed: &[Option<Operand>],
    rest: Rest,
    words: &[u32],
) -> Result<(), AllocError>
    requires { Fit listed.now rest words.now }
    ensures { OnOk result (list.new
        ≡ list.old ++ words_left (name_in names.now) listed.now rest words.now) }
{
    let Some((first, more)) = listed.split_first() else {
        return push_rest(list, names, rest, words);
    };
    let Some(operand) = *first else {
        return push_rest(list, names, rest, words);
    };
    let after = push_operand(list, names, operand, words)?;
    push_listed(list, names, more, rest, after)
}

/// Pushes the words at the front that stand for an operand, and gives those after them.
fn push_operand<'a>(
    list: &mut Items<u32>,
    names: &[u32],
    operand: Operand,
    words: &'a [u32],
) -> Result<&'a [u32], AllocError>
    requires { IsSome (operand_words operand words.now) }
    ensures { PushesOperand (name_in names.now) list.old list.new operand words.now result }
{
    let Some((first, after)) = words.split_first() else {
        return Ok(words);
    };
    match operand {
        Operand::LiteralString => return push_text(list, words),
        Operand::IdRef => list.push(name_of(names, *first))?,
        _ => list.push(*first)?,
    }
    Ok(after)
}

/// Pushes the words of the text at the front, and gives those after it.
fn push_text<'a>(list: &mut Items<u32>, words: &'a [u32]) -> Result<&'a [u32], AllocError>
    ensures { PushesText list.old list.new words.now result }
{
    let mut rest = words;
    while let Some((word, after)) = rest.split_first() {
        list.push(*word)?;
        if ends_text(*word) {
            return Ok(after);
        }
        rest = after;
    }
    Ok(rest)
}

/// Whether a word of a text has a zero byte.
fn ends_text(word: u32) -> bool
    ensures { result ≡ is_some (text_end word) }
{
    word % 256 == 0 || word / 256 % 256 == 0 || word / 65_536 % 256 == 0 || word / 16_777_216 == 0
}

/// Pushes the words after the listed operands.
fn push_rest(
    list: &mut Items<u32>,
    names: &[u32],
    rest: Rest,
    words: &[u32],
) -> Result<(), AllocError>
    ensures { OnOk result (list.new ≡ list.old ++ rest_left (name_in names.now) rest words.now) }
{
    match rest {
        Rest::IdRefs | Rest::PairsIdRefIdRef => push_ids(list, names, words),
        Rest::PairsLiteralIntegerIdRef => push_cases(list, names, words),
        Rest::Nothing | Rest::LiteralIntegers => push_literals(list, words),
    }
}

fn push_ids(list: &mut Items<u32>, names: &[u32], ids: &[u32]) -> Result<(), AllocError>
    ensures { OnOk result (list.new ≡ list.old ++ map (name_in names.now) ids.now) }
{
    for id in ids {
        list.push(name_of(names, *id))?;
    }
    Ok(())
}

fn push_literals(list: &mut Items<u32>, literals: &[u32]) -> Result<(), AllocError>
    ensures { OnOk result (list.new ≡ list.old ++ literals.now) }
{
    for literal in literals {
        list.push(*literal)?;
    }
    Ok(())
}

/// Pushes literals and ids by turns.
fn push_cases(list: &mut Items<u32>, names: &[u32], words: &[u32]) -> Result<(), AllocError>
    ensures { OnOk result (list.new ≡ list.old ++ cases_left (name_in names.now) words.now) }
{
    let mut rest = words;
    while let Some((literal, after)) = rest.split_first() {
        list.push(*literal)?;
        let Some((id, after)) = after.split_first() else {
            return Ok(());
        };
        list.push(name_of(names, *id))?;
        rest = after;
    }
    Ok(())
}
