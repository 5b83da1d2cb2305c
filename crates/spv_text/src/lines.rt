ghost use Rattle.std.specs.Prelude.{◌≡◌, ◌+◌, ◌++◌, ◌≤◌, [], IfOk, OnOk, bytes_eq, is_some, length};
ghost use Rattle.basics.specs.Answer.{IsAnswer};
ghost use Rattle.spirv_model.specs.Module.{module_words, words_of};
ghost use Rattle.spirv_model.specs.Operands.{kinds};
ghost use Rattle.listing_model.specs.Listing.{head_text};
ghost use Rattle.listing_model.specs.Meaning.{IsListing};
ghost use Rattle.listing_model.specs.Spelling.{is_text_of};
ghost use Rattle.listing_model.specs.Assembly as spec;
ghost use Rattle.spv_text.specs.Answers.{GivesListed, GivesWords};
ghost use Rattle.spv_text.specs.Steps.{HeadGives, head_in, inst_in};

use crate::fields::{line_inst, number};
use crate::line::push_inst;
use crate::list::push_head;
use crate::parts::Parts;
use limits::{MAX_BOUND, MODULE_WORDS};
use listing_model::{LISTING_BYTES, TextCause, TextFault};
use spirv_model::table::Entry;
use spirv_model::{Inst, MAGIC, VERSION};
use spv_words::{entry_of, fit};
use std::alloc::{AllocError, Global};

/// The words of the module that a listing is of, or the first faulty line and on it the first cause.
pub fn assemble(alloc: Global, bytes: &[u8]) -> Result<Vec<u32>, TextFault>
    ensures gives { GivesWords (spec.assembled bytes.now) result }
    ensures listing { IfOk result (λ words. IsListing bytes.now words.items) }
    ensures complete { GivesListed bytes.now result }
{
    assembled_words(alloc, bytes)
}

/// The words that come of these bytes, or the first faulty line and on it the first cause.
fn assembled_words(alloc: Global, bytes: &[u8]) -> Result<Vec<u32>, TextFault>
    ensures gives { GivesWords (spec.assembled bytes.now) result }
{
    if bytes.len() > LISTING_BYTES {
        return Err(TextFault {
            line: 0,
            cause: TextCause::TooLong,
        });
    }
    let mut lines = Parts::new(bytes, b'\n');
    let bound = match head_line(alloc, &mut lines) {
        Ok(bound) => bound,
        Err(cause) => return Err(TextFault { line: 1, cause }),
    };
    match header(alloc, bound) {
        Ok(words) => assemble_lines(alloc, words, &mut lines),
        Err(_) => Err(TextFault {
            line: 1,
            cause: TextCause::Memory,
        }),
    }
}

/// The header of a module with this id bound.
fn header(alloc: Global, bound: u32) -> Result<Vec<u32>, AllocError>
    ensures { IfOk result (λ words. words.items ≡ module_words [] bound) }
{
    let words = Vec::from_slice(alloc, &[MAGIC, VERSION, 0, bound, 0])?;
    Ok(words)
}

/// The id bound of the first line.
fn head_line(alloc: Global, lines: &mut Parts<'_>) -> Result<u32, TextCause>
    ensures gives { HeadGives result lines.old lines.new }
    ensures fewer { length lines.new ≤ length lines.old }
{
    let Some((text, ended)) = lines.next_line() else {
        return Err(TextCause::NoHead);
    };
    head_gives(alloc, text, ended)
}

/// The id bound of a first line, or the first cause for which it is faulty.
#[tactic(auto, unfolding(listing_model::specs::Assembly::head_gives))]
fn head_gives(alloc: Global, text: &[u8], ended: bool) -> Result<u32, TextCause>
    ensures { IsAnswer spec.is_memory (head_in text.now ended) result }
{
    if !ended {
        return Err(TextCause::NoEnd);
    }
    let bound = head_bound(text);
    if !is_head(alloc, bound, text)? {
        return Err(TextCause::NoHead);
    }
    if bound == 0 {
        return Err(TextCause::NoHead);
    }
    if bound > MAX_BOUND {
        return Err(TextCause::NoHead);
    }
    Ok(bound)
}

/// The id bound that the first line speaks of, behind its first seven characters.
fn head_bound(text: &[u8]) -> u32
    ensures { result ≡ spec.head_bound text.now }
{
    let (_, digits) = text.split_at(text.len().min(7));
    number(digits)
}

/// Whether this is the text of the first line with this id bound.
fn is_head(alloc: Global, bound: u32, text: &[u8]) -> Result<bool, AllocError>
    ensures { IfOk result (λ same. same ≡ bytes_eq text.now (head_text bound)) }
{
    let mut own = Vec::new(alloc);
    push_head(&mut own, bound)?;
    Ok(own.as_slice() == text)
}

/// The words behind these that come of the lines that are left, from the second one on.
fn assemble_lines(
    alloc: Global,
    words: Vec<u32>,
    lines: &mut Parts<'_>,
) -> Result<Vec<u32>, TextFault>
    requires few { length words.items ≤ MODULE_WORDS }
    requires lines { length lines.old ≤ LISTING_BYTES + 1 }
    ensures { GivesWords (spec.assembled_from 2 words.items (spec.lines_in lines.old)) result }
{
    let mut words = words;
    let mut line = 1;
    while let Some((text, ended)) = lines.next_line() {
        line += 1;
        let added = match line_gives(alloc, words.len(), text, ended) {
            Ok(inst) => push_words(&mut words, &inst),
            Err(cause) => return Err(TextFault { line, cause }),
        };
        if added.is_err() {
            return Err(TextFault {
                line,
                cause: TextCause::Memory,
            });
        }
    }
    Ok(words)
}

/// Pushes an instruction's words.
fn push_words(words: &mut Vec<u32>, inst: &Inst) -> Result<(), AllocError>
    requires { length inst.now.words ≤ MODULE_WORDS }
    ensures { OnOk result (words.new.items ≡ words.old.items ++ words_of inst.now) }
{
    let op = inst.op;
    let first = (inst.words.len() as u32 + 1) * 65_536 + u32::from(op);
    words.push(first)?;
    words.extend_from_slice(inst.words.as_slice())?;
    Ok(())
}

/// The instruction of a line behind so many words, or the first cause for which the line is faulty.
fn line_gives(alloc: Global, before: usize, text: &[u8], ended: bool) -> Result<Inst, TextCause>
    requires { before ≤ MODULE_WORDS }
    ensures gives { IsAnswer spec.is_memory (inst_in before text.now ended) result }
    ensures few { IfOk result (λ inst. before + 1 + length inst.words ≤ MODULE_WORDS) }
{
    if !ended {
        return Err(TextCause::NoEnd);
    }
    let Some(inst) = line_inst(alloc, text)? else {
        return Err(TextCause::NoName);
    };
    if !is_text_of(alloc, &inst, text)? {
        return Err(TextCause::BadOperands);
    }
    if before + 1 + inst.words.len() > MODULE_WORDS {
        return Err(TextCause::TooManyWords);
    }
    Ok(inst)
}

/// Whether this is the instruction's text, and its words fit its operands.
fn is_text_of(alloc: Global, inst: &Inst, text: &[u8]) -> Result<bool, AllocError>
    ensures { IfOk result (λ same. same ≡ is_text_of inst.now text.now) }
{
    if !fits(inst) {
        return Ok(false);
    }
    let mut own = Vec::new(alloc);
    push_inst(&mut own, inst)?;
    Ok(own.as_slice() == text)
}

/// Whether an instruction's words fit its operands.
#[tactic(auto, unfolding(spirv_model::specs::Operands::kinds))]
fn fits(inst: &Inst) -> bool
    ensures { result ≡ is_some (kinds inst.now) }
{
    match entry_of(inst.op) {
        Some(Entry::Listed(_, operands)) => fit(operands, inst.words.as_slice()),
        _ => false,
    }
}
