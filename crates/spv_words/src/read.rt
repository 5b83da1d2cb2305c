ghost use Rattle.std.specs.Prelude.{◌≡◌, ◌≤◌, length, IfOk};
ghost use Rattle.basics.specs.Answer.{IsAnswer};
ghost use Rattle.spirv_model.specs.Module as spec;
ghost use Rattle.spv_words.specs.Pieces.{IsListed};
ghost use Rattle.spv_words.specs.Writing.{AreShort};

use crate::operands::fit;
use crate::table::entry_of;
use limits::{MAX_BOUND, MODULE_WORDS};
use spirv_model::table::Entry;
use spirv_model::{HEADER_WORDS, Inst, Items, MAGIC, Words, WordsFault};
use std::alloc::Global;

/// The instructions of a module's words in their order, and its id bound (SPIR-V specification, section 2.3 "Physical
/// Layout of a SPIR-V Module and Instruction"). The first fault is answered: the header's, else that of the first
/// instruction that breaks a rule, by the order of `WordsFault`.
pub fn read_module(alloc: Global, words: &[u32]) -> Result<Words, WordsFault>
    ensures gives { IsAnswer spec.is_memory (spec.module_of words.now) result }
    ensures short { IfOk result (λ read. AreShort read.insts) }
{
    if !has_header(words) {
        return Err(WordsFault::BadHeader);
    }
    let (header, body) = words.split_at(HEADER_WORDS);
    let insts = list(alloc, body)?;
    Ok(Words {
        bound: header[3],
        insts,
    })
}

fn is_version(word: u32) -> bool
    ensures { result ≡ spec.is_version word }
{
    word % 256 == 0 && word / 65_536 == 1 && word / 256 % 256 <= 6
}

fn has_header(words: &[u32]) -> bool
    ensures { result ≡ spec.has_header words.now }
{
    let &[magic, version, _, bound, schema, ..] = words else {
        return false;
    };
    words.len() <= MODULE_WORDS
        && magic == MAGIC
        && is_version(version)
        && bound > 0
        && bound <= MAX_BOUND
        && schema == 0
}

/// The list of the words after the header.
fn list(alloc: Global, words: &[u32]) -> Result<Items<Inst>, WordsFault>
    requires { length words.now ≤ MODULE_WORDS }
    ensures gives { IsAnswer spec.is_memory (spec.list_of_cut 0 (spec.cut words.now)) result }
    ensures short { IfOk result (λ insts. AreShort insts) }
{
    let mut insts = Items::new(alloc);
    let mut rest = words;
    while let Some((first, after)) = rest.split_first() {
        let count = *first / 65_536;
        if count == 0 {
            return Err(WordsFault::ZeroLength);
        }
        let more = count as usize - 1;
        if after.len() < more {
            return Err(WordsFault::CutShort);
        }
        let (own, next) = after.split_at(more);
        rest = next;
        let op = (*first % 65_536) as u16;
        if !is_listed(op, own, insts.len() as u32)? {
            continue;
        }
        let words = Items::from_slice(alloc, own)?;
        insts.push(Inst { op, words })?;
    }
    Ok(insts)
}

/// Whether an instruction has a place in the list, which would be this one: a skipped one has none.
fn is_listed(op: u16, words: &[u32], place: u32) -> Result<bool, WordsFault>
    ensures { IsListed result place (record { op = op; words = words.now }) }
{
    match entry_of(op) {
        None => Err(WordsFault::UnknownOp(op)),
        Some(Entry::Skipped) => Ok(false),
        Some(Entry::Float) => Err(WordsFault::FloatType),
        Some(Entry::Listed(_, operands)) => {
            if !fit(operands, words) {
                return Err(WordsFault::BadShape(place));
            }
            Ok(true)
        }
    }
}
