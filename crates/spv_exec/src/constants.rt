ghost use Rattle.spirv_model.specs.Operands.{word_at, words_from};
ghost use Rattle.std.specs.Prelude.{◌≡◌, ◌+◌, ◌<◌, false, true, List, [], ◌∷◌, Some, IfOk, replicate, length};
ghost use Rattle.stage_model.specs.Program.{program_of};
ghost use Rattle.stage_model.specs.Stage.{first_label};
ghost use Rattle.stage_model.specs.Start as start;
ghost use Rattle.std.specs.Option.{unwrap_or};
ghost use Rattle.stage_model.specs.Value.{Value, word_of_truth, words_of};
ghost use Rattle.typed_model.specs.Modules.{IsFront};
ghost use Rattle.valid_model.specs.Definitions.{inst_at};
ghost use Rattle.spv_exec.specs.FirstFrames as first;
ghost use Rattle.spv_exec.specs.FirstFrames.{AreShownWords, DefinesWord, IsDefined, IsFirstFrame};

use crate::accesses::{clear_words, put, word_of};
use crate::composites::gather_words;
use crate::module_frame::ModuleFrame;
use crate::operations::scalar_word;
use crate::origins::spec_id;
use limits::ENTRIES;
use spirv_model::{Inst, op};
use state_model::{Entry, SpecValues};
use std::alloc::{AllocError, Global};

/// The frame where the function begins, at the first label: the values of the module's level, for these specialization entries.
pub fn first_frame(
    alloc: Global,
    of: &ModuleFrame<'_>,
    first: usize,
    values: &SpecValues,
) -> Result<Vec<u32>, AllocError>
    requires { first_label of.now.insts ≡ Some first }
    ensures { IfOk result
        (λ frame. IsFirstFrame (program_of of.now.insts) values.now first frame.items) }
{
    let _module = of.module();
    let mut frame = zeros(alloc, of.frame_place(of.count()))?;
    for place in 0..first {
        define(of, place, values, frame.as_mut_slice());
    }
    Ok(frame)
}

/// So many zeros.
pub fn zeros(alloc: Global, count: usize) -> Result<Vec<u32>, AllocError>
    ensures { IfOk result (λ words. words.items ≡ replicate count 0) }
{
    let mut words = Vec::new(alloc);
    for _ in 0..count {
        words.push(0)?;
    }
    Ok(words)
}

/// Writes the value that the instruction at a place of the module's level gives its result, if it gives one.
fn define(of: &ModuleFrame<'_>, place: usize, values: &SpecValues, frame: &mut [u32])
    requires within { place < length of.now.insts }
    requires front { IsFront of.now (place + 1) }
    requires before { IsDefined of.now.insts values.now place frame.old }
    ensures { IsDefined of.now.insts values.now (place + 1) frame.new }
{
    let _module = of.module();
    let inst = of.inst(place);
    if !defines_value(inst.op) {
        return;
    }
    let at = of.frame_place(place);
    if defines_zeros(inst.op) {
        clear_words(frame, at, of.frame_words(place));
        return;
    }
    if defines_composite(inst.op) {
        let (front, to) = frame.split_at_mut(at);
        gather_words(of, front, inst.words_from(2), to);
        return;
    }
    let word = defined_word(of, place, values, frame);
    put(frame, at, word);
}

/// The instruction gives its result a value, on the module's level.
fn defines_value(op: u16) -> bool
    ensures { result ≡ first.defines_value op }
{
    matches!(
        op,
        op::CONSTANT_TRUE
            | op::CONSTANT_FALSE
            | op::CONSTANT
            | op::SPEC_CONSTANT_TRUE
            | op::SPEC_CONSTANT_FALSE
            | op::SPEC_CONSTANT
            | op::SPEC_CONSTANT_OP
            | op::VARIABLE
    ) || defines_zeros(op)
        || defines_composite(op)
}

/// All words of the value are zeros.
fn defines_zeros(op: u16) -> bool
    ensures { result ≡ first.defines_zeros op }
{
    op == op::CONSTANT_NULL || op == op::UNDEF
}

/// The value is made of other values.
fn defines_composite(op: u16) -> bool
    ensures { result ≡ first.defines_composite op }
{
    op == op::CONSTANT_COMPOSITE || op == op::SPEC_CONSTANT_COMPOSITE
}

/// The word of a value that is one.
fn defined_word(of: &ModuleFrame<'_>, place: usize, values: &SpecValues, frame: &[u32]) -> u32
    requires within { place < length of.now.insts }
    requires value { first.defines_value (inst_at of.now.insts place).op ≡ true }
    requires zeros { first.defines_zeros (inst_at of.now.insts place).op ≡ false }
    requires composite { first.defines_composite (inst_at of.now.insts place).op ≡ false }
    requires before { IsDefined of.now.insts values.now place frame.now }
    ensures { DefinesWord of.now.insts values.now place result }
{
    let _module = of.module();
    let inst = of.inst(place);
    if inst.op == op::VARIABLE {
        return of.memory_place(place) as u32;
    }
    if inst.op == op::CONSTANT {
        return inst.word(2);
    }
    if inst.op == op::CONSTANT_TRUE {
        return 1;
    }
    if inst.op == op::SPEC_CONSTANT_TRUE {
        return truth_word(of, values, inst.word(1), 1);
    }
    if inst.op == op::SPEC_CONSTANT_FALSE {
        return truth_word(of, values, inst.word(1), 0);
    }
    if inst.op == op::SPEC_CONSTANT {
        return number_word(of, values, inst.word(1), inst.word(2));
    }
    if inst.op == op::SPEC_CONSTANT_OP {
        return operation_word(of, inst, frame);
    }
    0
}

/// The word of a truth value that specialization may set.
fn truth_word(of: &ModuleFrame<'_>, values: &SpecValues, id: u32, default: u32) -> u32
    ensures { result ≡ word_of_truth (start.is_nonzero
        (unwrap_or (start.specialized (program_of of.now.insts) values.now id) default)) }
{
    if specialized(of, values, id).unwrap_or(default) == 0 {
        0
    } else {
        1
    }
}

/// The word of a number that specialization may set.
fn number_word(of: &ModuleFrame<'_>, values: &SpecValues, id: u32, default: u32) -> u32
    ensures { result
        ≡ unwrap_or (start.specialized (program_of of.now.insts) values.now id) default }
{
    specialized(of, values, id).unwrap_or(default)
}

/// The word of an OpSpecConstantOp.
fn operation_word(of: &ModuleFrame<'_>, inst: &Inst, frame: &[u32]) -> u32
    ensures { (read : List Value) (value : Value)
        → AreShownWords of.now.insts frame.now (words_from 3 inst.now) read
        → start.scalar_value (word_at 2 inst.now) read ≡ Some value → words_of value ≡ Some (result ∷ []) }
{
    let opcode = inst.word(2);
    let ids = inst.words_from(3);
    if ids.len() == 1 {
        return scalar_word(opcode, &[word_of(of, frame, ids[0])]);
    }
    if ids.len() == 2 {
        let words = [word_of(of, frame, ids[0]), word_of(of, frame, ids[1])];
        return scalar_word(opcode, &words);
    }
    if ids.len() == 3 {
        let words = [
            word_of(of, frame, ids[0]),
            word_of(of, frame, ids[1]),
            word_of(of, frame, ids[2]),
        ];
        return scalar_word(opcode, &words);
    }
    0
}

/// The word that specialization gives an id, by its SpecId.
fn specialized(of: &ModuleFrame<'_>, values: &SpecValues, id: u32) -> Option<u32>
    ensures { result ≡ start.specialized (program_of of.now.insts) values.now id }
{
    match spec_id(of, id) {
        Some(number) => entry_word(&values.entries, number),
        None => None,
    }
}

/// The word of the first entry with this id.
fn entry_word(entries: &[Option<Entry>; ENTRIES], id: u32) -> Option<u32>
    ensures { result ≡ start.entry_word entries.now id }
{
    for entry in entries {
        if let Some(word) = entry_value(entry, id) {
            return Some(word);
        }
    }
    None
}

fn entry_value(entry: &Option<Entry>, id: u32) -> Option<u32>
    ensures { result ≡ first.entry_value entry.now id }
{
    match entry {
        Some(entry) if entry.id == id => Some(entry.value),
        _ => None,
    }
}
