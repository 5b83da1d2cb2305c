ghost use Rattle.std.specs.Prelude.{◌≡◌, ◌<◌, ◌≤◌, length, IfOk};
ghost use Rattle.spirv_model.specs.Module as spec;
ghost use Rattle.spv_words.specs.Writing.{AreShort, ReadsAgain};

use crate::Memory;
use limits::MAX_BOUND;
use spirv_model::{Inst, MAGIC, OPERAND_WORDS_LIMIT, VERSION};
use std::alloc::Global;

/// The words of a module with these instructions and this id bound (SPIR-V specification, section 2.3 "Physical Layout of
/// a SPIR-V Module and Instruction"): version 1.0, generator 0. `read_module` gives the instructions and the bound back,
/// where the words are a module and no opcode is skipped.
pub fn write_module(alloc: Global, insts: &[Inst], bound: u32) -> Result<Vec<u32>, Memory>
    requires short { AreShort insts.now }
    requires bound_least { 1 ≤ bound }
    requires bound_most { bound ≤ MAX_BOUND }
    ensures words { IfOk result (λ words. words.items ≡ spec.module_words insts.now bound) }
    ensures read_again { IfOk result (λ words. ReadsAgain insts.now bound words.items) }
{
    let mut words = Vec::from_slice(alloc, &[MAGIC, VERSION, 0, bound, 0])?;
    for inst in insts {
        words.push(first_word(inst))?;
        words.extend_from_slice(inst.words.as_slice())?;
    }
    Ok(words)
}

/// The first word of an instruction: its word count in the high half, and its opcode in the low half.
fn first_word(inst: &Inst) -> u32
    requires { length inst.now.words ≤ OPERAND_WORDS_LIMIT }
    ensures value { result ≡ spec.first_word inst.now }
    ensures opcode { inst.now.op < 65536 }
{
    let op = inst.op;
    (inst.words.as_slice().len() as u32 + 1) * 65_536 + u32::from(op)
}
