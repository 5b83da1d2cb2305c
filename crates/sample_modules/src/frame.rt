//! What sample modules have in common.

use spirv_model::{Inst, Items, MAGIC, VERSION, Words, op};
use std::alloc::{AllocError, Global};

/// Instructions, each with its opcode and the words after its first.
pub type Listing = &'static [(u16, &'static [u32])];

/// The first eleven instructions of fragment modules that write a 32-bit unsigned integer, 3, at location 0, by the variable 5. The
/// constant 11 is 0.
pub const FRONT: [(u16, &[u32]); 11] = [
    (op::CAPABILITY, &[1]),
    (op::MEMORY_MODEL, &[0, 1]),
    (op::ENTRY_POINT, &[4, 7, 0x6e69616d, 0, 5]),
    (op::EXECUTION_MODE, &[7, 7]),
    (op::DECORATE, &[5, 30, 0]),
    (op::TYPE_VOID, &[1]),
    (op::TYPE_FUNCTION, &[2, 1]),
    (op::TYPE_INT, &[3, 32, 0]),
    (op::TYPE_POINTER, &[4, 3, 3]),
    (op::VARIABLE, &[4, 5, 3]),
    (op::CONSTANT, &[3, 11, 0]),
];

/// Adds instructions, each of at most 100 words after its first.
pub fn add(words: &mut Vec<u32>, insts: &[(u16, &[u32])]) -> Result<(), AllocError> {
    for (op, operands) in insts {
        let count = operands.len().min(100) as u32 + 1;
        words.push(count * 65_536 + u32::from(*op))?;
        words.extend_from_slice(operands)?;
    }
    Ok(())
}

/// The words of a module with these instructions, each of at most 100 words after its first.
pub fn words_of(
    alloc: Global,
    insts: &[(u16, &[u32])],
    bound: u32,
) -> Result<Vec<u32>, AllocError> {
    let mut words = Vec::from_slice(alloc, &[MAGIC, VERSION, 0, bound, 0])?;
    add(&mut words, insts)?;
    Ok(words)
}

/// The words of a module of [`FRONT`], these types and constants, and a function of this block. Its ids are below 50.
pub fn module(
    alloc: Global,
    types: &[(u16, &[u32])],
    block: &[(u16, &[u32])],
) -> Result<Vec<u32>, AllocError> {
    let mut words = words_of(alloc, &FRONT, 50)?;
    add(&mut words, types)?;
    add(
        &mut words,
        &[(op::FUNCTION, &[1, 7, 0, 2]), (op::LABEL, &[20])],
    )?;
    add(&mut words, block)?;
    add(&mut words, &[(op::RETURN, &[]), (op::FUNCTION_END, &[])])?;
    Ok(words)
}

/// The instruction with this opcode and these words after its first.
pub fn inst(alloc: Global, op: u16, words: &[u32]) -> Result<Inst, AllocError> {
    let words = Items::from_slice(alloc, words)?;
    Ok(Inst { op, words })
}

/// The list of these instructions, with a bound.
pub fn list_of(alloc: Global, listing: Listing, bound: u32) -> Result<Words, AllocError> {
    let mut insts = Items::new(alloc);
    for (op, words) in listing {
        insts.push(inst(alloc, *op, words)?)?;
    }
    Ok(Words { bound, insts })
}
