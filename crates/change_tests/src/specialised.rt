//! What tests of specialised modules have in common: a module is specialised, and does what it did.

use limits::{COMPONENTS, DESCRIPTOR_BINDINGS, DESCRIPTOR_SETS, ENTRIES, LOCATIONS, PUSH_WORDS};
use spec_fold::specialise;
use spv_check::{Module, check};
use spv_exec::{Ended, Kind, run_stage};
use spv_words::write_module;
use sqlite_items::Items;
use stage_model::Inputs;
use state_model::{Buffers, Entry, SpecValues};
use std::alloc::{AllocError, Global};
use std::test::Fail;

/// How an invocation ended, its first word at location 0, and its work.
pub type Outcome = (Kind, u32, u64);

pub fn outcome(ended: &Ended) -> Outcome {
    (ended.kind, ended.slots[0][0], ended.work)
}

/// No specialization entries.
pub fn no_entries() -> SpecValues {
    SpecValues {
        entries: [None; ENTRIES],
    }
}

/// One specialization entry.
pub fn entry(id: u32, value: u32) -> SpecValues {
    let mut entries = [None; ENTRIES];
    entries[0] = Some(Entry { id, value });
    SpecValues { entries }
}

/// Inputs of zeros, the front side, and one buffer bound.
pub fn no_inputs() -> Inputs {
    let mut uniforms = [[None; DESCRIPTOR_BINDINGS]; DESCRIPTOR_SETS];
    uniforms[0][0] = Some(0);
    Inputs {
        slots: [[0; COMPONENTS]; LOCATIONS],
        vertex_index: 0,
        instance_index: 0,
        frag_coord: [0; COMPONENTS],
        front: true,
        push: [0; PUSH_WORDS as usize],
        uniforms,
    }
}

/// A buffer of one word.
pub fn one_word_buffer(alloc: Global, word: u32) -> Result<Buffers, AllocError> {
    let mut list = Items::new(alloc);
    list.push(Items::from_slice(alloc, &[word])?)?;
    Ok(Buffers { list })
}

/// What is written of a module.
pub fn written(alloc: Global, module: &Module) -> Result<Vec<u32>, Fail> {
    Ok(write_module(alloc, module.insts(), module.bound())?)
}

/// The words of a module that is specialised, which are a valid module again.
pub fn specialised(
    alloc: Global,
    words: &[u32],
    values: &SpecValues,
    zeros: &[u32],
) -> Result<Vec<u32>, Fail> {
    let module = check(alloc, words)?;
    let new = specialise(alloc, &module, values, zeros)?;
    let words = written(alloc, &new)?;
    let _ = check(alloc, words.as_slice())?;
    Ok(words)
}

/// The outcome of one run of a module, on inputs of zeros and a buffer with 100.
pub fn run(alloc: Global, words: &[u32], values: &SpecValues) -> Result<Outcome, Fail> {
    let module = check(alloc, words)?;
    let buffers = one_word_buffer(alloc, 100)?;
    let ended = run_stage(alloc, &module, values, &no_inputs(), &buffers)?;
    Ok(outcome(&ended))
}

/// The next of a row of words that are spread over all numbers.
fn next_word(word: u32) -> u32 {
    word.wrapping_mul(1_664_525).wrapping_add(1_013_904_223)
}

/// Inputs made of a number, with zeros at these locations.
fn inputs_from(number: u32, zeros: &[u32]) -> Inputs {
    let mut inputs = no_inputs();
    let mut word = next_word(number);
    for location in 0..LOCATIONS {
        for component in 0..COMPONENTS {
            word = next_word(word);
            if !zeros.contains(&(location as u32)) {
                inputs.slots[location][component] = word >> (number % 32);
            }
        }
    }
    inputs.vertex_index = number;
    inputs.instance_index = word;
    inputs.frag_coord = [number, number / 3, word, 1];
    inputs.front = number % 3 == 0;
    for push in 0..PUSH_WORDS as usize {
        word = next_word(word);
        inputs.push[push] = word >> (number % 32);
    }
    inputs
}

/// Whether a module does on a hundred inputs, whatever entries it is given, what another one does with these, in at most as many
/// steps.
pub fn does_as(
    alloc: Global,
    new: &[u32],
    old: &[u32],
    values: &SpecValues,
    zeros: &[u32],
) -> Result<bool, Fail> {
    let (new, old) = (check(alloc, new)?, check(alloc, old)?);
    for number in 0..100 {
        let inputs = inputs_from(number, zeros);
        let buffers = one_word_buffer(alloc, next_word(number))?;
        let any = entry(number % 4, number);
        let before = run_stage(alloc, &old, values, &inputs, &buffers)?;
        let after = run_stage(alloc, &new, &any, &inputs, &buffers)?;
        if after.kind != before.kind
            || after.position != before.position
            || after.slots != before.slots
            || after.work > before.work
        {
            return Ok(false);
        }
    }
    Ok(true)
}

/// How a module ends as it is and specialised, and whether both do the same on a hundred inputs.
pub fn both(
    alloc: Global,
    words: &[u32],
    values: &SpecValues,
    zeros: &[u32],
) -> Result<(Outcome, Outcome, bool), Fail> {
    let (before, after, _) = once(alloc, words, values, zeros)?;
    let new = specialised(alloc, words, values, zeros)?;
    let same = does_as(alloc, new.as_slice(), words, values, zeros)?;
    Ok((before, after, same))
}

/// What [`both`] gives, on inputs of zeros alone.
pub fn once(
    alloc: Global,
    words: &[u32],
    values: &SpecValues,
    zeros: &[u32],
) -> Result<(Outcome, Outcome, bool), Fail> {
    let new = specialised(alloc, words, values, zeros)?;
    let before = run(alloc, words, values)?;
    let after = run(alloc, new.as_slice(), &no_entries())?;
    Ok((before, after, true))
}

/// What [`both`] gives where a word is left, by so many steps before and after.
pub fn leaves(word: u32, before: u64, after: u64) -> (Outcome, Outcome, bool) {
    let ended = |work| (Kind::Done, word, work);
    (ended(before), ended(after), true)
}

/// What [`both`] gives where nothing is left.
pub fn ends(kind: Kind, before: u64, after: u64) -> (Outcome, Outcome, bool) {
    ((kind, 0, before), (kind, 0, after), true)
}
