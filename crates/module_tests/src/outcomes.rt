//! What the tests of runs have in common: what an invocation reads, and what it leaves.

use limits::{COMPONENTS, DESCRIPTOR_BINDINGS, DESCRIPTOR_SETS, ENTRIES, LOCATIONS, PUSH_WORDS};
use spv_check::check;
use spv_exec::{Ended, Kind, run_stage};
use sqlite_items::Items;
use stage_model::Inputs;
use state_model::{Buffers, Entry, SpecValues};
use std::alloc::{AllocError, Global};
use std::test::Fail;

/// How an invocation ended, its position, its words by location, and its work.
pub type Outcome = (Kind, [u32; COMPONENTS], [[u32; COMPONENTS]; LOCATIONS], u64);

/// The outcome of a run.
pub fn outcome(ended: &Ended) -> Outcome {
    (ended.kind, ended.position, ended.slots, ended.work)
}

/// An invocation that returned with these words at location 0.
pub fn done(words: [u32; COMPONENTS], work: u64) -> Outcome {
    let mut slots = [[0; COMPONENTS]; LOCATIONS];
    slots[0] = words;
    (Kind::Done, [0; COMPONENTS], slots, work)
}

/// An invocation that returned with this word at location 0.
pub fn one_word(word: u32, work: u64) -> Outcome {
    done([word, 0, 0, 0], work)
}

/// An invocation that left nothing.
pub fn nothing(kind: Kind, work: u64) -> Outcome {
    (kind, [0; COMPONENTS], [[0; COMPONENTS]; LOCATIONS], work)
}

/// Inputs of zeros, the front side, and no buffers bound.
pub fn no_inputs() -> Inputs {
    Inputs {
        slots: [[0; COMPONENTS]; LOCATIONS],
        vertex_index: 0,
        instance_index: 0,
        frag_coord: [0; COMPONENTS],
        front: true,
        push: [0; PUSH_WORDS as usize],
        uniforms: [[None; DESCRIPTOR_BINDINGS]; DESCRIPTOR_SETS],
    }
}

/// Inputs with these words at location 0.
pub fn at_first_location(words: [u32; COMPONENTS]) -> Inputs {
    let mut inputs = no_inputs();
    inputs.slots[0] = words;
    inputs
}

/// Inputs with buffer 0 bound at set 0 and binding 0.
pub fn first_buffer_bound() -> Inputs {
    let mut inputs = no_inputs();
    inputs.uniforms[0][0] = Some(0);
    inputs
}

/// No specialization entries.
pub fn no_entries() -> SpecValues {
    SpecValues {
        entries: [None; ENTRIES],
    }
}

/// One specialization entry.
pub fn entry(id: u32, value: u32) -> SpecValues {
    let mut entries = [None; ENTRIES];
    entries[0] = Some(Entry { id, value });
    SpecValues { entries }
}

/// A buffer of these words.
pub fn one_buffer(alloc: Global, words: &[u32]) -> Result<Buffers, AllocError> {
    let mut list = Items::new(alloc);
    list.push(Items::from_slice(alloc, words)?)?;
    Ok(Buffers { list })
}

/// The outcome of one run of a module with no buffers.
pub fn run_with(
    alloc: Global,
    words: &[u32],
    entries: &SpecValues,
    inputs: &Inputs,
) -> Result<Outcome, Fail> {
    let list = Items::new(alloc);
    run_over(alloc, words, entries, inputs, &Buffers { list })
}

/// The outcome of one run of a module.
pub fn run_over(
    alloc: Global,
    words: &[u32],
    entries: &SpecValues,
    inputs: &Inputs,
    buffers: &Buffers,
) -> Result<Outcome, Fail> {
    let module = check(alloc, words)?;
    let ended = run_stage(alloc, &module, entries, inputs, buffers)?;
    Ok(outcome(&ended))
}

/// The outcome of one run of a module with no entries, and inputs of zeros.
pub fn run_plain(alloc: Global, words: &[u32]) -> Result<Outcome, Fail> {
    run_on(alloc, words, &no_inputs())
}

/// The outcome of one run of a module with one specialization entry, and inputs of zeros.
pub fn run_with_entry(alloc: Global, words: &[u32], id: u32, value: u32) -> Result<Outcome, Fail> {
    run_with(alloc, words, &entry(id, value), &no_inputs())
}

/// The outcome of one run of a module with these inputs.
pub fn run_on(alloc: Global, words: &[u32], inputs: &Inputs) -> Result<Outcome, Fail> {
    run_with(alloc, words, &no_entries(), inputs)
}
