//! Runs of shaders that glslang compiled. What they leave is worked out from their source; their work is the number of
//! instructions from each label to its block's end, counted by hand.

use crate::outcomes::{
    Outcome, at_first_location, done, entry, first_buffer_bound, no_entries, no_inputs, nothing,
    one_buffer, one_word, run_on, run_over, run_with,
};
use sample_modules::shader_words::{
    FLAT_INPUTS, LOOP, NESTED, PUSH_CONSTANTS, SWITCH, UNIFORM_BLOCK, VERTEX_OUTPUTS,
};
use spv_exec::Kind;
use stage_model::Inputs;
use std::alloc::Global;
use std::test::Fail;

/// -1.
const MINUS_ONE: u32 = 0xffff_ffff;

/// What stands at the first two locations, seen from one side.
fn seen_from(front: bool) -> Inputs {
    let mut inputs = at_first_location([20, 5, 6, 0]);
    inputs.slots[1] = [8, 0, 0, 0];
    inputs.front = front;
    inputs
}

#[test]
fn the_side_that_is_seen_chooses(rt: HostRuntime) -> Result<(), Fail> {
    let front = run_on(rt.alloc(), &FLAT_INPUTS, &seen_from(true))?;
    let back = run_on(rt.alloc(), &FLAT_INPUTS, &seen_from(false))?;
    assert_eq!(rt; front, done([20, 5, 6, 6], 24));
    assert_eq!(rt; back, done([8, 5, 6, 1], 23));
    Ok(())
}

/// The sum of the numbers below a limit that aren't multiples of three.
fn sum_below(alloc: Global, limit: u32) -> Result<Outcome, Fail> {
    let mut inputs = no_inputs();
    inputs.push[0] = limit;
    run_on(alloc, &LOOP, &inputs)
}

#[test]
fn a_loop_is_broken_and_continued(rt: HostRuntime) -> Result<(), Fail> {
    assert_eq!(rt; sum_below(rt.alloc(), 0)?, one_word(0, 19));
    assert_eq!(rt; sum_below(rt.alloc(), 10)?, one_word(27, 271));
    assert_eq!(rt; sum_below(rt.alloc(), 1000)?, one_word(108, 487));
    Ok(())
}

/// The middle one of three words.
fn middle(alloc: Global, x: u32, y: u32, z: u32) -> Result<Outcome, Fail> {
    run_on(alloc, &NESTED, &at_first_location([x, y, z, 0]))
}

#[test]
fn each_way_through_selections_finds_the_middle_one(rt: HostRuntime) -> Result<(), Fail> {
    assert_eq!(rt; middle(rt.alloc(), MINUS_ONE, 0, 1)?, one_word(0, 29));
    assert_eq!(rt; middle(rt.alloc(), 1, 3, 2)?, one_word(2, 39));
    assert_eq!(rt; middle(rt.alloc(), 2, 3, 1)?, one_word(2, 39));
    assert_eq!(rt; middle(rt.alloc(), 2, 1, 3)?, one_word(2, 29));
    assert_eq!(rt; middle(rt.alloc(), 3, 1, 2)?, one_word(2, 41));
    assert_eq!(rt; middle(rt.alloc(), 3, 2, 1)?, one_word(2, 41));
    Ok(())
}

#[test]
fn push_constants_are_mixed_by_a_mask(rt: HostRuntime) -> Result<(), Fail> {
    let mut inputs = no_inputs();
    inputs.push[0] = 0x0000_ffff;
    inputs.push[2] = 0x1234_5678;
    inputs.push[3] = 0xffff_ffff;
    inputs.push[4] = 0x9abc_def0;
    inputs.push[5] = 0x0001_0001;
    let expected = done([0x9abc_5678, 0x0001_ffff, 0, 0], 25);
    assert_eq!(rt; run_on(rt.alloc(), &PUSH_CONSTANTS, &inputs)?, expected);
    Ok(())
}

/// The outcome for a number.
fn case_of(alloc: Global, number: u32) -> Result<Outcome, Fail> {
    run_on(alloc, &SWITCH, &at_first_location([number, 0, 0, 0]))
}

#[test]
fn a_switch_has_cases_and_a_default(rt: HostRuntime) -> Result<(), Fail> {
    assert_eq!(rt; case_of(rt.alloc(), 0)?, one_word(2, 12));
    assert_eq!(rt; case_of(rt.alloc(), 1)?, one_word(5, 12));
    assert_eq!(rt; case_of(rt.alloc(), 5)?, one_word(5, 12));
    assert_eq!(rt; case_of(rt.alloc(), 0xffff_fffd)?, nothing(Kind::Killed, 7));
    assert_eq!(rt; case_of(rt.alloc(), 7)?, one_word(0xffff_fff9, 14));
    let fifth = at_first_location([5, 0, 0, 0]);
    assert_eq!(rt;
        run_with(rt.alloc(), &SWITCH, &entry(4, 3), &fifth)?,
        one_word(3, 12)
    );
    Ok(())
}

/// The outcome over a buffer of these words.
fn table_entry(alloc: Global, words: &[u32]) -> Result<Outcome, Fail> {
    let buffers = one_buffer(alloc, words)?;
    run_over(
        alloc,
        &UNIFORM_BLOCK,
        &no_entries(),
        &first_buffer_bound(),
        &buffers,
    )
}

#[test]
fn a_table_is_read_as_far_as_its_buffer_goes(rt: HostRuntime) -> Result<(), Fail> {
    let (whole, short) = (
        [1, 10, 0, 0, 1, 2, 3, 4, 5, 6, 7, 8],
        [1, 10, 0, 0, 1, 2, 3, 4, 5, 6, 7],
    );
    assert_eq!(rt; table_entry(rt.alloc(), &whole)?, done([50, 8, 0, 0], 17));
    assert_eq!(rt; table_entry(rt.alloc(), &short)?, one_word(50, 17));
    assert_eq!(rt;
        table_entry(rt.alloc(), &[4, 10, 1, 1, 1, 1, 1, 1])?,
        one_word(0, 17)
    );
    assert_eq!(rt; table_entry(rt.alloc(), &[])?, one_word(0, 17));
    Ok(())
}

#[test]
fn a_vertex_leaves_three_words(rt: HostRuntime) -> Result<(), Fail> {
    let mut inputs = at_first_location([3, 0xffff_fffe, 0, 0]);
    inputs.vertex_index = 5;
    inputs.instance_index = 4;
    let expected = done([768, 0xffff_fe00, 13, 0], 13);
    assert_eq!(rt; run_on(rt.alloc(), &VERTEX_OUTPUTS, &inputs)?, expected);
    Ok(())
}
