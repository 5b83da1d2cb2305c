//! Runs of sample modules. What they leave and their work, the number of instructions from each label to its block's end, are
//! counted by hand.

use crate::outcomes::{
    at_first_location, done, entry, first_buffer_bound, no_entries, no_inputs, nothing, one_buffer,
    one_word, outcome, run_on, run_over, run_plain, run_with_entry,
};
use sample_modules::frame::words_of;
use sample_modules::sample_words::{
    CASES, DISCARDED, ENDLESS, EXCHANGE, INDEXED, LEFT_EARLY, QUOTIENT, SUM, UNIFORM_QUOTIENT,
};
use sample_modules::samples::{LOOP_MODULE, NAMES_MODULE, SELECTION_MODULE};
use sample_modules::shader_words::{NUMBER, POINT};
use spv_check::check;
use spv_exec::{Kind, Prepared};
use sqlite_items::Items;
use stage_model::Inputs;
use state_model::Buffers;
use std::test::Fail;

#[test]
fn what_is_stored_is_left_unless_discarded(rt: HostRuntime) -> Result<(), Fail> {
    let alloc = rt.alloc();
    let point = (Kind::Done, [128, 128, 0, 0], [[0; 4]; 8], 3);
    assert_eq!(rt; run_plain(alloc, &POINT)?, point);
    assert_eq!(rt; run_plain(alloc, &NUMBER)?, one_word(42, 3));
    let names = words_of(alloc, &NAMES_MODULE, 23)?;
    assert_eq!(rt; run_plain(alloc, names.as_slice())?, one_word(1, 5));
    assert_eq!(rt; run_plain(alloc, &DISCARDED)?, nothing(Kind::Killed, 3));
    Ok(())
}

#[test]
fn an_entry_changes_a_constant(rt: HostRuntime) -> Result<(), Fail> {
    let alloc = rt.alloc();
    assert_eq!(rt; run_plain(alloc, &QUOTIENT)?, one_word(14, 4));
    assert_eq!(rt; run_with_entry(alloc, &QUOTIENT, 0, 5)?, one_word(20, 4));
    assert_eq!(rt; run_with_entry(alloc, &QUOTIENT, 0, 0)?, one_word(0, 4));
    assert_eq!(rt; run_with_entry(alloc, &QUOTIENT, 1, 5)?, one_word(14, 4));
    Ok(())
}

#[test]
fn a_uniform_past_its_buffers_end_is_zero(rt: HostRuntime) -> Result<(), Fail> {
    let alloc = rt.alloc();
    let (one, none) = (one_buffer(alloc, &[100])?, one_buffer(alloc, &[])?);
    let (bound, unbound) = (first_buffer_bound(), no_inputs());
    let entries = no_entries();
    assert_eq!(rt;
        run_over(alloc, &UNIFORM_QUOTIENT, &entries, &bound, &one)?,
        one_word(14, 6)
    );
    assert_eq!(rt;
        run_over(alloc, &UNIFORM_QUOTIENT, &entry(0, 1), &bound, &one)?,
        one_word(100, 6)
    );
    assert_eq!(rt;
        run_over(alloc, &UNIFORM_QUOTIENT, &entries, &bound, &none)?,
        one_word(0, 6)
    );
    assert_eq!(rt;
        run_over(alloc, &UNIFORM_QUOTIENT, &entries, &unbound, &one)?,
        one_word(0, 6)
    );
    Ok(())
}

#[test]
fn a_phi_takes_the_value_of_the_block_before(rt: HostRuntime) -> Result<(), Fail> {
    let alloc = rt.alloc();
    let selection = words_of(alloc, &SELECTION_MODULE, 31)?;
    assert_eq!(rt; run_plain(alloc, selection.as_slice())?, one_word(11, 9));
    assert_eq!(rt;
        run_with_entry(alloc, selection.as_slice(), 2, 0)?,
        one_word(22, 9)
    );
    assert_eq!(rt; run_plain(alloc, &CASES)?, one_word(10, 9));
    assert_eq!(rt; run_with_entry(alloc, &CASES, 3, 1)?, one_word(10, 9));
    assert_eq!(rt; run_with_entry(alloc, &CASES, 3, 5)?, one_word(30, 7));
    assert_eq!(rt; run_with_entry(alloc, &CASES, 3, 9)?, one_word(20, 9));
    let back = Inputs {
        front: false,
        ..no_inputs()
    };
    assert_eq!(rt; run_plain(alloc, &LEFT_EARLY)?, one_word(10, 13));
    assert_eq!(rt; run_on(alloc, &LEFT_EARLY, &back)?, one_word(20, 13));
    Ok(())
}

#[test]
fn the_last_back_edge_loses_the_invocation(rt: HostRuntime) -> Result<(), Fail> {
    let alloc = rt.alloc();
    let words = words_of(alloc, &LOOP_MODULE, 36)?;
    let count = words.as_slice();
    assert_eq!(rt; run_plain(alloc, count)?, one_word(3, 57));
    assert_eq!(rt; run_with_entry(alloc, count, 1, 0)?, one_word(0, 15));
    assert_eq!(rt;
        run_with_entry(alloc, count, 1, 4095)?,
        one_word(4095, 57_345)
    );
    assert_eq!(rt;
        run_with_entry(alloc, count, 1, 4096)?,
        nothing(Kind::Lost, 57_348)
    );
    assert_eq!(rt; run_plain(alloc, &ENDLESS)?, nothing(Kind::Lost, 36_867));
    Ok(())
}

#[test]
fn phis_of_a_header_take_their_values_at_once(rt: HostRuntime) -> Result<(), Fail> {
    let alloc = rt.alloc();
    assert_eq!(rt; run_plain(alloc, &SUM)?, one_word(3, 55));
    assert_eq!(rt;
        run_with_entry(alloc, &SUM, 1, 4095)?,
        one_word(0x007f_e801, 57_343)
    );
    assert_eq!(rt;
        run_with_entry(alloc, &SUM, 1, 4096)?,
        nothing(Kind::Lost, 57_346)
    );
    assert_eq!(rt; run_with_entry(alloc, &EXCHANGE, 1, 2)?, one_word(1, 42));
    assert_eq!(rt; run_plain(alloc, &EXCHANGE)?, one_word(2, 56));
    Ok(())
}

#[test]
fn a_store_outside_changes_nothing(rt: HostRuntime) -> Result<(), Fail> {
    let alloc = rt.alloc();
    assert_eq!(rt;
        run_on(alloc, &INDEXED, &at_first_location([0; 4]))?,
        done([9, 0, 5, 9], 17)
    );
    assert_eq!(rt;
        run_on(alloc, &INDEXED, &at_first_location([1, 0, 0, 0]))?,
        done([7, 9, 5, 9], 17)
    );
    assert_eq!(rt;
        run_on(alloc, &INDEXED, &at_first_location([2, 0, 0, 0]))?,
        done([7, 0, 5, 0], 17)
    );
    let last = at_first_location([0xffff_ffff, 0, 0, 0]);
    assert_eq!(rt; run_on(alloc, &INDEXED, &last)?, done([7, 0, 5, 0], 17));
    Ok(())
}

#[test]
fn a_run_leaves_nothing_to_the_next(rt: HostRuntime) -> Result<(), Fail> {
    let module = check(rt.alloc(), &INDEXED)?;
    let mut prepared = Prepared::new(rt.alloc(), &module, &no_entries())?;
    let buffers = Buffers {
        list: Items::new(rt.alloc()),
    };
    for _ in 0..500 {
        let outside = prepared.run(&at_first_location([2, 0, 0, 0]), &buffers);
        assert_eq!(rt; outcome(&outside), done([7, 0, 5, 0], 17));
        let second = prepared.run(&at_first_location([1, 0, 0, 0]), &buffers);
        assert_eq!(rt; outcome(&second), done([7, 9, 5, 9], 17));
    }
    Ok(())
}
