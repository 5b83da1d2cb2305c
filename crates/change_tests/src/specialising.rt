//! Samples and small modules that are specialised. What they leave and their work, the number of instructions from each label to
//! its block's end, before and after, are counted by hand, as are the words that are written out.

use crate::small_modules::{
    deepest_selections, killed_always, killed_in_an_arm, loop_in_a_loop,
    loop_without_its_inner_one, nested_selections, never_killed, store_in_a_header,
};
use crate::specialised::{both, ends, entry, leaves, no_entries, once, specialised, written};
use sample_modules::frame::{FRONT, add, words_of};
use sample_modules::sample_words::{
    CASES, ENDLESS, EXCHANGE, LEFT_EARLY, QUOTIENT, SUM, UNIFORM_QUOTIENT,
};
use sample_modules::samples::{LOOP_MODULE, NAMES_MODULE, SELECTION_MODULE};
use sample_modules::shader_words::{ATTRIBUTE, FLAT_INPUTS, NUMBER, POINT};
use spirv_model::op;
use spv_check::check;
use spv_exec::Kind;
use std::test::Fail;

#[test]
fn nothing_to_do_leaves_the_words(rt: HostRuntime) -> Result<(), Fail> {
    let alloc = rt.alloc();
    for words in [&POINT[..], &ATTRIBUTE[..], &NUMBER[..]] {
        let new = specialised(alloc, words, &entry(0, 3), &[])?;
        assert_eq!(rt; new.as_slice(), words);
    }
    let module = check(alloc, &FLAT_INPUTS)?;
    let new = specialised(alloc, &FLAT_INPUTS, &no_entries(), &[])?;
    assert_eq!(rt; new.as_slice(), written(alloc, &module)?.as_slice());
    Ok(())
}

#[test]
fn a_quotient_is_folded(rt: HostRuntime) -> Result<(), Fail> {
    let alloc = rt.alloc();
    assert_eq!(rt;
        both(alloc, &QUOTIENT, &no_entries(), &[])?,
        leaves(14, 4, 3)
    );
    assert_eq!(rt;
        both(alloc, &QUOTIENT, &entry(0, 5), &[])?,
        leaves(20, 4, 3)
    );
    assert_eq!(rt; both(alloc, &QUOTIENT, &entry(0, 0), &[])?, leaves(0, 4, 3));
    assert_eq!(rt;
        both(alloc, &QUOTIENT, &entry(1, 5), &[])?,
        leaves(14, 4, 3)
    );
    Ok(())
}

#[test]
fn a_uniform_is_not_known(rt: HostRuntime) -> Result<(), Fail> {
    let alloc = rt.alloc();
    assert_eq!(rt;
        both(alloc, &UNIFORM_QUOTIENT, &no_entries(), &[])?,
        leaves(14, 6, 6)
    );
    assert_eq!(rt;
        both(alloc, &UNIFORM_QUOTIENT, &entry(0, 0), &[])?,
        leaves(0, 6, 6)
    );
    Ok(())
}

#[test]
fn one_arm_of_a_selection_is_left(rt: HostRuntime) -> Result<(), Fail> {
    let alloc = rt.alloc();
    let selection = words_of(alloc, &SELECTION_MODULE, 31)?;
    let words = selection.as_slice();
    assert_eq!(rt; both(alloc, words, &no_entries(), &[])?, leaves(11, 9, 7));
    assert_eq!(rt; both(alloc, words, &entry(2, 0), &[])?, leaves(22, 9, 7));
    assert_eq!(rt; both(alloc, words, &entry(2, 2), &[])?, leaves(11, 9, 7));
    Ok(())
}

#[test]
fn a_cut_selection_as_words(rt: HostRuntime) -> Result<(), Fail> {
    let alloc = rt.alloc();
    let selection = words_of(alloc, &SELECTION_MODULE, 31)?;
    let new = specialised(alloc, selection.as_slice(), &entry(2, 0), &[])?;
    let (types, _) = (
        &[
            (op::TYPE_BOOL, &[8][..]),
            (op::CONSTANT_FALSE, &[8, 10][..]),
            (op::CONSTANT, &[3, 11, 11][..]),
            (op::CONSTANT, &[3, 12, 22][..]),
            (op::FUNCTION, &[1, 7, 0, 2][..]),
            (op::LABEL, &[20][..]),
            (op::BRANCH, &[22][..]),
            (op::LABEL, &[22][..]),
            (op::BRANCH, &[23][..]),
            (op::LABEL, &[23][..]),
            (op::STORE, &[5, 12][..]),
            (op::RETURN, &[][..]),
            (op::FUNCTION_END, &[][..]),
        ],
        (),
    );
    let (front, _) = FRONT.split_at(10);
    let mut words = words_of(alloc, front, 31)?;
    add(&mut words, types)?;
    assert_eq!(rt; new.as_slice(), words.as_slice());
    Ok(())
}

#[test]
fn one_case_of_a_switch_is_left(rt: HostRuntime) -> Result<(), Fail> {
    let alloc = rt.alloc();
    assert_eq!(rt; both(alloc, &CASES, &no_entries(), &[])?, leaves(10, 9, 7));
    assert_eq!(rt; both(alloc, &CASES, &entry(3, 1), &[])?, leaves(10, 9, 7));
    assert_eq!(rt; both(alloc, &CASES, &entry(3, 5), &[])?, leaves(30, 7, 5));
    assert_eq!(rt; both(alloc, &CASES, &entry(3, 9), &[])?, leaves(20, 9, 7));
    Ok(())
}

#[test]
fn a_switch_that_is_left_from_within_stays(rt: HostRuntime) -> Result<(), Fail> {
    let alloc = rt.alloc();
    assert_eq!(rt;
        both(alloc, &LEFT_EARLY, &no_entries(), &[])?,
        leaves(10, 13, 13)
    );
    let new = specialised(alloc, &LEFT_EARLY, &no_entries(), &[])?;
    let module = check(alloc, new.as_slice())?;
    assert!(rt; module.insts().iter().any(|inst| inst.op == op::SWITCH));
    Ok(())
}

#[test]
fn a_loop_that_may_run_stays(rt: HostRuntime) -> Result<(), Fail> {
    let alloc = rt.alloc();
    let count = words_of(alloc, &LOOP_MODULE, 36)?;
    let words = count.as_slice();
    assert_eq!(rt; both(alloc, words, &no_entries(), &[])?, leaves(3, 57, 57));
    assert_eq!(rt; both(alloc, words, &entry(1, 0), &[])?, leaves(0, 15, 15));
    assert_eq!(rt; both(alloc, &SUM, &no_entries(), &[])?, leaves(3, 55, 55));
    assert_eq!(rt;
        both(alloc, &EXCHANGE, &entry(1, 2), &[])?,
        leaves(1, 42, 42)
    );
    assert_eq!(rt;
        both(alloc, &EXCHANGE, &no_entries(), &[])?,
        leaves(2, 56, 56)
    );
    Ok(())
}

#[test]
fn a_loop_that_is_lost_stays_so(rt: HostRuntime) -> Result<(), Fail> {
    let alloc = rt.alloc();
    let endless = once(alloc, &ENDLESS, &no_entries(), &[])?;
    assert_eq!(rt; endless, ends(Kind::Lost, 36_867, 36_867));
    let sum = once(alloc, &SUM, &entry(1, 4096), &[])?;
    assert_eq!(rt; sum, ends(Kind::Lost, 57_346, 57_346));
    let nested = loop_in_a_loop(alloc)?;
    let within = once(alloc, nested.as_slice(), &entry(1, 1), &[])?;
    assert_eq!(rt; within, ends(Kind::Lost, 36_875, 36_875));
    Ok(())
}

#[test]
fn a_loop_within_a_loop_is_left_at_once(rt: HostRuntime) -> Result<(), Fail> {
    let alloc = rt.alloc();
    let nested = loop_in_a_loop(alloc)?;
    let words = nested.as_slice();
    assert_eq!(rt; both(alloc, words, &no_entries(), &[])?, leaves(2, 50, 48));
    let new = specialised(alloc, words, &no_entries(), &[])?;
    let expected = loop_without_its_inner_one(alloc)?;
    assert_eq!(rt; new.as_slice(), expected.as_slice());
    Ok(())
}

#[test]
fn a_header_of_a_loop_that_is_left_still_stores(rt: HostRuntime) -> Result<(), Fail> {
    let alloc = rt.alloc();
    let header = store_in_a_header(alloc)?;
    let words = header.as_slice();
    assert_eq!(rt; both(alloc, words, &no_entries(), &[])?, leaves(7, 10, 9));
    Ok(())
}

#[test]
fn an_input_that_is_zero_is_folded(rt: HostRuntime) -> Result<(), Fail> {
    let alloc = rt.alloc();
    let names = words_of(alloc, &NAMES_MODULE, 23)?;
    let words = names.as_slice();
    assert_eq!(rt; both(alloc, words, &no_entries(), &[3])?, leaves(1, 5, 3));
    assert_eq!(rt;
        both(alloc, words, &no_entries(), &[2, 4])?,
        leaves(1, 5, 5)
    );
    Ok(())
}

#[test]
fn what_follows_an_end_goes(rt: HostRuntime) -> Result<(), Fail> {
    let alloc = rt.alloc();
    let killed = killed_in_an_arm(alloc)?;
    let words = killed.as_slice();
    let always = both(alloc, words, &no_entries(), &[])?;
    assert_eq!(rt; always, ends(Kind::Killed, 6, 5));
    let new = specialised(alloc, words, &no_entries(), &[])?;
    assert_eq!(rt; new.as_slice(), killed_always(alloc)?.as_slice());
    Ok(())
}

#[test]
fn an_end_in_a_dropped_arm_goes(rt: HostRuntime) -> Result<(), Fail> {
    let alloc = rt.alloc();
    let killed = killed_in_an_arm(alloc)?;
    let words = killed.as_slice();
    assert_eq!(rt; both(alloc, words, &entry(1, 0), &[])?, leaves(7, 8, 7));
    let new = specialised(alloc, words, &entry(1, 0), &[])?;
    assert_eq!(rt; new.as_slice(), never_killed(alloc)?.as_slice());
    Ok(())
}

#[test]
fn operations_on_constants_decide_selections(rt: HostRuntime) -> Result<(), Fail> {
    let alloc = rt.alloc();
    let nested = nested_selections(alloc)?;
    let words = nested.as_slice();
    assert_eq!(rt; both(alloc, words, &no_entries(), &[])?, leaves(6, 13, 11));
    assert_eq!(rt; both(alloc, words, &entry(1, 9), &[])?, leaves(10, 8, 7));
    assert_eq!(rt;
        both(alloc, words, &entry(1, 0xffff_ffff), &[])?,
        leaves(0, 13, 11)
    );
    Ok(())
}

#[test]
fn the_deepest_selections_are_cut(rt: HostRuntime) -> Result<(), Fail> {
    let alloc = rt.alloc();
    let deepest = deepest_selections(alloc)?;
    let words = deepest.as_slice();
    assert_eq!(rt;
        both(alloc, words, &no_entries(), &[])?,
        leaves(7, 323, 259)
    );
    assert_eq!(rt; both(alloc, words, &entry(1, 0), &[])?, leaves(0, 5, 4));
    Ok(())
}
