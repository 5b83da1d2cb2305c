//! Lists that plans make of sample modules. What is expected is written out by hand.

use sample_modules::frame::{FRONT, add, module, words_of};
use sample_modules::sample_words::CASES;
use sample_modules::samples::SELECTION_MODULE;
use scalar_model::Scalar;
use spirv_model::{Inst, op};
use spv_check::check;
use spv_rewrite::{Fate, rewrite};
use std::alloc::{AllocError, Global};
use std::test::Fail;

/// The words of instructions, each of at most 100 words after its first.
fn flat(alloc: Global, insts: &[Inst]) -> Result<Vec<u32>, AllocError> {
    let mut words = Vec::new(alloc);
    for inst in insts {
        add(&mut words, &[(inst.op, inst.words.as_slice())])?;
    }
    Ok(words)
}

/// The words of the list that a plan makes of a module: what becomes of the instructions at some places, and the ids that stand
/// for others.
fn rewritten(
    alloc: Global,
    words: &[u32],
    changes: &[(usize, Fate)],
    names: &[(usize, u32)],
) -> Result<Vec<u32>, Fail> {
    let module = check(alloc, words)?;
    let mut fates = Vec::new(alloc);
    for _ in 0..30 {
        fates.push(Fate::Stays)?;
    }
    for (place, fate) in changes {
        if *place < fates.len() {
            fates[*place] = *fate;
        }
    }
    let mut ids = Vec::new(alloc);
    for id in 0..40 {
        ids.push(id)?;
    }
    for (id, name) in names {
        if *id < ids.len() {
            ids[*id] = *name;
        }
    }
    let list = rewrite(alloc, &module, fates.as_slice(), ids.as_slice())?;
    Ok(flat(alloc, list.as_slice())?)
}

/// The words of these instructions, and of others behind them.
fn expected(
    alloc: Global,
    front: &[(u16, &[u32])],
    others: &[(u16, &[u32])],
) -> Result<Vec<u32>, AllocError> {
    let mut words = Vec::new(alloc);
    add(&mut words, front)?;
    add(&mut words, others)?;
    Ok(words)
}

#[test]
fn a_plan_without_changes_keeps_the_list(rt: HostRuntime) -> Result<(), Fail> {
    let alloc = rt.alloc();
    let selection = words_of(alloc, &SELECTION_MODULE, 31)?;
    let kept = rewritten(alloc, selection.as_slice(), &[], &[])?;
    assert_eq!(rt;
        kept.as_slice(),
        expected(alloc, &SELECTION_MODULE, &[])?.as_slice()
    );
    let module = check(alloc, &CASES)?;
    let list = rewrite(alloc, &module, &[], &[])?;
    assert_eq!(rt;
        flat(alloc, list.as_slice())?.as_slice(),
        flat(alloc, module.insts())?.as_slice()
    );
    Ok(())
}

#[test]
fn a_selection_is_cut_with_a_pair_of_its_phi(rt: HostRuntime) -> Result<(), Fail> {
    let alloc = rt.alloc();
    let selection = words_of(alloc, &SELECTION_MODULE, 31)?;
    let (front, _) = SELECTION_MODULE.split_at(16);
    let cut = [
        (17, Fate::Skips),
        (18, Fate::Goes(21)),
        (21, Fate::Dead),
        (22, Fate::Dead),
    ];
    let one_way: [(u16, &[u32]); 9] = [
        (op::LABEL, &[20]),
        (op::BRANCH, &[21]),
        (op::LABEL, &[21]),
        (op::BRANCH, &[23]),
        (op::LABEL, &[23]),
        (op::PHI, &[3, 30, 11, 21]),
        (op::STORE, &[5, 30]),
        (op::RETURN, &[]),
        (op::FUNCTION_END, &[]),
    ];
    assert_eq!(rt;
        rewritten(alloc, selection.as_slice(), &cut, &[])?.as_slice(),
        expected(alloc, front, &one_way)?.as_slice()
    );
    Ok(())
}

#[test]
fn a_resolved_phi_gives_way_to_its_value(rt: HostRuntime) -> Result<(), Fail> {
    let alloc = rt.alloc();
    let selection = words_of(alloc, &SELECTION_MODULE, 31)?;
    let (front, _) = SELECTION_MODULE.split_at(24);
    let behind: [(u16, &[u32]); 3] = [
        (op::STORE, &[5, 12]),
        (op::RETURN, &[]),
        (op::FUNCTION_END, &[]),
    ];
    assert_eq!(rt;
        rewritten(
            alloc,
            selection.as_slice(),
            &[(24, Fate::Resolves)],
            &[(30, 12)]
        )?
        .as_slice(),
        expected(alloc, front, &behind)?.as_slice()
    );
    Ok(())
}

#[test]
fn folded_results_are_constants_before_the_function(rt: HostRuntime) -> Result<(), Fail> {
    let alloc = rt.alloc();
    let types: [(u16, &[u32]); 1] = [(op::TYPE_BOOL, &[8])];
    let block: [(u16, &[u32]); 6] = [
        (op::I_ADD, &[3, 21, 11, 11]),
        (op::I_EQUAL, &[8, 22, 21, 11]),
        (op::LOGICAL_NOT, &[8, 23, 22]),
        (op::I_ADD, &[3, 24, 21, 11]),
        (op::SELECT, &[3, 25, 23, 21, 24]),
        (op::STORE, &[5, 25]),
    ];
    let words = module(alloc, &types, &block)?;
    let changes = [
        (14, Fate::Folds(Scalar::Word(7))),
        (15, Fate::Folds(Scalar::Bool(true))),
        (16, Fate::Folds(Scalar::Bool(false))),
        (17, Fate::Nulls),
    ];
    let others: [(u16, &[u32]); 11] = [
        (op::TYPE_BOOL, &[8]),
        (op::CONSTANT, &[3, 21, 7]),
        (op::CONSTANT_TRUE, &[8, 22]),
        (op::CONSTANT_FALSE, &[8, 23]),
        (op::CONSTANT_NULL, &[3, 24]),
        (op::FUNCTION, &[1, 7, 0, 2]),
        (op::LABEL, &[20]),
        (op::SELECT, &[3, 25, 23, 11, 24]),
        (op::STORE, &[5, 25]),
        (op::RETURN, &[]),
        (op::FUNCTION_END, &[]),
    ];
    assert_eq!(rt;
        rewritten(alloc, words.as_slice(), &changes, &[(21, 11)])?.as_slice(),
        expected(alloc, &FRONT, &others)?.as_slice()
    );
    Ok(())
}

#[test]
fn a_switch_keeps_its_default_under_other_names(rt: HostRuntime) -> Result<(), Fail> {
    let alloc = rt.alloc();
    let (front, _) = CASES.split_at(70);
    let changes = [(18, Fate::Picks(22)), (19, Fate::Dead), (20, Fate::Dead)];
    let switch: [(u16, &[u32]); 1] = [(op::SWITCH, &[11, 22])];
    let behind: [(u16, &[u32]); 7] = [
        (op::LABEL, &[22]),
        (op::BRANCH, &[23]),
        (op::LABEL, &[23]),
        (op::PHI, &[3, 30, 13, 22]),
        (op::STORE, &[5, 30]),
        (op::RETURN, &[]),
        (op::FUNCTION_END, &[]),
    ];
    let mut words = Vec::from_slice(alloc, front.split_at(5).1)?;
    add(&mut words, &switch)?;
    add(&mut words, &behind)?;
    assert_eq!(rt;
        rewritten(alloc, &CASES, &changes, &[(10, 11), (12, 13)])?.as_slice(),
        words.as_slice()
    );
    Ok(())
}
