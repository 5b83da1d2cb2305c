//! Small modules to be specialised, each of a few blocks. Fragment shaders that leave a word at location 0.

use sample_modules::frame::{FRONT, add};
use spirv_model::{MAGIC, VERSION, op};
use std::alloc::{AllocError, Global};

/// The words of a module with these instructions behind the decorations and the types of [`FRONT`].
pub fn shader(
    alloc: Global,
    bound: u32,
    decorations: &[(u16, &[u32])],
    types: &[(u16, &[u32])],
    blocks: &[(u16, &[u32])],
) -> Result<Vec<u32>, AllocError> {
    let (front, rest) = FRONT.split_at(5);
    let mut words = Vec::from_slice(alloc, &[MAGIC, VERSION, 0, bound, 0])?;
    add(&mut words, front)?;
    add(&mut words, decorations)?;
    add(&mut words, rest)?;
    add(&mut words, types)?;
    add(&mut words, &[(op::FUNCTION, &[1, 7, 0, 2])])?;
    add(&mut words, blocks)?;
    add(&mut words, &[(op::FUNCTION_END, &[])])?;
    Ok(words)
}

/// A loop of two turns around a loop that is left at once, unless the specialization constant 1 is set. The turns are left.
pub fn loop_in_a_loop(alloc: Global) -> Result<Vec<u32>, AllocError> {
    shader(
        alloc,
        50,
        &[(op::DECORATE, &[10, 1, 1])],
        &[
            (op::TYPE_BOOL, &[8]),
            (op::SPEC_CONSTANT_FALSE, &[8, 10]),
            (op::CONSTANT, &[3, 12, 1]),
            (op::CONSTANT, &[3, 13, 2]),
        ],
        &[
            (op::LABEL, &[20]),
            (op::BRANCH, &[21]),
            (op::LABEL, &[21]),
            (op::PHI, &[3, 30, 11, 20, 31, 24]),
            (op::LOOP_MERGE, &[25, 24, 0]),
            (op::BRANCH, &[22]),
            (op::LABEL, &[22]),
            (op::U_LESS_THAN, &[8, 32, 30, 13]),
            (op::BRANCH_CONDITIONAL, &[32, 23, 25]),
            (op::LABEL, &[23]),
            (op::BRANCH, &[26]),
            (op::LABEL, &[26]),
            (op::LOOP_MERGE, &[29, 28, 0]),
            (op::BRANCH, &[33]),
            (op::LABEL, &[33]),
            (op::BRANCH_CONDITIONAL, &[10, 27, 29]),
            (op::LABEL, &[27]),
            (op::BRANCH, &[28]),
            (op::LABEL, &[28]),
            (op::BRANCH, &[26]),
            (op::LABEL, &[29]),
            (op::BRANCH, &[24]),
            (op::LABEL, &[24]),
            (op::I_ADD, &[3, 31, 30, 12]),
            (op::BRANCH, &[21]),
            (op::LABEL, &[25]),
            (op::STORE, &[5, 30]),
            (op::RETURN, &[]),
        ],
    )
}

/// [`loop_in_a_loop`] with the constant as it is, where the inner loop is left at once.
pub fn loop_without_its_inner_one(alloc: Global) -> Result<Vec<u32>, AllocError> {
    shader(
        alloc,
        50,
        &[],
        &[
            (op::TYPE_BOOL, &[8]),
            (op::CONSTANT_FALSE, &[8, 10]),
            (op::CONSTANT, &[3, 12, 1]),
            (op::CONSTANT, &[3, 13, 2]),
        ],
        &[
            (op::LABEL, &[20]),
            (op::BRANCH, &[21]),
            (op::LABEL, &[21]),
            (op::PHI, &[3, 30, 11, 20, 31, 24]),
            (op::LOOP_MERGE, &[25, 24, 0]),
            (op::BRANCH, &[22]),
            (op::LABEL, &[22]),
            (op::U_LESS_THAN, &[8, 32, 30, 13]),
            (op::BRANCH_CONDITIONAL, &[32, 23, 25]),
            (op::LABEL, &[23]),
            (op::BRANCH, &[26]),
            (op::LABEL, &[26]),
            (op::BRANCH, &[33]),
            (op::LABEL, &[33]),
            (op::BRANCH, &[29]),
            (op::LABEL, &[29]),
            (op::BRANCH, &[24]),
            (op::LABEL, &[24]),
            (op::I_ADD, &[3, 31, 30, 12]),
            (op::BRANCH, &[21]),
            (op::LABEL, &[25]),
            (op::STORE, &[5, 30]),
            (op::RETURN, &[]),
        ],
    )
}

/// A header that stores 7 before its loop, which is left at once unless the specialization constant 1 is set.
pub fn store_in_a_header(alloc: Global) -> Result<Vec<u32>, AllocError> {
    shader(
        alloc,
        50,
        &[(op::DECORATE, &[10, 1, 1])],
        &[
            (op::TYPE_BOOL, &[8]),
            (op::SPEC_CONSTANT_FALSE, &[8, 10]),
            (op::CONSTANT, &[3, 12, 7]),
        ],
        &[
            (op::LABEL, &[20]),
            (op::BRANCH, &[21]),
            (op::LABEL, &[21]),
            (op::STORE, &[5, 12]),
            (op::LOOP_MERGE, &[25, 24, 0]),
            (op::BRANCH, &[22]),
            (op::LABEL, &[22]),
            (op::BRANCH_CONDITIONAL, &[10, 23, 25]),
            (op::LABEL, &[23]),
            (op::BRANCH, &[24]),
            (op::LABEL, &[24]),
            (op::BRANCH, &[21]),
            (op::LABEL, &[25]),
            (op::RETURN, &[]),
        ],
    )
}

/// Discarded behind a store where the specialization constant 1 is true, as it is; else 7 is left.
pub fn killed_in_an_arm(alloc: Global) -> Result<Vec<u32>, AllocError> {
    shader(
        alloc,
        50,
        &[(op::DECORATE, &[10, 1, 1])],
        &[
            (op::TYPE_BOOL, &[8]),
            (op::SPEC_CONSTANT_TRUE, &[8, 10]),
            (op::CONSTANT, &[3, 12, 7]),
        ],
        &[
            (op::LABEL, &[20]),
            (op::SELECTION_MERGE, &[23, 0]),
            (op::BRANCH_CONDITIONAL, &[10, 21, 22]),
            (op::LABEL, &[21]),
            (op::STORE, &[5, 11]),
            (op::KILL, &[]),
            (op::LABEL, &[22]),
            (op::BRANCH, &[23]),
            (op::LABEL, &[23]),
            (op::STORE, &[5, 12]),
            (op::RETURN, &[]),
        ],
    )
}

/// [`killed_in_an_arm`] with a true constant: nothing behind the arm is left.
pub fn killed_always(alloc: Global) -> Result<Vec<u32>, AllocError> {
    shader(
        alloc,
        50,
        &[],
        &[
            (op::TYPE_BOOL, &[8]),
            (op::CONSTANT_TRUE, &[8, 10]),
            (op::CONSTANT, &[3, 12, 7]),
        ],
        &[
            (op::LABEL, &[20]),
            (op::BRANCH, &[21]),
            (op::LABEL, &[21]),
            (op::STORE, &[5, 11]),
            (op::KILL, &[]),
        ],
    )
}

/// [`killed_in_an_arm`] with a false constant.
pub fn never_killed(alloc: Global) -> Result<Vec<u32>, AllocError> {
    shader(
        alloc,
        50,
        &[],
        &[
            (op::TYPE_BOOL, &[8]),
            (op::CONSTANT_FALSE, &[8, 10]),
            (op::CONSTANT, &[3, 12, 7]),
        ],
        &[
            (op::LABEL, &[20]),
            (op::BRANCH, &[22]),
            (op::LABEL, &[22]),
            (op::BRANCH, &[23]),
            (op::LABEL, &[23]),
            (op::STORE, &[5, 12]),
            (op::RETURN, &[]),
        ],
    )
}

/// The specialization constant 1, which is 5, is raised by one. Where that is below 10, it is left, or 0 where it is 0; else 10 is.
pub fn nested_selections(alloc: Global) -> Result<Vec<u32>, AllocError> {
    shader(
        alloc,
        50,
        &[(op::DECORATE, &[10, 1, 1])],
        &[
            (op::TYPE_BOOL, &[8]),
            (op::SPEC_CONSTANT, &[3, 10, 5]),
            (op::CONSTANT, &[3, 12, 1]),
            (op::CONSTANT, &[3, 15, 10]),
            (op::SPEC_CONSTANT_OP, &[3, 13, op::I_ADD as u32, 10, 12]),
            (
                op::SPEC_CONSTANT_OP,
                &[8, 14, op::U_LESS_THAN as u32, 13, 15],
            ),
            (op::SPEC_CONSTANT_OP, &[8, 17, op::I_EQUAL as u32, 13, 11]),
            (
                op::SPEC_CONSTANT_OP,
                &[8, 16, op::LOGICAL_AND as u32, 14, 17],
            ),
        ],
        &[
            (op::LABEL, &[20]),
            (op::SELECTION_MERGE, &[23, 0]),
            (op::BRANCH_CONDITIONAL, &[14, 21, 22]),
            (op::LABEL, &[21]),
            (op::SELECTION_MERGE, &[28, 0]),
            (op::BRANCH_CONDITIONAL, &[16, 26, 27]),
            (op::LABEL, &[26]),
            (op::STORE, &[5, 11]),
            (op::BRANCH, &[28]),
            (op::LABEL, &[27]),
            (op::STORE, &[5, 13]),
            (op::BRANCH, &[28]),
            (op::LABEL, &[28]),
            (op::BRANCH, &[23]),
            (op::LABEL, &[22]),
            (op::STORE, &[5, 15]),
            (op::BRANCH, &[23]),
            (op::LABEL, &[23]),
            (op::RETURN, &[]),
        ],
    )
}

/// As many selections as may be nested, all by the specialization constant 1, which is true; 7 is left where it is.
pub fn deepest_selections(alloc: Global) -> Result<Vec<u32>, AllocError> {
    let types: [(u16, &[u32]); 3] = [
        (op::TYPE_BOOL, &[8]),
        (op::SPEC_CONSTANT_TRUE, &[8, 10]),
        (op::CONSTANT, &[3, 12, 7]),
    ];
    let mut words = shader(alloc, 300, &[(op::DECORATE, &[10, 1, 1])], &types, &[])?;
    let _ = words.pop();
    for depth in 0..64 {
        add(
            &mut words,
            &[
                (op::LABEL, &[100 + depth]),
                (op::SELECTION_MERGE, &[200 + depth, 0]),
                (op::BRANCH_CONDITIONAL, &[10, 101 + depth, 200 + depth]),
            ],
        )?;
    }
    let inner: [(u16, &[u32]); 3] = [
        (op::LABEL, &[164]),
        (op::STORE, &[5, 12]),
        (op::BRANCH, &[263]),
    ];
    add(&mut words, &inner)?;
    for above in 0..63 {
        add(
            &mut words,
            &[(op::LABEL, &[263 - above]), (op::BRANCH, &[262 - above])],
        )?;
    }
    let end: [(u16, &[u32]); 3] = [
        (op::LABEL, &[200]),
        (op::RETURN, &[]),
        (op::FUNCTION_END, &[]),
    ];
    add(&mut words, &end)?;
    Ok(words)
}
