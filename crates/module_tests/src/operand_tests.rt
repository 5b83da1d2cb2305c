//! Which operands fit and which storage is wrong, instruction by instruction, in whole modules.
use sample_modules::frame::{Listing, module};
use sample_modules::shader_words::POINT;
use spirv_model::op;
use spv_check::{CheckFault, check};
use std::test::Fail;

/// Types and constants: integers of both kinds, truth values, vectors of two, a structure and pointers. The constant 11 of the type 3
/// stands before them.
const TYPES: Listing = &[
    (op::TYPE_INT, &[12, 32, 1]),
    (op::TYPE_BOOL, &[13]),
    (op::TYPE_VECTOR, &[14, 3, 2]),
    (op::TYPE_VECTOR, &[15, 13, 2]),
    (op::TYPE_STRUCT, &[16, 3, 14]),
    (op::TYPE_POINTER, &[17, 6, 16]),
    (op::TYPE_POINTER, &[18, 6, 3]),
    (op::TYPE_POINTER, &[19, 9, 3]),
    (op::TYPE_POINTER, &[29, 7, 3]),
    (op::VARIABLE, &[17, 21, 6]),
    (op::CONSTANT, &[3, 22, 1]),
    (op::SPEC_CONSTANT, &[3, 23, 0]),
    (op::CONSTANT, &[12, 24, 0]),
    (op::CONSTANT_TRUE, &[13, 25]),
    (op::CONSTANT_NULL, &[14, 26]),
    (op::CONSTANT_NULL, &[15, 27]),
];

/// The place behind the function's label.
const FIRST: u32 = 29;

/// Instructions behind a pointer 28 to an integer, and whether their operands fit.
const CASES: [(u16, &[u32], bool); 31] = [
    // integers of either signedness, a vector with a scalar, and truth values
    (op::I_ADD, &[3, 30, 22, 24], true),
    (op::I_ADD, &[14, 30, 26, 22], false),
    (op::I_EQUAL, &[15, 30, 26, 26], true),
    (op::I_EQUAL, &[15, 30, 26, 22], false),
    (op::LOGICAL_NOT, &[15, 30, 27], true),
    (op::LOGICAL_NOT, &[3, 30, 22], false),
    (op::BITCAST, &[12, 30, 22], true),
    (op::BITCAST, &[3, 30, 26], false),
    // objects of the result's type, by one truth value or by two
    (op::SELECT, &[3, 30, 25, 22, 23], true),
    (op::SELECT, &[14, 30, 27, 26, 26], true),
    (op::SELECT, &[3, 30, 27, 22, 23], false),
    (op::SELECT, &[3, 30, 25, 22, 24], false),
    // a member by a constant, one by a specialization constant, and a component by the latter
    (op::ACCESS_CHAIN, &[18, 30, 21, 24], true),
    (op::ACCESS_CHAIN, &[18, 30, 21, 23], false),
    (op::ACCESS_CHAIN, &[18, 30, 21, 22, 23], true),
    (op::ACCESS_CHAIN, &[19, 30, 21, 24], false),
    (op::LOAD, &[3, 30, 28], true),
    (op::LOAD, &[12, 30, 28], false),
    (op::STORE, &[28, 22], true),
    (op::STORE, &[28, 24], false),
    // a vector of two integers
    (op::COMPOSITE_CONSTRUCT, &[14, 30, 22, 23], true),
    (op::COMPOSITE_CONSTRUCT, &[14, 30, 22, 24], false),
    (op::COMPOSITE_CONSTRUCT, &[16, 30, 22, 26], true),
    (op::COMPOSITE_EXTRACT, &[3, 30, 26, 1], true),
    (op::COMPOSITE_EXTRACT, &[3, 30, 26, 2], false),
    (op::COMPOSITE_INSERT, &[14, 30, 22, 26, 1], true),
    (op::VECTOR_SHUFFLE, &[14, 30, 26, 26, 3, 0xffff_ffff], true),
    (op::VECTOR_SHUFFLE, &[14, 30, 26, 26, 4, 0], false),
    (op::ANY, &[13, 30, 27], true),
    (op::ALL, &[13, 30, 25], false),
    (op::UNDEF, &[18, 30], false),
];

#[test]
fn operands_of_each_class(rt: HostRuntime) -> Result<(), Fail> {
    for (op, words, fits) in CASES {
        let block: [(u16, &[u32]); 2] = [(op::ACCESS_CHAIN, &[18, 28, 21, 24]), (op, words)];
        let whole = module(rt.alloc(), TYPES, &block)?;
        let bad = Some(CheckFault::OperandType(FIRST + 1));
        let fault = if fits { None } else { bad };
        assert_eq!(rt; check(rt.alloc(), &whole).err(), fault, "of {op} {words:?}");
    }
    Ok(())
}

/// A selection by a truth value, up to the label of its merge block.
const ARMS: [(u16, &[u32]); 7] = [
    (op::SELECTION_MERGE, &[42, 0]),
    (op::BRANCH_CONDITIONAL, &[25, 40, 41]),
    (op::LABEL, &[40]),
    (op::BRANCH, &[42]),
    (op::LABEL, &[41]),
    (op::BRANCH, &[42]),
    (op::LABEL, &[42]),
];

#[test]
fn operands_of_phis(rt: HostRuntime) -> Result<(), Fail> {
    let bad = Some(CheckFault::OperandType(FIRST + 7));
    let cases: [(&[u32], Option<CheckFault>); 2] = [
        (&[3, 30, 22, 40, 23, 41], None),
        (&[3, 30, 22, 40, 24, 41], bad),
    ];
    let [a, b, c, d, e, f, g] = ARMS;
    for (words, fault) in cases {
        let block = [a, b, c, d, e, f, g, (op::PHI, words)];
        let whole = module(rt.alloc(), TYPES, &block)?;
        assert_eq!(rt; check(rt.alloc(), &whole).err(), fault, "of {words:?}");
    }
    Ok(())
}

const BRANCH_BY_TWO: Listing = &[
    (op::SELECTION_MERGE, &[42, 0]),
    (op::BRANCH_CONDITIONAL, &[27, 40, 42]),
    (op::LABEL, &[40]),
    (op::BRANCH, &[42]),
    (op::LABEL, &[42]),
];

const SWITCH_BY_SIGNED: Listing = &[
    (op::SELECTION_MERGE, &[42, 0]),
    (op::SWITCH, &[24, 42]),
    (op::LABEL, &[42]),
];

#[test]
fn operands_of_terminators(rt: HostRuntime) -> Result<(), Fail> {
    let cases: [(Listing, Option<CheckFault>); 2] = [
        (BRANCH_BY_TWO, Some(CheckFault::OperandType(FIRST + 1))),
        (SWITCH_BY_SIGNED, None),
    ];
    for (block, fault) in cases {
        let words = module(rt.alloc(), TYPES, block)?;
        assert_eq!(rt; check(rt.alloc(), &words).err(), fault, "of {block:?}");
    }
    Ok(())
}

#[test]
fn a_vertex_module_kills_nothing(rt: HostRuntime) -> Result<(), Fail> {
    let mut words = POINT;
    assert_eq!(rt; words[66], 0x100fd);
    words[66] = 0x100fc;
    let fault = check(rt.alloc(), &words).err();
    assert_eq!(rt; fault, Some(CheckFault::OperandType(16)));
    Ok(())
}

#[test]
fn variables_stand_where_their_class_says(rt: HostRuntime) -> Result<(), Fail> {
    let private: Listing = &[(op::VARIABLE, &[18, 30, 6])];
    let local: Listing = &[(op::VARIABLE, &[29, 30, 7])];
    let outside: Listing = &[
        (op::TYPE_POINTER, &[12, 7, 3]),
        (op::VARIABLE, &[12, 13, 7]),
    ];
    let wrong = Some(CheckFault::WrongStorage(FIRST));
    let words = module(rt.alloc(), TYPES, private)?;
    assert_eq!(rt; check(rt.alloc(), &words).err(), wrong);
    let words = module(rt.alloc(), TYPES, local)?;
    assert_eq!(rt; check(rt.alloc(), &words).err(), None);
    let words = module(rt.alloc(), outside, &[])?;
    let wrong = Some(CheckFault::WrongStorage(12));
    assert_eq!(rt; check(rt.alloc(), &words).err(), wrong);
    Ok(())
}
