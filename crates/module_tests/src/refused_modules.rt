use body_model::TreeFault;
use sample_modules::frame::{FRONT, Listing, add, module, words_of};
use spirv_model::op;
use spv_check::{CheckFault, check};
use std::alloc::{AllocError, Global};
use std::test::Fail;
use valid_model::TypeFault;

const EQUALS_BOUND: [(u16, &[u32]); 1] = [(op::I_ADD, &[3, 50, 11, 11])];

const STRUCT_OF_ITSELF: [(u16, &[u32]); 1] = [(op::TYPE_STRUCT, &[12, 12])];

const LONG_ARRAY: [(u16, &[u32]); 2] = [
    (op::CONSTANT, &[3, 12, 4097]),
    (op::TYPE_ARRAY, &[13, 3, 12]),
];

const MANY_ARRAYS: [(u16, &[u32]); 4] = [
    (op::CONSTANT, &[3, 12, 4096]),
    (op::TYPE_ARRAY, &[13, 3, 12]),
    (op::CONSTANT, &[3, 14, 0xffff_ffff]),
    (op::TYPE_ARRAY, &[15, 13, 14]),
];

const PART_OF_ITSELF: [(u16, &[u32]); 2] = [
    (op::TYPE_VECTOR, &[12, 3, 2]),
    (op::CONSTANT_COMPOSITE, &[12, 13, 13, 11]),
];

/// A specialization constant by OpBitcast.
const BIT_CAST: [(u16, &[u32]); 1] = [(op::SPEC_CONSTANT_OP, &[3, 12, 124, 11])];

const SUM_OF_ITSELF: [(u16, &[u32]); 1] = [(op::I_ADD, &[3, 34, 34, 11])];

const TRUTH_TYPE: [(u16, &[u32]); 1] = [(op::TYPE_BOOL, &[8])];

const SUM_AS_TRUTH: [(u16, &[u32]); 1] = [(op::I_ADD, &[8, 34, 11, 11])];

/// Its operand isn't visible, and its type is another.
const TWO_FAULTS: [(u16, &[u32]); 1] = [(op::I_ADD, &[8, 34, 34, 11])];

const SECOND_ENTRY: [(u16, &[u32]); 1] = [(op::ENTRY_POINT, &[4, 7, 0x6e69616d, 0, 5])];

const SMOOTH_INPUT: [(u16, &[u32]); 3] = [
    (op::DECORATE, &[13, 30, 2]),
    (op::TYPE_POINTER, &[12, 1, 3]),
    (op::VARIABLE, &[12, 13, 1]),
];

const FLAT_INPUT: [(u16, &[u32]); 4] = [
    (op::DECORATE, &[13, 30, 2]),
    (op::DECORATE, &[13, 14]),
    (op::TYPE_POINTER, &[12, 1, 3]),
    (op::VARIABLE, &[12, 13, 1]),
];

const STORE_TO_INPUT: [(u16, &[u32]); 1] = [(op::STORE, &[13, 11])];

/// A structure of one integer among the push constants, and a pointer type to its member.
const PUSHED: [(u16, &[u32]); 6] = [
    (op::DECORATE, &[12, 2]),
    (op::MEMBER_DECORATE, &[12, 0, 35, 0]),
    (op::TYPE_STRUCT, &[12, 3]),
    (op::TYPE_POINTER, &[13, 9, 12]),
    (op::VARIABLE, &[13, 14, 9]),
    (op::TYPE_POINTER, &[15, 9, 3]),
];

const STORE_TO_PUSHED: [(u16, &[u32]); 2] = [
    (op::ACCESS_CHAIN, &[15, 34, 14, 11]),
    (op::STORE, &[34, 11]),
];

const SECOND_OUTPUT: [(u16, &[u32]); 2] = [
    (op::DECORATE, &[13, 30, 0]),
    (op::VARIABLE, &[4, 13, 3]),
];

#[test]
fn bad_ids_are_refused(rt: HostRuntime) -> Result<(), Fail> {
    let cases: [(Listing, Listing, TypeFault); 6] = [
        (&[], &EQUALS_BOUND, TypeFault::IdOutOfBound(13)),
        (&STRUCT_OF_ITSELF, &[], TypeFault::BadType(11)),
        (&LONG_ARRAY, &[], TypeFault::BadType(12)),
        (&MANY_ARRAYS, &[], TypeFault::BadType(14)),
        (&PART_OF_ITSELF, &[], TypeFault::BadConstant(12)),
        (&BIT_CAST, &[], TypeFault::BadConstant(11)),
    ];
    for (types, block, fault) in cases {
        let words = module(rt.alloc(), types, block)?;
        assert_eq!(rt;
            check(rt.alloc(), &words).err(),
            Some(CheckFault::Ids(fault))
        );
    }
    Ok(())
}

#[test]
fn bad_uses_and_interfaces_are_refused(rt: HostRuntime) -> Result<(), Fail> {
    let cases: [(Listing, Listing, CheckFault); 8] = [
        (&[], &SUM_OF_ITSELF, CheckFault::NotVisible(34)),
        (&TRUTH_TYPE, &TWO_FAULTS, CheckFault::NotVisible(34)),
        (&TRUTH_TYPE, &SUM_AS_TRUTH, CheckFault::OperandType(14)),
        (&SECOND_ENTRY, &[], CheckFault::EntryCount(2)),
        (&SMOOTH_INPUT, &[], CheckFault::NotFlat(2)),
        (&FLAT_INPUT, &STORE_TO_INPUT, CheckFault::WrongStorage(17)),
        (&PUSHED, &STORE_TO_PUSHED, CheckFault::WrongStorage(20)),
        (&SECOND_OUTPUT, &[], CheckFault::LocationTwice(0)),
    ];
    for (types, block, fault) in cases {
        let words = module(rt.alloc(), types, block)?;
        assert_eq!(rt; check(rt.alloc(), &words).err(), Some(fault));
    }
    Ok(())
}

/// Selections in one another, at most 100: the block 100 + 2k is the arm of the one at depth k, and 101 + 2k its merge block.
fn nested(alloc: Global, depth: u32) -> Result<Vec<u32>, AllocError> {
    let depth = depth.min(100);
    let mut words = words_of(alloc, &FRONT, 302)?;
    add(
        &mut words,
        &[(op::TYPE_BOOL, &[8]), (op::CONSTANT_TRUE, &[8, 9])],
    )?;
    add(
        &mut words,
        &[(op::FUNCTION, &[1, 7, 0, 2]), (op::LABEL, &[20])],
    )?;
    for k in 0..depth {
        let arm = 100 + 2 * k;
        add(&mut words, &[(op::SELECTION_MERGE, &[arm + 1, 0])])?;
        add(&mut words, &[(op::BRANCH_CONDITIONAL, &[9, arm, arm + 1])])?;
        add(&mut words, &[(op::LABEL, &[arm])])?;
    }
    for k in 0..depth {
        let merge = 99 + 2 * (depth - k);
        add(&mut words, &[(op::BRANCH, &[merge]), (op::LABEL, &[merge])])?;
    }
    add(&mut words, &[(op::RETURN, &[]), (op::FUNCTION_END, &[])])?;
    Ok(words)
}

#[test]
fn the_sixty_fifth_selection_is_too_deep(rt: HostRuntime) -> Result<(), Fail> {
    let words = nested(rt.alloc(), 64)?;
    assert_eq!(rt; check(rt.alloc(), &words).err(), None);
    let words = nested(rt.alloc(), 65)?;
    let fault = CheckFault::Tree(TreeFault::TooDeep(207));
    assert_eq!(rt; check(rt.alloc(), &words).err(), Some(fault));
    Ok(())
}
