//! Results of scalar operations.
use Scalar::{Bool, Word};
use spirv_model::op;
use spv_ops::{Scalar, apply, binary_word, fold_one, result_word, unary_word};

const MINUS_1: u32 = 0xffff_ffff;

const MINUS_7: u32 = 0xffff_fff9;

const LEAST: u32 = 0x8000_0000;

#[test]
#[tactic(auto, unfolding(scalar_model::specs::Scalars::scalar_result, scalar_model::specs::Scalars::arithmetic))]
fn quotients_that_are_undefined_have_values(rt: HostRuntime) {
    let overflow = [Word(LEAST), Word(MINUS_1)];
    assert_eq!(rt; apply(op::S_DIV, &overflow), Word(LEAST));
    assert_eq!(rt; apply(op::S_REM, &overflow), Word(0));
    assert_eq!(rt; apply(op::U_DIV, &[Word(5), Word(0)]), Word(0));
}

#[test]
fn words_from_words(rt: HostRuntime) {
    let cases: [(u16, u32, u32, u32); 20] = [
        (op::I_ADD, MINUS_1, 1, 0),
        (op::I_SUB, 3, 5, 0xffff_fffe),
        (op::I_MUL, 0x0001_0001, 0x0001_0001, 0x0002_0001),
        (op::U_DIV, MINUS_7, 2, 0x7fff_fffc),
        (op::S_DIV, MINUS_7, 2, 0xffff_fffd),
        (op::U_MOD, MINUS_7, 4, 1),
        (op::S_REM, MINUS_7, 4, 0xffff_fffd),
        (op::S_MOD, MINUS_7, 4, 1),
        (op::S_MOD, 7, 0xffff_fffc, MINUS_1),
        (op::S_MOD, MINUS_7, 7, 0),
        (op::S_MOD, 5, 0, 0),
        (op::SHIFT_RIGHT_LOGICAL, LEAST, 4, 0x0800_0000),
        (op::SHIFT_RIGHT_LOGICAL, LEAST, 32, 0),
        (op::SHIFT_RIGHT_ARITHMETIC, LEAST, 4, 0xf800_0000),
        (op::SHIFT_RIGHT_ARITHMETIC, LEAST, 40, MINUS_1),
        (op::SHIFT_LEFT_LOGICAL, 0xc000_0001, 4, 0x0000_0010),
        (op::SHIFT_LEFT_LOGICAL, 1, MINUS_1, 0),
        (op::BITWISE_OR, 0b1100, 0b1010, 0b1110),
        (op::BITWISE_XOR, 0b1100, 0b1010, 0b0110),
        (op::BITWISE_AND, 0b1100, 0b1010, 0b1000),
    ];
    for (op, left, right, expected) in cases {
        assert_eq!(rt;
            fold_one(op, &[Some(Word(left)), Some(Word(right))]),
            Some(Word(expected)),
            "operation {op} of {left} and {right}"
        );
    }
}

#[test]
fn comparisons(rt: HostRuntime) {
    // Of 1 and -1, of -1 and 1, of -1 and -1.
    let cases: [(u16, [bool; 3]); 10] = [
        (op::I_EQUAL, [false, false, true]),
        (op::I_NOT_EQUAL, [true, true, false]),
        (op::U_GREATER_THAN, [false, true, false]),
        (op::S_GREATER_THAN, [true, false, false]),
        (op::U_GREATER_THAN_EQUAL, [false, true, true]),
        (op::S_GREATER_THAN_EQUAL, [true, false, true]),
        (op::U_LESS_THAN, [true, false, false]),
        (op::S_LESS_THAN, [false, true, false]),
        (op::U_LESS_THAN_EQUAL, [true, false, true]),
        (op::S_LESS_THAN_EQUAL, [false, true, true]),
    ];
    for (op, [falls, rises, stays]) in cases {
        let up = Some(Word(1));
        let down = Some(Word(MINUS_1));
        assert_eq!(rt;
            fold_one(op, &[up, down]),
            Some(Bool(falls)),
            "operation {op}"
        );
        assert_eq!(rt;
            fold_one(op, &[down, up]),
            Some(Bool(rises)),
            "operation {op}"
        );
        assert_eq!(rt;
            fold_one(op, &[down, down]),
            Some(Bool(stays)),
            "operation {op}"
        );
    }
}

#[test]
fn truths_from_truths(rt: HostRuntime) {
    // Of two false operands, of a true second, of a true first, of two true ones.
    let cases: [(u16, [bool; 4]); 4] = [
        (op::LOGICAL_EQUAL, [true, false, false, true]),
        (op::LOGICAL_NOT_EQUAL, [false, true, true, false]),
        (op::LOGICAL_OR, [false, true, true, true]),
        (op::LOGICAL_AND, [false, false, false, true]),
    ];
    for (op, [neither, second, first, both]) in cases {
        let yes = Some(Bool(true));
        let no = Some(Bool(false));
        assert_eq!(rt;
            fold_one(op, &[no, no]),
            Some(Bool(neither)),
            "operation {op}"
        );
        assert_eq!(rt;
            fold_one(op, &[no, yes]),
            Some(Bool(second)),
            "operation {op}"
        );
        assert_eq!(rt;
            fold_one(op, &[yes, no]),
            Some(Bool(first)),
            "operation {op}"
        );
        assert_eq!(rt;
            fold_one(op, &[yes, yes]),
            Some(Bool(both)),
            "operation {op}"
        );
    }
}

#[test]
fn one_operand_and_three(rt: HostRuntime) {
    let word = Some(Word(0x0f0f_0f0f));
    assert_eq!(rt; fold_one(op::BITCAST, &[word]), word);
    assert_eq!(rt;
        fold_one(op::S_NEGATE, &[Some(Word(7))]),
        Some(Word(MINUS_7))
    );
    assert_eq!(rt; fold_one(op::NOT, &[word]), Some(Word(0xf0f0_f0f0)));
    assert_eq!(rt;
        fold_one(op::LOGICAL_NOT, &[Some(Bool(true))]),
        Some(Bool(false))
    );
    let yes = Some(Bool(true));
    let no = Some(Bool(false));
    assert_eq!(rt; fold_one(op::SELECT, &[yes, word, Some(Word(9))]), word);
    assert_eq!(rt; fold_one(op::SELECT, &[no, yes, no]), no);
}

#[test]
fn operands_that_do_not_fit_have_no_result(rt: HostRuntime) {
    let one = Some(Word(1));
    let yes = Some(Bool(true));
    let cases: [(u16, &[Option<Scalar>]); 16] = [
        (op::I_ADD, &[None, one]),
        (op::I_ADD, &[one, None]),
        (op::SELECT, &[yes, one, None]),
        (op::BITCAST, &[None]),
        (op::I_ADD, &[]),
        (op::I_ADD, &[one]),
        (op::I_ADD, &[one, one, one]),
        (op::I_ADD, &[one, one, one, one]),
        (op::I_ADD, &[one, yes]),
        (op::BITCAST, &[yes]),
        (op::LOGICAL_NOT, &[one]),
        (op::SELECT, &[yes, one, yes]),
        (op::SELECT, &[one, one, one]),
        (op::ANY, &[yes]),
        (op::NOP, &[one, one]),
        (u16::MAX, &[one, one]),
    ];
    for (op, operands) in cases {
        assert_eq!(rt;
            fold_one(op, operands),
            None,
            "operation {op} of {operands:?}"
        );
    }
}

#[test]
fn words_of_results(rt: HostRuntime) {
    assert_eq!(rt; unary_word(op::NOT, 0x0f0f_0f0f), 0xf0f0_f0f0);
    assert_eq!(rt; unary_word(op::LOGICAL_NOT, 1), 0);
    assert_eq!(rt; binary_word(op::I_SUB, 3, 5), 0xffff_fffe);
    assert_eq!(rt; binary_word(op::S_LESS_THAN, MINUS_1, 1), 1);
    assert_eq!(rt; binary_word(op::LOGICAL_EQUAL, 0, 0), 1);
    assert_eq!(rt; result_word(op::SELECT, &[0, 5, 7]), 7);
}
