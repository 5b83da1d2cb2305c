//! Bodies of functions with one fault each, and the lines that they begin with.

use body_model::TreeFault;
use spirv_model::op;

/// An instruction: its opcode and its words.
pub type Line = (u16, &'static [u32]);

/// OpLabel 20.
pub const LABEL_20: Line = (op::LABEL, &[20]);

/// OpLabel 21.
pub const LABEL_21: Line = (op::LABEL, &[21]);

/// OpLabel 22.
pub const LABEL_22: Line = (op::LABEL, &[22]);

/// OpReturn.
pub const RETURN: Line = (op::RETURN, &[]);

/// OpFunctionEnd.
pub const END: Line = (op::FUNCTION_END, &[]);

/// From the first block, with the label 20, a loop's condition sequence 32, up to its body's label 33.
pub const LOOP_TO_BODY: [Line; 6] = [
    LABEL_20,
    (op::LOOP_MERGE, &[30, 31, 0]),
    (op::BRANCH, &[32]),
    (op::LABEL, &[32]),
    (op::BRANCH_CONDITIONAL, &[4, 33, 30]),
    (op::LABEL, &[33]),
];

/// From the first block, with the label 20, an OpSwitch with the arms 22 and 23 and the merge block 21, up to the label
/// of its arm 22.
pub const SWITCH_TO_ARM: [Line; 4] = [
    LABEL_20,
    (op::SELECTION_MERGE, &[21, 0]),
    (op::SWITCH, &[6, 22, 1, 23]),
    LABEL_22,
];

/// Whole bodies, each with its first fault against the grammar.
pub const AGAINST_THE_GRAMMAR: [(&[Line], TreeFault); 15] = [
    (&[], TreeFault::BadBlock(1)),
    (
        &[LABEL_20, (op::BRANCH, &[20]), LABEL_20],
        TreeFault::BadBlock(3),
    ),
    (
        &[LABEL_20, (op::PHI, &[3, 60]), RETURN],
        TreeFault::BadBlock(2),
    ),
    (
        &[
            LABEL_20,
            (op::PHI, &[3, 60]),
            (op::LOOP_MERGE, &[31, 32, 0]),
            (op::BRANCH, &[33]),
            (op::LABEL, &[33]),
        ],
        TreeFault::BadBlock(2),
    ),
    (
        &[LABEL_20, (op::BRANCH, &[22]), LABEL_21],
        TreeFault::BadExit(2),
    ),
    (
        &[LABEL_20, (op::BRANCH_CONDITIONAL, &[4, 21, 22]), LABEL_21],
        TreeFault::BadMerge(2),
    ),
    (
        &[LABEL_20, (op::SELECTION_MERGE, &[21, 0]), RETURN],
        TreeFault::BadMerge(2),
    ),
    (
        &[
            LABEL_20,
            (op::SELECTION_MERGE, &[21, 0]),
            (op::BRANCH_CONDITIONAL, &[4, 22, 22]),
            LABEL_22,
        ],
        TreeFault::BadMerge(3),
    ),
    (
        &[
            LABEL_20,
            (op::SELECTION_MERGE, &[21, 0]),
            (op::BRANCH_CONDITIONAL, &[4, 22, 23]),
            (op::LABEL, &[23]),
        ],
        TreeFault::BadMerge(4),
    ),
    (
        &[
            LABEL_20,
            (op::SELECTION_MERGE, &[21, 0]),
            (op::BRANCH_CONDITIONAL, &[4, 21, 21]),
            LABEL_21,
            (op::PHI, &[3, 60]),
            (op::VARIABLE, &[4, 90, 7]),
        ],
        TreeFault::BadBlock(6),
    ),
    (
        &[
            LABEL_20,
            (op::BRANCH, &[21]),
            LABEL_21,
            (op::PHI, &[3, 60]),
            RETURN,
        ],
        TreeFault::BadBlock(4),
    ),
    (
        &[
            LABEL_20,
            (op::BRANCH, &[21]),
            LABEL_21,
            (op::I_ADD, &[3, 60, 6, 6]),
            (op::PHI, &[3, 61]),
            (op::LOOP_MERGE, &[30, 31, 0]),
            (op::BRANCH, &[32]),
        ],
        TreeFault::BadBlock(5),
    ),
    (
        &[
            LABEL_20,
            (op::LOOP_MERGE, &[30, 31, 0]),
            (op::BRANCH, &[32]),
            (op::LABEL, &[32]),
            RETURN,
        ],
        TreeFault::BadExit(5),
    ),
    (
        &[
            LABEL_20,
            (op::LOOP_MERGE, &[30, 31, 0]),
            (op::BRANCH, &[32]),
            (op::LABEL, &[32]),
            (op::SELECTION_MERGE, &[40, 0]),
            (op::BRANCH_CONDITIONAL, &[4, 41, 40]),
            (op::LABEL, &[41]),
            (op::LOOP_MERGE, &[50, 51, 0]),
            (op::BRANCH, &[52]),
        ],
        TreeFault::BadMerge(8),
    ),
    (
        &[
            LABEL_20,
            (op::LOOP_MERGE, &[30, 31, 0]),
            (op::BRANCH, &[32]),
            (op::LABEL, &[32]),
            (op::BRANCH_CONDITIONAL, &[4, 33, 30]),
            (op::LABEL, &[33]),
            (op::BRANCH, &[31]),
            (op::LABEL, &[31]),
            (op::BRANCH, &[20]),
            (op::LABEL, &[30]),
            (op::PHI, &[3, 60]),
            (op::LOOP_MERGE, &[50, 51, 0]),
            (op::BRANCH, &[52]),
        ],
        TreeFault::BadBlock(11),
    ),
];

/// What stands in the body of a loop, behind [`LOOP_TO_BODY`], each with its first fault.
pub const IN_A_LOOP: [(&[Line], TreeFault); 8] = [
    (&[(op::BRANCH, &[20])], TreeFault::BadExit(7)),
    (
        &[(op::BRANCH, &[31]), (op::LABEL, &[31]), (op::BRANCH, &[30])],
        TreeFault::BadExit(9),
    ),
    (
        &[(op::BRANCH, &[31]), (op::LABEL, &[31]), RETURN],
        TreeFault::BadExit(9),
    ),
    (
        &[(op::BRANCH, &[31]), (op::LABEL, &[34])],
        TreeFault::BadMerge(8),
    ),
    (
        &[
            (op::BRANCH, &[31]),
            (op::LABEL, &[31]),
            (op::SELECTION_MERGE, &[60, 0]),
            (op::BRANCH_CONDITIONAL, &[4, 61, 60]),
            (op::LABEL, &[61]),
            (op::BRANCH, &[20]),
        ],
        TreeFault::BadExit(12),
    ),
    (
        &[
            (op::PHI, &[3, 60]),
            (op::LOOP_MERGE, &[50, 51, 0]),
            (op::BRANCH, &[52]),
        ],
        TreeFault::BadBlock(7),
    ),
    (
        &[
            (op::LOOP_MERGE, &[50, 51, 0]),
            (op::BRANCH, &[52]),
            (op::LABEL, &[52]),
            (op::BRANCH_CONDITIONAL, &[4, 53, 50]),
            (op::LABEL, &[53]),
            (op::BRANCH, &[30]),
        ],
        TreeFault::BadExit(12),
    ),
    (
        &[
            (op::SELECTION_MERGE, &[40, 0]),
            (op::SWITCH, &[6, 41, 1, 31]),
            (op::LABEL, &[41]),
            (op::BRANCH, &[31]),
        ],
        TreeFault::BadExit(10),
    ),
];

/// What stands in the first arm of an OpSwitch, behind [`SWITCH_TO_ARM`], each with its first fault.
pub const IN_AN_ARM: [(&[Line], TreeFault); 13] = [
    (
        &[(op::BRANCH, &[23]), (op::LABEL, &[23])],
        TreeFault::BadExit(5),
    ),
    (&[(op::BRANCH, &[22]), LABEL_22], TreeFault::BadBlock(6)),
    (&[(op::BRANCH, &[21]), LABEL_21], TreeFault::BadMerge(6)),
    (
        &[(op::BRANCH, &[21]), (op::LABEL, &[24])],
        TreeFault::BadMerge(6),
    ),
    (&[(op::BRANCH, &[21]), RETURN], TreeFault::BadBlock(6)),
    (&[(op::BRANCH, &[21])], TreeFault::BadMerge(6)),
    (&[(op::BRANCH, &[20])], TreeFault::BadExit(5)),
    (
        &[
            (op::LOOP_MERGE, &[30, 31, 0]),
            (op::BRANCH, &[23]),
            (op::LABEL, &[23]),
        ],
        TreeFault::BadExit(6),
    ),
    (
        &[
            (op::LOOP_MERGE, &[30, 31, 0]),
            (op::BRANCH, &[32]),
            (op::LABEL, &[32]),
            (op::BRANCH_CONDITIONAL, &[4, 33, 30]),
            (op::LABEL, &[33]),
            (op::BRANCH, &[21]),
        ],
        TreeFault::BadExit(10),
    ),
    (
        &[
            (op::SELECTION_MERGE, &[30, 0]),
            (op::SWITCH, &[6, 31, 1, 30]),
            (op::LABEL, &[31]),
            (op::BRANCH, &[21]),
        ],
        TreeFault::BadExit(8),
    ),
    (
        &[
            (op::SELECTION_MERGE, &[30, 0]),
            (op::BRANCH_CONDITIONAL, &[4, 31, 30]),
            (op::LABEL, &[31]),
            (op::BRANCH, &[23]),
        ],
        TreeFault::BadExit(8),
    ),
    (
        &[
            (op::SELECTION_MERGE, &[30, 0]),
            (op::SWITCH, &[6, 31, 1, 32]),
            (op::LABEL, &[32]),
            (op::BRANCH, &[31]),
        ],
        TreeFault::BadExit(8),
    ),
    (&[(op::PHI, &[3, 60]), RETURN], TreeFault::BadBlock(5)),
];

/// Whole bodies with an OpSwitch that is not laid out as its words say, each with its first fault.
pub const OF_A_SWITCH: [(&[Line], TreeFault); 5] = [
    (
        &[LABEL_20, (op::SWITCH, &[6, 22, 1, 23]), LABEL_22],
        TreeFault::BadMerge(2),
    ),
    (
        &[
            LABEL_20,
            (op::LOOP_MERGE, &[21, 22, 0]),
            (op::SWITCH, &[6, 22, 1, 23]),
            LABEL_22,
        ],
        TreeFault::BadMerge(2),
    ),
    (
        &[
            LABEL_20,
            (op::SELECTION_MERGE, &[21, 0]),
            (op::SWITCH, &[6, 22, 1, 23, 2, 24, 1, 23]),
            LABEL_22,
        ],
        TreeFault::BadMerge(3),
    ),
    (
        &[
            LABEL_20,
            (op::SELECTION_MERGE, &[21, 0]),
            (op::SWITCH, &[6, 22, 1, 23]),
            LABEL_21,
        ],
        TreeFault::BadMerge(4),
    ),
    (
        &[
            LABEL_20,
            (op::SELECTION_MERGE, &[21, 0]),
            (op::SWITCH, &[6, 21, 1, 21]),
            LABEL_22,
        ],
        TreeFault::BadMerge(4),
    ),
];
