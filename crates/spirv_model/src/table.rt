//! The operands of each instruction, as one table (SPIR-V specification, section 3.49 "Instructions", and the
//! instruction tables of its machine-readable grammar, whose names of operand kinds are used).

use crate::class::{Class, ScalarClass};
use crate::op;
use crate::table::Operand::{Fixed, IdRef, IdResult, IdResultType, LiteralInteger, LiteralString};
use crate::table::Rest::{
    IdRefs, LiteralIntegers, Nothing, PairsIdRefIdRef, PairsLiteralIntegerIdRef,
};

/// The capability that a module may declare (SPIR-V specification, section 3.31 "Capability").
pub const SHADER: u32 = 1;

/// The execution mode that an entry point may have (SPIR-V specification, section 3.6 "Execution Mode").
pub const ORIGIN_UPPER_LEFT: u32 = 7;

/// What an operand is. Each is one word, but for a text.
#[derive(Clone, Copy, Debug, Drop, PartialEq, Eq)]
pub enum Operand {
    /// The id of the result's type.
    IdResultType,
    /// The id that the instruction gives a meaning.
    IdResult,
    /// An id.
    IdRef,
    /// Any word.
    LiteralInteger,
    /// This word.
    Fixed(u32),
    /// Bytes that a zero byte ends, four to a word, the lowest first. The bytes after it are zeros up to the end of its word.
    LiteralString,
}

/// The operands that follow the listed ones, any number of them.
#[derive(Clone, Copy, Debug, Drop, PartialEq, Eq)]
pub enum Rest {
    /// None follows.
    Nothing,
    /// Ids.
    IdRefs,
    /// Any words.
    LiteralIntegers,
    /// Pairs of ids.
    PairsIdRefIdRef,
    /// Pairs of any word and an id.
    PairsLiteralIntegerIdRef,
}

/// The operands that a row lists by themselves, in their order, up to the first `None`.
pub type ListedOperands = (
    Option<Operand>,
    Option<Operand>,
    Option<Operand>,
    Option<Operand>,
    Option<Operand>,
);

/// The operands of an instruction in their order: the listed ones, and then any number of others.
#[derive(Clone, Copy, Debug, Drop)]
pub struct Operands {
    pub listed: ListedOperands,
    pub rest: Rest,
}

/// What is done with an opcode.
#[derive(Clone, Copy, Debug, Drop)]
pub enum Entry {
    /// An instruction without a meaning here: it is left out of the list, whatever its operands are.
    Skipped,
    /// OpTypeFloat: floating point isn't read.
    Float,
    /// An instruction of the list, of this class and with these operands.
    Listed(Class, Operands),
}

/// An opcode and what is done with it.
#[derive(Clone, Copy, Debug, Drop)]
pub struct Row {
    pub op: u16,
    pub entry: Entry,
}

const TYPED_RESULT: Operands = Operands {
    listed: (Some(IdResultType), Some(IdResult), None, None, None),
    rest: Nothing,
};

const RESULT_TEXT: Operands = Operands {
    listed: (Some(IdResult), Some(LiteralString), None, None, None),
    rest: Nothing,
};

const WORD_WORD: Operands = Operands {
    listed: (Some(LiteralInteger), Some(LiteralInteger), None, None, None),
    rest: Nothing,
};

const WORD_ID_TEXT_IDS: Operands = Operands {
    listed: (
        Some(LiteralInteger),
        Some(IdRef),
        Some(LiteralString),
        None,
        None,
    ),
    rest: IdRefs,
};

const ID_ORIGIN: Operands = Operands {
    listed: (
        Some(IdRef),
        Some(Fixed(ORIGIN_UPPER_LEFT)),
        None,
        None,
        None,
    ),
    rest: Nothing,
};

const SHADER_WORD: Operands = Operands {
    listed: (Some(Fixed(SHADER)), None, None, None, None),
    rest: Nothing,
};

const RESULT: Operands = Operands {
    listed: (Some(IdResult), None, None, None, None),
    rest: Nothing,
};

const RESULT_WORD_WORD: Operands = Operands {
    listed: (
        Some(IdResult),
        Some(LiteralInteger),
        Some(LiteralInteger),
        None,
        None,
    ),
    rest: Nothing,
};

const RESULT_ID_WORD: Operands = Operands {
    listed: (
        Some(IdResult),
        Some(IdRef),
        Some(LiteralInteger),
        None,
        None,
    ),
    rest: Nothing,
};

const RESULT_ID_ID: Operands = Operands {
    listed: (Some(IdResult), Some(IdRef), Some(IdRef), None, None),
    rest: Nothing,
};

const RESULT_IDS: Operands = Operands {
    listed: (Some(IdResult), None, None, None, None),
    rest: IdRefs,
};

const RESULT_WORD_ID: Operands = Operands {
    listed: (
        Some(IdResult),
        Some(LiteralInteger),
        Some(IdRef),
        None,
        None,
    ),
    rest: Nothing,
};

const RESULT_ID: Operands = Operands {
    listed: (Some(IdResult), Some(IdRef), None, None, None),
    rest: Nothing,
};

const TYPED_RESULT_WORD: Operands = Operands {
    listed: (
        Some(IdResultType),
        Some(IdResult),
        Some(LiteralInteger),
        None,
        None,
    ),
    rest: Nothing,
};

const TYPED_RESULT_IDS: Operands = Operands {
    listed: (Some(IdResultType), Some(IdResult), None, None, None),
    rest: IdRefs,
};

const TYPED_RESULT_WORD_IDS: Operands = Operands {
    listed: (
        Some(IdResultType),
        Some(IdResult),
        Some(LiteralInteger),
        None,
        None,
    ),
    rest: IdRefs,
};

const TYPED_RESULT_WORD_ID: Operands = Operands {
    listed: (
        Some(IdResultType),
        Some(IdResult),
        Some(LiteralInteger),
        Some(IdRef),
        None,
    ),
    rest: Nothing,
};

/// No operands at all.
pub const NO_OPERANDS: Operands = Operands {
    listed: (None, None, None, None, None),
    rest: Nothing,
};

const TYPED_RESULT_ID: Operands = Operands {
    listed: (Some(IdResultType), Some(IdResult), Some(IdRef), None, None),
    rest: Nothing,
};

const ID_ID: Operands = Operands {
    listed: (Some(IdRef), Some(IdRef), None, None, None),
    rest: Nothing,
};

const TYPED_RESULT_ID_ID_IDS: Operands = Operands {
    listed: (
        Some(IdResultType),
        Some(IdResult),
        Some(IdRef),
        Some(IdRef),
        None,
    ),
    rest: IdRefs,
};

const ID_WORD_WORDS: Operands = Operands {
    listed: (Some(IdRef), Some(LiteralInteger), None, None, None),
    rest: LiteralIntegers,
};

const ID_WORD_WORD_WORDS: Operands = Operands {
    listed: (
        Some(IdRef),
        Some(LiteralInteger),
        Some(LiteralInteger),
        None,
        None,
    ),
    rest: LiteralIntegers,
};

const TYPED_RESULT_ID_ID_WORDS: Operands = Operands {
    listed: (
        Some(IdResultType),
        Some(IdResult),
        Some(IdRef),
        Some(IdRef),
        None,
    ),
    rest: LiteralIntegers,
};

const TYPED_RESULT_ID_WORD_WORDS: Operands = Operands {
    listed: (
        Some(IdResultType),
        Some(IdResult),
        Some(IdRef),
        Some(LiteralInteger),
        None,
    ),
    rest: LiteralIntegers,
};

const TYPED_RESULT_ID_ID_WORD_WORDS: Operands = Operands {
    listed: (
        Some(IdResultType),
        Some(IdResult),
        Some(IdRef),
        Some(IdRef),
        Some(LiteralInteger),
    ),
    rest: LiteralIntegers,
};

const TYPED_RESULT_ID_ID: Operands = Operands {
    listed: (
        Some(IdResultType),
        Some(IdResult),
        Some(IdRef),
        Some(IdRef),
        None,
    ),
    rest: Nothing,
};

const TYPED_RESULT_ID_ID_ID: Operands = Operands {
    listed: (
        Some(IdResultType),
        Some(IdResult),
        Some(IdRef),
        Some(IdRef),
        Some(IdRef),
    ),
    rest: Nothing,
};

const TYPED_RESULT_PAIRS: Operands = Operands {
    listed: (Some(IdResultType), Some(IdResult), None, None, None),
    rest: PairsIdRefIdRef,
};

const ID_ID_WORD: Operands = Operands {
    listed: (Some(IdRef), Some(IdRef), Some(LiteralInteger), None, None),
    rest: Nothing,
};

const ID_WORD: Operands = Operands {
    listed: (Some(IdRef), Some(LiteralInteger), None, None, None),
    rest: Nothing,
};

const ID: Operands = Operands {
    listed: (Some(IdRef), None, None, None, None),
    rest: Nothing,
};

const ID_ID_ID: Operands = Operands {
    listed: (Some(IdRef), Some(IdRef), Some(IdRef), None, None),
    rest: Nothing,
};

const ID_ID_CASES: Operands = Operands {
    listed: (Some(IdRef), Some(IdRef), None, None, None),
    rest: PairsLiteralIntegerIdRef,
};

/// The opcodes that are known, in ascending order.
pub static ROWS: [Row; 92] = [
    Row {
        op: op::NOP,
        entry: Entry::Skipped,
    },
    Row {
        op: op::UNDEF,
        entry: Entry::Listed(Class::Undef, TYPED_RESULT),
    },
    Row {
        op: op::SOURCE_CONTINUED,
        entry: Entry::Skipped,
    },
    Row {
        op: op::SOURCE,
        entry: Entry::Skipped,
    },
    Row {
        op: op::SOURCE_EXTENSION,
        entry: Entry::Skipped,
    },
    Row {
        op: op::NAME,
        entry: Entry::Skipped,
    },
    Row {
        op: op::MEMBER_NAME,
        entry: Entry::Skipped,
    },
    Row {
        op: op::STRING,
        entry: Entry::Skipped,
    },
    Row {
        op: op::LINE,
        entry: Entry::Skipped,
    },
    Row {
        op: op::EXT_INST_IMPORT,
        entry: Entry::Listed(Class::Setting, RESULT_TEXT),
    },
    Row {
        op: op::MEMORY_MODEL,
        entry: Entry::Listed(Class::Setting, WORD_WORD),
    },
    Row {
        op: op::ENTRY_POINT,
        entry: Entry::Listed(Class::Setting, WORD_ID_TEXT_IDS),
    },
    Row {
        op: op::EXECUTION_MODE,
        entry: Entry::Listed(Class::Setting, ID_ORIGIN),
    },
    Row {
        op: op::CAPABILITY,
        entry: Entry::Listed(Class::Setting, SHADER_WORD),
    },
    Row {
        op: op::TYPE_VOID,
        entry: Entry::Listed(Class::TypeDeclaration, RESULT),
    },
    Row {
        op: op::TYPE_BOOL,
        entry: Entry::Listed(Class::TypeDeclaration, RESULT),
    },
    Row {
        op: op::TYPE_INT,
        entry: Entry::Listed(Class::TypeDeclaration, RESULT_WORD_WORD),
    },
    Row {
        op: op::TYPE_FLOAT,
        entry: Entry::Float,
    },
    Row {
        op: op::TYPE_VECTOR,
        entry: Entry::Listed(Class::TypeDeclaration, RESULT_ID_WORD),
    },
    Row {
        op: op::TYPE_ARRAY,
        entry: Entry::Listed(Class::TypeDeclaration, RESULT_ID_ID),
    },
    Row {
        op: op::TYPE_STRUCT,
        entry: Entry::Listed(Class::TypeDeclaration, RESULT_IDS),
    },
    Row {
        op: op::TYPE_POINTER,
        entry: Entry::Listed(Class::TypeDeclaration, RESULT_WORD_ID),
    },
    Row {
        op: op::TYPE_FUNCTION,
        entry: Entry::Listed(Class::TypeDeclaration, RESULT_ID),
    },
    Row {
        op: op::CONSTANT_TRUE,
        entry: Entry::Listed(Class::Constant, TYPED_RESULT),
    },
    Row {
        op: op::CONSTANT_FALSE,
        entry: Entry::Listed(Class::Constant, TYPED_RESULT),
    },
    Row {
        op: op::CONSTANT,
        entry: Entry::Listed(Class::Constant, TYPED_RESULT_WORD),
    },
    Row {
        op: op::CONSTANT_COMPOSITE,
        entry: Entry::Listed(Class::Constant, TYPED_RESULT_IDS),
    },
    Row {
        op: op::CONSTANT_NULL,
        entry: Entry::Listed(Class::Constant, TYPED_RESULT),
    },
    Row {
        op: op::SPEC_CONSTANT_TRUE,
        entry: Entry::Listed(Class::SpecConstant, TYPED_RESULT),
    },
    Row {
        op: op::SPEC_CONSTANT_FALSE,
        entry: Entry::Listed(Class::SpecConstant, TYPED_RESULT),
    },
    Row {
        op: op::SPEC_CONSTANT,
        entry: Entry::Listed(Class::SpecConstant, TYPED_RESULT_WORD),
    },
    Row {
        op: op::SPEC_CONSTANT_COMPOSITE,
        entry: Entry::Listed(Class::SpecConstantResult, TYPED_RESULT_IDS),
    },
    Row {
        op: op::SPEC_CONSTANT_OP,
        entry: Entry::Listed(Class::SpecConstantResult, TYPED_RESULT_WORD_IDS),
    },
    Row {
        op: op::FUNCTION,
        entry: Entry::Listed(Class::Function, TYPED_RESULT_WORD_ID),
    },
    Row {
        op: op::FUNCTION_END,
        entry: Entry::Listed(Class::Function, NO_OPERANDS),
    },
    Row {
        op: op::VARIABLE,
        entry: Entry::Listed(Class::Variable, TYPED_RESULT_WORD),
    },
    Row {
        op: op::LOAD,
        entry: Entry::Listed(Class::Memory, TYPED_RESULT_ID),
    },
    Row {
        op: op::STORE,
        entry: Entry::Listed(Class::Memory, ID_ID),
    },
    Row {
        op: op::ACCESS_CHAIN,
        entry: Entry::Listed(Class::Memory, TYPED_RESULT_ID_ID_IDS),
    },
    Row {
        op: op::DECORATE,
        entry: Entry::Listed(Class::Setting, ID_WORD_WORDS),
    },
    Row {
        op: op::MEMBER_DECORATE,
        entry: Entry::Listed(Class::Setting, ID_WORD_WORD_WORDS),
    },
    Row {
        op: op::VECTOR_SHUFFLE,
        entry: Entry::Listed(Class::Composite, TYPED_RESULT_ID_ID_WORDS),
    },
    Row {
        op: op::COMPOSITE_CONSTRUCT,
        entry: Entry::Listed(Class::Composite, TYPED_RESULT_IDS),
    },
    Row {
        op: op::COMPOSITE_EXTRACT,
        entry: Entry::Listed(Class::Composite, TYPED_RESULT_ID_WORD_WORDS),
    },
    Row {
        op: op::COMPOSITE_INSERT,
        entry: Entry::Listed(Class::Composite, TYPED_RESULT_ID_ID_WORD_WORDS),
    },
    Row {
        op: op::BITCAST,
        entry: Entry::Listed(Class::Scalar(ScalarClass::Bitcast), TYPED_RESULT_ID),
    },
    Row {
        op: op::S_NEGATE,
        entry: Entry::Listed(Class::Scalar(ScalarClass::WordFromWord), TYPED_RESULT_ID),
    },
    Row {
        op: op::I_ADD,
        entry: Entry::Listed(
            Class::Scalar(ScalarClass::WordFromWords),
            TYPED_RESULT_ID_ID,
        ),
    },
    Row {
        op: op::I_SUB,
        entry: Entry::Listed(
            Class::Scalar(ScalarClass::WordFromWords),
            TYPED_RESULT_ID_ID,
        ),
    },
    Row {
        op: op::I_MUL,
        entry: Entry::Listed(
            Class::Scalar(ScalarClass::WordFromWords),
            TYPED_RESULT_ID_ID,
        ),
    },
    Row {
        op: op::U_DIV,
        entry: Entry::Listed(
            Class::Scalar(ScalarClass::WordFromWords),
            TYPED_RESULT_ID_ID,
        ),
    },
    Row {
        op: op::S_DIV,
        entry: Entry::Listed(
            Class::Scalar(ScalarClass::WordFromWords),
            TYPED_RESULT_ID_ID,
        ),
    },
    Row {
        op: op::U_MOD,
        entry: Entry::Listed(
            Class::Scalar(ScalarClass::WordFromWords),
            TYPED_RESULT_ID_ID,
        ),
    },
    Row {
        op: op::S_REM,
        entry: Entry::Listed(
            Class::Scalar(ScalarClass::WordFromWords),
            TYPED_RESULT_ID_ID,
        ),
    },
    Row {
        op: op::S_MOD,
        entry: Entry::Listed(
            Class::Scalar(ScalarClass::WordFromWords),
            TYPED_RESULT_ID_ID,
        ),
    },
    Row {
        op: op::ANY,
        entry: Entry::Listed(Class::Composite, TYPED_RESULT_ID),
    },
    Row {
        op: op::ALL,
        entry: Entry::Listed(Class::Composite, TYPED_RESULT_ID),
    },
    Row {
        op: op::LOGICAL_EQUAL,
        entry: Entry::Listed(
            Class::Scalar(ScalarClass::TruthFromTruths),
            TYPED_RESULT_ID_ID,
        ),
    },
    Row {
        op: op::LOGICAL_NOT_EQUAL,
        entry: Entry::Listed(
            Class::Scalar(ScalarClass::TruthFromTruths),
            TYPED_RESULT_ID_ID,
        ),
    },
    Row {
        op: op::LOGICAL_OR,
        entry: Entry::Listed(
            Class::Scalar(ScalarClass::TruthFromTruths),
            TYPED_RESULT_ID_ID,
        ),
    },
    Row {
        op: op::LOGICAL_AND,
        entry: Entry::Listed(
            Class::Scalar(ScalarClass::TruthFromTruths),
            TYPED_RESULT_ID_ID,
        ),
    },
    Row {
        op: op::LOGICAL_NOT,
        entry: Entry::Listed(Class::Scalar(ScalarClass::TruthFromTruth), TYPED_RESULT_ID),
    },
    Row {
        op: op::SELECT,
        entry: Entry::Listed(Class::Scalar(ScalarClass::Select), TYPED_RESULT_ID_ID_ID),
    },
    Row {
        op: op::I_EQUAL,
        entry: Entry::Listed(
            Class::Scalar(ScalarClass::TruthFromWords),
            TYPED_RESULT_ID_ID,
        ),
    },
    Row {
        op: op::I_NOT_EQUAL,
        entry: Entry::Listed(
            Class::Scalar(ScalarClass::TruthFromWords),
            TYPED_RESULT_ID_ID,
        ),
    },
    Row {
        op: op::U_GREATER_THAN,
        entry: Entry::Listed(
            Class::Scalar(ScalarClass::TruthFromWords),
            TYPED_RESULT_ID_ID,
        ),
    },
    Row {
        op: op::S_GREATER_THAN,
        entry: Entry::Listed(
            Class::Scalar(ScalarClass::TruthFromWords),
            TYPED_RESULT_ID_ID,
        ),
    },
    Row {
        op: op::U_GREATER_THAN_EQUAL,
        entry: Entry::Listed(
            Class::Scalar(ScalarClass::TruthFromWords),
            TYPED_RESULT_ID_ID,
        ),
    },
    Row {
        op: op::S_GREATER_THAN_EQUAL,
        entry: Entry::Listed(
            Class::Scalar(ScalarClass::TruthFromWords),
            TYPED_RESULT_ID_ID,
        ),
    },
    Row {
        op: op::U_LESS_THAN,
        entry: Entry::Listed(
            Class::Scalar(ScalarClass::TruthFromWords),
            TYPED_RESULT_ID_ID,
        ),
    },
    Row {
        op: op::S_LESS_THAN,
        entry: Entry::Listed(
            Class::Scalar(ScalarClass::TruthFromWords),
            TYPED_RESULT_ID_ID,
        ),
    },
    Row {
        op: op::U_LESS_THAN_EQUAL,
        entry: Entry::Listed(
            Class::Scalar(ScalarClass::TruthFromWords),
            TYPED_RESULT_ID_ID,
        ),
    },
    Row {
        op: op::S_LESS_THAN_EQUAL,
        entry: Entry::Listed(
            Class::Scalar(ScalarClass::TruthFromWords),
            TYPED_RESULT_ID_ID,
        ),
    },
    Row {
        op: op::SHIFT_RIGHT_LOGICAL,
        entry: Entry::Listed(
            Class::Scalar(ScalarClass::WordFromWords),
            TYPED_RESULT_ID_ID,
        ),
    },
    Row {
        op: op::SHIFT_RIGHT_ARITHMETIC,
        entry: Entry::Listed(
            Class::Scalar(ScalarClass::WordFromWords),
            TYPED_RESULT_ID_ID,
        ),
    },
    Row {
        op: op::SHIFT_LEFT_LOGICAL,
        entry: Entry::Listed(
            Class::Scalar(ScalarClass::WordFromWords),
            TYPED_RESULT_ID_ID,
        ),
    },
    Row {
        op: op::BITWISE_OR,
        entry: Entry::Listed(
            Class::Scalar(ScalarClass::WordFromWords),
            TYPED_RESULT_ID_ID,
        ),
    },
    Row {
        op: op::BITWISE_XOR,
        entry: Entry::Listed(
            Class::Scalar(ScalarClass::WordFromWords),
            TYPED_RESULT_ID_ID,
        ),
    },
    Row {
        op: op::BITWISE_AND,
        entry: Entry::Listed(
            Class::Scalar(ScalarClass::WordFromWords),
            TYPED_RESULT_ID_ID,
        ),
    },
    Row {
        op: op::NOT,
        entry: Entry::Listed(Class::Scalar(ScalarClass::WordFromWord), TYPED_RESULT_ID),
    },
    Row {
        op: op::PHI,
        entry: Entry::Listed(Class::Phi, TYPED_RESULT_PAIRS),
    },
    Row {
        op: op::LOOP_MERGE,
        entry: Entry::Listed(Class::Merge, ID_ID_WORD),
    },
    Row {
        op: op::SELECTION_MERGE,
        entry: Entry::Listed(Class::Merge, ID_WORD),
    },
    Row {
        op: op::LABEL,
        entry: Entry::Listed(Class::Label, RESULT),
    },
    Row {
        op: op::BRANCH,
        entry: Entry::Listed(Class::Terminator, ID),
    },
    Row {
        op: op::BRANCH_CONDITIONAL,
        entry: Entry::Listed(Class::Terminator, ID_ID_ID),
    },
    Row {
        op: op::SWITCH,
        entry: Entry::Listed(Class::Terminator, ID_ID_CASES),
    },
    Row {
        op: op::KILL,
        entry: Entry::Listed(Class::Terminator, NO_OPERANDS),
    },
    Row {
        op: op::RETURN,
        entry: Entry::Listed(Class::Terminator, NO_OPERANDS),
    },
    Row {
        op: op::UNREACHABLE,
        entry: Entry::Listed(Class::Terminator, NO_OPERANDS),
    },
    Row {
        op: op::NO_LINE,
        entry: Entry::Skipped,
    },
    Row {
        op: op::MODULE_PROCESSED,
        entry: Entry::Skipped,
    },
];
