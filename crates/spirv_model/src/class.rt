//! The classes of instructions, after the groups of the SPIR-V specification, section 3.49 "Instructions": which of them may
//! stand where, and which of them follow one rule.

/// What kind of instruction it is.
#[derive(Clone, Copy, Debug, Drop, PartialEq, Eq)]
pub enum Class {
    /// An extension, a mode or an annotation of the module.
    Setting,
    /// It declares a type.
    TypeDeclaration,
    /// A constant that no specialization changes.
    Constant,
    /// A scalar specialization constant, which a SpecId may set.
    SpecConstant,
    /// A specialization constant that is made of others.
    SpecConstantResult,
    /// OpUndef, which stands among constants and in blocks.
    Undef,
    /// OpVariable, which stands among types and in a function's first block.
    Variable,
    /// The function's first or last instruction.
    Function,
    /// It reads or writes memory, or makes a pointer into it.
    Memory,
    /// It makes a composite or takes one apart.
    Composite,
    /// An operation on words and truth values, one by one.
    Scalar(ScalarClass),
    /// OpPhi.
    Phi,
    /// It tells where a selection or a loop ends.
    Merge,
    /// OpLabel.
    Label,
    /// It ends a block.
    Terminator,
}

/// What a scalar operation makes of what.
#[derive(Clone, Copy, Debug, Drop, PartialEq, Eq)]
pub enum ScalarClass {
    /// The same word.
    Bitcast,
    WordFromWord,
    WordFromWords,
    TruthFromWords,
    TruthFromTruth,
    TruthFromTruths,
    /// One of two objects, by a truth value.
    Select,
}
