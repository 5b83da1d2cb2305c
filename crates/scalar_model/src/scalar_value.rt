/// An operand or a result of a scalar operation: a truth value (OpTypeBool) or the word of a 32-bit integer (OpTypeInt,
/// SPIR-V specification, section 3.49.6 "Type-Declaration Instructions").
#[derive(Clone, Copy, Debug, Drop, PartialEq, Eq)]
pub enum Scalar {
    Bool(bool),
    Word(u32),
}
