//! Scalar operations of SPIR-V: single 32-bit integers and truth values.
#![tactic(auto)]

ghost use Rattle.std.specs.Prelude.{◌≡◌, IsSome};
ghost use Rattle.scalar_model.specs.Scalars.{scalar_result, folded, selected};
ghost use Rattle.spv_ops.specs.Results.{result_of_words};

mod scalar_words;
mod truths;
mod words;

use Scalar::{Bool, Word};
pub use scalar_model::Scalar;
pub use scalar_words::{binary_word, result_word, unary_word};
use spirv_model::op;
use truths::{comparison, truth_from_truth, truth_from_truths};
use words::{word_from_word, word_from_words};

/// The result of the operation with this opcode for operands that fit it (SPIR-V specification, section 3.49
/// "Instructions"). Words are 32-bit integers of either signedness. Where SPIR-V leaves a result undefined, a quotient or
/// a remainder by zero is 0, the signed quotient of -2^31 by -1 is -2^31, a logical shift by 32 or more gives 0, and an
/// arithmetic one the sign in every bit.
pub fn apply(op: u16, args: &[Scalar]) -> Scalar
    requires { IsSome (scalar_result op args.now) }
    ensures { scalar_result op args.now ≡ Some result }
{
    result_of(op, args).unwrap()
}

/// The result as `apply` gives it. `None` where the opcode is that of no scalar operation, an operand isn't known, or the
/// operands don't fit the operation.
#[tactic(auto, unfolding(scalar_model::specs::Scalars::scalar_result))]
pub fn fold_one(op: u16, args: &[Option<Scalar>]) -> Option<Scalar>
    ensures { result ≡ folded op args.now }
{
    match *args {
        [first] => result_of(op, &[first?]),
        [first, second] => result_of(op, &[first?, second?]),
        [first, second, third] => result_of(op, &[first?, second?, third?]),
        _ => None,
    }
}

#[tactic(auto, unfolding(scalar_model::specs::Scalars::scalar_result))]
fn result_of(op: u16, args: &[Scalar]) -> Option<Scalar>
    ensures { result ≡ scalar_result op args.now }
{
    match *args {
        [Word(word)] => word_from_word(op, word).map(Word),
        [Bool(truth)] => truth_from_truth(op, truth).map(Bool),
        [Word(left), Word(right)] => of_words(op, left, right),
        [Bool(left), Bool(right)] => truth_from_truths(op, left, right).map(Bool),
        [Bool(condition), first, second] if op == op::SELECT => select(condition, first, second),
        _ => None,
    }
}

fn of_words(op: u16, left: u32, right: u32) -> Option<Scalar>
    ensures { result ≡ result_of_words op left right }
{
    match word_from_words(op, left, right) {
        Some(word) => Some(Word(word)),
        None => comparison(op, left, right).map(Bool),
    }
}

fn select(condition: bool, first: Scalar, second: Scalar) -> Option<Scalar>
    ensures { result ≡ selected condition first second }
{
    match (first, second) {
        (Word(_), Word(_)) | (Bool(_), Bool(_)) => Some(if condition { first } else { second }),
        _ => None,
    }
}
