//! Operations on the words of scalars: a truth value is the word 1 or 0.
ghost use Rattle.std.specs.Prelude.{◌≡◌, List, ◌∷◌, [], map, Some};
ghost use Rattle.scalar_model.specs.declared.scalar_value.Scalar.{Scalar};
ghost use Rattle.scalar_model.specs.Scalars.{comparison, scalar_result, truth_from_truth, truth_from_truths};
ghost use Rattle.spv_ops.specs.ScalarWords.{scalar_word, truth_by_truth, truth_by_truths, truth_by_words, word_of_all, word_of_one, word_of_two};

use crate::truths::{comparison, truth_from_truth, truth_from_truths};
use crate::words::{word_from_word, word_from_words};

/// The word of the result of an operation on one operand, by the operand's word: a truth value is the word 1 or 0.
pub fn unary_word(op: u16, operand: u32) -> u32
    ensures is { result ≡ word_of_one op operand }
    ensures gives { (first value : Scalar) → scalar_result op (first ∷ []) ≡ Some value
        → operand ≡ scalar_word first → result ≡ scalar_word value }
{
    from_one(op, operand)
}

/// The word of the result of an operation on two operands, by the operands' words: a truth value is the word 1 or 0.
pub fn binary_word(op: u16, left: u32, right: u32) -> u32
    ensures is { result ≡ word_of_two op left right }
    ensures gives { (first second value : Scalar)
        → scalar_result op (first ∷ second ∷ []) ≡ Some value
        → left ≡ scalar_word first → right ≡ scalar_word second → result ≡ scalar_word value }
{
    from_two(op, left, right)
}

/// The word of the result of an operation, by the words of its operands: a truth value is the word 1 or 0.
pub fn result_word(op: u16, words: &[u32]) -> u32
    ensures is { result ≡ word_of_all op words.now }
    ensures gives { (operands : List Scalar) (value : Scalar)
        → scalar_result op operands ≡ Some value
        → words.now ≡ map scalar_word operands → result ≡ scalar_word value }
{
    from_all(op, words)
}

#[tactic(auto, unfolding(crate::specs::ScalarWords::word_of_one))]
fn from_one(op: u16, operand: u32) -> u32
    ensures { result ≡ word_of_one op operand }
{
    match word_from_word(op, operand) {
        Some(word) => word,
        None => u32::from(truth_from_truth(op, operand != 0).unwrap_or(false)),
    }
}

#[tactic(auto, unfolding(crate::specs::ScalarWords::word_of_two))]
fn from_two(op: u16, left: u32, right: u32) -> u32
    ensures { result ≡ word_of_two op left right }
{
    match word_from_words(op, left, right) {
        Some(word) => word,
        None => truth_of_two(op, left, right),
    }
}

#[tactic(auto, unfolding(crate::specs::ScalarWords::word_of_all))]
fn from_all(op: u16, words: &[u32]) -> u32
    ensures { result ≡ word_of_all op words.now }
{
    match *words {
        [word] => from_one(op, word),
        [left, right] => from_two(op, left, right),
        [condition, first, second] => { if condition != 0 { first } else { second } }
        _ => 0,
    }
}

fn truth_of_two(op: u16, left: u32, right: u32) -> u32
    ensures { result ≡ truth_by_words (comparison op) left right
        (truth_by_truths (truth_from_truths op) left right) }
{
    match comparison(op, left, right) {
        Some(truth) => u32::from(truth),
        None => u32::from(truth_from_truths(op, left != 0, right != 0).unwrap_or(false)),
    }
}
