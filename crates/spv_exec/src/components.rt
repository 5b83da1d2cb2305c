//! Words of a frame that are made one by one of others.
ghost use Rattle.std.specs.Prelude.{◌≡◌, ◌+◌, ◌<◌, ◌≤◌, ◌⊎◌, length, map, slice_index, if◌then◌else◌, ◌∷◌, []};
ghost use Rattle.std.specs.List.{list_any, list_all};
ghost use Rattle.stage_model.specs.Value.{word_of_truth};
ghost use Rattle.spv_ops.specs.ScalarWords.{word_of_one, word_of_two};
ghost use Rattle.frame_model.specs.Shown.{words_at};
ghost use Rattle.frame_model.specs.Written.{written};
ghost use Rattle.frame_model.specs.Componentwise.{on_both, chosen_word, chosen_words, is_true_word};

use spv_ops::{binary_word, unary_word};

/// Writes the words of the results of an operation on each of so many words. These lie in front of the results, or not
/// before them.
pub fn write_unary(op: u16, from: usize, at: usize, count: usize, frame: &mut [u32])
    requires room { at + count ≤ length frame.old }
    requires within { from + count ≤ length frame.old }
    requires apart { (from + count ≤ at) ⊎ (at ≤ from) }
    ensures { frame.new ≡ written frame.old at
        (map (word_of_one op) (words_at frame.old from count)) }
{
    for k in 0..count {
        frame[at + k] = unary_word(op, frame[from + k]);
    }
}

/// Writes the words of the results of an operation on so many pairs of words.
pub fn write_binary(op: u16, left: usize, right: usize, at: usize, count: usize, frame: &mut [u32])
    requires room { at + count ≤ length frame.old }
    requires left_within { left + count ≤ length frame.old }
    requires right_within { right + count ≤ length frame.old }
    requires left_apart { (left + count ≤ at) ⊎ (at ≤ left) }
    requires right_apart { (right + count ≤ at) ⊎ (at ≤ right) }
    ensures { frame.new ≡ written frame.old at (on_both (word_of_two op)
        (words_at frame.old left count) (words_at frame.old right count)) }
{
    for k in 0..count {
        frame[at + k] = binary_word(op, frame[left + k], frame[right + k]);
    }
}

/// Writes so many words, each the first or the second, as the words of truth values choose.
pub fn write_chosen(
    conditions: usize,
    first: usize,
    second: usize,
    at: usize,
    count: usize,
    frame: &mut [u32],
)
    requires room { at + count ≤ length frame.old }
    requires conditions_within { conditions + count ≤ length frame.old }
    requires first_within { first + count ≤ length frame.old }
    requires second_within { second + count ≤ length frame.old }
    requires conditions_apart { (conditions + count ≤ at) ⊎ (at ≤ conditions) }
    requires first_apart { (first + count ≤ at) ⊎ (at ≤ first) }
    requires second_apart { (second + count ≤ at) ⊎ (at ≤ second) }
    ensures { frame.new ≡ written frame.old at (chosen_words (words_at frame.old conditions count)
        (words_at frame.old first count) (words_at frame.old second count)) }
{
    for k in 0..count {
        frame[at + k] = chosen_word(frame[conditions + k], frame[first + k], frame[second + k]);
    }
}

/// Writes so many words of the first or the second part, as the word of a truth value chooses.
pub fn write_whole(
    condition: usize,
    first: usize,
    second: usize,
    at: usize,
    count: usize,
    frame: &mut [u32],
)
    requires room { at + count ≤ length frame.old }
    requires condition_within { condition < length frame.old }
    requires first_within { first + count ≤ length frame.old }
    requires second_within { second + count ≤ length frame.old }
    ensures { frame.new ≡ written frame.old at (if is_true_word (slice_index frame.old condition)
        then words_at frame.old first count else words_at frame.old second count) }
{
    if frame[condition] != 0 {
        write_copy(first, at, count, frame);
    } else {
        write_copy(second, at, count, frame);
    }
}

#[tactic(auto, using(frame_model::proofs::WrittenWords::copied))]
fn write_copy(from: usize, at: usize, count: usize, frame: &mut [u32])
    requires room { at + count ≤ length frame.old }
    requires within { from + count ≤ length frame.old }
    ensures { frame.new ≡ written frame.old at (words_at frame.old from count) }
{
    frame.copy_within(from..from + count, at);
}

fn chosen_word(condition: u32, first: u32, second: u32) -> u32
    ensures { result ≡ chosen_word condition first second }
{
    if condition != 0 { first } else { second }
}

/// Writes whether one of so many words is a true one.
#[tactic(auto, using(crate::proofs::ComponentLoops::one_written))]
pub fn write_any(from: usize, count: usize, at: usize, frame: &mut [u32])
    requires within { from + count ≤ length frame.old }
    requires room { at < length frame.old }
    ensures { frame.new ≡ written frame.old at
        (word_of_truth (list_any is_true_word (words_at frame.old from count)) ∷ []) }
{
    frame[at] = u32::from(any_word(from, count, frame));
}

/// Writes whether each of so many words is a true one.
#[tactic(auto, using(crate::proofs::ComponentLoops::one_written))]
pub fn write_all(from: usize, count: usize, at: usize, frame: &mut [u32])
    requires within { from + count ≤ length frame.old }
    requires room { at < length frame.old }
    ensures { frame.new ≡ written frame.old at
        (word_of_truth (list_all is_true_word (words_at frame.old from count)) ∷ []) }
{
    frame[at] = u32::from(all_words(from, count, frame));
}

fn any_word(from: usize, count: usize, frame: &[u32]) -> bool
    requires { from + count ≤ length frame.now }
    ensures { result ≡ list_any is_true_word (words_at frame.now from count) }
{
    let mut any = false;
    for k in 0..count {
        any = any || frame[from + k] != 0;
    }
    any
}

fn all_words(from: usize, count: usize, frame: &[u32]) -> bool
    requires { from + count ≤ length frame.now }
    ensures { result ≡ list_all is_true_word (words_at frame.now from count) }
{
    let mut all = true;
    for k in 0..count {
        all = all && frame[from + k] != 0;
    }
    all
}
