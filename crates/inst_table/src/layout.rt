// The places of the words: the count, the bucket heads, the rows, each with its key words and then its next word, the
// address words, and the heap.
ghost use Rattle.std.specs.Prelude.{◌≡◌, ◌+◌, ◌-◌, ◌^◌, ◌<◌, ◌≤◌, length, fold, bit_xor};
ghost use Rattle.std.specs.Int.{to_le_bytes};
ghost use mir.Syntax.{w64};
ghost use Rattle.inst_table.specs.Bucket.{key_words, buckets, bucket_of};
ghost use Rattle.inst_table.specs.Layout.{head_place, key_place, next_place, row_place, width, heap_place, AreSmall, IsAddressPlace, IsRecordPlace};

use crate::setup::Numbers;
use crate::{BUCKETS, KEY_WORDS};

pub(crate) const COUNT: usize = 0;

// The exclusive or of all bytes is that of the bytes of the words' exclusive or.
pub(crate) fn bucket_of(key: &[u64; KEY_WORDS]) -> usize
    ensures value { result ≡ bucket_of key.now }
    ensures small { result < buckets }
{
    fold_bytes(fold_words(key)) as usize
}

fn fold_words(words: &[u64]) -> u64
    ensures { result ≡ fold bit_xor 0 words.now }
{
    let mut all = 0;
    for word in words {
        all ^= *word;
    }
    all
}

fn fold_bytes(word: u64) -> u8
    ensures { result ≡ fold bit_xor 0 (to_le_bytes w64 word) }
{
    let mut all = 0;
    for byte in word.to_le_bytes() {
        all ^= byte;
    }
    all
}

pub(crate) fn head_place(bucket: usize) -> usize
    requires { bucket < buckets }
    ensures { result ≡ head_place bucket }
{
    1 + bucket
}

pub(crate) fn row_place(row: usize) -> usize
    requires { row ≤ 2 ^ 32 }
    ensures { result ≡ row_place row }
{
    1 + BUCKETS + row * (KEY_WORDS + 1)
}

pub(crate) fn key_place(row: usize, at: usize) -> usize
    requires { (row ≤ 2 ^ 32) × (at < key_words) }
    ensures { result ≡ key_place row at }
{
    row_place(row) + at
}

pub(crate) fn next_place(row: usize) -> usize
    requires { row ≤ 2 ^ 32 }
    ensures { result ≡ next_place row }
{
    row_place(row) + KEY_WORDS
}

pub(crate) fn width(numbers: &Numbers) -> usize
    requires { AreSmall numbers.now }
    ensures { result ≡ width numbers.now }
{
    let units = numbers.libraries as usize + numbers.rows as usize;
    row_place(numbers.rows as usize) + units + numbers.heap as usize
}

// The place of a unit's address word, if there is such a unit, and else some place.
pub(crate) fn address_place(numbers: &Numbers, unit: u32) -> usize
    requires { AreSmall numbers.now }
    ensures inside { result < width numbers.now }
    ensures value { IsAddressPlace numbers.now unit result }
{
    if unit < numbers.libraries + numbers.rows {
        row_place(numbers.rows as usize) + unit as usize
    } else {
        COUNT
    }
}

// The place of a heap word, if there is such a word, and else some place.
pub(crate) fn heap_place(numbers: &Numbers, at: u64) -> usize
    requires { AreSmall numbers.now }
    ensures inside { result < width numbers.now }
    ensures value { at < numbers.now.heap → result ≡ heap_place numbers.now at }
{
    if at < numbers.heap {
        let units = numbers.libraries as usize + numbers.rows as usize;
        row_place(numbers.rows as usize) + units + at as usize
    } else {
        COUNT
    }
}

// The place of a word of the record at an address word.
pub(crate) fn record_place(numbers: &Numbers, word: u64, at: u64) -> usize
    requires { AreSmall numbers.now }
    ensures inside { result < width numbers.now }
    ensures value { IsRecordPlace numbers.now word at result }
{
    let start = word.saturating_sub(1);
    heap_place(numbers, start.saturating_add(at))
}
