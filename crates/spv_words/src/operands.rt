ghost use Rattle.std.specs.Prelude.{◌≡◌, ◌≤◌, ◌&&◌, nat_lt, [], length, is_some, IfSome, IfNone};
ghost use Rattle.std.specs.List.{list_all};
ghost use Rattle.spirv_model.specs.Operands as spec;
ghost use Rattle.spv_words.specs.Ids.{AreRestIds, IsAfterFirst, TakesFirst, fits, operand_ids, rest_ids};

use crate::table::entry_of;
use spirv_model::Inst;
use spirv_model::table::{Entry, NO_OPERANDS, Operand, Operands, Rest};
use std::marker::Model;

/// The id that an instruction gives a meaning, if it has one.
#[tactic(auto, unfolding(spirv_model::specs::Operands::result))]
pub fn result(inst: &Inst) -> Option<u32>
    ensures { result ≡ spec.result inst.now }
{
    let Some(Entry::Listed(_, operands)) = entry_of(inst.op) else {
        return None;
    };
    let place = result_place(operands)?;
    Some(inst.word(place))
}

/// The place of the result's id among an instruction's words, if it has one.
fn result_place(operands: &Operands) -> Option<usize>
    ensures { result ≡ spec.result_place (spec.listed_of operands.now) }
{
    match (operands.listed.0, operands.listed.1) {
        (Some(Operand::IdResult), _) => Some(0),
        (Some(Operand::IdResultType), Some(Operand::IdResult)) => Some(1),
        _ => None,
    }
}

/// The ids among an instruction's words that are left, in their order. Contracts see them as a list.
#[derive(Drop)]
pub struct OperandIds<'a> {
    operands: Operands,
    words: &'a [u32],
}

impl<'a> Model for OperandIds<'a> {
    ghost use Rattle.std.specs.Prelude.{List, ℕ};
    ghost use Rattle.spirv_model.specs.Operands.{listed_of};
    ghost use Rattle.spv_words.specs.Ids.{ids_left};

    ghost Value = { List ℕ };

    ghost view = { λ i. ids_left (listed_of i.operands) i.operands.rest i.words.now };
}

impl<'a> OperandIds<'a> {
    /// The next id, if one is left.
    pub fn next_id(&mut self) -> Option<u32>
        ensures { TakesFirst self.old self.new result }
    {
        while let Some(operand) = self.operands.listed.0 {
            let count = operand_words(operand, self.words)?;
            let (own, after) = self.words.split_at(count);
            self.operands = after_first(self.operands);
            self.words = after;
            if is_id(operand) {
                return own.first().copied();
            }
        }
        let (id, after) = first_of_rest(self.operands.rest, self.words)?;
        self.words = after;
        Some(id)
    }
}

/// The ids among an instruction's words: none where the words don't fit the operands of its opcode.
#[tactic(auto, unfolding(spirv_model::specs::Operands::ids, spirv_model::specs::Operands::kinds))]
pub fn ids(inst: &Inst) -> OperandIds<'_>
    ensures { result ≡ spec.ids inst.now }
{
    let words = inst.words.as_slice();
    match entry_of(inst.op) {
        Some(Entry::Listed(_, operands)) => ids_of(operands, words),
        _ => OperandIds {
            operands: NO_OPERANDS,
            words: &[],
        },
    }
}

/// The ids among words of an instruction with these operands.
fn ids_of<'a>(operands: &Operands, words: &'a [u32]) -> OperandIds<'a>
    ensures { result ≡ operand_ids operands.now words.now }
{
    if !fit(operands, words) {
        return OperandIds {
            operands: NO_OPERANDS,
            words: &[],
        };
    }
    OperandIds {
        operands: *operands,
        words,
    }
}

/// Whether each id among an instruction's words is at least 1 and below the bound.
pub fn ids_are_below(inst: &Inst, bound: u32) -> bool
    ensures { result ≡ list_all (λ id. nat_lt 0 id && nat_lt id bound) (spec.ids inst.now) }
{
    let mut left = ids(inst);
    while let Some(id) = left.next_id() {
        if id == 0 || id >= bound {
            return false;
        }
    }
    true
}

/// Whether the words fit the operands.
pub fn fit(operands: &Operands, words: &[u32]) -> bool
    ensures { result ≡ fits operands.now words.now }
{
    let mut left = *operands;
    let mut words = words;
    while let Some(operand) = left.listed.0 {
        let Some(count) = operand_words(operand, words) else {
            return false;
        };
        let (_, after) = words.split_at(count);
        left = after_first(left);
        words = after;
    }
    rest_fits(left.rest, words)
}

/// Whether the words fit the operands after the listed ones.
fn rest_fits(rest: Rest, words: &[u32]) -> bool
    ensures { result ≡ is_some (spec.rest_kinds rest words.now) }
{
    match rest {
        Rest::Nothing => words.is_empty(),
        Rest::IdRefs | Rest::LiteralIntegers => true,
        Rest::PairsIdRefIdRef | Rest::PairsLiteralIntegerIdRef => words.len() % 2 == 0,
    }
}

/// The operands without the first listed one.
fn after_first(operands: Operands) -> Operands
    ensures listed { IsAfterFirst operands result }
    ensures rest { result.rest ≡ operands.rest }
{
    let (_, second, third, fourth, fifth) = operands.listed;
    Operands {
        listed: (second, third, fourth, fifth, None),
        rest: operands.rest,
    }
}

/// The number of words that the operand takes of these, which begin with it, where they may stand for it.
fn operand_words(operand: Operand, words: &[u32]) -> Option<usize>
    ensures value { result ≡ spec.operand_words operand words.now }
    ensures within { IfSome result (λ count. (1 ≤ count) × (count ≤ length words.now)) }
{
    let first = words.first()?;
    match operand {
        Operand::LiteralString => text_words(words),
        Operand::Fixed(expected) if *first != expected => None,
        _ => Some(1),
    }
}

/// The number of words of the text that stands at the front of these words.
fn text_words(words: &[u32]) -> Option<usize>
    ensures value { result ≡ spec.text_words words.now }
    ensures within { IfSome result (λ count. (1 ≤ count) × (count ≤ length words.now)) }
{
    for (place, word) in words.iter().enumerate() {
        if let Some(padded) = text_end(*word) {
            return if padded { Some(place + 1) } else { None };
        }
    }
    None
}

/// What a word of a text says of the text's end: nothing, since it has no zero byte, or whether its bytes after the first
/// zero byte are zeros.
fn text_end(word: u32) -> Option<bool>
    ensures { result ≡ spec.text_end word }
{
    if word % 256 == 0 {
        Some(word == 0)
    } else if word / 256 % 256 == 0 {
        Some(word / 256 == 0)
    } else if word / 65_536 % 256 == 0 {
        Some(word / 65_536 == 0)
    } else if word / 16_777_216 == 0 {
        Some(true)
    } else {
        None
    }
}

fn is_id(operand: Operand) -> bool
    ensures { result ≡ spec.is_id operand }
{
    matches!(
        operand,
        Operand::IdResultType | Operand::IdResult | Operand::IdRef
    )
}

/// The first id among words after the listed operands, and the words behind it.
fn first_of_rest(rest: Rest, words: &[u32]) -> Option<(u32, &[u32])>
    ensures none { IfNone result (rest_ids rest words.now ≡ []) }
    ensures first { IfSome result (λ found. AreRestIds rest words.now found.0 found.1.now) }
{
    match rest {
        Rest::Nothing | Rest::LiteralIntegers => None,
        Rest::IdRefs | Rest::PairsIdRefIdRef => {
            let (id, after) = words.split_first()?;
            Some((*id, after))
        }
        Rest::PairsLiteralIntegerIdRef => {
            let [_, id, after @ ..] = words else {
                return None;
            };
            Some((*id, after))
        }
    }
}
