//! Phis, and the pairs of them that are left (SPIR-V specification, OpPhi).
ghost use Rattle.std.specs.Prelude.{◌≡◌, ℕ, ◌+◌, ◌<◌, [], ◌∷◌, length};
ghost use Rattle.spirv_model.specs.declared.op.TheConstants as opcode;
ghost use Rattle.id_table.specs.Tables.{at};
ghost use Rattle.valid_model.specs.Definitions as definitions;
ghost use Rattle.check_model.specs.Intervals.{intervals_of};
ghost use Rattle.check_model.specs.Validity.{IsValidList};
ghost use Rattle.check_model.specs.Visibility.{incoming};
ghost use Rattle.change_model.specs.Passes as passes;
ghost use Rattle.change_model.specs.PlanRules as rules;
ghost use Rattle.spec_fold.specs.Facts.{AreFacts};
ghost use Rattle.spec_fold.specs.PhiPairs.{left_with, lone_value, one_more, pairs_there, still_leads_from};
ghost use Rattle.spec_fold.specs.declared.phis.Left.TheVariants.{Nothing};
ghost use Rattle.spec_fold.specs.Walks.{IsWalk, plan_in};

use crate::facts::Facts;
use crate::scalars::{definition_of, meaning_of};
use crate::walk::Walk;
use change_model::Fate;
use spv_rewrite::{inst_at, still_leads};
use valid_model::Meaning;

/// The pairs of a phi that are left, as far as it matters.
#[derive(Clone, Copy, Drop)]
pub enum Left {
    Nothing,
    /// One, with this value.
    One(u32),
    Several,
}

/// What becomes of a phi to whose block control comes.
pub fn phi_fate(facts: &Facts<'_>, walk: &Walk, place: usize) -> Fate
    requires facts { AreFacts facts.now }
    requires walk { IsWalk facts.now place walk.now }
    requires within { place < length facts.now.of.now.insts }
    requires phi { (definitions.inst_at facts.now.of.now.insts place).op ≡ opcode.PHI }
    ensures { (v : IsValidList facts.now.of.now)
        → result ≡ passes.phi_fate (intervals_of v.derivation) facts.now.of.now.insts (plan_in walk.now) place }
{
    let inst = inst_at(facts.of.insts(), place);
    if !is_shape(meaning_of(facts.of, inst.word(0))) {
        return Fate::Unused;
    }
    if facts.heads.has(walk.label) {
        return Fate::Stays;
    }
    match lone_value(facts, walk, place) {
        Some(value) => lone_fate(facts, walk, place, value),
        None => Fate::Stays,
    }
}

/// What becomes of a phi of which one pair is left.
fn lone_fate(facts: &Facts<'_>, walk: &Walk, place: usize, value: u32) -> Fate
    requires facts { AreFacts facts.now }
    requires walk { IsWalk facts.now place walk.now }
    requires within { place < length facts.now.of.now.insts }
    ensures { (v : IsValidList facts.now.of.now) → (block : ℕ)
        → result ≡ passes.phi_fate_of (intervals_of v.derivation) facts.now.of.now.insts
        (plan_in walk.now) place ((record { value = value; block = block }) ∷ []) }
{
    if walk.merges.has(walk.label) && !stands_at(facts, walk, place, value) {
        Fate::Stays
    } else {
        Fate::Resolves
    }
}

fn is_shape(meaning: &Meaning) -> bool
    ensures { result ≡ rules.is_shape meaning.now }
{
    matches!(meaning, Meaning::Shape(_))
}

/// Whether what stands for a value is a constant by now, or visible at a place.
fn stands_at(facts: &Facts<'_>, walk: &Walk, place: usize, value: u32) -> bool
    requires facts { AreFacts facts.now }
    requires within { place < length facts.now.of.now.insts }
    ensures { (v : IsValidList facts.now.of.now)
        → result ≡ passes.stands_at (intervals_of v.derivation) facts.now.of.now.insts (plan_in walk.now) place value }
{
    let Some(at) = definition_of(facts.of, walk.name(value)) else {
        return false;
    };
    let at = at as usize;
    at < place && (is_constant(walk.fate(at)) || place < facts.limits[at] as usize)
}

fn is_constant(fate: Fate) -> bool
    ensures { result ≡ rules.is_constant_fate fate }
{
    matches!(fate, Fate::Folds(_) | Fate::Nulls)
}

/// The value of the one pair of the phi at a place that is left, if there is just one.
pub fn lone_value(facts: &Facts<'_>, walk: &Walk, place: usize) -> Option<u32>
    requires facts { AreFacts facts.now }
    requires walk { IsWalk facts.now place walk.now }
    requires within { place < length facts.now.of.now.insts }
    requires phi { (definitions.inst_at facts.now.of.now.insts place).op ≡ opcode.PHI }
    ensures { result ≡ lone_value (passes.pairs_found (plan_in walk.now) facts.now.of.now.insts place) }
{
    match pairs_left(facts, walk, place) {
        Left::One(value) => Some(value),
        _ => None,
    }
}

/// The pairs of the phi at a place that are left.
fn pairs_left(facts: &Facts<'_>, walk: &Walk, place: usize) -> Left
    requires { place < length facts.now.of.now.insts }
    ensures { result ≡ left_with Nothing (pairs_there facts.now walk.now place
        (incoming (definitions.inst_at facts.now.of.now.insts place))) }
{
    let inst = inst_at(facts.of.insts(), place);
    let mut rest = inst.words_from(2);
    let mut left = Left::Nothing;
    while let [value, block, after @ ..] = rest {
        if is_left(facts, walk, place, *block) {
            left = one_more(left, *value);
        }
        rest = after;
    }
    left
}

fn one_more(left: Left, value: u32) -> Left
    ensures { result ≡ one_more left value }
{
    match left {
        Left::Nothing => Left::One(value),
        _ => Left::Several,
    }
}

/// Whether a block ends before a place and still leads to that place's block.
fn is_left(facts: &Facts<'_>, walk: &Walk, place: usize, block: u32) -> bool
    ensures { result ≡ still_leads_from walk.now walk.now.label place (at facts.now.ends block) }
{
    match facts.ends.get(block) {
        Some(end) => {
            let end = *end as usize;
            end < place && still_leads(walk.label, walk.fate(end))
        }
        None => false,
    }
}
