//! Which decorations are allowed (SPIR-V specification, section 3.20 "Decoration"), and the first place where they aren't.
ghost use Rattle.std.specs.Prelude.{◌≡◌, ◌≤◌, length, IfOk};
ghost use Rattle.valid_model.specs.Decorations as spec;
ghost use Rattle.spv_types.specs.FactsIn.{bad_decorate_in, before_in, breaks_decorations_in};
ghost use Rattle.spv_types.specs.FirstBad.{IsWhole, FindsFirstBad};

use crate::built_ins::takes_built_in;
use crate::decoration_words::is_listed;
use crate::earlier_facts::{EarlierTables, add_inst, no_earlier_facts};
use crate::module_facts::{ModuleTables, is_spec_constant};
use crate::variables::bad_variable;
use limits::{DESCRIPTOR_BINDINGS, DESCRIPTOR_SETS, LOCATIONS};
use spirv_model::{Inst, decoration, op};
use std::alloc::{AllocError, Global};

fn is_out_of_range(decoration: u32, word: u32) -> bool
    ensures { result ≡ spec.is_out_of_range decoration word }
{
    match decoration {
        decoration::LOCATION => word >= LOCATIONS as u32,
        decoration::DESCRIPTOR_SET => word >= DESCRIPTOR_SETS as u32,
        decoration::BINDING => word >= DESCRIPTOR_BINDINGS as u32,
        _ => false,
    }
}

fn repeats(seen: &EarlierTables, id: u32, decoration: u32, word: u32) -> bool
    ensures { result ≡ spec.repeats (before_in seen.now) id decoration word }
{
    seen.decorations.contains(&(id, decoration))
        || (decoration == decoration::SPEC_ID && seen.spec_ids.contains(&word))
}

/// Whether OpDecorate mustn't give the id this decoration with this word, in so many words.
#[tactic(auto, unfolding(valid_model::specs::Decorations::bad_decorate))]
pub fn bad_decorate(
    whole: &ModuleTables,
    seen: &EarlierTables,
    id: u32,
    decoration: u32,
    word: u32,
    words: usize,
) -> bool
    ensures { result ≡ bad_decorate_in whole.now seen.now id decoration word words }
{
    !is_listed(decoration, words)
        || repeats(seen, id, decoration, word)
        || is_out_of_range(decoration, word)
        || (decoration == decoration::SPEC_ID && !is_spec_constant(whole, id))
        || (decoration == decoration::BUILT_IN && !takes_built_in(whole, word, id))
}

/// Whether OpMemberDecorate mustn't give the member this decoration, in so many words.
#[tactic(auto, unfolding(valid_model::specs::Decorations::bad_member_decorate))]
pub fn bad_member_decorate(
    seen: &EarlierTables,
    id: u32,
    member: u32,
    decoration: u32,
    words: usize,
) -> bool
    ensures { result ≡ spec.bad_member_decorate (before_in seen.now) id member decoration words }
{
    !(decoration == decoration::OFFSET && words == 4) || seen.offsets.contains(&(id, member))
}

#[tactic(auto, unfolding(valid_model::specs::Decorations::breaks_decorations))]
fn breaks_decorations(whole: &ModuleTables, seen: &EarlierTables, inst: &Inst) -> bool
    ensures { result ≡ breaks_decorations_in whole.now seen.now inst.now }
{
    let words = inst.words.as_slice();
    let (a, b, c) = (inst.word(0), inst.word(1), inst.word(2));
    match inst.op {
        op::DECORATE => bad_decorate(whole, seen, a, b, c, words.len()),
        op::MEMBER_DECORATE => bad_member_decorate(seen, a, b, c, words.len()),
        op::VARIABLE => bad_variable(whole, seen, a, b, c),
        _ => false,
    }
}

/// The first of so many places where decorations aren't allowed.
pub fn first_bad_decoration(
    alloc: Global,
    whole: &ModuleTables,
    limit: usize,
) -> Result<Option<usize>, AllocError>
    requires whole { IsWhole whole.now }
    requires within { limit ≤ length whole.now.insts.now }
    ensures { IfOk result (FindsFirstBad whole.now.insts.now limit) }
{
    let mut seen = no_earlier_facts(alloc);
    for place in 0..limit {
        let inst = &whole.insts[place];
        if breaks_decorations(whole, &seen, inst) {
            return Ok(Some(place));
        }
        add_inst(&mut seen, whole, inst)?;
    }
    Ok(None)
}
