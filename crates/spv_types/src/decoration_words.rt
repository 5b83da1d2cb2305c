//! What decorations say of ids and of members.
ghost use Rattle.std.specs.Prelude.{◌≡◌, IfOk, OnOk};
ghost use Rattle.valid_model.specs.DecorationWords as spec;
ghost use Rattle.spv_types.specs.Decorated.{AreDecorationsOf, HasOffsets, HasWords, KeepsOffset, KeepsWord};

use crate::pairs::{Pairs, keep_first};
use spirv_model::{Inst, decoration, op};
use std::alloc::{AllocError, Global};
use std::collections::BTreeMap;

/// The words of decorations by id and decoration, and offsets by id and member: of each the first.
#[derive(Debug, Drop)]
pub struct Decorations {
    pub words: Pairs,
    pub offsets: Pairs,
}

/// Whether the decoration is listed, with as many words.
pub fn is_listed(decoration: u32, words: usize) -> bool
    ensures { result ≡ spec.is_listed decoration words }
{
    match decoration {
        decoration::BLOCK | decoration::FLAT => words == 2,
        decoration::SPEC_ID
        | decoration::ARRAY_STRIDE
        | decoration::BUILT_IN
        | decoration::LOCATION
        | decoration::BINDING
        | decoration::DESCRIPTOR_SET => words == 3,
        _ => false,
    }
}

/// What the decorations among the instructions say.
pub fn decorations_of(alloc: Global, insts: &[Inst]) -> Result<Decorations, AllocError>
    ensures { IfOk result (AreDecorationsOf insts.now) }
{
    let words = words_of(alloc, insts)?;
    let offsets = offsets_of(alloc, insts)?;
    Ok(Decorations { words, offsets })
}

#[tactic(auto, unfolding(valid_model::specs::DecorationWords::decoration_of))]
fn words_of(alloc: Global, insts: &[Inst]) -> Result<Pairs, AllocError>
    ensures { IfOk result (HasWords insts.now) }
{
    let mut words = BTreeMap::new(alloc);
    for inst in insts {
        add_word(&mut words, inst)?;
    }
    Ok(words)
}

fn add_word(map: &mut Pairs, inst: &Inst) -> Result<(), AllocError>
    ensures { OnOk result (KeepsWord inst.now map.old map.new) }
{
    let words = inst.words.as_slice();
    if inst.op != op::DECORATE || !is_listed(inst.word(1), words.len()) {
        return Ok(());
    }
    keep_first(map, inst.word(0), inst.word(1) as usize, inst.word(2))
}

#[tactic(auto, unfolding(valid_model::specs::DecorationWords::offset_of))]
fn offsets_of(alloc: Global, insts: &[Inst]) -> Result<Pairs, AllocError>
    ensures { IfOk result (HasOffsets insts.now) }
{
    let mut offsets = BTreeMap::new(alloc);
    for inst in insts {
        add_offset(&mut offsets, inst)?;
    }
    Ok(offsets)
}

fn add_offset(map: &mut Pairs, inst: &Inst) -> Result<(), AllocError>
    ensures { OnOk result (KeepsOffset inst.now map.old map.new) }
{
    let words = inst.words.as_slice();
    if inst.op != op::MEMBER_DECORATE || inst.word(2) != decoration::OFFSET || words.len() != 4 {
        return Ok(());
    }
    keep_first(map, inst.word(0), inst.word(1) as usize, inst.word(3))
}
