//! What stands before a place, as far as the rules of decorations ask.
ghost use Rattle.std.specs.Prelude.{◌≡◌, [], OnOk};
ghost use Rattle.valid_model.specs.EarlierFacts as spec;
ghost use Rattle.valid_model.specs.ModuleFacts.{ModuleFacts};
ghost use Rattle.spirv_model.specs.declared.storage_class.TheConstants as storage_class;
ghost use Rattle.spv_types.specs.FactsIn.{facts_in, before_in};
ghost use Rattle.spv_types.specs.Standing.{AddsDecoration, AddsInst, AddsOffset, AddsSlot, AddsSpecId, StandsFor};

use crate::decoration_words::is_listed;
use crate::module_facts::{ModuleTables, decoration_of, has_position};
use crate::pairs::{PairSet, add_pair};
use spirv_model::{Inst, decoration, op, storage_class};
use std::alloc::{AllocError, Global};
use std::collections::BTreeSet;

/// The decorations of ids, the offsets of members, the SpecIds, and of variables the slots, whether one is in the class
/// PushConstant, and whether one has the built-in Position.
#[derive(Debug, Drop)]
pub struct EarlierTables {
    pub decorations: PairSet,
    pub offsets: PairSet,
    pub spec_ids: BTreeSet<u32>,
    pub slots: PairSet,
    pub push: bool,
    pub position: bool,
}

/// What stands before the first place.
pub fn no_earlier_facts(alloc: Global) -> EarlierTables
    ensures { (facts : ModuleFacts) → StandsFor facts [] (before_in result) }
{
    EarlierTables {
        decorations: BTreeSet::new(alloc),
        offsets: BTreeSet::new(alloc),
        spec_ids: BTreeSet::new(alloc),
        slots: BTreeSet::new(alloc),
        push: false,
        position: false,
    }
}

/// The instruction stands before, too.
pub fn add_inst(
    seen: &mut EarlierTables,
    whole: &ModuleTables,
    inst: &Inst,
) -> Result<(), AllocError>
    ensures { OnOk result (AddsInst whole.now inst.now seen.old seen.new) }
{
    add_decoration(&mut seen.decorations, inst)?;
    add_offset(&mut seen.offsets, inst)?;
    add_spec_id(&mut seen.spec_ids, inst)?;
    add_slot(&mut seen.slots, whole, inst)?;
    seen.push = seen.push || is_push(inst);
    seen.position = seen.position || is_position(whole, inst);
    Ok(())
}

fn add_decoration(decorations: &mut PairSet, inst: &Inst) -> Result<(), AllocError>
    ensures { OnOk result (AddsDecoration inst.now decorations.old decorations.new) }
{
    let words = inst.words.as_slice();
    if inst.op != op::DECORATE || !is_listed(inst.word(1), words.len()) {
        return Ok(());
    }
    add_pair(decorations, inst.word(0), inst.word(1))
}

fn add_offset(offsets: &mut PairSet, inst: &Inst) -> Result<(), AllocError>
    ensures { OnOk result (AddsOffset inst.now offsets.old offsets.new) }
{
    let words = inst.words.as_slice();
    if inst.op != op::MEMBER_DECORATE || inst.word(2) != decoration::OFFSET || words.len() != 4 {
        return Ok(());
    }
    add_pair(offsets, inst.word(0), inst.word(1))
}

fn add_spec_id(spec_ids: &mut BTreeSet<u32>, inst: &Inst) -> Result<(), AllocError>
    ensures { OnOk result (AddsSpecId inst.now spec_ids.old spec_ids.new) }
{
    let words = inst.words.as_slice();
    if inst.op != op::DECORATE || inst.word(1) != decoration::SPEC_ID {
        return Ok(());
    }
    spec_ids.insert(inst.word(2))?;
    Ok(())
}

fn add_slot(slots: &mut PairSet, whole: &ModuleTables, inst: &Inst) -> Result<(), AllocError>
    ensures { OnOk result (AddsSlot whole.now inst.now slots.old slots.new) }
{
    let words = inst.words.as_slice();
    if inst.op != op::VARIABLE || inst.word(2) != storage_class::UNIFORM {
        return Ok(());
    }
    let id = inst.word(1);
    let Some(set) = decoration_of(whole, id, decoration::DESCRIPTOR_SET) else {
        return Ok(());
    };
    let Some(binding) = decoration_of(whole, id, decoration::BINDING) else {
        return Ok(());
    };
    add_pair(slots, set, binding)
}

fn is_push(inst: &Inst) -> bool
    ensures { result ≡ spec.is_variable_of storage_class.PUSH_CONSTANT inst.now }
{
    inst.op == op::VARIABLE && inst.word(2) == storage_class::PUSH_CONSTANT
}

fn is_position(whole: &ModuleTables, inst: &Inst) -> bool
    ensures { result ≡ spec.is_position_variable (facts_in whole.now) inst.now }
{
    inst.op == op::VARIABLE && has_position(whole, inst.word(1))
}
