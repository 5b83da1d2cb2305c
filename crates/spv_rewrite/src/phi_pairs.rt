//! The pairs of a phi that are left (SPIR-V specification, OpPhi).
ghost use Rattle.std.specs.Prelude.{◌≡◌, ◌++◌, take, IfOk, OnOk};
ghost use Rattle.id_table.specs.Tables.{at};
ghost use Rattle.spirv_model.specs.Operands.{words_from};
ghost use Rattle.change_model.specs.Plans.{name_in};
ghost use Rattle.spv_rewrite.specs.PhiPairs.{is_left, pairs_by};

use crate::change::{Change, name_of};
use spirv_model::{Inst, Items};
use std::alloc::{AllocError, Global};

/// The words of a phi of the block with a label: its result and the pairs of the blocks that are left.
pub fn phi_words(
    alloc: Global,
    of: &Change<'_>,
    label: u32,
    inst: &Inst,
) -> Result<Items<u32>, AllocError>
    ensures { IfOk result (λ words. words ≡ take 2 inst.now.words
        ++ pairs_by (name_in of.now.names.now) (λ block. is_left of.now.fates.now label (at of.now.ends block))
        (words_from 2 inst.now)) }
{
    let words = inst.words.as_slice();
    let (front, pairs) = words.split_at(words.len().min(2));
    let mut list = Items::from_slice(alloc, front)?;
    push_pairs(&mut list, of, label, pairs)?;
    Ok(list)
}

/// Pushes the pairs whose blocks are left.
fn push_pairs(
    list: &mut Items<u32>,
    of: &Change<'_>,
    label: u32,
    pairs: &[u32],
) -> Result<(), AllocError>
    ensures { OnOk result (list.new ≡ list.old
        ++ pairs_by (name_in of.now.names.now) (λ block. is_left of.now.fates.now label (at of.now.ends block))
        pairs.now) }
{
    let mut rest = pairs;
    while let [value, block, after @ ..] = rest {
        rest = after;
        if !of.is_left(*block, label) {
            continue;
        }
        list.push(name_of(of.names, *value))?;
        list.push(*block)?;
    }
    Ok(())
}
