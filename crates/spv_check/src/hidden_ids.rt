//! For each place of a list the first id that isn't visible there.
ghost use Rattle.std.specs.Prelude.{◌≡◌, ◌<◌, ◌^◌, length, IfOk};
ghost use Rattle.spv_tree.specs.Trees.{IsTreeOf};
ghost use Rattle.spv_types.specs.Answers.{AreIdsOf};
ghost use Rattle.spv_check.specs.Uses.{AreAllHidden};
ghost use Rattle.spv_check.specs.Visibility.{TellsVisible};

use crate::branches::{Branches, branches_of};
use crate::sequence_limits::limits_of;
use crate::visibility::not_visible;
use spirv_model::{Inst, Words};
use spv_tree::{Body, Memory};
use spv_types::Ids;
use std::alloc::Global;

/// For each place the first id that isn't visible there, if there is one.
pub fn hidden_ids(
    alloc: Global,
    words: &Words,
    body: &Body,
    ids: &Ids,
) -> Result<Vec<Option<u32>>, Memory>
    requires few { length words.now.insts < 2 ^ 32 }
    requires tree { IsTreeOf words.now.insts body.now }
    requires ids { AreIdsOf words.now ids.now }
    ensures { IfOk result (λ hidden. AreAllHidden words.now.insts hidden.items) }
{
    let insts = words.insts.as_slice();
    let limits = limits_of(alloc, body, insts)?;
    let branches = branches_of(alloc, insts)?;
    hidden_by(alloc, insts, ids, limits.as_slice(), &branches)
}

fn hidden_by(
    alloc: Global,
    insts: &[Inst],
    ids: &Ids,
    limits: &[u32],
    branches: &Branches,
) -> Result<Vec<Option<u32>>, Memory>
    requires few { length insts.now < 2 ^ 32 }
    requires known { TellsVisible insts.now ids.now limits.now branches.now }
    ensures { IfOk result (λ hidden. AreAllHidden insts.now hidden.items) }
{
    let mut hidden = Vec::new(alloc);
    for place in 0..insts.len() {
        let id = not_visible(alloc, insts, ids, limits, branches, place as u32)?;
        hidden.push(id)?;
    }
    Ok(hidden)
}
