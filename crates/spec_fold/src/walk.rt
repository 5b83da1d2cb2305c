//! How far a pass has come, and what is known by then.
ghost use Rattle.std.specs.Prelude.{◌≡◌, ◌≤◌, length};
ghost use Rattle.change_model.specs.Passes.{known_before};
ghost use Rattle.change_model.specs.PlanRules as rules;
ghost use Rattle.change_model.specs.Plans.{fate_in, name_in};
ghost use Rattle.spec_fold.specs.Walks.{plan_in};

use crate::marks::Marks;
use crate::scalars::{definition_of, meaning_of, null_scalar, scalar_by};
use change_model::Fate;
use scalar_model::Scalar;
use spirv_model::Inst;
use spv_check::Module;
use spv_rewrite::{fate_at, inst_at, name_of};

/// What is found for the instructions so far.
#[derive(Drop)]
pub struct Walk {
    /// What becomes of each of them.
    pub fates: Vec<Fate>,
    /// The id that stands for each id.
    pub names: Vec<u32>,
    /// The labels that those that are left still name, as where they lead or as what belongs to a merge instruction.
    pub named: Marks,
    /// The merge blocks of the selections and OpSwitches whose merge instructions stay.
    pub merges: Marks,
    /// The merge block of the loop that is left at once in whose condition sequence the next instruction stands.
    pub held: Option<u32>,
    /// The label of the block in which the next instruction stands, unless it is a label itself.
    pub label: u32,
    /// Whether any of them doesn't stay.
    pub changes: bool,
}

impl Walk {
    /// What becomes of the instruction at a place.
    pub fn fate(&self, place: usize) -> Fate
        ensures { result ≡ fate_in self.now.fates.items place }
    {
        fate_at(self.fates.as_slice(), place)
    }

    /// The id that stands for an id.
    pub fn name(&self, id: u32) -> u32
        ensures { result ≡ name_in self.now.names.items id }
    {
        name_of(self.names.as_slice(), id)
    }
}

/// The scalar that the result of an instruction with this fate is, where it is a constant.
fn scalar_as(of: &Module, inst: &Inst, fate: Fate) -> Option<Scalar>
    ensures { result ≡ rules.scalar_as of.now.insts inst.now fate }
{
    match fate {
        Fate::Folds(scalar) => Some(scalar),
        Fate::Nulls => null_scalar(meaning_of(of, inst.word(0))),
        _ => scalar_by(of, inst),
    }
}

/// The scalar that an id is by a place, if it is known.
#[tactic(auto, unfolding(change_model::specs::Passes::known_before))]
pub fn known(of: &Module, walk: &Walk, place: usize, id: u32) -> Option<Scalar>
    requires { place ≤ length of.now.insts }
    ensures { result ≡ known_before (plan_in walk.now) of.now.insts place id }
{
    let Some(at) = definition_of(of, walk.name(id)) else {
        return None;
    };
    let at = at as usize;
    if at < place {
        return scalar_as(of, inst_at(of.insts(), at), walk.fate(at));
    }
    None
}
