//! What scalars ids are, and where branches on them lead.
ghost use Rattle.std.specs.Prelude.{◌≡◌, ◌<◌, ◌≤◌, length};
ghost use Rattle.valid_model.specs.Definitions.{definition};
ghost use Rattle.valid_model.specs.Meanings.{meaning};
ghost use Rattle.stage_model.specs.Effect as effect;
ghost use Rattle.unit_model.specs.ConstantScalars as constants;
ghost use Rattle.change_model.specs.PlanRules as rules;

use scalar_model::Scalar;
use spirv_model::{Inst, op};
use spv_check::Module;
use spv_rewrite::inst_at;
use valid_model::{Meaning, Shape};

/// What an id means.
pub fn meaning_of(of: &Module, id: u32) -> &Meaning
    ensures { result.now ≡ meaning of.now.insts id }
{
    of.ids().at(id)
}

/// The place of an id's definition.
pub fn definition_of(of: &Module, id: u32) -> Option<u32>
    ensures { result ≡ definition of.now.insts id }
{
    of.ids().place(id)
}

/// The null of a scalar type.
pub fn null_scalar(meaning: &Meaning) -> Option<Scalar>
    ensures { result ≡ constants.null_scalar meaning.now }
{
    match meaning {
        Meaning::Shape(Shape::Bool) => Some(Scalar::Bool(false)),
        Meaning::Shape(Shape::Int { .. }) => Some(Scalar::Word(0)),
        _ => None,
    }
}

/// The scalar that the result of an instruction is, if that is a constant of the module's level.
pub fn scalar_by(of: &Module, inst: &Inst) -> Option<Scalar>
    ensures { result ≡ constants.scalar_by of.now.insts inst.now }
{
    match inst.op {
        op::CONSTANT => Some(Scalar::Word(inst.word(2))),
        op::CONSTANT_TRUE => Some(Scalar::Bool(true)),
        op::CONSTANT_FALSE => Some(Scalar::Bool(false)),
        op::CONSTANT_NULL => null_scalar(meaning_of(of, inst.word(0))),
        _ => None,
    }
}

/// The scalar that an id is, as a constant of the module's level.
#[tactic(auto, unfolding(unit_model::specs::ConstantScalars::constant_scalar))]
pub fn constant_scalar(of: &Module, id: u32) -> Option<Scalar>
    ensures { result ≡ constants.constant_scalar of.now.insts id }
{
    match definition_of(of, id) {
        Some(place) => scalar_by(of, inst_at(of.insts(), place as usize)),
        None => None,
    }
}

/// Where a branch on a condition leads, if it is known.
pub fn chosen_target(known: Option<Scalar>, inst: &Inst) -> Option<u32>
    ensures { result ≡ constants.chosen_target known inst.now }
{
    match known {
        Some(Scalar::Bool(true)) => Some(inst.word(1)),
        Some(Scalar::Bool(false)) => Some(inst.word(2)),
        _ => None,
    }
}

/// Where an OpSwitch on a selector leads, if it is known.
pub fn switched_target(known: Option<Scalar>, inst: &Inst) -> Option<u32>
    ensures { result ≡ rules.switched_target known inst.now }
{
    let Scalar::Word(selector) = known? else {
        return None;
    };
    let target = target_for(selector, inst.word(1), inst.words_from(2));
    Some(target)
}

/// The target of the literal that equals the selector, among literals and targets by turns; else the default.
fn target_for(selector: u32, default: u32, cases: &[u32]) -> u32
    ensures { result ≡ effect.target_for selector default cases.now }
{
    let mut rest = cases;
    while let [literal, target, after @ ..] = rest {
        if *literal == selector {
            return *target;
        }
        rest = after;
    }
    default
}

/// Whether the instruction before a place has an opcode.
pub fn is_behind(op: u16, insts: &[Inst], place: usize) -> bool
    requires { place ≤ length insts.now }
    ensures { result ≡ constants.is_behind op insts.now place }
{
    place > 0 && inst_at(insts, place - 1).op == op
}
