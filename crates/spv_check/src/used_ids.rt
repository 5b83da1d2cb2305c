//! The ids that an instruction uses (SPIR-V specification, section 2.16.1 "Universal Validation Rules").
ghost use Rattle.std.specs.Prelude.{◌≡◌, true};
ghost use Rattle.spirv_model.specs.Operands.{class_of, kinds};
ghost use Rattle.spv_words.specs.Ids.{TakesFirst};
ghost use Rattle.check_model.specs.Visibility as spec;

use spirv_model::class::Class;
use spirv_model::{Inst, op};
use spv_words::{OperandIds, class_of, ids, result};
use std::marker::Model;

/// The ids that an instruction uses that are left, in the order of its words. Contracts see them as a list.
#[derive(Drop)]
pub struct UsedIds<'a> {
    first: Option<u32>,
    others: Option<OperandIds<'a>>,
}

impl<'a> Model for UsedIds<'a> {
    ghost use Rattle.std.specs.Prelude.{List, ℕ};
    ghost use Rattle.spv_check.specs.UsesLeft.{uses_left};

    ghost Value = { List ℕ };

    ghost view = { λ u. uses_left u.first u.others };
}

impl<'a> UsedIds<'a> {
    /// The next id, if one is left.
    pub fn next_id(&mut self) -> Option<u32>
        ensures { TakesFirst self.old self.new result }
    {
        if let Some(id) = self.first {
            self.first = None;
            return Some(id);
        }
        let Some(others) = &mut self.others else {
            return None;
        };
        others.next_id()
    }
}

/// The ids that an instruction uses, in the order of its words: those that it names beside its result, or the condition or
/// the selector of a branch. The labels where it leads aren't among them. A phi uses others than these.
#[tactic(auto, unfolding(check_model::specs::Visibility::used_ids))]
pub fn used_ids(inst: &Inst) -> UsedIds<'_>
    ensures { result ≡ spec.used_ids inst.now }
{
    if uses_operands(inst.op) {
        return used_operands(inst);
    }
    if is_choice(inst.op) {
        return UsedIds {
            first: Some(inst.word(0)),
            others: None,
        };
    }
    UsedIds {
        first: None,
        others: None,
    }
}

/// Whether an instruction with this opcode uses all ids that it names beside its result.
fn uses_operands(opcode: u16) -> bool
    ensures { result ≡ spec.uses_operands (class_of opcode) }
{
    matches!(
        class_of(opcode),
        Some(Class::Undef | Class::Variable | Class::Memory | Class::Composite | Class::Scalar(_))
    )
}

fn is_choice(opcode: u16) -> bool
    ensures { result ≡ spec.is_choice opcode }
{
    opcode == op::BRANCH_CONDITIONAL || opcode == op::SWITCH
}

/// The ids that an instruction names beside its result, which is the second id where there is one.
fn used_operands(inst: &Inst) -> UsedIds<'_>
    requires { spec.uses_operands (class_of inst.now.op) ≡ true }
    ensures { result ≡ spec.used_by (kinds inst.now) inst.now.words }
{
    let mut others = ids(inst);
    if result(inst).is_none() {
        return UsedIds {
            first: None,
            others: Some(others),
        };
    }
    let result_type = others.next_id();
    let _result = others.next_id();
    UsedIds {
        first: result_type,
        others: Some(others),
    }
}
