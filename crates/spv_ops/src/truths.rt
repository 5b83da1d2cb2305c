//! The operations that make a truth value.
ghost use Rattle.std.specs.Prelude.{◌≡◌};
ghost use Rattle.std.specs.Option.{option_map};
ghost use Rattle.scalar_model.specs.Scalars.{comparison, truth_from_truth, truth_from_truths};

use spirv_model::op;

/// The result of the operation with this opcode for a truth value, if it makes a truth value of one.
#[tactic(auto, unfolding(scalar_model::specs::Scalars::truth_from_truth))]
pub fn truth_from_truth(op: u16, truth: bool) -> Option<bool>
    ensures { result ≡ option_map (λ f. f truth) (truth_from_truth op) }
{
    match op {
        op::LOGICAL_NOT => Some(!truth),
        _ => None,
    }
}

/// The result of the operation with this opcode for two truth values, if it makes a truth value of two.
#[tactic(auto, unfolding(scalar_model::specs::Scalars::truth_from_truths))]
pub fn truth_from_truths(op: u16, left: bool, right: bool) -> Option<bool>
    ensures { result ≡ option_map (λ f. f left right) (truth_from_truths op) }
{
    match op {
        op::LOGICAL_EQUAL => Some(left == right),
        op::LOGICAL_NOT_EQUAL => Some(left != right),
        op::LOGICAL_OR => Some(left || right),
        op::LOGICAL_AND => Some(left && right),
        _ => None,
    }
}

/// The result of the comparison with this opcode, if it is one of words.
#[tactic(auto, unfolding(scalar_model::specs::Scalars::comparison))]
pub fn comparison(op: u16, left: u32, right: u32) -> Option<bool>
    ensures { result ≡ option_map (λ f. f left right) (comparison op) }
{
    match op {
        op::I_EQUAL => Some(left == right),
        op::I_NOT_EQUAL => Some(left != right),
        op::U_GREATER_THAN => Some(left > right),
        op::S_GREATER_THAN => Some(left.cast_signed() > right.cast_signed()),
        op::U_GREATER_THAN_EQUAL => Some(left >= right),
        op::S_GREATER_THAN_EQUAL => Some(left.cast_signed() >= right.cast_signed()),
        op::U_LESS_THAN => Some(left < right),
        op::S_LESS_THAN => Some(left.cast_signed() < right.cast_signed()),
        op::U_LESS_THAN_EQUAL => Some(left <= right),
        op::S_LESS_THAN_EQUAL => Some(left.cast_signed() <= right.cast_signed()),
        _ => None,
    }
}
