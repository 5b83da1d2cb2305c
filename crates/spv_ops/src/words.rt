//! The operations that make a word.
ghost use Rattle.std.specs.Prelude.{◌≡◌};
ghost use Rattle.std.specs.Option.{option_map};
ghost use Rattle.scalar_model.specs.Scalars.{word_from_word, word_from_words, arithmetic, bitwise, signed_quotient, signed_remainder, modulo, signed_modulo, divided};
ghost use Rattle.spv_ops.specs.Results.{arithmetic_shift};
ghost use Rattle.std.specs.Int.{w32, IsNonZero};

use spirv_model::op;

/// The result of the operation with this opcode for a word, if it makes a word of one.
#[tactic(auto, unfolding(scalar_model::specs::Scalars::word_from_word))]
pub fn word_from_word(op: u16, word: u32) -> Option<u32>
    ensures { result ≡ option_map (λ f. f word) (word_from_word op) }
{
    match op {
        op::BITCAST => Some(word),
        op::S_NEGATE => Some(0u32.wrapping_sub(word)),
        op::NOT => Some(!word),
        _ => None,
    }
}

/// The result of the operation with this opcode for two words, if it makes a word of two.
pub fn word_from_words(op: u16, left: u32, right: u32) -> Option<u32>
    ensures { result ≡ option_map (λ f. f left right) (word_from_words op) }
{
    match arithmetic(op, left, right) {
        Some(word) => Some(word),
        None => bitwise(op, left, right),
    }
}

#[tactic(auto, unfolding(scalar_model::specs::Scalars::arithmetic))]
fn arithmetic(op: u16, left: u32, right: u32) -> Option<u32>
    ensures { result ≡ option_map (λ f. f left right) (arithmetic op) }
{
    match op {
        op::I_ADD => Some(left.wrapping_add(right)),
        op::I_SUB => Some(left.wrapping_sub(right)),
        op::I_MUL => Some(left.wrapping_mul(right)),
        op::U_DIV => Some(left.checked_div(right).unwrap_or(0)),
        op::S_DIV => Some(signed_quotient(left, right)),
        op::U_MOD => Some(left.checked_rem(right).unwrap_or(0)),
        op::S_REM => Some(signed_remainder(left, right)),
        op::S_MOD => Some(signed_modulo(left, right)),
        _ => None,
    }
}

fn signed_quotient(dividend: u32, divisor: u32) -> u32
    ensures { result ≡ divided signed_quotient dividend divisor }
{
    if divisor == 0 {
        return 0;
    }
    dividend
        .cast_signed()
        .wrapping_div(divisor.cast_signed())
        .cast_unsigned()
}

fn signed_remainder(dividend: u32, divisor: u32) -> u32
    ensures { result ≡ divided signed_remainder dividend divisor }
{
    if divisor == 0 {
        return 0;
    }
    dividend
        .cast_signed()
        .wrapping_rem(divisor.cast_signed())
        .cast_unsigned()
}

fn signed_modulo(dividend: u32, divisor: u32) -> u32
    ensures { result ≡ divided signed_modulo dividend divisor }
{
    if divisor == 0 {
        return 0;
    }
    modulo(dividend.cast_signed(), divisor.cast_signed()).cast_unsigned()
}

/// The remainder with the divisor's sign: the one that is never negative, or that much less where the divisor is negative.
#[tactic(auto, using(crate::proofs::Modulos::modulo_above, crate::proofs::Modulos::modulo_at_zero, crate::proofs::Modulos::modulo_below))]
fn modulo(dividend: i32, divisor: i32) -> i32
    requires { IsNonZero w32 divisor }
    ensures { result ≡ modulo dividend divisor }
{
    let remainder = dividend.wrapping_rem_euclid(divisor);
    if divisor > 0 {
        remainder
    } else if remainder == 0 {
        0
    } else {
        remainder + divisor
    }
}

#[tactic(auto, unfolding(scalar_model::specs::Scalars::bitwise))]
fn bitwise(op: u16, left: u32, right: u32) -> Option<u32>
    ensures { result ≡ option_map (λ f. f left right) (bitwise op) }
{
    match op {
        op::SHIFT_RIGHT_LOGICAL => Some(left.unbounded_shr(right)),
        op::SHIFT_RIGHT_ARITHMETIC => Some(shift_right_arithmetic(left, right)),
        op::SHIFT_LEFT_LOGICAL => Some(left.unbounded_shl(right)),
        op::BITWISE_OR => Some(left | right),
        op::BITWISE_XOR => Some(left ^ right),
        op::BITWISE_AND => Some(left & right),
        _ => None,
    }
}

fn shift_right_arithmetic(word: u32, bits: u32) -> u32
    ensures { result ≡ arithmetic_shift word bits }
{
    word.cast_signed().unbounded_shr(bits).cast_unsigned()
}
