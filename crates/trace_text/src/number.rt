//! Decimal numbers of any size, by which lines name objects.
ghost use Rattle.std.specs.Prelude.{◌≡◌, ◌≤◌, ◌<◌, nat_le, Some, None, if◌then◌else◌, min, IfSome};
ghost use Rattle.trace_model.specs.Fields.{number_value};
ghost use Rattle.trace_text.specs.Numbers.{MOST, capped_onto, is_numeral};

use crate::numbers::decimal_digit;
use std::marker::Model;

/// Numbers from here on are told apart by no reader: no kind of object has as many.
const MOST: u16 = 65_535;

/// A decimal number without a sign or a leading zero. Contracts see it as the number, whatever its size.
#[derive(Drop)]
pub struct Number<'a> {
    field: &'a [u8],
    /// The number, or `MOST` where it is greater.
    low: u16,
}

impl<'a> Model for Number<'a> {
    ghost use Rattle.std.specs.Prelude.{ℕ, ◌≡◌, min};
    ghost use Rattle.trace_text.specs.Numbers.{MOST, value_of};

    ghost Value = { ℕ };

    ghost view = { λ n. value_of n.field.now };

    ghost invariant = { λ n. n.low ≡ min (value_of n.field.now) MOST };
}

impl<'a> Number<'a> {
    /// The number of a field, if it is one.
    #[tactic(auto, using(crate::proofs::CappedNumbers::no_number))]
    pub fn read(field: &'a [u8]) -> Option<Number<'a>>
        ensures { result ≡ number_value field.now }
    {
        if !is_numeral(field) {
            return None;
        }
        let low = capped(field)?;
        Some(Number { field, low })
    }

    /// The number, if it is one of so many.
    pub fn within(&self, count: usize) -> Option<u16>
        requires { count ≤ 1000 }
        ensures value { result ≡ if nat_le count self.now then None else Some self.now }
        ensures few { IfSome result (λ number. number < 1000) }
    {
        if count <= usize::from(self.low) {
            return None;
        }
        Some(self.low)
    }
}

/// There is a first digit, and it is no zero before others.
fn is_numeral(field: &[u8]) -> bool
    ensures { result ≡ is_numeral field.now }
{
    match field.split_first() {
        Some((first, others)) => *first != b'0' || others.is_empty(),
        None => false,
    }
}

/// The number with these digits, or `MOST` where it is greater.
#[tactic(auto, using(crate::proofs::CappedNumbers::capped_next, crate::proofs::CappedNumbers::capped_none))]
fn capped(digits: &[u8]) -> Option<u16>
    ensures value { result ≡ capped_onto 0 digits.now }
    ensures low { IfSome result (λ low. low ≤ MOST) }
{
    let mut value = 0u32;
    for b in digits {
        let digit = decimal_digit(*b)?;
        value = (10 * value + digit).min(u32::from(MOST));
    }
    Some(value as u16)
}
