//! Digits of words and of numbers.
ghost use Rattle.std.specs.Prelude.{◌≡◌, ◌<◌, IfSome};
ghost use Rattle.trace_model.specs.Text as text;

/// A word, in eight lower-case hexadecimal digits.
pub fn hex_word(field: &[u8]) -> Option<u32>
    ensures { result ≡ text.word_value field.now }
{
    if field.len() != 8 {
        return None;
    }
    let mut value = 0;
    for b in field {
        let digit = hex_value(*b)?;
        value = 16 * value + digit;
    }
    Some(value)
}

fn hex_value(b: u8) -> Option<u32>
    ensures value { result ≡ text.hex_value b }
    ensures digit { IfSome result (λ digit. digit < 16) }
{
    match b {
        b'0'..=b'9' => Some(u32::from(b - b'0')),
        b'a'..=b'f' => Some(u32::from(b - b'a' + 10)),
        _ => None,
    }
}

/// The value of a decimal digit.
pub fn decimal_digit(b: u8) -> Option<u32>
    ensures value { result ≡ text.decimal_digit b }
    ensures digit { IfSome result (λ digit. digit < 10) }
{
    match b {
        b'0'..=b'9' => Some(u32::from(b - b'0')),
        _ => None,
    }
}
