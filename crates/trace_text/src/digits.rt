//! Numbers as they are printed.
ghost use Rattle.std.specs.Prelude.{◌≡◌, ◌<◌, ◌++◌, OnOk};
ghost use Rattle.std.specs.Fmt.{decimal};
ghost use Rattle.std.specs.List.{flat_map};
ghost use Rattle.trace_model.specs.CodeText.{word_field};
ghost use Rattle.trace_model.specs.Text.{word_text, hex_digit};
ghost use Rattle.trace_text.specs.Printed.{field_text};

use itoa::Buffer;
use std::alloc::AllocError;

/// Pushes a number's decimal digits.
pub fn push_decimal(text: &mut Vec<u8>, number: u64) -> Result<(), AllocError>
    ensures { OnOk result (text.new.items ≡ text.old.items ++ decimal number) }
{
    let mut buffer = Buffer::new();
    text.extend_from_slice(buffer.format(number).as_bytes())?;
    Ok(())
}

/// Pushes a number as a field behind another.
pub fn push_number(text: &mut Vec<u8>, number: u64) -> Result<(), AllocError>
    ensures { OnOk result (text.new.items ≡ text.old.items ++ field_text (decimal number)) }
{
    text.push(b' ')?;
    push_decimal(text, number)
}

/// Pushes a field behind another.
pub fn push_field(text: &mut Vec<u8>, field: &[u8]) -> Result<(), AllocError>
    ensures { OnOk result (text.new.items ≡ text.old.items ++ field_text field.now) }
{
    text.push(b' ')?;
    text.extend_from_slice(field)?;
    Ok(())
}

/// Pushes a word's eight hexadecimal digits.
pub fn push_word(text: &mut Vec<u8>, word: u32) -> Result<(), AllocError>
    ensures { OnOk result (text.new.items ≡ text.old.items ++ word_text word) }
{
    let digits = [
        hex_digit(word / 0x1000_0000 % 16),
        hex_digit(word / 0x100_0000 % 16),
        hex_digit(word / 0x10_0000 % 16),
        hex_digit(word / 0x1_0000 % 16),
        hex_digit(word / 0x1000 % 16),
        hex_digit(word / 0x100 % 16),
        hex_digit(word / 0x10 % 16),
        hex_digit(word % 16),
    ];
    text.extend_from_slice(&digits)
}

/// Pushes words as fields behind another.
pub fn push_words(text: &mut Vec<u8>, words: &[u32]) -> Result<(), AllocError>
    ensures { OnOk result (text.new.items ≡ text.old.items ++ flat_map word_field words.now) }
{
    for word in words {
        text.push(b' ')?;
        push_word(text, *word)?;
    }
    Ok(())
}

/// The character of a hexadecimal digit.
fn hex_digit(value: u32) -> u8
    requires { value < 16 }
    ensures { result ≡ hex_digit value }
{
    let value = value as u8;
    if value < 10 {
        b'0' + value
    } else {
        b'a' + (value - 10)
    }
}
