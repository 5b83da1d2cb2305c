ghost use Rattle.std.specs.Prelude.{◌≡◌, IfOk};
ghost use Rattle.listing_model.specs.FaultText as spec;

use crate::line::push_decimal;
use listing_model::{TextCause, TextFault};
use std::alloc::{AllocError, Global};

/// The line on standard error for bytes that are no listing.
pub fn fault_line(alloc: Global, fault: &TextFault) -> Result<Vec<u8>, AllocError>
    ensures { IfOk result (λ text. text.items ≡ spec.fault_line fault.now) }
{
    let mut text = Vec::new(alloc);
    text.extend_from_slice(b"gplrun: line ")?;
    push_decimal(&mut text, fault.line)?;
    text.extend_from_slice(b": ")?;
    text.extend_from_slice(cause_name(fault.cause))?;
    text.push(b'\n')?;
    Ok(text)
}

fn cause_name(cause: TextCause) -> &'static [u8]
    ensures { result.now ≡ spec.cause_text cause }
{
    match cause {
        TextCause::TooLong => b"TooLong",
        TextCause::NoEnd => b"NoEnd",
        TextCause::NoHead => b"NoHead",
        TextCause::NoName => b"NoName",
        TextCause::BadOperands => b"BadOperands",
        TextCause::TooManyWords => b"TooManyWords",
        TextCause::Memory => b"Memory",
    }
}
