//! What is told on standard error of a run that writes nothing or not all.
ghost use Rattle.std.specs.Prelude.{◌≡◌, IfOk};
ghost use Rattle.trace_model.specs.FaultText as spec;

use crate::digits::push_decimal;
use body_model::TreeFault;
use check_model::CheckFault;
use spirv_model::WordsFault;
use std::alloc::{AllocError, Global};
use trace_model::line_fault::{Cause, TraceFault};
use valid_model::TypeFault;

/// The line for bytes that are no trace.
pub fn fault_line(alloc: Global, fault: &TraceFault) -> Result<Vec<u8>, AllocError>
    ensures { IfOk result (λ text. text.items ≡ spec.fault_line fault.now) }
{
    let mut text = Vec::new(alloc);
    text.extend_from_slice(b"gplrun: line ")?;
    push_decimal(&mut text, u64::from(fault.line))?;
    text.extend_from_slice(b": ")?;
    text.extend_from_slice(cause_name(fault.cause))?;
    text.push(b'\n')?;
    Ok(text)
}

/// The line for words that are none of the program's forms.
pub fn usage_line() -> &'static [u8]
    ensures { result.now ≡ spec.usage_line }
{
    b"gplrun: usage\n"
}

/// The line for a failed read.
pub fn read_line() -> &'static [u8]
    ensures { result.now ≡ spec.read_line }
{
    b"gplrun: read\n"
}

/// The line for a failed write.
pub fn write_line() -> &'static [u8]
    ensures { result.now ≡ spec.write_line }
{
    b"gplrun: write\n"
}

/// The line for want of memory.
pub fn memory_line() -> &'static [u8]
    ensures { result.now ≡ spec.memory_line }
{
    b"gplrun: memory\n"
}

/// The name of a cause; that of a module is the name of the innermost fault.
fn cause_name(cause: Cause) -> &'static [u8]
    ensures { result.now ≡ spec.cause_text cause }
{
    match cause {
        Cause::TooLong => b"TooLong",
        Cause::NoHeader => b"NoHeader",
        Cause::BadLine => b"BadLine",
        Cause::TooMany => b"TooMany",
        Cause::Unknown => b"Unknown",
        Cause::BadModule(fault) => module_fault_name(fault),
        Cause::BadPart => b"BadPart",
        Cause::ForeignTarget => b"ForeignTarget",
        Cause::Memory => b"Memory",
    }
}

fn module_fault_name(fault: CheckFault) -> &'static [u8]
    ensures { result.now ≡ spec.module_fault_text fault }
{
    match fault {
        CheckFault::Words(fault) => words_fault_name(fault),
        CheckFault::Tree(fault) => tree_fault_name(fault),
        CheckFault::Ids(fault) => type_fault_name(fault),
        CheckFault::NotVisible(_) => b"NotVisible",
        CheckFault::OperandType(_) => b"OperandType",
        CheckFault::WrongStorage(_) => b"WrongStorage",
        CheckFault::EntryCount(_) => b"EntryCount",
        CheckFault::NotFlat(_) => b"NotFlat",
        CheckFault::LocationTwice(_) => b"LocationTwice",
        CheckFault::Memory => b"Memory",
    }
}

fn words_fault_name(fault: WordsFault) -> &'static [u8]
    ensures { result.now ≡ spec.words_fault_text fault }
{
    match fault {
        WordsFault::BadHeader => b"BadHeader",
        WordsFault::ZeroLength => b"ZeroLength",
        WordsFault::CutShort => b"CutShort",
        WordsFault::UnknownOp(_) => b"UnknownOp",
        WordsFault::BadShape(_) => b"BadShape",
        WordsFault::FloatType => b"FloatType",
        WordsFault::Memory => b"Memory",
    }
}

fn tree_fault_name(fault: TreeFault) -> &'static [u8]
    ensures { result.now ≡ spec.tree_fault_text fault }
{
    match fault {
        TreeFault::BadBlock(_) => b"BadBlock",
        TreeFault::BadMerge(_) => b"BadMerge",
        TreeFault::BadExit(_) => b"BadExit",
        TreeFault::TooDeep(_) => b"TooDeep",
        TreeFault::Memory => b"Memory",
    }
}

fn type_fault_name(fault: TypeFault) -> &'static [u8]
    ensures { result.now ≡ spec.type_fault_text fault }
{
    match fault {
        TypeFault::IdTwice(_) => b"IdTwice",
        TypeFault::IdOutOfBound(_) => b"IdOutOfBound",
        TypeFault::BadType(_) => b"BadType",
        TypeFault::BadConstant(_) => b"BadConstant",
        TypeFault::BadDecoration(_) => b"BadDecoration",
        TypeFault::Memory => b"Memory",
    }
}
