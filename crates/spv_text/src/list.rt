ghost use Rattle.std.specs.Prelude.{◌≡◌, ◌++◌, true, IfOk, OnOk};
ghost use Rattle.std.specs.List.{list_all};
ghost use Rattle.spirv_model.specs.Module.{fits_table, module_of};
ghost use Rattle.listing_model.specs.Assembly.{listed_text};
ghost use Rattle.listing_model.specs.Listing as spec;
ghost use Rattle.listing_model.specs.ModuleTexts as several;
ghost use Rattle.spv_text.specs.Answers.{GivesText};
ghost use Rattle.spv_text.specs.Modules.{words_with};
ghost use Rattle.spv_text.specs.Pieces.{AllFit};

use crate::line::{push_decimal, push_inst};
use listing_model::ListFault;
use spirv_model::{Inst, WordsFault};
use spv_words::read_module;
use std::alloc::{AllocError, Global};

/// The listing of a module's words: a line with the id bound, and a line for each instruction of the list.
pub fn list_text(alloc: Global, words: &[u32]) -> Result<Vec<u8>, ListFault>
    ensures gives { GivesText (listed_text (module_of words.now)) result }
{
    let module = match read_module(alloc, words) {
        Ok(module) => module,
        Err(WordsFault::Memory) => return Err(ListFault::Memory),
        Err(fault) => return Err(ListFault::Words(fault)),
    };
    let text = listing(alloc, module.bound, module.insts.as_slice())?;
    Ok(text)
}

/// Pushes a line with a module's number, and the listing of the module of this id bound and these instructions, which fit their
/// operands.
pub fn push_module(
    text: &mut Vec<u8>,
    number: u32,
    bound: u32,
    insts: &[Inst],
) -> Result<(), AllocError>
    requires { list_all fits_table insts.now ≡ true }
    ensures { OnOk result (text.new.items ≡ text.old.items
        ++ several.module_text (number, words_with bound insts.now)) }
{
    text.extend_from_slice(b"code ")?;
    push_decimal(text, number)?;
    text.push(b'\n')?;
    push_listing(text, bound, insts)
}

/// The listing of instructions that fit their operands, and an id bound.
fn listing(alloc: Global, bound: u32, insts: &[Inst]) -> Result<Vec<u8>, AllocError>
    requires { AllFit insts.now }
    ensures { IfOk result (λ text. text.items ≡ spec.listing bound insts.now) }
{
    let mut text = Vec::new(alloc);
    push_listing(&mut text, bound, insts)?;
    Ok(text)
}

/// Pushes the listing of instructions that fit their operands, and an id bound.
fn push_listing(text: &mut Vec<u8>, bound: u32, insts: &[Inst]) -> Result<(), AllocError>
    requires { AllFit insts.now }
    ensures { OnOk result (text.new.items ≡ text.old.items ++ spec.listing bound insts.now) }
{
    push_head(text, bound)?;
    text.push(b'\n')?;
    for inst in insts {
        push_inst(text, inst)?;
        text.push(b'\n')?;
    }
    Ok(())
}

/// Pushes the text of the first line.
pub fn push_head(text: &mut Vec<u8>, bound: u32) -> Result<(), AllocError>
    ensures { OnOk result (text.new.items ≡ text.old.items ++ spec.head_text bound) }
{
    text.extend_from_slice(b"spvt 1 ")?;
    push_decimal(text, bound)?;
    Ok(())
}
