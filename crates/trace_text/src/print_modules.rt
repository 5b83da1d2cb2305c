//! The text of a trace's modules.
ghost use Rattle.std.specs.Prelude.{◌≡◌, ◌+◌, ◌<◌, ◌^◌, ◌++◌, length, IfOk, OnOk};
ghost use Rattle.std.specs.List.{flat_map};
ghost use Rattle.spirv_model.specs.Module.{module_words, words_of};
ghost use Rattle.trace_model.specs.PlayText as spec;
ghost use Rattle.trace_model.specs.SpecIds.{spec_ids_of};
ghost use Rattle.trace_model.specs.declared.whole.Trace as trace;
ghost use Rattle.trace_text.specs.Printed.{module_lines};

use crate::digits::{push_field, push_number};
use spirv_model::Inst;
use spv_check::{Module, Stage};
use state_model::Iface;
use std::alloc::{AllocError, Global};

/// What is printed of a trace's modules: the stage of each, how many locations its inputs and its outputs have, how many
/// numbers set its specialization constants, and how many words `write_module` gives.
#[tactic(auto, unfolding(trace_model::specs::PlayText::check_text))]
pub fn check_text(alloc: Global, modules: &[Module]) -> Result<Vec<u8>, AllocError>
    ensures lines { IfOk result (λ text. text.items ≡ module_lines modules.now) }
    ensures modules { (trace : trace.Trace) → trace.modules ≡ modules.now
        → IfOk result (λ text. text.items ≡ spec.check_text trace) }
{
    let mut text = Vec::new(alloc);
    let mut number = 0;
    let mut rest = modules;
    while let Some((module, others)) = rest.split_first() {
        push_module(&mut text, number, module)?;
        number += 1;
        rest = others;
    }
    Ok(text)
}

/// Pushes the line of a module.
fn push_module(text: &mut Vec<u8>, number: usize, module: &Module) -> Result<(), AllocError>
    ensures { OnOk result (text.new.items
        ≡ text.old.items ++ spec.module_text (number, «module».now)) }
{
    text.extend_from_slice(b"code")?;
    push_number(text, number as u64)?;
    push_field(text, stage_name(module.stage()))?;
    push_number(text, location_count(module.inputs()) as u64)?;
    push_number(text, location_count(module.outputs()) as u64)?;
    push_number(text, spec_id_count(module) as u64)?;
    push_number(text, word_count(module) as u64)?;
    text.push(b'\n')?;
    Ok(())
}

fn stage_name(stage: Stage) -> &'static [u8]
    ensures { result.now ≡ spec.stage_text stage }
{
    match stage {
        Stage::Vertex => b"vertex",
        Stage::Fragment => b"fragment",
    }
}

/// How many locations an interface has.
fn location_count(interface: &Iface) -> usize
    ensures { result ≡ spec.location_count interface.now }
{
    interface.slots.iter().filter(|slot| slot.is_some()).count()
}

/// How many numbers set the module's specialization constants.
fn spec_id_count(module: &Module) -> usize
    ensures { result ≡ length (spec_ids_of «module».now.insts) }
{
    module.spec_ids().len()
}

/// How many words the module is written in.
fn word_count(module: &Module) -> usize
    ensures { result ≡ length (module_words «module».now.insts «module».now.bound) }
{
    words_of(module.insts())
}

/// The words of instructions behind a module's header.
fn words_of(insts: &[Inst]) -> usize
    requires { length (flat_map words_of insts.now) < 2 ^ 32 }
    ensures { result ≡ 5 + length (flat_map words_of insts.now) }
{
    let mut count = 5;
    for inst in insts {
        count += 1 + inst.words.len();
    }
    count
}
