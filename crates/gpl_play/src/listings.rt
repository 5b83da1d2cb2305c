//! The listings of a trace's modules.
ghost use Rattle.std.specs.Prelude.{◌≡◌, ◌<◌, ◌^◌, ◌++◌, length, IfOk, OnOk};
ghost use Rattle.listing_model.specs.ModuleTexts as spec;

use spv_check::Module;
use std::alloc::{AllocError, Global};

/// The listings of modules, each behind a line with its number.
#[tactic(auto, unfolding(listing_model::specs::ModuleTexts::modules_text))]
pub fn modules_text(alloc: Global, modules: &[Module]) -> Result<Vec<u8>, AllocError>
    requires { length modules.now < 2 ^ 32 }
    ensures { IfOk result (λ text. text.items ≡ spec.modules_text modules.now) }
{
    let mut text = Vec::new(alloc);
    let mut number = 0;
    let mut rest = modules;
    while let Some((module, others)) = rest.split_first() {
        push_module(&mut text, number, module)?;
        number += 1;
        rest = others;
    }
    Ok(text)
}

/// Pushes a line with a module's number, and the module's listing.
fn push_module(text: &mut Vec<u8>, number: u32, module: &Module) -> Result<(), AllocError>
    ensures { OnOk result
        (text.new.items ≡ text.old.items ++ spec.module_text (number, «module».now)) }
{
    spv_text::push_module(text, number, module.bound(), module.insts())
}
