//! The modules that a state names.
ghost use Rattle.std.specs.Prelude.{◌≡◌, ◌<◌, length, slice_get, Some, IfSome};
ghost use Rattle.int_device.specs.Modules.{insts_of};
ghost use Rattle.trace_model.specs.Pipes.{fragment_insts};
ghost use Rattle.gpl_play.specs.Links.{with_modules};

use spv_check::Module;
use state_model::State;

/// The module with a number.
pub fn module_at(modules: &[Module], number: u32) -> &Module
    requires { number < length modules.now }
    ensures { slice_get modules.now number ≡ Some result.now }
{
    &modules[number as usize]
}

/// The fragment module of a state, where it has one.
pub fn fragment_module<'a>(modules: &'a [Module], state: &State) -> Option<&'a Module>
    requires { IfSome state.now.fragment (λ part. part.«module» < length modules.now) }
    ensures { insts_of result ≡ fragment_insts (with_modules modules.now) state.now }
{
    match &state.fragment {
        Some(part) => Some(module_at(modules, part.module)),
        None => None,
    }
}
