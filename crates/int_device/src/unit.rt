ghost use Rattle.std.specs.Prelude.{◌≡◌, ◌≤◌, length, IfOk};
ghost use Rattle.std.specs.Option.{option_copied};
ghost use Rattle.int_device.specs.Modules.{Modules};

use limits::MODULE_WORDS;
use spv_check::Module;
use std::alloc::{AllocError, Global};
use std::marker::Model;

/// The modules of a pipeline.
#[derive(Drop)]
pub struct Unit {
    vertex: Module,
    fragment: Option<Module>,
}

impl Model for Unit {
    ghost Value = { Modules };

    ghost view = { λ u. record { vertex = u.vertex; fragment = u.fragment } };
}

impl Unit {
    /// The unit of these modules. Where rasterization is discarded there is no fragment module.
    pub fn new(vertex: Module, fragment: Option<Module>) -> Unit
        ensures { result ≡ record { vertex = vertex; fragment = fragment } }
    {
        Unit { vertex, fragment }
    }

    /// Its vertex module.
    pub fn vertex(&self) -> &Module
        ensures { result.now ≡ self.now.vertex }
    {
        &self.vertex
    }

    /// Its fragment module, where it has one.
    pub fn fragment(&self) -> Option<&Module>
        ensures { option_copied result ≡ self.now.fragment }
    {
        self.fragment.as_ref()
    }

    /// An equal unit.
    pub fn copy(&self, alloc: Global) -> Result<Unit, AllocError>
        ensures { IfOk result (λ copy. copy ≡ self.now) }
    {
        let vertex = self.vertex.copy(alloc)?;
        let fragment = copy_of(&self.fragment, alloc)?;
        Ok(Unit { vertex, fragment })
    }
}

fn copy_of(shader: &Option<Module>, alloc: Global) -> Result<Option<Module>, AllocError>
    ensures { IfOk result (λ copy. copy ≡ shader.now) }
{
    match shader {
        Some(shader) => Ok(Some(shader.copy(alloc)?)),
        None => Ok(None),
    }
}

/// How many instructions a module has: a valid one has few.
#[tactic(auto, using(crate::proofs::FewInsts::few_insts))]
pub fn count_insts(shader: &Module) -> usize
    ensures count { result ≡ length shader.now.insts }
    ensures few { length shader.now.insts ≤ MODULE_WORDS }
{
    shader.insts().len()
}
