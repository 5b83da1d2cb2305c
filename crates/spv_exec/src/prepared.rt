ghost use Rattle.std.specs.Prelude.{◌≡◌, length, replicate, IfOk, Some};
ghost use Rattle.std.specs.Option.{option_map};
ghost use Rattle.stage_model.specs.Stage.{ended_of, first_label, stage};
ghost use Rattle.stage_model.specs.Program.{program_of};
ghost use Rattle.stage_model.specs.Start.{Memory};
ghost use Rattle.frame_model.specs.Frame.{memory_place};
ghost use Rattle.frame_model.specs.Shown.{ShowsMemory};
ghost use Rattle.spv_exec.specs.PreparedFor.{IsPrepared, PreparedFor, left_so};

use crate::constants::{first_frame, zeros};
use crate::module_frame::ModuleFrame;
use crate::stand::End;
use crate::variables::Variables;
use crate::walk::walk;
use limits::{COMPONENTS, LOCATIONS};
use spirv_model::{Inst, op};
use spv_check::Module;
use stage_model::{Ended, Inputs, Kind};
use state_model::{Buffers, SpecValues};
use std::alloc::{AllocError, Global};
use std::marker::Model;

/// A valid module that is prepared for runs with one set of specialization entries: its constants are computed, and all words
/// that a run needs are taken. It is seen as the module's instructions and bound, with these entries.
#[derive(Drop)]
pub struct Prepared<'m> {
    of: ModuleFrame<'m>,
    variables: Variables<'m>,
    entries: SpecValues,
    first: usize,
    constants: Vec<u32>,
    frame: Vec<u32>,
    incoming: Vec<u32>,
    memory: Vec<u32>,
}

impl<'m> Model for Prepared<'m> {
    ghost Value = { PreparedFor };

    ghost view = { λ p. record { words = p.of; entries = p.entries } };

    ghost invariant = { λ p. IsPrepared p.of p.variables p.entries p.first p.constants.items p.frame.items
        p.incoming.items p.memory.items };
}

/// Where the first label stands.
fn first_place(of: &ModuleFrame<'_>) -> usize
    ensures { first_label of.now.insts ≡ Some result }
{
    label_in(of.module().insts()).unwrap_or(0)
}

fn label_in(insts: &[Inst]) -> Option<usize>
    ensures { result ≡ first_label insts.now }
{
    insts.iter().position(|inst| inst.op == op::LABEL)
}

impl<'m> Prepared<'m> {
    /// Prepares a module. It fails only for want of memory.
    pub fn new(
        alloc: Global,
        module: &'m Module,
        values: &SpecValues,
    ) -> Result<Prepared<'m>, AllocError>
        ensures { IfOk result
            (λ prepared. prepared ≡ record { words = module.now; entries = values.now }) }
    {
        let of = ModuleFrame::new(alloc, module)?;
        let variables = Variables::new(alloc, &of)?;
        let first = first_place(&of);
        let constants = first_frame(alloc, &of, first, values)?;
        let frame = zeros(alloc, of.frame_place(of.count()))?;
        let incoming = zeros(alloc, of.frame_place(of.count()))?;
        let memory = zeros(alloc, of.memory_place(of.count()))?;
        Ok(Prepared {
            of,
            variables,
            entries: *values,
            first,
            constants,
            frame,
            incoming,
            memory,
        })
    }

    /// Runs the module's function with these inputs and buffers. It takes no memory.
    pub fn run(&mut self, inputs: &Inputs, buffers: &Buffers) -> Ended
        ensures outcome { option_map ended_of (stage self.old.words.insts
            (record { entries = self.old.entries; inputs = inputs.now; buffers = buffers.now })) ≡ Some result }
        ensures same { self.new ≡ self.old }
    {
        let frame = self.frame.as_mut_slice();
        frame.copy_from_slice(self.constants.as_slice());
        let memory = self.memory.as_mut_slice();
        self.variables.fill(inputs, buffers, memory);
        let end = walk(
            &self.of,
            self.first,
            frame,
            self.incoming.as_mut_slice(),
            memory,
        );
        let mut ended = Ended {
            kind: end.kind,
            position: [0; COMPONENTS],
            slots: [[0; COMPONENTS]; LOCATIONS],
            work: end.work,
        };
        leave(&self.variables, memory, &mut ended);
        ended
    }
}

/// Puts what an invocation leaves in the place of zeros, if it is done.
fn leave(variables: &Variables<'_>, memory: &[u32], ended: &mut Ended)
    requires size { length memory.now
        ≡ memory_place (program_of variables.now.insts) (length variables.now.insts) }
    requires position { ended.old.position ≡ replicate COMPONENTS 0 }
    requires slots { ended.old.slots ≡ replicate LOCATIONS (replicate COMPONENTS 0) }
    ensures { (held : Memory) → ShowsMemory (program_of variables.now.insts) memory.now held
        → ended.new
        ≡ left_so (program_of variables.now.insts) (record { kind = ended.old.kind; work = ended.old.work }) held }
{
    match ended.kind {
        Kind::Done => variables.leave(memory, &mut ended.position, &mut ended.slots),
        Kind::Killed => {}
        Kind::Lost => {}
    }
}

/// Prepares a module and runs it once. It fails only for want of memory.
pub fn run_stage(
    alloc: Global,
    module: &Module,
    values: &SpecValues,
    inputs: &Inputs,
    buffers: &Buffers,
) -> Result<Ended, AllocError>
    ensures { IfOk result (λ ended. option_map ended_of (stage module.now.insts
        (record { entries = values.now; inputs = inputs.now; buffers = buffers.now })) ≡ Some ended) }
{
    let mut prepared = Prepared::new(alloc, module, values)?;
    Ok(prepared.run(inputs, buffers))
}
