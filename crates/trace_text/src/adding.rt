//! What the lines add that make objects other than libraries.
#![tactic(auto, unfolding(trace_model::specs::Reading::cause_of, trace_model::specs::LinesBefore::after_line, trace_model::specs::ObjectCauses::is_too_many, trace_model::specs::ObjectCauses::is_unknown, trace_model::specs::ObjectCauses::binds_foreign, trace_model::specs::PartCauses::is_bad_part))]

ghost use Rattle.std.specs.Prelude.{◌≡◌, ◌≤◌, Ok, Some, IfOk};
ghost use Rattle.std.specs.Option.{option_map};
ghost use Rattle.std.specs.Result.{result_err};
ghost use Rattle.basics.specs.Answer.{UnlessMemory};
ghost use Rattle.trace_model.specs.declared.line_fault.Cause.TheVariants.{BadModule};
ghost use Rattle.trace_model.specs.Lines.{data_line, code_line, layout_line, pipe_line};
ghost use Rattle.trace_model.proofs.ReadingLaws.{verdict_of};
ghost use Rattle.trace_text.specs.Lines.{is_memory, target_line_of, IsTargetLine};
ghost use Rattle.trace_text.specs.Taking.{Takes, before_of, settled, cause_of_module, known_among};

use crate::kept_targets::{cleared_target, target_size};
use crate::made::Made;
use crate::number::Number;
use crate::setup_lines::TargetLine;
use check_model::CheckFault;
use limits::MODULES;
use spv_check::{Module, check};
use sqlite_items::Items;
use state_model::Layout;
use std::alloc::{AllocError, Global};
use trace_model::limit::{BUFFERS, LAYOUTS, PIPES, TARGET_WORDS, TARGETS};
use trace_model::line_fault::Cause;

impl Made {
    pub fn add_buffer(&mut self, words: Items<u32>) -> Result<(), Cause>
        ensures { Takes result (before_of self.new)
            (settled (before_of self.old) (data_line words)) }
    {
        if self.buffers.is_full(BUFFERS) {
            return Err(Cause::TooMany);
        }
        self.buffers.push(words)?;
        Ok(())
    }

    pub fn add_module(&mut self, alloc: Global, words: &[u32]) -> Result<(), Cause>
        ensures { Takes result (before_of self.new)
            (settled (before_of self.old) (code_line words.now)) }
    {
        if self.modules.is_full(MODULES as usize) {
            return Err(Cause::TooMany);
        }
        let module = judged(alloc, words)?;
        self.modules.push(module)?;
        Ok(())
    }

    pub fn add_layout(&mut self, layout: Layout) -> Result<(), Cause>
        ensures { Takes result (before_of self.new)
            (settled (before_of self.old) (layout_line layout)) }
    {
        if self.layouts.is_full(LAYOUTS) {
            return Err(Cause::TooMany);
        }
        self.layouts.push(layout)?;
        Ok(())
    }

    pub fn add_pipe(&mut self, alloc: Global, numbers: &[Number<'_>]) -> Result<(), Cause>
        ensures { Takes result (before_of self.new)
            (settled (before_of self.old) (pipe_line numbers.now)) }
    {
        if self.pipes.is_full(PIPES) {
            return Err(Cause::TooMany);
        }
        let Some(known) = known_among(alloc, self.libs.len(), numbers)? else {
            return Err(Cause::Unknown);
        };
        self.pipes.push(known)?;
        Ok(())
    }

    pub fn add_target(&mut self, alloc: Global, line: &TargetLine) -> Result<(), Cause>
        requires { IsTargetLine line.now }
        ensures { Takes result (before_of self.new)
            (settled (before_of self.old) (target_line_of line.now)) }
    {
        if self.targets.len() >= TARGETS {
            return Err(Cause::TooMany);
        }
        let size = target_size(line);
        if (self.targets.words() + size) as usize > TARGET_WORDS {
            return Err(Cause::TooMany);
        }
        let target = cleared_target(alloc, line, size)?;
        self.targets.push(line.recorder, target, size)?;
        Ok(())
    }
}

/// The module of these words, if they are a valid one.
fn judged(alloc: Global, words: &[u32]) -> Result<Module, Cause>
    ensures { UnlessMemory is_memory (λ made. verdict_of words.now ≡ Ok made)
        (λ cause. option_map BadModule (result_err (verdict_of words.now)) ≡ Some cause) result }
{
    match check(alloc, words) {
        Ok(made) => Ok(made),
        Err(fault) => Err(cause_of_module(fault)),
    }
}

fn cause_of_module(fault: CheckFault) -> Cause
    ensures { result ≡ cause_of_module fault }
{
    match fault {
        CheckFault::Memory => Cause::Memory,
        fault => Cause::BadModule(fault),
    }
}

/// The numbers, if all are among so many.
fn known_among(
    alloc: Global,
    count: usize,
    numbers: &[Number<'_>],
) -> Result<Option<Items<u16>>, AllocError>
    requires { count ≤ 1000 }
    ensures { IfOk result (λ known. known ≡ known_among count numbers.now) }
{
    let mut known = Items::new(alloc);
    for number in numbers {
        let Some(number) = number.within(count) else {
            return Ok(None);
        };
        known.push(number)?;
    }
    Ok(Some(known))
}
