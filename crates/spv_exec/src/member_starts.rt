//! Where the members of a module's structures begin.
ghost use Rattle.std.specs.Prelude.{◌≡◌, ◌+◌, ◌≤◌, length, slice_index, IfOk, OnOk};
ghost use Rattle.limits.specs.declared.TheConstants.{MODULE_WORDS};
ghost use Rattle.stage_model.specs.Program.{program_of};
ghost use Rattle.spv_exec.specs.ModuleFrames.{AddsStarts, AreMemberStarts, HasStart, members_in};

use crate::places::layout_words;
use spirv_model::{Inst, op};
use spv_check::Module;
use std::alloc::{AllocError, Global};

/// Where the members of structures begin in these, in words, for each instruction that declares one.
#[derive(Debug, Drop)]
pub struct MemberStarts {
    /// Where the starts of each instruction's members begin in `starts`.
    firsts: Vec<u32>,
    starts: Vec<u32>,
}

impl MemberStarts {
    /// Those of a module.
    pub fn new(alloc: Global, of: &Module) -> Result<MemberStarts, AllocError>
        ensures { IfOk result (λ made.
            AreMemberStarts of.now.insts made.firsts.items made.starts.items) }
    {
        let insts = of.insts();
        let mut firsts = Vec::with_capacity(alloc, insts.len())?;
        let mut starts = Vec::new(alloc);
        for inst in insts {
            firsts.push(starts.len() as u32)?;
            add_starts(of, inst, &mut starts)?;
        }
        Ok(MemberStarts { firsts, starts })
    }

    /// Where the member with an index begins, in the structure that the instruction at a place declares.
    pub fn start(&self, place: usize, index: usize) -> u32
        requires { HasStart self.now.firsts.items self.now.starts.items place index }
        ensures { result ≡ slice_index self.now.starts.items
            (slice_index self.now.firsts.items place + index) }
    {
        self.starts[self.firsts[place] as usize + index]
    }
}

/// Appends where the members begin that an instruction declares.
fn add_starts(of: &Module, inst: &Inst, starts: &mut Vec<u32>) -> Result<(), AllocError>
    requires { length inst.now.words ≤ MODULE_WORDS }
    ensures { OnOk result (AddsStarts (program_of of.now.insts) (members_in inst.now)
        starts.old.items starts.new.items) }
{
    if inst.op == op::TYPE_STRUCT {
        add_members(of, inst.words_from(1), starts)
    } else {
        Ok(())
    }
}

/// Appends where these members begin, one behind another.
fn add_members(of: &Module, members: &[u32], starts: &mut Vec<u32>) -> Result<(), AllocError>
    requires { length members.now ≤ MODULE_WORDS }
    ensures { OnOk result (AddsStarts (program_of of.now.insts) members.now
        starts.old.items starts.new.items) }
{
    let mut start = 0;
    for member in members {
        starts.push(start)?;
        start += layout_words(of, *member);
    }
    Ok(())
}
