//! The targets that lines make, with the number of all their words.
ghost use Rattle.std.specs.Prelude.{◌≡◌, ◌+◌, ◌<◌, ◌≤◌, [], ◌∷◌, ◌++◌, nat_le, length, slice_get, IfOk, OnOk};
ghost use Rattle.std.specs.Option.{option_copied};
ghost use Rattle.draw_model.specs.TargetWords.{target_size};
ghost use Rattle.state_model.specs.Lawful.{format_components};
ghost use Rattle.trace_model.specs.ObjectCauses.{target_words};
ghost use Rattle.trace_model.specs.SetupLines.{cleared};
ghost use Rattle.trace_text.specs.Lines.{IsTargetLine, bare_target};

use crate::field_values::format_components;
use crate::setup_lines::TargetLine;
use draw_model::framebuffer::Target;
use sqlite_items::Items;
use std::alloc::{AllocError, Global};
use std::marker::Model;

/// At most 32 targets, each with its recorder. Contracts see them as a list.
#[derive(Drop)]
pub struct KeptTargets {
    list: Items<(u8, Target)>,
    /// The words of all of them.
    words: u32,
}

impl Model for KeptTargets {
    ghost use Rattle.draw_model.specs.declared.framebuffer.Target.{Target};
    ghost use Rattle.std.specs.Prelude.{List, ℕ, ◌≡◌, ◌≤◌, length};
    ghost use Rattle.trace_model.specs.ObjectCauses.{target_words};
    ghost use Rattle.trace_text.specs.Kept.{AreTargets};

    ghost Value = { List (ℕ × Target) };

    ghost view = { λ t. t.list };

    ghost invariant = { λ t. AreTargets t.list t.words };
}

impl KeptTargets {
    pub fn new(alloc: Global) -> KeptTargets
        ensures { result ≡ [] }
    {
        KeptTargets {
            list: Items::new(alloc),
            words: 0,
        }
    }

    pub fn len(&self) -> usize
        ensures is { result ≡ length self.now }
        ensures few { result ≤ 32 }
    {
        self.list.len()
    }

    /// The words of all targets.
    pub fn words(&self) -> u32
        ensures is { result ≡ target_words self.now }
        ensures few { result ≤ 1048576 }
    {
        self.words
    }

    pub fn get(&self, number: u16) -> Option<&(u8, Target)>
        ensures { option_copied result ≡ slice_get self.now number }
    {
        self.list.as_slice().get(usize::from(number))
    }

    /// Makes a target of so many words.
    pub fn push(&mut self, recorder: u8, target: Target, size: u32) -> Result<(), AllocError>
        requires count { length self.old < 32 }
        requires size { size ≡ target_size target }
        requires few { target_words self.old + size ≤ 1048576 }
        ensures { OnOk result (self.new ≡ self.old ++ (recorder, target) ∷ []) }
    {
        self.list.push((recorder, target))?;
        self.words += size;
        Ok(())
    }

    pub fn into_items(self) -> Items<(u8, Target)>
        ensures { result ≡ self }
    {
        let KeptTargets { list, .. } = self;
        list
    }
}

/// The words of a target.
pub fn target_size(line: &TargetLine) -> u32
    requires { IsTargetLine line.now }
    ensures is { result ≡ target_size (bare_target line.now) }
    ensures few { result ≤ 4194304 }
{
    let rows = u32::from(line.layers) * line.height;
    let samples = u32::from(line.samples);
    rows * line.width * samples * u32::from(format_components(line.format))
}

/// The target of a line, cleared.
pub fn cleared_target(alloc: Global, line: &TargetLine, size: u32) -> Result<Target, AllocError>
    requires { size ≡ target_size (bare_target line.now) }
    ensures { IfOk result (λ target. target ≡ cleared (bare_target line.now) line.now.clear) }
{
    let words = Vec::from_elem(alloc, line.clear, size as usize)?;
    Ok(Target {
        format: line.format,
        width: line.width,
        height: line.height,
        layers: line.layers,
        samples: line.samples,
        words: Items::from_vec(words),
    })
}
