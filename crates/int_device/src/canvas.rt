//! The targets of a draw, while it writes them.
ghost use Rattle.std.specs.Prelude.{◌≡◌, ◌≤◌, [], length, reverse, vec_capacity, IfOk, OnErr, IfSome};
ghost use Rattle.state_model.specs.declared.vulkan.TheConstants.{COMPARE_OP_ALWAYS, LOGIC_OP_SET};
ghost use Rattle.int_device.specs.SampleRules.{AreLimited, IsPlace, told, passes_by, with_depth_by, with_write_by};

use crate::fragment::Fragment;
use crate::sample_rules::{BoundAttachment, BoundDepth};
use crate::target_samples::{test_depth, write_output};
use draw_model::Targets;
use draw_model::framebuffer::Target;
use limits::COMPONENTS;
use sqlite_items::Items;
use std::alloc::{AllocError, Global};
use std::marker::Model;

/// The targets of a draw, while it writes them. Contracts see them as targets.
#[derive(Drop)]
pub struct Canvas {
    targets: Vec<Target>,
}

impl Model for Canvas {
    ghost use Rattle.draw_model.specs.declared.framebuffer.Targets.{Targets};
    ghost use Rattle.int_device.specs.SampleRules.{AreLimited};

    ghost Value = { Targets };

    ghost view = { λ c. record { list = c.targets.items } };

    ghost invariant = { λ c. AreLimited c.targets.items };
}

impl Canvas {
    /// Takes the targets out. Where memory runs out they stay.
    pub fn open(alloc: Global, targets: &mut Targets) -> Result<Canvas, AllocError>
        requires { AreLimited targets.old.list }
        ensures ok { IfOk result (λ canvas. canvas ≡ targets.old) }
        ensures err { OnErr result (targets.new ≡ targets.old) }
    {
        let mut open = Vec::with_capacity(alloc, targets.list.len())?;
        move_all(&mut targets.list, &mut open);
        open.reverse();
        Ok(Canvas { targets: open })
    }

    /// Puts them back.
    pub fn close(self, targets: &mut Targets)
        ensures { targets.new ≡ self }
    {
        let Canvas { targets: written } = self;
        targets.list = Items::from_vec(written);
    }

    /// Tests the depth of a fragment's sample, and stores it where it passes; and whether the sample goes on.
    pub fn test_depth(
        &mut self,
        bound: Option<BoundDepth>,
        samples: u8,
        f: &Fragment<'_>,
        sample: u8,
    ) -> bool
        requires within { IsPlace f.now }
        requires compare { IfSome bound (λ b. b.depth.compare ≤ COMPARE_OP_ALWAYS) }
        ensures passes { result ≡ passes_by bound samples (told f.now) sample self.old }
        ensures stored { self.new ≡ with_depth_by bound samples (told f.now) sample self.old }
    {
        let Some(bound) = bound else {
            return true;
        };
        let number = usize::from(bound.number);
        if number >= self.targets.len() {
            return true;
        }
        test_depth(&mut self.targets[number], bound.depth, samples, f, sample)
    }

    /// Stores the words of an output in a fragment's sample.
    pub fn write(
        &mut self,
        bound: Option<BoundAttachment>,
        logic: Option<u8>,
        samples: u8,
        f: &Fragment<'_>,
        words: [u32; COMPONENTS],
        sample: u8,
    )
        requires within { IsPlace f.now }
        requires logic { IfSome logic (λ op. op ≤ LOGIC_OP_SET) }
        ensures { self.new ≡ with_write_by bound logic samples (told f.now) words sample self.old }
    {
        let Some(bound) = bound else {
            return;
        };
        let number = usize::from(bound.number);
        if number >= self.targets.len() {
            return;
        }
        write_output(
            &mut self.targets[number],
            bound.attachment,
            logic,
            samples,
            f,
            words,
            sample,
        );
    }
}

// Moves the targets from one list to the end of another, the last one first.
fn move_all(from: &mut Items<Target>, to: &mut Vec<Target>)
    requires none { to.old.items ≡ [] }
    requires room { length from.old ≤ vec_capacity to.old }
    ensures all { reverse to.new.items ≡ from.old }
    ensures none { from.new ≡ [] }
{
    while let Some(target) = from.pop() {
        match to.push(target) {
            Ok(()) | Err(_) => {}
        }
    }
}
