//! What recorders record, with the number of draws.
ghost use Rattle.std.specs.Prelude.{◌≡◌, ◌<◌, ◌≤◌, [], ◌∷◌, ◌++◌, nat_le, false, OnOk};
ghost use Rattle.std.specs.List.{count_by};
ghost use Rattle.trace_model.specs.declared.whole.Step.TheVariants as step;
ghost use Rattle.trace_model.specs.ObjectCauses.{is_draw};

use draw_model::DrawCall;
use sqlite_items::Items;
use std::alloc::{AllocError, Global};
use std::marker::Model;
use trace_model::limit::DRAWS;
use trace_model::whole::Step;

/// Steps, each with its recorder, at most 4,096 of them draws. Contracts see them as a list.
#[derive(Drop)]
pub struct KeptSteps {
    list: Items<(u8, Step)>,
    draws: u32,
}

impl Model for KeptSteps {
    ghost use Rattle.std.specs.Prelude.{List, ℕ, ◌≡◌, ◌≤◌};
    ghost use Rattle.trace_model.specs.declared.whole.Step.{Step};
    ghost use Rattle.trace_text.specs.Kept.{AreSteps};

    ghost Value = { List (ℕ × Step) };

    ghost view = { λ s. s.list };

    ghost invariant = { λ s. AreSteps s.list s.draws };
}

impl KeptSteps {
    pub fn new(alloc: Global) -> KeptSteps
        ensures { result ≡ [] }
    {
        KeptSteps {
            list: Items::new(alloc),
            draws: 0,
        }
    }

    /// Whether there are as many draws as there may be.
    pub fn is_full(&self) -> bool
        ensures { result ≡ nat_le 4096 (count_by (λ s. is_draw s.1) self.now) }
    {
        self.draws as usize >= DRAWS
    }

    /// Records what is no draw.
    pub fn push(&mut self, recorder: u8, step: Step) -> Result<(), AllocError>
        requires { is_draw step ≡ false }
        ensures { OnOk result (self.new ≡ self.old ++ (recorder, step) ∷ []) }
    {
        self.list.push((recorder, step))
    }

    pub fn push_draw(&mut self, recorder: u8, pipe: u16, call: DrawCall) -> Result<(), AllocError>
        requires { count_by (λ s. is_draw s.1) self.old < 4096 }
        ensures { OnOk result (self.new ≡ self.old ++ (recorder, step.Draw pipe call) ∷ []) }
    {
        self.list.push((recorder, Step::Draw { pipe, call }))?;
        self.draws += 1;
        Ok(())
    }

    pub fn into_items(self) -> Items<(u8, Step)>
        ensures { result ≡ self }
    {
        let KeptSteps { list, .. } = self;
        list
    }
}
