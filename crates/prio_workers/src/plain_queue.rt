//! A queue whose jobs are for one priority, as the High and the Normal one.
ghost use Rattle.std.specs.Prelude.{◌≡◌, ℕ, IfOk, IfErr, OnOk, IfNone, IfSome};
ghost use Rattle.crossbeam_queue.specs.SegTies.{IsSegPassOf};
ghost use Rattle.prio_workers.specs.Passes.{IsPassKnowing, KnowsSame, LearnsOf};
ghost use Rattle.prio_workers.specs.Passes.{HandsBack, pass_view};
ghost use Rattle.prio_workers.specs.PlainRule.{new_plain_view, after_push, PopsPlain};
ghost use Rattle.prio_workers.specs.declared.taking.Priority.{Priority};

use crate::job_queue::JobQueue;
use crate::taking::Numbered;
use crossbeam_queue::SegPass;
use crossbeam_queue::protocol::{Lesson, Outcome, Protocol};
use std::alloc::{AllocError, Global};
use std::marker::PhantomData;
use std::sync::Wait;

/// Which priority the jobs of a queue are for.
pub(crate) trait Level {
    ghost priority: { Priority };
}

pub(crate) struct HighLevel;

impl Level for HighLevel {
    ghost use Rattle.prio_workers.specs.declared.taking.Priority.TheVariants.{High};

    ghost priority = { High };
}

pub(crate) struct NormalLevel;

impl Level for NormalLevel {
    ghost use Rattle.prio_workers.specs.declared.taking.Priority.TheVariants.{Normal};

    ghost priority = { Normal };
}

/// How many jobs a pass has pushed, and how many it has popped. No value of it is made.
pub(crate) struct PlainView {
    pub pushed: u64,
    pub popped: u64,
}

pub(crate) struct PlainRule<L> {
    level: PhantomData<L>,
}

impl<J: Numbered, L: Level> Protocol<J, PlainView> for PlainRule<L> {
    ghost use Rattle.prio_workers.specs.PlainRule.{IsPlainRule, new_plain_view};

    ghost holds = { IsPlainRule (J.IsFor L.priority) };

    ghost first = { new_plain_view };
}

struct PushDue;

impl<J> Outcome<J, PlainView> for PushDue {
    ghost use Rattle.prio_workers.specs.PlainRule.{after_push};

    ghost then = { λ v job w. w ≡ after_push v };
}

struct PopDue<L> {
    level: PhantomData<L>,
}

impl<J: Numbered, L: Level> Outcome<J, PlainView> for PopDue<L> {
    ghost use Rattle.prio_workers.specs.PlainRule.{PopsPlain};

    ghost then = { PopsPlain (J.IsFor L.priority) };
}

impl<J, L> Lesson<J, PlainView> for PopDue<L> {
    ghost use Rattle.std.specs.Prelude.{⊤};

    ghost fact = { λ v items. ⊤ };
}

pub(crate) type PlainQueue<J, L> = JobQueue<J, PlainView, PlainRule<L>>;

pub(crate) type PlainPass<J> = SegPass<J, PlainView>;

/// The queue, which is empty, with a pass.
pub(crate) fn open_plain<J: Numbered + Drop, L: Level>(
    alloc: Global,
) -> Result<(PlainQueue<J, L>, PlainPass<J>), AllocError>
    ensures { IfOk result (λ r. IsPassKnowing r.0.ruled r.1 new_plain_view) }
{
    JobQueue::open(alloc)
}

/// Another pass.
pub(crate) fn plain_pass<J: Numbered + Drop, L: Level>(queue: &PlainQueue<J, L>) -> PlainPass<J>
    ensures { IsPassKnowing queue.now.ruled result new_plain_view }
{
    queue.ruled.pass()
}

/// Pushes a job that is for this queue.
pub(crate) fn push_plain<J: Numbered + Drop, L: Level, R: Wait>(
    rt: &R,
    queue: &PlainQueue<J, L>,
    pass: &mut PlainPass<J>,
    job: J,
) -> Result<(), J>
    requires queue { IsSegPassOf queue.now.ruled pass.old }
    requires due { J.IsFor L.priority job }
    ensures queue { IsSegPassOf queue.now.ruled pass.new }
    ensures pushed { OnOk result (pass_view pass.new ≡ after_push (pass_view pass.old)) }
    ensures refused { IfErr result (HandsBack job (pass_view pass.old) (pass_view pass.new)) }
{
    queue.ruled.push_as::<PushDue, R>(rt, pass, job)
}

/// The first job of the queue, which is for it.
pub(crate) fn pop_plain<J: Numbered + Drop, L: Level, R: Wait>(
    rt: &R,
    queue: &PlainQueue<J, L>,
    pass: &mut PlainPass<J>,
) -> Option<J>
    requires { IsSegPassOf queue.now.ruled pass.old }
    ensures queue { IsSegPassOf queue.now.ruled pass.new }
    ensures none { IfNone result (KnowsSame pass.old pass.new) }
    ensures job { IfSome result (LearnsOf (PopsPlain (J.IsFor L.priority)) pass.old pass.new) }
{
    queue.ruled.pop_as::<PopDue<L>, R>(rt, pass)
}
