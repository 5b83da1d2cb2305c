//! The Low queue, under the rule that its jobs come out in the order of their numbers, each to one
//! pass.
ghost use Rattle.std.specs.Prelude.{◌≡◌, [], true, false, IfOk, IfErr, OnOk, IfSome, IfNone};
ghost use Rattle.crossbeam_queue.specs.SegTies.{IsSegPassOf};
ghost use Rattle.prio_workers.specs.LowRule.{producer_view, taker_view};
ghost use Rattle.prio_workers.specs.LowRule.{after_next_push, PopsLow};
ghost use Rattle.prio_workers.specs.Passes.{IsPassKnowing, KnowsSame, LearnsOf};
ghost use Rattle.prio_workers.specs.Passes.{HandsBack, pass_view};
ghost use Rattle.prio_workers.specs.declared.taking.Priority.TheVariants.{Low};

use crate::job_queue::JobQueue;
use crate::taking::Numbered;
use crossbeam_queue::SegPass;
use crossbeam_queue::protocol::{Lesson, Outcome, Protocol, Split};
use std::alloc::{AllocError, Global};
use std::collections::LinkedList;
use std::sync::Wait;

/// What a pass of the Low queue knows: whether it is the producer's, and then how many jobs it has
/// pushed, else the numbers of the jobs that it took. No value of it is made.
pub(crate) struct LowView {
    pub is_producer: bool,
    pub pushed: u64,
    pub taken: LinkedList<u64>,
}

pub(crate) struct LowRule;

impl<J: Numbered> Protocol<J, LowView> for LowRule {
    ghost use Rattle.prio_workers.specs.LowRule.{producer_view, IsLowRule};
    ghost use Rattle.prio_workers.specs.declared.taking.Priority.TheVariants.{Low};

    ghost holds = { IsLowRule J.number (J.IsFor Low) };

    ghost first = { producer_view 0 };
}

struct PushLow;

impl<J> Outcome<J, LowView> for PushLow {
    ghost use Rattle.prio_workers.specs.LowRule.{after_next_push};

    ghost then = { λ v job w. w ≡ after_next_push v };
}

struct PopLow;

impl<J: Numbered> Outcome<J, LowView> for PopLow {
    ghost use Rattle.prio_workers.specs.LowRule.{PopsLow};
    ghost use Rattle.prio_workers.specs.declared.taking.Priority.TheVariants.{Low};

    ghost then = { PopsLow J.number (J.IsFor Low) };
}

impl<J> Lesson<J, LowView> for PopLow {
    ghost use Rattle.std.specs.Prelude.{⊤};

    ghost fact = { λ v items. ⊤ };
}

struct MakeTaker;

impl Split<LowView> for MakeTaker {
    ghost use Rattle.std.specs.Prelude.{[]};
    ghost use Rattle.prio_workers.specs.LowRule.{taker_view};

    ghost left = { λ v. v };

    ghost right = { λ v. taker_view [] };
}

pub(crate) type LowQueue<J> = JobQueue<J, LowView, LowRule>;

pub(crate) type LowPass<J> = SegPass<J, LowView>;

/// The queue, which is empty, with the producer's pass.
pub(crate) fn open_low<J: Numbered + Drop>(
    alloc: Global,
) -> Result<(LowQueue<J>, LowPass<J>), AllocError>
    ensures { IfOk result (λ r. IsPassKnowing r.0.ruled r.1 (producer_view 0)) }
{
    JobQueue::open(alloc)
}

/// A pass for a worker, which has taken nothing.
pub(crate) fn taker_pass<J: Numbered + Drop>(
    queue: &LowQueue<J>,
    producer: &mut LowPass<J>,
) -> LowPass<J>
    requires queue { IsSegPassOf queue.now.ruled producer.old }
    requires producer { (pass_view producer.old).is_producer ≡ true }
    ensures producer { IsPassKnowing queue.now.ruled producer.new (pass_view producer.old) }
    ensures taker { IsPassKnowing queue.now.ruled result (taker_view []) }
{
    queue.ruled.another::<MakeTaker>(producer)
}

/// Pushes the job whose number comes next.
pub(crate) fn push_next<J: Numbered + Drop, R: Wait>(
    rt: &R,
    queue: &LowQueue<J>,
    by: &mut LowPass<J>,
    job: J,
) -> Result<(), J>
    requires queue { IsSegPassOf queue.now.ruled by.old }
    requires producer { (pass_view by.old).is_producer ≡ true }
    requires number { J.number job ≡ (pass_view by.old).pushed }
    requires due { J.IsFor Low job }
    ensures queue { IsSegPassOf queue.now.ruled by.new }
    ensures pushed { OnOk result (pass_view by.new ≡ after_next_push (pass_view by.old)) }
    ensures refused { IfErr result (HandsBack job (pass_view by.old) (pass_view by.new)) }
{
    queue.ruled.push_as::<PushLow, R>(rt, by, job)
}

/// The job with the lowest number that is left.
pub(crate) fn pop_next<J: Numbered + Drop, R: Wait>(
    rt: &R,
    queue: &LowQueue<J>,
    taker: &mut LowPass<J>,
) -> Option<J>
    requires queue { IsSegPassOf queue.now.ruled taker.old }
    requires taker { (pass_view taker.old).is_producer ≡ false }
    ensures queue { IsSegPassOf queue.now.ruled taker.new }
    ensures none { IfNone result (KnowsSame taker.old taker.new) }
    ensures job { IfSome result (LearnsOf (PopsLow J.number (J.IsFor Low)) taker.old taker.new) }
{
    queue.ruled.pop_as::<PopLow, R>(rt, taker)
}
