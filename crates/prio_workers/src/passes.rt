//! The queues that threads share, and what each worker and the producer of Low jobs hold of them.
ghost use Rattle.std.specs.Prelude.{◌≡◌, ◌==◌, true, [], OnSome, IfNone, IfErr, OnOk};
ghost use Rattle.crossbeam_queue.specs.SegTies.{IsSegPassOf};
ghost use Rattle.prio_workers.specs.LowRule.{taker_view};
ghost use Rattle.prio_workers.specs.Passes.{IsPassKnowing, HandsBack, pass_view, after_low_push};
ghost use Rattle.prio_workers.specs.Tally.{IsEmptyPop, after_given, after_load};
ghost use Rattle.prio_workers.specs.declared.taking.Priority.TheVariants.{Low};

use crate::closed_word::{ClosedSeat, ClosedWord, read_word};
use crate::low_queue::{LowPass, LowQueue, push_next, taker_pass};
use crate::plain_queue::{HighLevel, NormalLevel, PlainPass, PlainQueue};
use crate::taking::{EmptyPops, Numbered, Priority};
use std::marker::Model;
use std::sync::Wait;

/// The three queues and the closed word. Contracts see which these are.
#[derive(Drop)]
pub(crate) struct QueueSet<J: Numbered + Drop> {
    pub(crate) high: PlainQueue<J, HighLevel>,
    pub(crate) normal: PlainQueue<J, NormalLevel>,
    pub(crate) low: LowQueue<J>,
    pub(crate) closed: ClosedWord,
}

impl<J: Numbered + Drop> Model for QueueSet<J> {
    ghost use Rattle.std.specs.Prelude.{◌≡◌};
    ghost use Rattle.prio_workers.specs.Passes.{QueuesId};

    ghost Value = { QueuesId };

    ghost view = { λ q. record {
      high = q.high.ruled.web;
      normal = q.normal.ruled.web;
      low = q.low.ruled.web;
      closed = q.closed.shared.table_id;
    } };

    ghost invariant = { λ q. q.closed.shared.table_id.words ≡ 1 };
}

/// What a worker holds of the queues. Contracts see which queues these are, and what its pops have
/// found and given.
#[derive(Drop)]
pub(crate) struct PassParts<J> {
    pub(crate) high: PlainPass<J>,
    pub(crate) normal: PlainPass<J>,
    pub(crate) low: LowPass<J>,
    pub(crate) seat: ClosedSeat,
    pub(crate) empty_pops: EmptyPops,
    pub(crate) empty_pops_at_read: EmptyPops,
    pub(crate) last: Option<Priority>,
    pub(crate) given: u64,
    /// How many moves the worker had been told of when it last woke.
    pub(crate) seen: u64,
}

impl<J> Model for PassParts<J> {
    ghost use Rattle.std.specs.Prelude.{◌≡◌, false, []};
    ghost use Rattle.prio_workers.specs.Passes.{PassView, IsIdle, pass_view};

    ghost Value = { PassView };

    ghost view = { λ p. record {
      queues = record {
        high = p.high.web;
        normal = p.normal.web;
        low = p.low.web;
        closed = p.seat.table_id;
      };
      tally = record {
        empty_pops = p.empty_pops;
        closed_loads = p.seat.me.0.loads;
        closed_found = p.seat.me.0.found;
        read_closed = p.seat.me.0.read;
        empty_pops_at_read = p.empty_pops_at_read;
        high_taken = (pass_view p.high).popped;
        normal_taken = (pass_view p.normal).popped;
        low_numbers = (pass_view p.low).taken;
        last = p.last;
        given = p.given;
      };
    } };

    ghost invariant = { λ p. record {
      high : IsIdle p.high;
      normal : IsIdle p.normal;
      low : IsIdle p.low;
      taker : (pass_view p.low).is_producer ≡ false;
      worker : p.seat.me.0.is_closer ≡ false;
      none_out : p.seat.me.1 ≡ [];
    } };
}

impl<J> PassParts<J> {
    /// Counts a pop of this queue, by what it gave.
    pub(crate) fn count_pop(&mut self, which: Priority, popped: Option<J>) -> Option<J>
        ensures same { result ≡ popped }
        ensures queues { self.new.queues ≡ self.old.queues }
        ensures empty { IfNone result (IsEmptyPop which self.old.tally self.new.tally) }
        ensures job { OnSome result (self.new.tally ≡ after_given which self.old.tally) }
    {
        if popped.is_some() {
            self.last = Some(which);
            self.given = self.given.saturating_add(1);
            return popped;
        }
        let counts = &mut self.empty_pops;
        match which {
            Priority::High => counts.high = counts.high.saturating_add(1),
            Priority::Normal => counts.normal = counts.normal.saturating_add(1),
            Priority::Low => counts.low = counts.low.saturating_add(1),
        }
        popped
    }
}

impl<J: Numbered + Drop> PassParts<J> {
    /// Loads the closed word, and says whether it is 1.
    pub(crate) fn read_closed(&mut self, set: &QueueSet<J>) -> bool
        requires { set.now ≡ self.old.queues }
        ensures queues { self.new.queues ≡ self.old.queues }
        ensures answer { result ≡ (self.new.tally.closed_found == 1) }
        ensures load { self.new.tally ≡ after_load self.new.tally.closed_found self.old.tally }
    {
        let is_closed = read_word(&set.closed, &mut self.seat);
        if is_closed {
            self.empty_pops_at_read = self.empty_pops;
        }
        is_closed
    }
}

/// What a worker takes jobs with. Contracts see which queues it is of, and its tally, as `Pops` has
/// it.
#[derive(Drop)]
pub struct WorkerPass<J> {
    pub(crate) parts: Option<PassParts<J>>,
}

impl<J> Model for WorkerPass<J> {
    ghost use Rattle.std.specs.Prelude.{unwrap_or, IsSome};
    ghost use Rattle.prio_workers.specs.Passes.{PassView, new_pass, no_queues};

    ghost Value = { PassView };

    ghost view = { λ p. unwrap_or p.parts (new_pass no_queues) };

    ghost invariant = { λ p. IsSome p.parts };
}

impl<J> WorkerPass<J> {
    pub(crate) fn of(parts: PassParts<J>) -> WorkerPass<J>
        ensures { result ≡ parts }
    {
        WorkerPass { parts: Some(parts) }
    }
}

/// What the one producer of Low jobs pushes with. Contracts see which queue it is of, and how many
/// jobs it has pushed.
#[derive(Drop)]
pub struct LowPush<J> {
    pass: LowPass<J>,
}

impl<J> Model for LowPush<J> {
    ghost use Rattle.std.specs.Prelude.{◌≡◌, true};
    ghost use Rattle.prio_workers.specs.Passes.{LowPushView, IsIdle, pass_view};

    ghost Value = { LowPushView };

    ghost view = { λ p. record { queue = p.pass.web; pushed = (pass_view p.pass).pushed } };

    ghost invariant = { λ p. record {
      idle : IsIdle p.pass;
      producer : (pass_view p.pass).is_producer ≡ true;
    } };
}

impl<J: Numbered + Drop> LowPush<J> {
    pub(crate) fn of(low: &LowQueue<J>, pass: LowPass<J>) -> LowPush<J>
        requires queue { IsSegPassOf low.now.ruled pass }
        requires producer { (pass_view pass).is_producer ≡ true }
        ensures queue { result.queue ≡ low.now.ruled.web }
        ensures pushed { result.pushed ≡ (pass_view pass).pushed }
    {
        LowPush { pass }
    }

    /// A pass for a worker.
    pub(crate) fn taker(&mut self, low: &LowQueue<J>) -> LowPass<J>
        requires { low.now.ruled.web ≡ self.old.queue }
        ensures producer { self.new ≡ self.old }
        ensures taker { IsPassKnowing low.now.ruled result (taker_view []) }
    {
        taker_pass(low, &mut self.pass)
    }

    /// Pushes the job whose number comes next.
    pub(crate) fn push<R: Wait>(&mut self, rt: &R, low: &LowQueue<J>, job: J) -> Result<(), J>
        requires queue { low.now.ruled.web ≡ self.old.queue }
        requires number { J.number job ≡ self.old.pushed }
        requires due { J.IsFor Low job }
        ensures pushed { OnOk result (self.new ≡ after_low_push self.old) }
        ensures refused { IfErr result (HandsBack job self.old self.new) }
    {
        push_next(rt, low, &mut self.pass, job)
    }
}
