//! The queues as threads share them.
ghost use Rattle.std.specs.Prelude.{◌≡◌, IfErr, OnOk, replicate};
ghost use Rattle.prio_workers.specs.Passes.{QueuesId, no_queues, new_low_push, new_pass};
ghost use Rattle.prio_workers.specs.Passes.{AreSharedOf, HandsBack, after_low_push};
ghost use Rattle.prio_workers.specs.Passes.{after_high_push, after_normal_push, after_close};
ghost use Rattle.prio_workers.specs.Tally.{CountsNeverFall};
ghost use Rattle.prio_workers.specs.Takes.{GivesOneJob, GivesJobOfQueue};
ghost use Rattle.prio_workers.specs.Takes.{ListsLowNumber, ComesInTurn};
ghost use Rattle.prio_workers.specs.declared.taking.Priority.TheVariants.{High, Normal, Low};

use crate::creation::{Queues, SharedPasses};
use crate::low_queue::pop_next;
use crate::passes::{LowPush, PassParts, QueueSet, WorkerPass};
use crate::plain_queue::pop_plain;
use crate::taking::{Numbered, Pops, Priority, Taken, take_from};
use std::alloc::{AllocError, Global};
use std::marker::{Brand, PhantomData};
use std::sync::{Condvar, Mutex, Wait};
use std::thread::Threads;

/// Names the queues that belong together: what stands behind a lock, or came out of a queue, is
/// known by its type alone. A call picks the name by passing `Brand`.
pub trait QueueName {
    /// Which queues have the name.
    ghost queues: { QueuesId };
}

impl QueueName for Brand {
    ghost queues = { no_queues };
}

/// What the lock keeps, beside which workers sleep.
#[derive(Drop)]
struct Locked<J, N: QueueName> {
    shared: SharedPasses<J>,
    /// How many jobs were pushed, and 1 more for a `close`. It may wrap.
    moves: u64,
    name: PhantomData<N>,
    ghost belongs: { AreSharedOf N.queues shared },
}

impl<J: Numbered + Drop, N: QueueName> Locked<J, N> {
    fn push_high<R: Wait>(&mut self, rt: &R, set: &QueueSet<J>, job: J) -> Result<(), J>
        requires queues { set.now ≡ N.queues }
        requires due { J.IsFor High job }
        ensures pushed { OnOk result (self.new.shared ≡ after_high_push self.old.shared) }
        ensures refused { IfErr result (HandsBack job self.old.shared self.new.shared) }
    {
        self.moves = self.moves.wrapping_add(1);
        self.shared.push_high(rt, set, job)
    }

    fn push_normal<R: Wait>(&mut self, rt: &R, set: &QueueSet<J>, job: J) -> Result<(), J>
        requires queues { set.now ≡ N.queues }
        requires due { J.IsFor Normal job }
        ensures pushed { OnOk result (self.new.shared ≡ after_normal_push self.old.shared) }
        ensures refused { IfErr result (HandsBack job self.old.shared self.new.shared) }
    {
        self.moves = self.moves.wrapping_add(1);
        self.shared.push_normal(rt, set, job)
    }

    fn close(&mut self, set: &QueueSet<J>)
        requires { set.now ≡ N.queues }
        ensures { self.new.shared ≡ after_close self.old.shared }
    {
        self.moves = self.moves.wrapping_add(1);
        self.shared.close(set);
    }
}

/// Three queues of jobs for any number of workers.
#[derive(Drop)]
pub struct Workers<J: Numbered + Drop, N: QueueName> {
    set: QueueSet<J>,
    locked: Mutex<Locked<J, N>>,
    moved: Condvar,
    ghost named: { set ≡ N.queues },
}

impl<J: Numbered + Drop, N: QueueName> Workers<J, N> {
    /// Shares the queues, and hands out what the producer of Low jobs and each worker hold of them.
    /// Nothing was pushed yet, and no pass has popped or read anything.
    pub fn new(queues: Queues<J>) -> (Workers<J, N>, LowPush<J>, Vec<WorkerPass<J>>)
        requires { queues.queues ≡ N.queues }
        ensures low_push { result.1 ≡ new_low_push N.queues }
        ensures passes { result.2.items ≡ replicate queues.passes (new_pass N.queues) }
    {
        let Queues {
            set,
            shared,
            low_push,
            passes,
        } = queues;
        let locked = Locked {
            shared,
            moves: 0,
            name: PhantomData,
        };
        let workers = Workers {
            set,
            locked: Mutex::new(locked),
            moved: Condvar::new(),
        };
        (workers, low_push, passes)
    }

    /// Tells sleeping workers of a move.
    fn tell<R: Wait>(&self, rt: &R) {
        let mut locked = self.locked.lock(rt);
        locked.moves = locked.moves.wrapping_add(1);
        self.moved.notify_all();
    }

    /// Waits for a move that comes after the first `seen` ones, and says how many there are then.
    fn wait_past<R: Wait>(&self, rt: &R, seen: u64) -> u64 {
        let locked = self
            .moved
            .wait_while(rt, self.locked.lock(rt), |locked| locked.moves == seen);
        locked.moves
    }

    /// Pushes the Low job whose number comes next. The queues take memory from the allocator that
    /// they were made with. Where there is none, or after nearly 2^62 pushes to this queue, where
    /// its positions end, the job comes back, and no number is used up.
    pub fn push_low<R: Threads + Wait + Sync>(
        &self,
        rt: &R,
        _alloc: Global,
        by: &mut LowPush<J>,
        job: J,
    ) -> Result<(), (J, AllocError)>
        requires queue { by.old.queue ≡ N.queues.low }
        requires number { J.number job ≡ by.old.pushed }
        requires due { J.IsFor Low job }
        ensures pushed { OnOk result (by.new ≡ after_low_push by.old) }
        ensures refused { IfErr result (λ e. HandsBack job by.old by.new e.0) }
    {
        by.push(rt, &self.set.low, job)
            .map_err(|job| (job, AllocError))?;
        self.tell(rt);
        Ok(())
    }

    /// Pushes a Normal job. Where there is no memory for it, or after nearly 2^62 pushes to this
    /// queue, where its positions end, it comes back.
    pub fn push_normal<R: Threads + Wait + Sync>(
        &self,
        rt: &R,
        _alloc: Global,
        job: J,
    ) -> Result<(), (J, AllocError)>
        requires { J.IsFor Normal job }
        ensures { IfErr result (λ e. e.0 ≡ job) }
    {
        let pushed = self.locked.lock(rt).push_normal(rt, &self.set, job);
        self.moved.notify_all();
        pushed.map_err(|job| (job, AllocError))
    }

    /// Pushes a High job. Where there is no memory for it, or after nearly 2^62 pushes to this
    /// queue, where its positions end, it comes back.
    pub fn push_high<R: Threads + Wait + Sync>(
        &self,
        rt: &R,
        _alloc: Global,
        job: J,
    ) -> Result<(), (J, AllocError)>
        requires { J.IsFor High job }
        ensures { IfErr result (λ e. e.0 ≡ job) }
    {
        let pushed = self.locked.lock(rt).push_high(rt, &self.set, job);
        self.moved.notify_all();
        pushed.map_err(|job| (job, AllocError))
    }

    /// Closes the queues: a worker that finds them empty then stops. A job that is pushed later
    /// stays until somebody takes it.
    pub fn close<R: Threads + Wait + Sync>(&self, rt: &R) {
        self.locked.lock(rt).close(&self.set);
        self.moved.notify_all();
    }

    /// Takes a job, the first of the first queue that isn't empty, and waits for one where there is
    /// none. `Closed` comes only where this pass has read that the queues are closed and then found
    /// each of them empty.
    pub fn take<R: Threads + Wait + Sync>(&self, rt: &R, by: &mut WorkerPass<J>) -> Taken<J>
        requires { by.old.queues ≡ N.queues }
        ensures queues { by.new.queues ≡ by.old.queues }
        ensures never_fall { CountsNeverFall by.old.tally by.new.tally }
        ensures gives { GivesOneJob by.old.tally by.new.tally result }
        ensures due { GivesJobOfQueue J.IsFor result }
        ensures lists { ListsLowNumber J.number by.old.tally by.new.tally result }
        ensures turn { ComesInTurn by.old.tally by.new.tally result }
    {
        let Some(parts) = by.parts.take() else {
            unreachable!()
        };
        let mut pops = PassPops {
            workers: self,
            parts,
        };
        let taken = take_from(rt, &mut pops);
        let PassPops { workers: _, parts } = pops;
        by.parts = Some(parts);
        taken
    }
}

/// The pops of a worker pass.
#[derive(Drop)]
struct PassPops<'a, J: Numbered + Drop, N: QueueName> {
    workers: &'a Workers<J, N>,
    parts: PassParts<J>,
    ghost belongs: { parts.queues ≡ N.queues },
}

impl<J: Numbered + Drop, N: QueueName> Pops<J> for PassPops<'_, J, N> {
    ghost tally = { λ p. p.parts.tally };

    fn pop<R: Threads + Wait + Sync>(&mut self, rt: &R, which: Priority) -> Option<J> {
        let set = &self.workers.set;
        match which {
            Priority::High => {
                let job = pop_plain(rt, &set.high, &mut self.parts.high);
                self.parts.count_pop(which, job)
            }
            Priority::Normal => {
                let job = pop_plain(rt, &set.normal, &mut self.parts.normal);
                self.parts.count_pop(which, job)
            }
            Priority::Low => {
                let job = pop_next(rt, &set.low, &mut self.parts.low);
                self.parts.count_pop(which, job)
            }
        }
    }

    fn closed(&mut self) -> bool {
        self.parts.read_closed(&self.workers.set)
    }

    fn rest<R: Threads + Wait + Sync>(&mut self, rt: &R) {
        self.parts.seen = self.workers.wait_past(rt, self.parts.seen);
    }
}
