//! How the queues are made, with all that their workers and producers hold of them.
ghost use Rattle.std.specs.Prelude.{◌≡◌, IfOk, IfErr, OnOk, replicate};
ghost use Rattle.prio_workers.specs.Passes.{AreSharedOf, new_shared_passes, new_low_push, new_pass};
ghost use Rattle.prio_workers.specs.Passes.{after_high_push, after_normal_push, after_close};
ghost use Rattle.prio_workers.specs.Passes.{HandsBack};
ghost use Rattle.prio_workers.specs.declared.taking.Priority.TheVariants.{High, Normal};

use crate::closed_word::{ClosedSeat, open_word, store_word, worker_seat};
use crate::low_queue::open_low;
use crate::passes::{LowPush, PassParts, QueueSet, WorkerPass};
use crate::plain_queue::{PlainPass, open_plain, plain_pass, push_plain};
use crate::taking::{EmptyPops, Numbered};
use std::alloc::{AllocError, Global};
use std::marker::Model;
use std::sync::Wait;

/// The closer's seat, and the passes with which High and Normal jobs are pushed. Contracts see of
/// which queues and of which closed word these are, how many jobs were pushed, and whether the 1
/// was stored.
#[derive(Drop)]
pub(crate) struct SharedPasses<J> {
    closer: ClosedSeat,
    high: PlainPass<J>,
    normal: PlainPass<J>,
}

impl<J> Model for SharedPasses<J> {
    ghost use Rattle.std.specs.Prelude.{◌≡◌, true, []};
    ghost use Rattle.prio_workers.specs.Passes.{SharedPassesView, IsIdle, pass_view};

    ghost Value = { SharedPassesView };

    ghost view = { λ k. record {
      high = k.high.web;
      normal = k.normal.web;
      closed = k.closer.table_id;
      high_pushed = (pass_view k.high).pushed;
      normal_pushed = (pass_view k.normal).pushed;
      stored = k.closer.me.0.stored;
    } };

    ghost invariant = { λ k. record {
      high : IsIdle k.high;
      normal : IsIdle k.normal;
      closer : k.closer.me.0.is_closer ≡ true;
      none_out : k.closer.me.1 ≡ [];
    } };
}

impl<J: Numbered + Drop> SharedPasses<J> {
    /// Pushes a job to the High queue.
    pub(crate) fn push_high<R: Wait>(&mut self, rt: &R, set: &QueueSet<J>, job: J) -> Result<(), J>
        requires queues { AreSharedOf set.now self.old }
        requires due { J.IsFor High job }
        ensures pushed { OnOk result (self.new ≡ after_high_push self.old) }
        ensures refused { IfErr result (HandsBack job self.old self.new) }
    {
        push_plain(rt, &set.high, &mut self.high, job)
    }

    /// Pushes a job to the Normal queue.
    pub(crate) fn push_normal<R: Wait>(
        &mut self,
        rt: &R,
        set: &QueueSet<J>,
        job: J,
    ) -> Result<(), J>
        requires queues { AreSharedOf set.now self.old }
        requires due { J.IsFor Normal job }
        ensures pushed { OnOk result (self.new ≡ after_normal_push self.old) }
        ensures refused { IfErr result (HandsBack job self.old self.new) }
    {
        push_plain(rt, &set.normal, &mut self.normal, job)
    }

    /// Stores 1 in the closed word.
    pub(crate) fn close(&mut self, set: &QueueSet<J>)
        requires { AreSharedOf set.now self.old }
        ensures { self.new ≡ after_close self.old }
    {
        store_word(&set.closed, &mut self.closer);
    }
}

/// The queues before they have a name, with all their passes. Contracts see which queues these are,
/// and how many worker passes there are.
#[derive(Drop)]
pub struct Queues<J: Numbered + Drop> {
    pub(crate) set: QueueSet<J>,
    pub(crate) shared: SharedPasses<J>,
    pub(crate) low_push: LowPush<J>,
    pub(crate) passes: Vec<WorkerPass<J>>,
}

impl<J: Numbered + Drop> Model for Queues<J> {
    ghost use Rattle.std.specs.Prelude.{◌≡◌, length, replicate};
    ghost use Rattle.prio_workers.specs.Passes.{QueuesView, new_shared_passes};
    ghost use Rattle.prio_workers.specs.Passes.{new_low_push, new_pass};

    ghost Value = { QueuesView };

    ghost view = { λ q. record { queues = q.set; passes = length q.passes.items } };

    ghost invariant = { λ q. record {
      shared : q.shared ≡ new_shared_passes q.set;
      low_push : q.low_push ≡ new_low_push q.set;
      passes : q.passes.items ≡ replicate (length q.passes.items) (new_pass q.set);
    } };
}

impl<J: Numbered + Drop> Queues<J> {
    /// Three empty queues, and so many worker passes, for which all memory is taken here.
    pub fn new(alloc: Global, passes: u32) -> Result<Queues<J>, AllocError>
        ensures { IfOk result (λ q. q.passes ≡ passes) }
    {
        let (set, mut shared, mut low_push) = open_set(alloc)?;
        let passes = make_passes(alloc, &set, &mut shared, &mut low_push, passes)?;
        Ok(Queues {
            set,
            shared,
            low_push,
            passes,
        })
    }
}

fn open_set<J: Numbered + Drop>(
    alloc: Global,
) -> Result<(QueueSet<J>, SharedPasses<J>, LowPush<J>), AllocError>
    ensures shared { IfOk result (λ r. r.1 ≡ new_shared_passes r.0) }
    ensures low_push { IfOk result (λ r. r.2 ≡ new_low_push r.0) }
{
    let (high, high_pass) = open_plain(alloc)?;
    let (normal, normal_pass) = open_plain(alloc)?;
    let (low, low_pass) = open_low(alloc)?;
    let (closed, closer) = open_word(alloc)?;
    let low_push = LowPush::of(&low, low_pass);
    let shared = SharedPasses {
        closer,
        high: high_pass,
        normal: normal_pass,
    };
    let set = QueueSet {
        high,
        normal,
        low,
        closed,
    };
    Ok((set, shared, low_push))
}

fn make_pass<J: Numbered + Drop>(
    set: &QueueSet<J>,
    shared: &mut SharedPasses<J>,
    low_push: &mut LowPush<J>,
) -> WorkerPass<J>
    requires shared { shared.old ≡ new_shared_passes set.now }
    requires low_push { low_push.old ≡ new_low_push set.now }
    ensures shared { shared.new ≡ shared.old }
    ensures low_push { low_push.new ≡ low_push.old }
    ensures new { result ≡ new_pass set.now }
{
    let none = EmptyPops {
        high: 0,
        normal: 0,
        low: 0,
    };
    WorkerPass::of(PassParts {
        high: plain_pass(&set.high),
        normal: plain_pass(&set.normal),
        low: low_push.taker(&set.low),
        seat: worker_seat(&set.closed, &mut shared.closer),
        empty_pops: none,
        empty_pops_at_read: none,
        last: None,
        given: 0,
        seen: 0,
    })
}

fn make_passes<J: Numbered + Drop>(
    alloc: Global,
    set: &QueueSet<J>,
    shared: &mut SharedPasses<J>,
    low_push: &mut LowPush<J>,
    count: u32,
) -> Result<Vec<WorkerPass<J>>, AllocError>
    requires shared { shared.old ≡ new_shared_passes set.now }
    requires low_push { low_push.old ≡ new_low_push set.now }
    ensures shared { shared.new ≡ shared.old }
    ensures low_push { low_push.new ≡ low_push.old }
    ensures new { IfOk result (λ passes. passes.items ≡ replicate count (new_pass set.now)) }
{
    let mut passes = Vec::with_capacity(alloc, count as usize)?;
    for _ in 0..count {
        passes.push(make_pass(set, shared, low_push))?;
    }
    Ok(passes)
}
