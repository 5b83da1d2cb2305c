//! How one job is taken: from the first queue that isn't empty, or none, once the queues are closed
//! and empty.
ghost use Rattle.std.specs.Prelude.{◌≡◌, ◌==◌, ℕ, IfSome, IfNone};
ghost use Rattle.prio_workers.specs.Tally.{Tally, IsEmptyPop, CountsNeverFall, after_load};
ghost use Rattle.prio_workers.specs.Takes.{FindsNoJob, FindsJob, PopsJob, GivesOneJob};
ghost use Rattle.prio_workers.specs.Takes.{GivesJobOfQueue, ListsLowNumber, ComesInTurn};
ghost use Rattle.prio_workers.specs.declared.taking.Priority.{Priority};

use std::sync::Wait;
use std::thread::Threads;

/// Which queue a job lies in. High comes before Normal, and Normal before Low.
#[derive(Clone, Copy, PartialEq, Eq, Debug)]
pub enum Priority {
    High,
    Normal,
    Low,
}

/// What a call for a job answers: a job, with the queue that gave it, or that the queues are closed
/// and empty.
#[derive(PartialEq, Eq, Debug, Drop)]
pub enum Taken<J> {
    Job(Priority, J),
    Closed,
}

/// For each queue how many pops found it empty. A count stops at 2^64 - 1.
#[derive(Clone, Copy)]
pub struct EmptyPops {
    pub high: u64,
    pub normal: u64,
    pub low: u64,
}

/// A job, with what contracts see of it.
pub trait Numbered {
    /// Its number. Low jobs are pushed in the order of their numbers, 0, 1, 2 and on.
    ghost number: { Self → ℕ };

    /// What is known of each job in the queue of this priority. A push shows it of its job, and
    /// whoever takes a job from that queue is told it. Left out, it says nothing.
    ghost IsFor: { Priority → Self → Type 0 } = { λ _ _. Unit {0} };
}

/// What one worker can do with the queues. Contracts see its `tally`:
/// - for each queue how many pops found it empty, counts that never fall and stop at 2^64 - 1;
/// - how often the closed word was loaded, and what the last load found;
/// - whether a load has read the closed word as 1, and the counts of empty pops at the last one;
/// - how many jobs the High queue gave, and how many the Normal one;
/// - the numbers of the Low jobs that it gave, which ascend;
/// - the queue of the last job that it gave, and how many jobs it gave, a count that stops at
///   2^64 - 1.
pub trait Pops<J: Numbered> {
    ghost tally: { Self → Tally };

    /// The first job of a queue. `None` comes only where the count of empty pops of that queue
    /// rises, or stands at its end, and changes nothing else. A job leaves these counts, and is
    /// noted with its queue.
    fn pop<R: Threads + Wait + Sync>(&mut self, rt: &R, which: Priority) -> Option<J>
        ensures empty { IfNone result (IsEmptyPop which (tally self.old) (tally self.new)) }
        ensures job { IfSome result (PopsJob J.number (tally self.old) (tally self.new) which) }
        ensures due { IfSome result (J.IsFor which) };

    /// Loads the closed word, and says whether it is 1.
    fn closed(&mut self) -> bool
        ensures answer { result ≡ ((tally self.new).closed_found == 1) }
        ensures load { tally self.new
            ≡ after_load (tally self.new).closed_found (tally self.old) };

    /// May wait until a job was pushed or the queues were closed, and changes nothing.
    fn rest<R: Threads + Wait + Sync>(&mut self, rt: &R)
        ensures { tally self.new ≡ tally self.old };
}

/// The first job of the first queue that has one, by a pop of each queue in turn.
fn first_job<J: Numbered, P: Pops<J>, R: Threads + Wait + Sync>(
    rt: &R,
    pops: &mut P,
) -> Option<(Priority, J)>
    ensures never_fall { CountsNeverFall (P.tally pops.old) (P.tally pops.new) }
    ensures none { IfNone result (FindsNoJob (P.tally pops.old) (P.tally pops.new)) }
    ensures job { IfSome result (FindsJob J.number (P.tally pops.old) (P.tally pops.new)) }
    ensures due { IfSome result (λ found. J.IsFor found.0 found.1) }
{
    if let Some(job) = pops.pop(rt, Priority::High) {
        return Some((Priority::High, job));
    }
    if let Some(job) = pops.pop(rt, Priority::Normal) {
        return Some((Priority::Normal, job));
    }
    let job = pops.pop(rt, Priority::Low)?;
    Some((Priority::Low, job))
}

/// Takes a job, and waits for one where there is none. `Closed` comes only where the closed word
/// was read as 1 and each queue was found empty after that.
pub fn take_from<J: Numbered, P: Pops<J>, R: Threads + Wait + Sync>(
    rt: &R,
    pops: &mut P,
) -> Taken<J>
    ensures never_fall { CountsNeverFall (P.tally pops.old) (P.tally pops.new) }
    ensures gives { GivesOneJob (P.tally pops.old) (P.tally pops.new) result }
    ensures due { GivesJobOfQueue J.IsFor result }
    ensures lists { ListsLowNumber J.number (P.tally pops.old) (P.tally pops.new) result }
    ensures turn { ComesInTurn (P.tally pops.old) (P.tally pops.new) result }
{
    for _ in rt.forever() {
        if let Some((which, job)) = first_job(rt, pops) {
            return Taken::Job(which, job);
        }
        if pops.closed() {
            return match first_job(rt, pops) {
                Some((which, job)) => Taken::Job(which, job),
                None => Taken::Closed,
            };
        }
        pops.rest(rt);
    }
    unreachable!()
}
