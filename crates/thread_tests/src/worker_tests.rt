//! Workers that take jobs, sleep and wake.
ghost use Rattle.std.specs.Prelude.{◌≡◌, All};

use prio_workers::{
    LowPush, Memory, Numbered, Priority, QueueName, Queues, Taken, WorkerPass, Workers,
};
use std::alloc::Global;
use std::marker::Brand;
use std::sync::Wait;
use std::sync::atomic::{AtomicBool, AtomicU32, Ordering};
use std::test::*;
use std::thread;
use std::thread::Threads;
use std::time::{Clock, Duration};

/// A job that has nothing but its number.
#[derive(Clone, Copy, Debug, PartialEq, Eq)]
struct Job {
    number: u32,
}

impl Numbered for Job {
    ghost number = { λ job. job.number };
}

fn job_of(number: u32) -> Job
    ensures { result.number ≡ number }
{
    Job { number }
}

const JOBS: u32 = 400;

fn memory(refused: (Job, Memory)) -> Memory {
    refused.1
}

/// Takes until the queues are closed, and tells what came.
fn work<N: QueueName, R: Threads + Wait + Sync>(
    rt: &R,
    alloc: Global,
    workers: &Workers<Job, N>,
    pass: &mut WorkerPass<Job>,
) -> Result<Vec<Taken<Job>>, Memory>
    requires { pass.old.queues ≡ N.queues }
    ensures { pass.new.queues ≡ N.queues }
{
    let mut came = Vec::new(alloc);
    for _ in rt.forever() {
        came.reserve(1)?;
        let taken = workers.take(rt, pass);
        let is_closed = taken == Taken::Closed;
        came.push(taken)?;
        if is_closed {
            break;
        }
    }
    Ok(came)
}

/// Pushes three jobs and closes. A fourth is pushed after all were taken.
fn one_worker<N: QueueName, R: Threads + Wait + Sync>(
    rt: &R,
    alloc: Global,
    queues: Queues<Job>,
) -> Result<[Vec<Taken<Job>>; 2], Memory>
    requires { (queues.queues ≡ N.queues) × (queues.passes ≡ 1) }
{
    let (workers, mut low_push, mut passes) = Workers::<Job, N>::new(queues);
    let Some(mut pass) = passes.pop() else {
        unreachable!()
    };
    workers.push_normal(rt, alloc, job_of(5)).map_err(memory)?;
    workers
        .push_low(rt, alloc, &mut low_push, job_of(0))
        .map_err(memory)?;
    workers.push_high(rt, alloc, job_of(9)).map_err(memory)?;
    workers.close(rt);
    let came = work(rt, alloc, &workers, &mut pass)?;
    workers.push_normal(rt, alloc, job_of(7)).map_err(memory)?;
    let late = work(rt, alloc, &workers, &mut pass)?;
    Ok([came, late])
}

#[test]
fn jobs_come_in_the_order_of_their_queues(rt: HostRuntime) -> Result<(), Fail> {
    let alloc = rt.alloc();
    let [came, late] = one_worker::<Brand, HostRuntime>(&rt, alloc, Queues::new(alloc, 1)?)?;
    let due = [
        Taken::Job(Priority::High, job_of(9)),
        Taken::Job(Priority::Normal, job_of(5)),
        Taken::Job(Priority::Low, job_of(0)),
        Taken::Closed,
    ];
    assert_eq!(rt; came.as_slice(), due.as_slice());
    let due_late = [Taken::Job(Priority::Normal, job_of(7)), Taken::Closed];
    assert_eq!(rt; late.as_slice(), due_late.as_slice());
    Ok(())
}

/// Pushes a job of each priority for each number. A refused Low job is pushed once more.
fn push_all<N: QueueName, R: Threads + Wait + Sync>(
    rt: &R,
    alloc: Global,
    workers: &Workers<Job, N>,
    low_push: &mut LowPush<Job>,
    jobs: u32,
) -> Result<(), Memory>
    requires { (low_push.old.queue ≡ N.queues.low) × (low_push.old.pushed ≡ 0) }
{
    for n in 0..jobs {
        if let Err((back, _)) = workers.push_low(rt, alloc, low_push, job_of(n)) {
            workers.push_low(rt, alloc, low_push, back).map_err(memory)?;
        }
        workers.push_normal(rt, alloc, job_of(n)).map_err(memory)?;
        workers.push_high(rt, alloc, job_of(n)).map_err(memory)?;
    }
    Ok(())
}

fn push_and_close<N: QueueName, R: Threads + Wait + Sync>(
    rt: &R,
    alloc: Global,
    workers: &Workers<Job, N>,
    mut low_push: LowPush<Job>,
    jobs: u32,
) -> Result<(), Memory>
    requires { (low_push.queue ≡ N.queues.low) × (low_push.pushed ≡ 0) }
{
    let pushed = push_all(rt, alloc, workers, &mut low_push, jobs);
    workers.close(rt);
    pushed
}

type Came = Result<Vec<Taken<Job>>, Memory>;

/// What each worker took, while another thread pushed.
fn three_workers<N: QueueName + Send + Sync, R: Threads + Wait + Sync>(
    rt: &R,
    alloc: Global,
    queues: Queues<Job>,
) -> Result<Vec<Came>, Memory>
    requires { queues.queues ≡ N.queues }
{
    let (workers, low_push, passes) = Workers::<Job, N>::new(queues);
    let workers = &workers;
    let (came, pushed) = thread::join(
        rt,
        move ||
            requires { All (λ p. p.queues ≡ N.queues) passes.items }
        {
            thread::map_vec(
                rt,
                passes,
                &|mut pass: WorkerPass<Job>|
                    requires { pass.queues ≡ N.queues }
                { work(rt, alloc, workers, &mut pass) },
            )
        },
        move ||
            requires { (low_push.queue ≡ N.queues.low) × (low_push.pushed ≡ 0) }
        { push_and_close(rt, alloc, workers, low_push, JOBS) },
    );
    pushed?;
    came
}

#[test]
fn three_workers_take_each_job_once(rt: HostRuntime) -> Result<(), Fail> {
    let alloc = rt.alloc();
    let queues = Queues::new(alloc, 3)?;
    let came = three_workers::<Brand, HostRuntime>(&rt, alloc, queues)?;
    assert_eq!(rt; came.len(), 3);
    let mut times = Vec::from_elem(alloc, 0u8, 3 * JOBS as usize)?;
    for came in came {
        let came = came?;
        assert!(rt; came.last() == Some(&Taken::Closed));
        for taken in &came {
            if let Taken::Job(priority, n) = taken {
                let at = n.number as usize * 3 + *priority as usize;
                if let Some(times) = times.get_mut(at) {
                    *times = times.saturating_add(1);
                }
            }
        }
    }
    assert!(rt; times.iter().all(|times| *times == 1));
    Ok(())
}

/// More jobs of each priority than wait at once in a run, and more workers than it has.
const MANY: u32 = 50_000;

const MANY_WORKERS: u32 = 64;

/// How many answers a worker gets, where so many jobs of each priority wait.
fn answers<N: QueueName, R: Threads + Wait + Sync>(
    rt: &R,
    alloc: Global,
    queues: Queues<Job>,
    jobs: u32,
) -> Result<usize, Memory>
    requires { queues.queues ≡ N.queues }
{
    let (workers, low_push, mut passes) = Workers::<Job, N>::new(queues);
    push_and_close(rt, alloc, &workers, low_push, jobs)?;
    let Some(mut pass) = passes.pop() else {
        return Ok(0);
    };
    Ok(work(rt, alloc, &workers, &mut pass)?.len())
}

#[test]
fn many_jobs_wait_at_once(rt: HostRuntime) -> Result<(), Fail> {
    let queues = Queues::new(rt.alloc(), MANY_WORKERS)?;
    let came = answers::<Brand, HostRuntime>(&rt, rt.alloc(), queues, MANY)?;
    assert_eq!(rt; came, 3 * MANY as usize + 1);
    Ok(())
}

/// What wakes a sleeping worker.
#[derive(Clone, Copy, Debug)]
enum Move {
    High,
    Normal,
    Low,
    Close,
}

/// How often a sleeper is looked for at most, a millisecond each time.
const TURNS: u32 = 1000;

/// How many milliseconds a worker is given to fall asleep.
const UNTIL_ASLEEP: u64 = 50;

/// Whether `is_awake` is set within so many turns.
fn awakes<C: Clock>(clock: &C, is_awake: &AtomicBool) -> bool {
    for _ in 0..TURNS {
        if is_awake.load(Ordering::SeqCst) {
            return true;
        }
        thread::sleep(clock, Duration::from_millis(1));
    }
    false
}

/// Takes one job, and says when that is done.
fn sleep_and_take<N: QueueName, R: Threads + Wait + Sync>(
    rt: &R,
    workers: &Workers<Job, N>,
    mut pass: WorkerPass<Job>,
    is_awake: &AtomicBool,
) -> Taken<Job>
    requires { pass.queues ≡ N.queues }
{
    let taken = workers.take(rt, &mut pass);
    is_awake.store(true, Ordering::SeqCst);
    taken
}

/// Makes one move once the worker sleeps, and says whether that wakes it. If not, other moves do.
fn wake<N: QueueName, R: Threads + Wait + Sync + Clock>(
    rt: &R,
    alloc: Global,
    workers: &Workers<Job, N>,
    mut low_push: LowPush<Job>,
    by: Move,
    is_awake: &AtomicBool,
) -> Result<bool, Memory>
    requires { (low_push.queue ≡ N.queues.low) × (low_push.pushed ≡ 0) }
{
    thread::sleep(rt, Duration::from_millis(UNTIL_ASLEEP));
    let moved = match by {
        Move::High => workers.push_high(rt, alloc, job_of(7)),
        Move::Normal => workers.push_normal(rt, alloc, job_of(7)),
        Move::Low => workers.push_low(rt, alloc, &mut low_push, job_of(0)),
        Move::Close => {
            workers.close(rt);
            Ok(())
        }
    };
    let wakes = awakes(rt, is_awake);
    if !wakes {
        workers.close(rt);
        workers.push_high(rt, alloc, job_of(9)).map_err(memory)?;
        workers.push_normal(rt, alloc, job_of(9)).map_err(memory)?;
    }
    moved.map_err(memory)?;
    Ok(wakes)
}

/// Whether the move woke a worker that had found nothing, and what it then took.
fn woken<N: QueueName + Send + Sync, R: Threads + Wait + Sync + Clock>(
    rt: &R,
    alloc: Global,
    queues: Queues<Job>,
    by: Move,
) -> Result<(bool, Taken<Job>), Memory>
    requires { (queues.queues ≡ N.queues) × (queues.passes ≡ 1) }
{
    let (workers, low_push, mut passes) = Workers::<Job, N>::new(queues);
    let Some(pass) = passes.pop() else {
        unreachable!()
    };
    let (workers, is_awake) = (&workers, &AtomicBool::new(false));
    let (taken, wakes) = thread::join(
        rt,
        move ||
            requires { pass.queues ≡ N.queues }
        { sleep_and_take(rt, workers, pass, is_awake) },
        move ||
            requires { (low_push.queue ≡ N.queues.low) × (low_push.pushed ≡ 0) }
        { wake(rt, alloc, workers, low_push, by, is_awake) },
    );
    Ok((wakes?, taken))
}

#[test]
fn each_move_wakes_a_sleeping_worker(rt: HostRuntime) -> Result<(), Fail> {
    let moves = [
        (Move::High, Taken::Job(Priority::High, job_of(7))),
        (Move::Normal, Taken::Job(Priority::Normal, job_of(7))),
        (Move::Low, Taken::Job(Priority::Low, job_of(0))),
        (Move::Close, Taken::Closed),
    ];
    for (by, due) in moves {
        let queues = Queues::new(rt.alloc(), 1)?;
        let came = woken::<Brand, HostRuntime>(&rt, rt.alloc(), queues, by)?;
        assert_eq!(rt; came, (true, due), "{by:?}");
    }
    Ok(())
}

/// How many jobs are pushed one by one.
const ROUNDS: u32 = 2_000;

/// How often a taken job is looked for before it is waited for.
const LOOKS: u32 = 20_000;

/// Takes so many jobs, and tells after each how many were taken. Whether the queues were never closed.
fn take_each<N: QueueName, R: Threads + Wait + Sync>(
    rt: &R,
    workers: &Workers<Job, N>,
    mut pass: WorkerPass<Job>,
    count: &AtomicU32,
    jobs: u32,
) -> bool
    requires { pass.queues ≡ N.queues }
{
    for n in 0..jobs {
        if workers.take(rt, &mut pass) == Taken::Closed {
            return false;
        }
        count.store(n + 1, Ordering::SeqCst);
    }
    true
}

/// Whether so many jobs are taken soon.
fn are_taken<C: Clock>(clock: &C, count: &AtomicU32, jobs: u32) -> bool {
    for look in 0..LOOKS + TURNS {
        if count.load(Ordering::SeqCst) == jobs {
            return true;
        }
        if look >= LOOKS {
            thread::sleep(clock, Duration::from_millis(1));
        }
    }
    false
}

/// Pushes so many jobs, each as soon as the one before it was taken. Whether each is taken.
fn push_each<N: QueueName, R: Threads + Wait + Sync + Clock>(
    rt: &R,
    alloc: Global,
    workers: &Workers<Job, N>,
    count: &AtomicU32,
    jobs: u32,
) -> Result<bool, Memory> {
    for n in 0..jobs {
        workers.push_high(rt, alloc, job_of(n)).map_err(memory)?;
        if !are_taken(rt, count, n + 1) {
            return Ok(false);
        }
    }
    Ok(true)
}

/// The same, and closes the queues.
fn push_each_and_close<N: QueueName, R: Threads + Wait + Sync + Clock>(
    rt: &R,
    alloc: Global,
    workers: &Workers<Job, N>,
    count: &AtomicU32,
    jobs: u32,
) -> Result<bool, Memory> {
    let taken = push_each(rt, alloc, workers, count, jobs);
    workers.close(rt);
    taken
}

/// Whether a worker takes each job, while another thread pushes one whenever the worker looks for one.
fn in_turns<N: QueueName + Send + Sync, R: Threads + Wait + Sync + Clock>(
    rt: &R,
    alloc: Global,
    queues: Queues<Job>,
) -> Result<bool, Memory>
    requires { (queues.queues ≡ N.queues) × (queues.passes ≡ 1) }
{
    let (workers, _, mut passes) = Workers::<Job, N>::new(queues);
    let Some(pass) = passes.pop() else {
        unreachable!()
    };
    let (workers, count) = (&workers, &AtomicU32::new(0));
    let (took, pushed) = thread::join(
        rt,
        move ||
            requires { pass.queues ≡ N.queues }
        { take_each(rt, workers, pass, count, ROUNDS) },
        move || push_each_and_close(rt, alloc, workers, count, ROUNDS),
    );
    Ok(pushed? && took)
}

#[test]
fn a_job_that_comes_before_a_rest_ends_it(rt: HostRuntime) -> Result<(), Fail> {
    let queues = Queues::new(rt.alloc(), 1)?;
    let each = in_turns::<Brand, HostRuntime>(&rt, rt.alloc(), queues)?;
    assert!(rt; each);
    Ok(())
}
