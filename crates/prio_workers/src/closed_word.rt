//! The closed word: 0 at first, and 1 once the queues are closed. Each worker has a seat of it, and
//! one seat is the closer's.
ghost use Rattle.std.specs.Prelude.{◌≡◌, ◌==◌, true, false, IfOk};
ghost use Rattle.prio_workers.specs.ClosedRule.{closer_view, new_worker_view, view_after_load};
ghost use Rattle.prio_workers.specs.ClosedRule.{IsSeatKnowing};

use atomic_table::{Play, Seat, Split, Table, TableRule};
use std::alloc::{AllocError, Global};

/// What a seat of the closed word knows: whether it is the closer's, and then whether it has stored
/// the 1, else how often it has loaded the word, what the last load found, and whether one found 1.
/// No value of it is made.
pub(crate) struct ClosedView {
    pub is_closer: bool,
    pub stored: bool,
    pub loads: u64,
    pub found: u64,
    pub read: bool,
}

pub(crate) struct ClosedRule;

impl TableRule<(), ClosedView, ()> for ClosedRule {
    ghost use Rattle.std.specs.Prelude.{false};
    ghost use Rattle.prio_workers.specs.ClosedRule.{closer_view, IsClosedRule};

    ghost holds = { λ _ s. IsClosedRule s };

    ghost first = { λ _. closer_view false };
}

struct ReadWord;

impl Play<(), ClosedView> for ReadWord {
    ghost use Rattle.prio_workers.specs.ClosedRule.{view_after_load};

    ghost then = { λ _ me found after. after ≡ (view_after_load me.0 found, me.1) };
}

struct StoreWord;

impl Play<(), ClosedView> for StoreWord {
    ghost use Rattle.std.specs.Prelude.{true};
    ghost use Rattle.prio_workers.specs.ClosedRule.{closer_view};

    ghost then = { λ _ me _ after. after ≡ (closer_view true, me.1) };
}

struct MakeWorker;

impl Split<ClosedView> for MakeWorker {
    ghost use Rattle.prio_workers.specs.ClosedRule.{new_worker_view};

    ghost left = { λ v. v };

    ghost right = { λ v. new_worker_view };
}

pub(crate) type ClosedWord = Table<(), ClosedView, (), ClosedRule, Global>;

pub(crate) type ClosedSeat = Seat<(), ClosedView>;

/// The word, which is 0, with the closer's seat.
pub(crate) fn open_word(alloc: Global) -> Result<(ClosedWord, ClosedSeat), AllocError>
    ensures { IfOk result (λ r. IsSeatKnowing r.0.shared.table_id r.1 (closer_view false)) }
{
    ClosedWord::of_words(alloc, &[0], &())
}

/// A seat for a worker, which has loaded nothing.
pub(crate) fn worker_seat(word: &ClosedWord, closer: &mut ClosedSeat) -> ClosedSeat
    requires seat { IsSeatKnowing word.now.shared.table_id closer.old closer.old.me.0 }
    requires closer { closer.old.me.0.is_closer ≡ true }
    ensures closer { IsSeatKnowing word.now.shared.table_id closer.new closer.old.me.0 }
    ensures worker { IsSeatKnowing word.now.shared.table_id result new_worker_view }
{
    word.shared.split_seat::<MakeWorker>(closer)
}

/// Loads the word, and says whether it is 1. The seat then knows what it found.
pub(crate) fn read_word(word: &ClosedWord, worker: &mut ClosedSeat) -> bool
    requires seat { IsSeatKnowing word.now.shared.table_id worker.old worker.old.me.0 }
    requires worker { worker.old.me.0.is_closer ≡ false }
    ensures seat { IsSeatKnowing word.now.shared.table_id worker.new worker.new.me.0 }
    ensures load { worker.new.me.0 ≡ view_after_load worker.old.me.0 worker.new.me.0.found }
    ensures answer { result ≡ (worker.new.me.0.found == 1) }
{
    word.shared.load::<ReadWord>(worker, 0) == 1
}

/// Stores 1.
pub(crate) fn store_word(word: &ClosedWord, closer: &mut ClosedSeat)
    requires seat { IsSeatKnowing word.now.shared.table_id closer.old closer.old.me.0 }
    requires closer { closer.old.me.0.is_closer ≡ true }
    ensures { IsSeatKnowing word.now.shared.table_id closer.new (closer_view true) }
{
    word.shared.store::<StoreWord>(closer, 0, 1);
}
