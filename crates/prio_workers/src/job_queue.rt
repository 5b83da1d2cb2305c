//! A queue under a rule, which frees what is left when it is dropped.
ghost use Rattle.std.specs.Prelude.{◌≡◌, ◌∷◌, [], IfOk};
ghost use Rattle.prio_workers.specs.Passes.{IsPassKnowing};

use crossbeam_queue::protocol::Protocol;
use crossbeam_queue::{RuledSegQueue, SegPass};
use std::alloc::{AllocError, Global};

pub(crate) struct JobQueue<J, V, P: Protocol<J, V>> {
    pub(crate) ruled: RuledSegQueue<J, V, P>,
}

impl<J: Drop, V, P: Protocol<J, V>> JobQueue<J, V, P> {
    /// An empty queue with its first pass.
    pub(crate) fn open(alloc: Global) -> Result<(JobQueue<J, V, P>, SegPass<J, V>), AllocError>
        requires { P.holds [] (P.first ∷ []) }
        ensures { IfOk result (λ r. IsPassKnowing r.0.ruled r.1 P.first) }
    {
        let (ruled, pass) = RuledSegQueue::with_rule(alloc)?;
        Ok((JobQueue { ruled }, pass))
    }
}

impl<J: Drop, V, P: Protocol<J, V>> Drop for JobQueue<J, V, P> {
    fn drop(self) {
        let Self { ruled } = self;
        ruled.destroy();
    }
}
