use limits::KEY_WORDS;
use trace_model::Serve;
use trace_model::line_fault::TraceFault;

/// How a run ended.
#[derive(Debug, Drop)]
pub struct Outcome {
    /// One of the constants of `status`.
    pub status: u8,
    /// What is wrong with the trace; it is there exactly at `status::REFUSED`.
    pub fault: Option<TraceFault>,
    /// What was served. It isn't there yet at any status.
    pub report: Option<Report>,
}

/// What a play served, and the instances that it made.
#[derive(Debug, Drop)]
pub struct Report {
    /// By recorder, then draw: one for each draw that linked.
    pub serves: Vec<Serve>,
    /// The key of each instance, by row.
    pub rows: Vec<[u64; KEY_WORDS]>,
    /// By row, the record of its optimised modules, where there is one.
    pub units: Vec<Option<Vec<u32>>>,
}
