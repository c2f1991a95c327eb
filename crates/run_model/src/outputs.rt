/// Where a piece of a run's text goes: the log, the trace, or the console on the output.
#[derive(Clone, Copy, Debug, PartialEq, Eq)]
pub enum Place {
    Log,
    Trace,
    Out,
}

/// The numbers of the report and of the generator's summary: turns made, commits among them, and log
/// entries of each sort.
#[derive(Clone, Copy, Debug, PartialEq, Eq)]
pub struct Counts {
    pub turns: u64,
    pub commits: u64,
    pub fails: u64,
    pub retries: u64,
    pub corrected: u64,
    pub spared: u64,
    pub stopped: u64,
    pub returned: u64,
}
