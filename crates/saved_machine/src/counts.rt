/// What is counted of a run: its entries RETRY, SPARED, STOP and RETURNED.
#[derive(Clone, Copy, Debug, PartialEq, Eq)]
pub struct Counts {
    pub retries: u64,
    pub spared: u64,
    pub stopped: u64,
    pub returned: u64,
}
