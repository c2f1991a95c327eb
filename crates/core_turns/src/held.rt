use crate::outcomes::Outcome;
use core_states::{FencedCore, RecoveringCore, RunningCore, SpareCore};
use esa_model::machine::Psw;
use run_model::faults::CoreNo;
use sparing::Pool;

/// The cores that no CPU has.
pub type SparePool = Pool<SpareCore, FencedCore>;

/// What a machine holds for a CPU.
#[derive(Drop)]
pub enum Held {
    Running(RunningCore),
    Recovering(RecoveringCore),
    /// The CPU is check-stopped for good: the core that it had, and its retries.
    Lost(CoreNo, u8),
    /// Its turn is being made.
    Taken,
}

/// What a turn leaves for its CPU, and what it tells beside its entries and what it wrote. Where
/// nothing was committed the PSW has two zero words.
#[derive(Drop)]
pub struct Turned {
    pub held: Held,
    pub outcome: Outcome,
    pub psw: Psw,
}
