ghost use Rattle.std.specs.Prelude.{◌≡◌, ◌≤◌, true, length};
ghost use Rattle.core_turns.specs.Places.{EachInOnePlace};
ghost use Rattle.g5_machine.specs.Fits.{IsFitting, all_there};

use crate::counts::Counts;
use core_turns::{Held, SparePool};
use result_packet::Side;
use run_model::logs::Config;
use seen_memory::Memory;

/// A machine: what is held for each CPU, the cores that no CPU has, the storage, the keys, states,
/// requests and console input, and what it counts.
#[derive(Drop)]
pub struct Machine {
    pub(crate) config: Config,
    pub(crate) cpus: Vec<Held>,
    pub(crate) pool: SparePool,
    pub(crate) memory: Memory,
    pub(crate) side: Side,
    pub(crate) counts: Counts,
    ghost fits: { IsFitting config (length cpus.items) },
    ghost there: { all_there cpus.items ≡ true },
    ghost placed: { EachInOnePlace config cpus.items pool },
}
