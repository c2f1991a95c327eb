// A machine in its parts: seen, and stood up again.
ghost use Rattle.std.specs.Prelude.{◌≡◌, ◌<◌, length, slice_get, Some, true};
ghost use Rattle.core_turns.specs.Places.{EachInOnePlace};
ghost use Rattle.g5_machine.specs.Fits.{IsFitting, all_there};
ghost use Rattle.g5_machine.specs.Counts.{Counted, IsCounted};

use crate::counts::Counts;
use crate::machine::Machine;
use core_turns::{Held, SparePool};
use esa_model::machine::CpuNo;
use result_packet::Side;
use run_model::logs::Config;
use seen_memory::Memory;

/// What a machine counts: turns made, commits among them, and bytes of the console read and written.
#[derive(Clone, Copy)]
pub struct Tally {
    pub turns: u64,
    pub commits: u64,
    pub read: u64,
    pub written: u64,
}

impl Machine {
    /// What is held for a CPU.
    pub fn held(&self, cpu: CpuNo) -> &Held
        requires { cpu.0 < self.now.config.cpus }
        ensures { slice_get self.now.cpus.items cpu.0 ≡ Some result.now }
    {
        &self.cpus[cpu.0 as usize]
    }

    /// The cores that no CPU has.
    pub fn pool(&self) -> &SparePool
        ensures { result.now ≡ self.now.pool }
    {
        &self.pool
    }

    /// The storage, as all CPUs see it.
    pub fn memory(&self) -> &Memory
        ensures { result.now ≡ self.now.memory }
    {
        &self.memory
    }

    /// The keys, states, requests, clock and console input.
    pub fn side(&self) -> &Side
        ensures { result.now ≡ self.now.side }
    {
        &self.side
    }

    /// What it counted.
    pub fn tally(&self) -> Tally
        ensures turns { result.turns ≡ self.now.counts.turns }
        ensures commits { result.commits ≡ self.now.counts.commits }
        ensures read { result.read ≡ self.now.counts.read }
        ensures written { result.written ≡ self.now.counts.written }
    {
        let (written, read) = self.counts.console();
        Tally {
            turns: self.counts.turns(),
            commits: self.counts.commits(),
            read,
            written,
        }
    }

    /// A machine of these parts. What is held is of as many CPUs as the configuration says, none of
    /// them in the midst of a turn, and each core of the machine stands in one place.
    pub fn resumed(
        config: Config,
        cpus: Vec<Held>,
        pool: SparePool,
        memory: Memory,
        side: Side,
        tally: Tally,
    ) -> Machine
        requires fits { IsFitting config (length cpus.items) }
        requires there { all_there cpus.items ≡ true }
        requires placed { EachInOnePlace config cpus.items pool }
        requires counted { IsCounted (record {
          turns = tally.turns;
          commits = tally.commits;
          read = tally.read;
          written = tally.written;
        }) }
        ensures config { result.config ≡ config }
        ensures cpus { result.cpus.items ≡ cpus.items }
        ensures pool { result.pool ≡ pool }
        ensures memory { result.memory ≡ memory }
        ensures side { result.side ≡ side }
        ensures turns { result.counts.turns ≡ tally.turns }
        ensures commits { result.counts.commits ≡ tally.commits }
        ensures read { result.counts.read ≡ tally.read }
        ensures written { result.counts.written ≡ tally.written }
    {
        Machine {
            config,
            cpus,
            pool,
            memory,
            side,
            counts: Counts::resumed(tally.turns, tally.commits, tally.read, tally.written),
        }
    }
}
