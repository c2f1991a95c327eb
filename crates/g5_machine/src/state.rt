// What can be seen of a machine.
ghost use Rattle.std.specs.Prelude.{◌≡◌, ◌<◌, is_some, length, slice_get};
ghost use Rattle.std.specs.Option.{option_map};
ghost use Rattle.esa_model.specs.Bus.{signals_of};
ghost use Rattle.run_model.specs.Cores.{Cores};
ghost use Rattle.run_model.specs.Runs.{Model};
ghost use Rattle.silicon.specs.Chip.{Chip};
ghost use Rattle.g5_machine.specs.Standing.{StandsByMode, StandsFor, is_running, registers_held, registers_in};
ghost use Rattle.g5_machine.specs.Turning.{core_at};

use crate::machine::Machine;
use crate::turning::core_held;
use core_turns::Held;
use esa_model::machine::{CpuNo, CpuState, Registers};
use run_model::faults::CoreNo;
use run_model::logs::Config;

/// The registers that are held for a CPU.
fn held_registers(held: &Held) -> Option<&Registers>
    ensures { option_map (λ r. r.now) result ≡ registers_held held.now }
{
    match held {
        Held::Running(k) => Some(k.registers()),
        Held::Recovering(_) | Held::Lost(_, _) | Held::Taken => None,
    }
}

impl Machine {
    /// The registers of a CPU; `None` exactly where its core does not run.
    pub fn registers(&self, cpu: CpuNo) -> Option<&Registers>
        requires known { cpu.0 < self.now.config.cpus }
        ensures runs { (s : Cores) → StandsByMode self.now s
            → is_some result ≡ is_running (s.mode cpu.0) }
        ensures registers { (z : Chip) → (x : Model) → StandsFor self.now z x
            → option_map (λ r. r.now) result
            ≡ registers_in (x.fate.cores.mode cpu.0) (x.machine.registers cpu.0) }
    {
        held_registers(&self.cpus[cpu.0 as usize])
    }

    /// The core of a CPU; of one that is check-stopped for good, the core that it had.
    pub fn core(&self, cpu: CpuNo) -> CoreNo
        requires known { cpu.0 < self.now.config.cpus }
        ensures there { result.0 ≡ core_at self.now.cpus.items cpu.0 }
        ensures core { (z : Chip) → (x : Model) → StandsFor self.now z x
            → result.0 ≡ x.fate.cores.core cpu.0 }
    {
        core_held(&self.cpus[cpu.0 as usize])
    }

    /// The byte at an absolute address, `None` exactly outside the storage.
    pub fn byte(&self, at: u32) -> Option<u8>
        ensures { (z : Chip) → (x : Model) → StandsFor self.now z x
            → result ≡ slice_get x.machine.storage at }
    {
        self.memory.read(at)
    }

    /// How often the cache of a CPU's core was filled with a line, up to the greatest number of 64
    /// bits. No clause says how often; `Cache::fetch` says it of each fetch.
    pub fn fills(&self, cpu: CpuNo) -> u64
        requires known { cpu.0 < self.now.config.cpus }
    {
        self.memory.fills(self.core(cpu))
    }

    /// The key of a block of 4,096 bytes, `None` exactly outside the storage.
    pub fn key_of(&self, block: u16) -> Option<u8>
        ensures { (z : Chip) → (x : Model) → StandsFor self.now z x
            → result ≡ slice_get x.machine.keys block }
    {
        self.side.keys.get(block)
    }

    /// The state of a CPU.
    pub fn state(&self, cpu: CpuNo) -> CpuState
        ensures { (z : Chip) → (x : Model) → StandsFor self.now z x
            → result ≡ (signals_of x.machine.bus cpu.0).state }
    {
        self.side.bus.state(cpu)
    }

    /// How many bytes were written to the console, and how many were read from it.
    pub fn console_counts(&self) -> (u64, u64)
        ensures written { (z : Chip) → (x : Model) → StandsFor self.now z x
            → result.0 ≡ length x.machine.console_written }
        ensures read { (z : Chip) → (x : Model) → StandsFor self.now z x
            → result.1 ≡ x.machine.console_read }
    {
        self.counts.console()
    }

    /// How many turns were made.
    pub fn turns(&self) -> u64
        ensures own { result ≡ self.now.counts.turns }
        ensures turns { (z : Chip) → (x : Model) → StandsFor self.now z x
            → result ≡ x.fate.cores.turns }
    {
        self.counts.turns()
    }

    /// How many of them were commits.
    pub fn commits(&self) -> u64
        ensures { (z : Chip) → (x : Model) → StandsFor self.now z x
            → result ≡ x.fate.cores.commits }
    {
        self.counts.commits()
    }

    /// How the machine is made.
    pub fn config(&self) -> &Config
        ensures { result.now ≡ self.now.config }
    {
        &self.config
    }

    /// The number of CPUs.
    pub fn cpus(&self) -> u8
        ensures own { result ≡ self.now.config.cpus }
        ensures cpus { (z : Chip) → (x : Model) → StandsFor self.now z x
            → result ≡ length x.machine.bus }
    {
        self.config.cpus
    }
}
