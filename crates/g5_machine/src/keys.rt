// The interrupt key.
ghost use Rattle.std.specs.Prelude.{◌≡◌, ◌<◌, ◌+◌, ◌^◌};
ghost use Rattle.esa_model.specs.Bus.{keyed};
ghost use Rattle.run_model.specs.Cores.{Cores};
ghost use Rattle.run_model.specs.declared.schedules.RunKind.TheVariants as kinds;
ghost use Rattle.silicon.specs.Chip.{Chip};
ghost use Rattle.g5_machine.specs.Standing.{StandsByMode};
ghost use Rattle.g5_machine.specs.Turning.{FollowsAll, Obeys, key_told};

use crate::machine::Machine;
use core_turns::advance_clock;
use esa_model::machine::CpuNo;
use result_packet::Side;

/// The interrupt key of a CPU becomes pending.
fn press_key(side: &mut Side, cpu: CpuNo)
    ensures { side.new ≡ record side.old { bus = keyed cpu.0 side.old.bus } }
{
    side.bus.key(cpu);
}

impl Machine {
    /// The interrupt key of a CPU is pressed, which takes a turn. No core takes part in it.
    pub fn key(&mut self, cpu: CpuNo)
        requires known { cpu.0 < self.old.config.cpus }
        requires room { self.old.counts.turns < 2 ^ 48 }
        ensures follows { (z : Chip) → FollowsAll z.lines self.old.config self.old z
            (kinds.Key cpu) (key_told cpu) self.new z }
        ensures obeys { (s : Cores) → StandsByMode self.old s
            → Obeys self.old.config s (kinds.Key cpu) (key_told cpu) self.new }
        ensures config { self.new.config ≡ self.old.config }
        ensures turns { self.new.counts.turns ≡ self.old.counts.turns + 1 }
    {
        press_key(&mut self.side, cpu);
        advance_clock(&mut self.side);
        self.counts.add_turn();
    }
}
