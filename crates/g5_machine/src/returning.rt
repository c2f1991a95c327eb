// A repaired core that is returned.
ghost use Rattle.std.specs.Prelude.{◌≡◌, ◌<◌, ◌+◌, ◌^◌};
ghost use Rattle.run_model.specs.Cores.{Cores};
ghost use Rattle.run_model.specs.declared.schedules.RunKind.TheVariants as kinds;
ghost use Rattle.silicon.specs.Chip.{Chip};
ghost use Rattle.g5_machine.specs.Standing.{StandsByMode};
ghost use Rattle.g5_machine.specs.Turning.{FollowsAll, Obeys, return_told};

use crate::machine::Machine;
use esa_model::machine::CpuNo;
use run_model::faults::CoreNo;
use run_model::logs::{Entry, What};

/// What the entry of a returned core names as its CPU: none has it.
const NO_CPU: CpuNo = CpuNo(255);

impl Machine {
    /// A repaired core is returned, which takes a turn: a core that is fenced is a spare again, and
    /// its entry is given. `None` exactly where the core is not fenced; then nothing else happens.
    pub fn return_core(&mut self, core: CoreNo) -> Option<Entry>
        requires known { core.0 < 16 }
        requires room { self.old.counts.turns < 2 ^ 48 }
        ensures follows { (z : Chip) → FollowsAll z.lines self.old.config self.old z
            (kinds.Return core) (return_told result) self.new z }
        ensures obeys { (s : Cores) → StandsByMode self.old s
            → Obeys self.old.config s (kinds.Return core) (return_told result) self.new }
        ensures config { self.new.config ≡ self.old.config }
        ensures turns { self.new.counts.turns ≡ self.old.counts.turns + 1 }
    {
        self.pool.each_stands_once();
        self.counts.add_turn();
        match self.pool.bring_back(core) {
            None => None,
            Some(fenced) => {
                self.pool.add(fenced.repaired());
                Some(Entry {
                    turn: self.counts.turns(),
                    cpu: NO_CPU,
                    core,
                    what: What::Returned,
                })
            }
        }
    }
}
