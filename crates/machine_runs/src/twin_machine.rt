// A machine with its two result units, as what makes turns.
ghost use Rattle.std.specs.Prelude.{◌≡◌, None, true};
ghost use Rattle.twin_units.specs.UnitsSeen.{plain};

use g5_machine::Machine;
use run_loop::{Engine, Turn};
use run_model::logs::Config;
use run_model::schedules::RunKind;
use silicon::Silicon;
use twin_units::PlainUnit;

/// A machine and the two result units whose packets it compares.
#[derive(Drop)]
pub struct TwinMachine {
    pub(crate) machine: Machine,
    pub(crate) a: PlainUnit,
    pub(crate) b: PlainUnit,
}

impl TwinMachine {
    /// A machine with two units that have made no call.
    pub fn new(machine: Machine) -> TwinMachine
        ensures machine { result.machine ≡ machine }
        ensures unit_a { plain result.a ≡ record { calls = 0; last = None; exact = true } }
        ensures unit_b { plain result.b ≡ record { calls = 0; last = None; exact = true } }
    {
        TwinMachine {
            machine,
            a: PlainUnit::new(),
            b: PlainUnit::new(),
        }
    }

    /// The machine.
    pub fn machine(&self) -> &Machine
        ensures { result.now ≡ self.now.machine }
    {
        &self.machine
    }

    /// How the machine is made.
    pub fn config(&self) -> &Config
        ensures { result.now ≡ self.now.machine.config }
    {
        self.machine.config()
    }
}

impl Engine for TwinMachine {
    ghost use Rattle.machine_runs.specs.Views.{view_of};

    ghost seen = { λ e z t. view_of e z t };

    fn turn<Z: Silicon>(&mut self, silicon: &mut Z, kind: RunKind, told: &mut Turn) {
        match kind {
            RunKind::Turns(cpu) => self.turn_of_cpu(silicon, cpu, told),
            RunKind::Key(cpu) => self.turn_of_key(cpu, told),
            RunKind::Return(core) => self.turn_of_return(core, told),
        }
    }
}
