// A turn of a CPU.
ghost use Rattle.std.specs.Prelude.{◌≡◌, ◌<◌, ◌≤◌, ◌^◌, length};
ghost use Rattle.esa_model.specs.Changes.{stretches};
ghost use Rattle.run_model.specs.declared.schedules.RunKind.TheVariants as kinds;
ghost use Rattle.core_turns.specs.Meeting.{event_of as event_by};
ghost use Rattle.run_loop.specs.Engines.{told_of};
ghost use Rattle.machine_runs.specs.Views.{Gives, IsReady, view_of};

use crate::twin_machine::TwinMachine;
use core_turns::Outcome;
use esa_model::machine::{CpuNo, Event};
use run_loop::Turn;
use silicon::Silicon;

// The event of a turn of a CPU that came to this.
fn event_of(cpu: CpuNo, came: Outcome) -> Option<Event>
    ensures { result ≡ event_by cpu.0 came }
{
    match came {
        Outcome::Committed => Some(Event::Commit(cpu)),
        Outcome::Idle => Some(Event::Idle(cpu)),
        Outcome::Failed(_) => None,
        Outcome::Retried(_) => None,
        Outcome::Spared(_) => None,
        Outcome::Stopped => Some(Event::Stop(cpu)),
    }
}

impl TwinMachine {
    /// Makes a turn of a CPU, and tells it.
    pub(crate) fn turn_of_cpu<Z: Silicon>(&mut self, silicon: &mut Z, cpu: CpuNo, told: &mut Turn)
        requires ready { IsReady self.old (Z.seen silicon.old) }
        requires known { cpu.0 < self.old.machine.config.cpus }
        requires room { self.old.machine.counts.turns < 2 ^ 47 }
        ensures gives { Gives (kinds.Turns cpu)
            (view_of self.old (Z.seen silicon.old) (Z.tape silicon.old))
            (view_of self.new (Z.seen silicon.new) (Z.tape silicon.new)) (told_of told.new) }
        ensures stretches { length (stretches told.new.written.changed.items) ≤ 135 }
    {
        let (a, b) = (&mut self.a, &mut self.b);
        let (entries, written) = (&mut told.entries, &mut told.written);
        let turn = self.machine.turn(cpu, silicon, a, b, entries, written);
        told.event = event_of(cpu, turn.outcome);
        told.psw = turn.psw;
    }
}
