// Turns in which no core takes part: of an interrupt key, and of the return of a core.
ghost use Rattle.std.specs.Prelude.{◌≡◌, ◌<◌, ◌≤◌, ◌^◌, length};
ghost use Rattle.esa_model.specs.Changes.{stretches};
ghost use Rattle.run_model.specs.Runs.{tells_nothing_else};
ghost use Rattle.run_model.specs.declared.schedules.RunKind.TheVariants as kinds;
ghost use Rattle.silicon.specs.Chip.{Chip};
ghost use Rattle.silicon.specs.Tape.{Tape};
ghost use Rattle.g5_machine.specs.Turning.{entry_if};
ghost use Rattle.run_loop.specs.Engines.{told_of};
ghost use Rattle.machine_runs.specs.Views.{Gives, IsReady, view_of};

use crate::twin_machine::TwinMachine;
use arrayvec::ArrayVec;
use esa_model::machine::{CpuNo, Event, Psw};
use run_loop::Turn;
use run_model::faults::CoreNo;
use run_model::logs::Entry;

// The entry, if there is one, in place of what the list has.
fn put_entry(entries: &mut ArrayVec<Entry, 44>, entry: Option<Entry>)
    ensures { entries.new.items ≡ entry_if entry }
{
    entries.clear();
    match entry {
        None => {}
        Some(entry) => entries.push(entry),
    }
}

// A turn tells this and nothing else.
fn tell_alone(told: &mut Turn, entry: Option<Entry>, event: Option<Event>)
    ensures told { told_of told.new ≡ tells_nothing_else (entry_if entry) event }
    ensures stretches { length (stretches told.new.written.changed.items) ≤ 135 }
{
    put_entry(&mut told.entries, entry);
    told.event = event;
    told.psw = Psw { w0: 0, w1: 0 };
    told.written.changed.clear();
    told.written.console.clear();
}

impl TwinMachine {
    /// Makes the interrupt key of a CPU pending, and tells it.
    pub(crate) fn turn_of_key(&mut self, cpu: CpuNo, told: &mut Turn)
        requires known { cpu.0 < self.old.machine.config.cpus }
        requires room { self.old.machine.counts.turns < 2 ^ 47 }
        ensures gives { (z : Chip) (t : Tape) → IsReady self.old z
            → Gives (kinds.Key cpu) (view_of self.old z t) (view_of self.new z t)
            (told_of told.new) }
        ensures stretches { length (stretches told.new.written.changed.items) ≤ 135 }
    {
        self.machine.key(cpu);
        tell_alone(told, None, Some(Event::Key(cpu)));
    }

    /// Returns a repaired core, and tells it.
    pub(crate) fn turn_of_return(&mut self, core: CoreNo, told: &mut Turn)
        requires known { core.0 < 16 }
        requires room { self.old.machine.counts.turns < 2 ^ 47 }
        ensures gives { (z : Chip) (t : Tape) → IsReady self.old z
            → Gives (kinds.Return core) (view_of self.old z t) (view_of self.new z t)
            (told_of told.new) }
        ensures stretches { length (stretches told.new.written.changed.items) ≤ 135 }
    {
        let entry = self.machine.return_core(core);
        tell_alone(told, entry, None);
    }
}
