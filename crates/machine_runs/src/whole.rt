// A whole run: the head of the log, the turns of a schedule, the tail.
ghost use Rattle.std.specs.Prelude.{◌≡◌, ◌<◌, ◌≤◌, ◌+◌, ◌^◌, ℕ, [], ◌∷◌, ◌++◌, IfOk};
ghost use Rattle.std.specs.List.{All};
ghost use Rattle.g5_writing.specs.Outputs.{HasFiles, Puts};
ghost use Rattle.run_model.specs.LogLines.{head as head_text, tail as tail_text};
ghost use Rattle.run_model.specs.Pieces.{piece};
ghost use Rattle.run_model.specs.Schedule.{Fits, kinds_of, turns_of};
ghost use Rattle.run_loop.specs.Making.{MakesFrom};
ghost use Rattle.run_model.specs.Counts.{none_made as nothing_made};
ghost use Rattle.machine_runs.specs.Views.{view_of};
ghost use Rattle.machine_runs.specs.Whole.{AtStart, MakesWhole};

use crate::twin_machine::TwinMachine;
use g5_outside::{Failed, Shelf, Sink};
use g5_writing::{OutputFiles, Place, put};
use run_loop::{make_runs, none_made};
use run_model::logs::Config;
use run_model::outputs::Counts;
use service_log::{head, tail};
use silicon::Silicon;
use turn_schedule::Schedule;

// Writes the head of the log of a machine that is made so.
fn write_head<F: Shelf, O: Sink>(
    shelf: &mut F,
    out: &mut O,
    files: OutputFiles,
    config: &Config,
) -> Result<(), Failed>
    requires { HasFiles (F.seen shelf.old) files }
    ensures { Puts files (piece Place.Log (head_text config.now) ∷ [])
        (F.seen shelf.old) (F.seen shelf.new) (O.seen out.old) (O.seen out.new) result }
{
    let line = head(config);
    put(shelf, out, files, Place::Log, &line)
}

// Writes the tail of a log of turns that were counted so.
fn write_tail<F: Shelf, O: Sink>(
    shelf: &mut F,
    out: &mut O,
    files: OutputFiles,
    made: &Counts,
) -> Result<(), Failed>
    requires { HasFiles (F.seen shelf.old) files }
    ensures { Puts files (piece Place.Log (tail_text made.now.turns made.now.returned) ∷ [])
        (F.seen shelf.old) (F.seen shelf.new) (O.seen out.old) (O.seen out.new) result }
{
    let line = tail(made.turns, made.returned);
    put(shelf, out, files, Place::Log, &line)
}

/// Makes a whole run: writes the head of the log, makes the turns of the schedule on this silicon and
/// writes what each tells, and writes the tail. Answers what was counted of the turns.
///
/// # Errors
///
/// `Failed` at the first fault of an output; what was written up to it stays, and no further turn is made.
pub fn make_whole<F: Shelf, O: Sink, Z: Silicon>(
    machine: &mut TwinMachine,
    silicon: &mut Z,
    schedule: &Schedule,
    shelf: &mut F,
    out: &mut O,
    files: OutputFiles,
) -> Result<Counts, Failed>
    requires start { AtStart machine.old (Z.seen silicon.old) }
    requires fits { All (λ r. Fits machine.old.machine.config.cpus r.what) schedule.now }
    requires few { turns_of schedule.now ≤ 1000000 }
    requires files { HasFiles (F.seen shelf.old) files }
    ensures { MakesWhole files (kinds_of schedule.now)
        (view_of machine.old (Z.seen silicon.old) (Z.tape silicon.old))
        (view_of machine.new (Z.seen silicon.new) (Z.tape silicon.new))
        (F.seen shelf.old) (F.seen shelf.new) (O.seen out.old) (O.seen out.new) result }
{
    match write_head(shelf, out, files, machine.config()) {
        Err(failed) => return Err(failed),
        Ok(()) => {}
    }
    let made = match make_runs(
        machine,
        silicon,
        shelf,
        out,
        files,
        schedule.runs(),
        none_made(),
    ) {
        Err(failed) => return Err(failed),
        Ok(made) => made,
    };
    match write_tail(shelf, out, files, &made) {
        Err(failed) => Err(failed),
        Ok(()) => Ok(made),
    }
}
