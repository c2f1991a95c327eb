// The first turns of a run: the head of the log, and turns from the start.
ghost use Rattle.std.specs.Prelude.{◌≡◌, ◌≤◌, [], ◌∷◌, take};
ghost use Rattle.std.specs.List.{All};
ghost use Rattle.g5_writing.specs.Outputs.{HasFiles, Puts};
ghost use Rattle.run_model.specs.LogLines.{head as head_text};
ghost use Rattle.run_model.specs.Pieces.{piece};
ghost use Rattle.run_model.specs.Schedule.{Fits, kinds_of, turns_of};
ghost use Rattle.machine_runs.specs.Views.{IsReady, view_of};
ghost use Rattle.machine_runs.specs.Whole.{AtStart};
ghost use Rattle.saved_runs.specs.Parts.{MakesFirst};

use crate::part::make_part;
use g5_outside::{Failed, Shelf, Sink};
use g5_writing::{OutputFiles, Place, put};
use machine_runs::TwinMachine;
use run_loop::none_made;
use run_model::logs::Config;
use run_model::outputs::Counts;
use service_log::head;
use silicon::Silicon;
use turn_schedule::Schedule;

// Writes the head of the log of a machine that is made so.
fn write_head<F: Shelf, O: Sink>(
    shelf: &mut F,
    out: &mut O,
    files: OutputFiles,
    config: &Config,
) -> Result<(), Failed>
    requires { HasFiles (F.seen shelf.old) files }
    ensures { Puts files (piece Place.Log (head_text config.now) ∷ [])
        (F.seen shelf.old) (F.seen shelf.new) (O.seen out.old) (O.seen out.new) result }
{
    let line = head(config);
    put(shelf, out, files, Place::Log, &line)
}

/// Makes the first turns of a run, at most so many: writes the head of the log, makes the turns of the
/// schedule on this silicon and writes what each tells. No tail is written, so that the rest can stand
/// behind them, which the machine is in order for. Answers what was counted of the turns.
///
/// # Errors
///
/// `Failed` at the first fault of an output; what was written up to it stays, and no further turn is made.
pub fn make_first<F: Shelf, O: Sink, Z: Silicon>(
    machine: &mut TwinMachine,
    silicon: &mut Z,
    schedule: &Schedule,
    most: u64,
    shelf: &mut F,
    out: &mut O,
    files: OutputFiles,
) -> Result<Counts, Failed>
    requires start { AtStart machine.old (Z.seen silicon.old) }
    requires fits { All (λ r. Fits machine.old.machine.config.cpus r.what) schedule.now }
    requires few { turns_of schedule.now ≤ 1000000 }
    requires files { HasFiles (F.seen shelf.old) files }
    ensures ready { IsReady machine.new (Z.seen silicon.new) }
    ensures makes { MakesFirst files (take most (kinds_of schedule.now))
        (view_of machine.old (Z.seen silicon.old) (Z.tape silicon.old))
        (view_of machine.new (Z.seen silicon.new) (Z.tape silicon.new))
        (F.seen shelf.old) (F.seen shelf.new) (O.seen out.old) (O.seen out.new) result }
{
    match write_head(shelf, out, files, machine.config()) {
        Err(failed) => return Err(failed),
        Ok(()) => {}
    }
    make_part(
        machine,
        silicon,
        shelf,
        out,
        files,
        schedule.runs(),
        none_made(),
        most,
    )
}
