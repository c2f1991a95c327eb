// The rest of a run: the turns behind those that were made, and the tail of the log.
ghost use Rattle.std.specs.Prelude.{◌≡◌, ◌≤◌, [], ◌∷◌, drop};
ghost use Rattle.std.specs.List.{All};
ghost use Rattle.g5_writing.specs.Outputs.{HasFiles, Puts};
ghost use Rattle.run_model.specs.LogLines.{tail as tail_text};
ghost use Rattle.run_model.specs.Pieces.{piece};
ghost use Rattle.run_model.specs.Schedule.{Fits, kinds_of, turns_of};
ghost use Rattle.run_loop.specs.Bounds.{Below};
ghost use Rattle.machine_runs.specs.Views.{IsReady, view_of};
ghost use Rattle.saved_runs.specs.Parts.{MakesRest};

use crate::part::make_part;
use g5_outside::{Failed, Shelf, Sink};
use g5_writing::{OutputFiles, Place, put};
use machine_runs::TwinMachine;
use run_model::outputs::Counts;
use service_log::tail;
use silicon::Silicon;
use turn_schedule::Schedule;

// Writes the tail of a log of turns that were counted so.
fn write_tail<F: Shelf, O: Sink>(
    shelf: &mut F,
    out: &mut O,
    files: OutputFiles,
    made: &Counts,
) -> Result<(), Failed>
    requires { HasFiles (F.seen shelf.old) files }
    ensures { Puts files (piece Place.Log (tail_text made.now.turns made.now.returned) ∷ [])
        (F.seen shelf.old) (F.seen shelf.new) (O.seen out.old) (O.seen out.new) result }
{
    let line = tail(made.turns, made.returned);
    put(shelf, out, files, Place::Log, &line)
}

/// Makes the rest of a run: the turns of the schedule behind those that `start` counts, on this silicon,
/// and writes what each tells, and the tail of the log. Answers what was counted of all turns.
///
/// # Errors
///
/// `Failed` at the first fault of an output; what was written up to it stays, and no further turn is made.
pub fn make_rest<F: Shelf, O: Sink, Z: Silicon>(
    machine: &mut TwinMachine,
    silicon: &mut Z,
    schedule: &Schedule,
    start: Counts,
    shelf: &mut F,
    out: &mut O,
    files: OutputFiles,
) -> Result<Counts, Failed>
    requires ready { IsReady machine.old (Z.seen silicon.old) }
    requires fits { All (λ r. Fits machine.old.machine.config.cpus r.what) schedule.now }
    requires few { turns_of schedule.now ≤ 1000000 }
    requires made { start.turns ≤ turns_of schedule.now }
    requires commits { start.commits ≤ start.turns }
    requires counts { Below 1000000 start }
    requires turns { machine.old.machine.counts.turns ≤ 1000000 }
    requires files { HasFiles (F.seen shelf.old) files }
    ensures { MakesRest files start (drop start.turns (kinds_of schedule.now))
        (view_of machine.old (Z.seen silicon.old) (Z.tape silicon.old))
        (view_of machine.new (Z.seen silicon.new) (Z.tape silicon.new))
        (F.seen shelf.old) (F.seen shelf.new) (O.seen out.old) (O.seen out.new) result }
{
    let made = match make_part(
        machine,
        silicon,
        shelf,
        out,
        files,
        schedule.runs(),
        start,
        schedule.turns(),
    ) {
        Err(failed) => return Err(failed),
        Ok(made) => made,
    };
    match write_tail(shelf, out, files, &made) {
        Err(failed) => Err(failed),
        Ok(()) => Ok(made),
    }
}
