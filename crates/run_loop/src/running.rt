// The turns of a run, and the runs of a schedule.
ghost use Rattle.std.specs.Prelude.{ℕ, ◌+◌, ◌*◌, ◌≤◌, ◌^◌, IfOk, replicate};
ghost use Rattle.std.specs.List.{All};
ghost use Rattle.g5_writing.specs.Outputs.{HasFiles};
ghost use Rattle.run_model.specs.Schedule.{Fits, kinds_of, turns_of};
ghost use Rattle.run_model.specs.declared.schedules.Run.{Run};
ghost use Rattle.run_loop.specs.Bounds.{Below};
ghost use Rattle.run_loop.specs.Making.{MakesFrom};

use crate::engine::{Engine, Turn};
use crate::turning::make_turn;
use g5_outside::{Failed, Shelf, Sink};
use g5_writing::OutputFiles;
use run_model::outputs::Counts;
use run_model::schedules::Run;
use silicon::Silicon;

/// Makes the turns of one run, after turns that were counted so. Each is told in `told`.
pub fn make_run<E: Engine, Z: Silicon, F: Shelf, O: Sink>(
    engine: &mut E,
    silicon: &mut Z,
    shelf: &mut F,
    out: &mut O,
    files: OutputFiles,
    run: Run,
    start: Counts,
    told: &mut Turn,
) -> Result<Counts, Failed>
    requires ready { (E.seen engine.old (Z.seen silicon.old) (Z.tape silicon.old)).ready }
    requires fits { Fits (E.seen engine.old (Z.seen silicon.old) (Z.tape silicon.old)).config.cpus
        run.what }
    requires room { (E.seen engine.old (Z.seen silicon.old) (Z.tape silicon.old)).turns + run.count
        ≤ 2 ^ 47 }
    requires files { HasFiles (F.seen shelf.old) files }
    requires below { Below (2 ^ 61) start }
    requires commits { start.commits + run.count ≤ 1000000 }
    ensures ready { (E.seen engine.new (Z.seen silicon.new) (Z.tape silicon.new)).ready }
    ensures small { IfOk result
        (λ n. (most : ℕ) → Below most start → Below (most + 45 * run.count) n) }
    ensures makes { MakesFrom files start (replicate run.count run.what)
        (E.seen engine.old (Z.seen silicon.old) (Z.tape silicon.old))
        (E.seen engine.new (Z.seen silicon.new) (Z.tape silicon.new))
        (F.seen shelf.old) (F.seen shelf.new) (O.seen out.old) (O.seen out.new) result }
{
    let mut sum = start;
    'turns: for turn in 0..run.count {
        match make_turn(engine, silicon, shelf, out, files, run.what, sum, told) {
            Err(failed) => return Err(failed),
            Ok(after) => sum = after,
        }
    }
    Ok(sum)
}

/// Makes the turns of a schedule, run after run, and answers the counts after them. `start` are the counts
/// of the turns that were made before: none, or those of a run that is resumed.
///
/// # Errors
///
/// `Failed` at the first fault of an output; what was written up to it stays.
pub fn make_runs<E: Engine, Z: Silicon, F: Shelf, O: Sink>(
    engine: &mut E,
    silicon: &mut Z,
    shelf: &mut F,
    out: &mut O,
    files: OutputFiles,
    runs: &[Run],
    start: Counts,
) -> Result<Counts, Failed>
    requires ready { (E.seen engine.old (Z.seen silicon.old) (Z.tape silicon.old)).ready }
    requires fits { All (λ (r : Run). Fits
        (E.seen engine.old (Z.seen silicon.old) (Z.tape silicon.old)).config.cpus r.what) runs.now }
    requires room { (E.seen engine.old (Z.seen silicon.old) (Z.tape silicon.old)).turns
        + turns_of runs.now ≤ 2 ^ 47 }
    requires files { HasFiles (F.seen shelf.old) files }
    requires below { Below (2 ^ 60) start }
    requires commits { start.commits + turns_of runs.now ≤ 1000000 }
    ensures ready { (E.seen engine.new (Z.seen silicon.new) (Z.tape silicon.new)).ready }
    ensures makes { MakesFrom files start (kinds_of runs.now)
        (E.seen engine.old (Z.seen silicon.old) (Z.tape silicon.old))
        (E.seen engine.new (Z.seen silicon.new) (Z.tape silicon.new))
        (F.seen shelf.old) (F.seen shelf.new) (O.seen out.old) (O.seen out.new) result }
{
    let mut told = Turn::new();
    let mut sum = start;
    'runs: for run in runs {
        match make_run(engine, silicon, shelf, out, files, *run, sum, &mut told) {
            Err(failed) => return Err(failed),
            Ok(after) => sum = after,
        }
    }
    Ok(sum)
}
