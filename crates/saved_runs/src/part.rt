// A part of the turns of a schedule: so many of them, behind those that were made before.
ghost use Rattle.std.specs.Prelude.{◌≡◌, ℕ, ◌+◌, ◌-◌, ◌≤◌, ◌^◌, replicate, take, drop};
ghost use Rattle.std.specs.List.{All};
ghost use Rattle.g5_writing.specs.Outputs.{HasFiles};
ghost use Rattle.run_model.specs.Schedule.{Fits, kinds_of, turns_of};
ghost use Rattle.run_model.specs.declared.schedules.Run.{Run};
ghost use Rattle.run_loop.specs.Bounds.{Below};
ghost use Rattle.run_loop.specs.Making.{MakesFrom};

use g5_outside::{Failed, Shelf, Sink};
use g5_writing::OutputFiles;
use run_loop::{Engine, Turn, make_run};
use run_model::outputs::Counts;
use run_model::schedules::Run;
use silicon::Silicon;

// What is made of a run whose first turns were made before, where at most so many turns are made now.
pub(crate) fn part_of(run: Run, skipped: u64, most: u64) -> Run
    ensures what { result.what ≡ run.what }
    ensures count { result.count ≡ run.count - skipped - (run.count - skipped - most) }
    ensures turns { replicate result.count result.what
        ≡ take most (drop skipped (replicate run.count run.what)) }
{
    Run {
        what: run.what,
        count: u64::from(run.count).saturating_sub(skipped).min(most) as u32,
    }
}

// Makes the turns of a schedule behind those that `start` counts, at most so many of them, and answers the
// counts after them. `Failed` at the first fault of an output; what was written up to it stays.
pub(crate) fn make_part<E: Engine, Z: Silicon, F: Shelf, O: Sink>(
    engine: &mut E,
    silicon: &mut Z,
    shelf: &mut F,
    out: &mut O,
    files: OutputFiles,
    runs: &[Run],
    start: Counts,
    most: u64,
) -> Result<Counts, Failed>
    requires ready { (E.seen engine.old (Z.seen silicon.old) (Z.tape silicon.old)).ready }
    requires fits { All (λ (r : Run). Fits
        (E.seen engine.old (Z.seen silicon.old) (Z.tape silicon.old)).config.cpus r.what) runs.now }
    requires room { (E.seen engine.old (Z.seen silicon.old) (Z.tape silicon.old)).turns
        + turns_of runs.now ≤ 2 ^ 47 }
    requires files { HasFiles (F.seen shelf.old) files }
    requires below { Below (2 ^ 60) start }
    requires few { turns_of runs.now ≤ 1000000 }
    requires made { start.turns ≤ turns_of runs.now }
    requires commits { start.commits ≤ start.turns }
    ensures ready { (E.seen engine.new (Z.seen silicon.new) (Z.tape silicon.new)).ready }
    ensures makes { MakesFrom files start (take most (drop start.turns (kinds_of runs.now)))
        (E.seen engine.old (Z.seen silicon.old) (Z.tape silicon.old))
        (E.seen engine.new (Z.seen silicon.new) (Z.tape silicon.new))
        (F.seen shelf.old) (F.seen shelf.new) (O.seen out.old) (O.seen out.new) result }
{
    let mut told = Turn::new();
    let mut sum = start;
    let mut skipped = start.turns;
    let mut left = most;
    'runs: for run in runs {
        let part = part_of(*run, skipped, left);
        match make_run(engine, silicon, shelf, out, files, part, sum, &mut told) {
            Err(failed) => return Err(failed),
            Ok(after) => sum = after,
        }
        skipped = skipped.saturating_sub(u64::from(run.count));
        left -= u64::from(part.count);
    }
    Ok(sum)
}
