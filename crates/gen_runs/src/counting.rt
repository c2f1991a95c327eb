// The turns of a schedule, made and only counted.
ghost use Rattle.std.specs.Prelude.{◌≡◌, [], ◌∷◌, ◌+◌, ◌<◌, ◌≤◌, ◌^◌, replicate};
ghost use Rattle.std.specs.List.{All};
ghost use Rattle.run_loop.specs.Bounds.{Below};
ghost use Rattle.run_model.specs.Schedule.{Fits, kinds_of, turns_of};
ghost use Rattle.run_model.specs.declared.schedules.Run.{Run};
ghost use Rattle.gen_runs.specs.Counted.{Tallies, IsTally};

use crate::tallies::{Tally, add_turn, nothing_counted};
use run_loop::{Engine, Turn};
use run_model::schedules::{Run, RunKind};
use silicon::Silicon;

// Makes a turn, after turns that were counted so. It is told in `told`.
fn count_one<E: Engine, Z: Silicon>(
    engine: &mut E,
    silicon: &mut Z,
    kind: RunKind,
    before: Tally,
    told: &mut Turn,
) -> Tally
    requires ready { (E.seen engine.old (Z.seen silicon.old) (Z.tape silicon.old)).ready }
    requires fits { Fits (E.seen engine.old (Z.seen silicon.old) (Z.tape silicon.old)).config.cpus
        kind }
    requires room { (E.seen engine.old (Z.seen silicon.old) (Z.tape silicon.old)).turns < 2 ^ 47 }
    requires below { Below (2 ^ 62) before.counts }
    requires commits { before.counts.commits < 1000000 }
    requires trace { before.trace < 2 ^ 62 }
    ensures { Tallies (kind ∷ []) before result
        (E.seen engine.old (Z.seen silicon.old) (Z.tape silicon.old))
        (E.seen engine.new (Z.seen silicon.new) (Z.tape silicon.new)) }
{
    engine.turn(silicon, kind, told);
    add_turn(before, told)
}

// Makes the turns of one run, after turns that were counted so. Each is told in `told`.
fn count_run<E: Engine, Z: Silicon>(
    engine: &mut E,
    silicon: &mut Z,
    run: Run,
    start: Tally,
    told: &mut Turn,
) -> Tally
    requires ready { (E.seen engine.old (Z.seen silicon.old) (Z.tape silicon.old)).ready }
    requires fits { Fits (E.seen engine.old (Z.seen silicon.old) (Z.tape silicon.old)).config.cpus
        run.what }
    requires room { (E.seen engine.old (Z.seen silicon.old) (Z.tape silicon.old)).turns + run.count
        ≤ 2 ^ 47 }
    requires below { Below (2 ^ 61) start.counts }
    requires commits { start.counts.commits + run.count ≤ 1000000 }
    requires trace { start.trace < 2 ^ 61 }
    ensures { Tallies (replicate run.count run.what) start result
        (E.seen engine.old (Z.seen silicon.old) (Z.tape silicon.old))
        (E.seen engine.new (Z.seen silicon.new) (Z.tape silicon.new)) }
{
    let mut sum = start;
    'turns: for turn in 0..run.count {
        sum = count_one(engine, silicon, run.what, sum, told);
    }
    sum
}

/// Makes the turns of a schedule, run after run, and answers what was counted of them: what each tells is
/// counted and not written.
pub fn count_runs<E: Engine, Z: Silicon>(engine: &mut E, silicon: &mut Z, runs: &[Run]) -> Tally
    requires ready { (E.seen engine.old (Z.seen silicon.old) (Z.tape silicon.old)).ready }
    requires fits { All (λ (r : Run).
        Fits (E.seen engine.old (Z.seen silicon.old) (Z.tape silicon.old)).config.cpus r.what) runs.now }
    requires room { (E.seen engine.old (Z.seen silicon.old) (Z.tape silicon.old)).turns
        + turns_of runs.now ≤ 2 ^ 47 }
    requires few { turns_of runs.now ≤ 1000000 }
    ensures { IsTally (kinds_of runs.now) result
        (E.seen engine.old (Z.seen silicon.old) (Z.tape silicon.old))
        (E.seen engine.new (Z.seen silicon.new) (Z.tape silicon.new)) }
{
    let mut told = Turn::new();
    let mut sum = nothing_counted();
    'runs: for run in runs {
        sum = count_run(engine, silicon, *run, sum, &mut told);
    }
    sum
}
