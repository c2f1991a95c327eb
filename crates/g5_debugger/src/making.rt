// The next turns of a schedule, made and counted.
ghost use Rattle.std.specs.Prelude.{◌≡◌, ◌+◌, ◌<◌, ◌≤◌, ◌^◌};
ghost use Rattle.std.specs.List.{All};
ghost use Rattle.run_loop.specs.Bounds.{Below};
ghost use Rattle.run_model.specs.Schedule.{Fits};
ghost use Rattle.run_model.specs.declared.schedules.Run.{Run};
ghost use Rattle.g5_debugger.specs.Making.{MakesNext, MakesOne};

use crate::places::{Place, next_turn};
use run_loop::{Engine, Turn, count_turn};
use run_model::outputs::Counts;
use run_model::schedules::{Run, RunKind};
use silicon::Silicon;

/// How far a session came: the place in its schedule, and what was counted of the turns before it.
#[derive(Clone, Copy, Debug, PartialEq, Eq)]
pub struct Reached {
    pub place: Place,
    pub made: Counts,
}

// Makes one turn, before which so much was counted. It is told in `told`.
fn make_one<E: Engine, Z: Silicon>(
    engine: &mut E,
    silicon: &mut Z,
    kind: RunKind,
    before: Counts,
    told: &mut Turn,
) -> Counts
    requires ready { (E.seen engine.old (Z.seen silicon.old) (Z.tape silicon.old)).ready }
    requires fits { Fits (E.seen engine.old (Z.seen silicon.old) (Z.tape silicon.old)).config.cpus
        kind }
    requires room { (E.seen engine.old (Z.seen silicon.old) (Z.tape silicon.old)).turns < 2 ^ 47 }
    requires below { Below (2 ^ 62) before }
    ensures { MakesOne kind before result
        (E.seen engine.old (Z.seen silicon.old) (Z.tape silicon.old))
        (E.seen engine.new (Z.seen silicon.new) (Z.tape silicon.new)) }
{
    engine.turn(silicon, kind, told);
    count_turn(before, told)
}

/// Makes the next so many turns of a schedule, or those that are left.
pub fn make_next<E: Engine, Z: Silicon>(
    engine: &mut E,
    silicon: &mut Z,
    runs: &[Run],
    start: Reached,
    count: u32,
) -> Reached
    requires ready { (E.seen engine.old (Z.seen silicon.old) (Z.tape silicon.old)).ready }
    requires fits { All (λ (r : Run).
        Fits (E.seen engine.old (Z.seen silicon.old) (Z.tape silicon.old)).config.cpus r.what) runs.now }
    requires room { (E.seen engine.old (Z.seen silicon.old) (Z.tape silicon.old)).turns + count
        ≤ 2 ^ 47 }
    requires below { Below (2 ^ 61) start.made }
    requires few { count ≤ 1000000 }
    ensures { MakesNext count runs.now start result
        (E.seen engine.old (Z.seen silicon.old) (Z.tape silicon.old))
        (E.seen engine.new (Z.seen silicon.new) (Z.tape silicon.new)) }
{
    let mut told = Turn::new();
    let mut reached = start;
    'turns: for turn in 0..count {
        let Some((kind, place)) = next_turn(runs, reached.place) else {
            return reached;
        };
        let made = make_one(engine, silicon, kind, reached.made, &mut told);
        reached = Reached { place, made };
    }
    reached
}
