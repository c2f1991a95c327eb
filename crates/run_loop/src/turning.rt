// One turn.
ghost use Rattle.std.specs.Prelude.{ℕ, ◌+◌, ◌<◌, ◌≤◌, ◌^◌, IfOk};
ghost use Rattle.g5_writing.specs.Outputs.{HasFiles};
ghost use Rattle.run_model.specs.Schedule.{Fits};
ghost use Rattle.run_loop.specs.Bounds.{Below};
ghost use Rattle.run_loop.specs.Making.{MakesTurn};

use crate::counting::count_turn;
use crate::engine::{Engine, Turn};
use crate::writing::write_turn;
use g5_outside::{Failed, Shelf, Sink};
use g5_writing::OutputFiles;
use run_model::outputs::Counts;
use run_model::schedules::RunKind;
use silicon::Silicon;

/// Makes one turn, writes what it tells, and counts it. `before` are the counts of the turns before it;
/// it is told in `told`.
pub fn make_turn<E: Engine, Z: Silicon, F: Shelf, O: Sink>(
    engine: &mut E,
    silicon: &mut Z,
    shelf: &mut F,
    out: &mut O,
    files: OutputFiles,
    kind: RunKind,
    before: Counts,
    told: &mut Turn,
) -> Result<Counts, Failed>
    requires ready { (E.seen engine.old (Z.seen silicon.old) (Z.tape silicon.old)).ready }
    requires fits { Fits (E.seen engine.old (Z.seen silicon.old) (Z.tape silicon.old)).config.cpus
        kind }
    requires room { (E.seen engine.old (Z.seen silicon.old) (Z.tape silicon.old)).turns < 2 ^ 47 }
    requires files { HasFiles (F.seen shelf.old) files }
    requires below { Below (2 ^ 62) before }
    requires commits { before.commits < 1000000 }
    ensures ready { (E.seen engine.new (Z.seen silicon.new) (Z.tape silicon.new)).ready }
    ensures small { IfOk result
        (λ after. (most : ℕ) → Below most before → Below (most + 45) after) }
    ensures makes { MakesTurn files kind before
        (E.seen engine.old (Z.seen silicon.old) (Z.tape silicon.old))
        (E.seen engine.new (Z.seen silicon.new) (Z.tape silicon.new))
        (F.seen shelf.old) (F.seen shelf.new) (O.seen out.old) (O.seen out.new) result }
{
    engine.turn(silicon, kind, told);
    match write_turn(shelf, out, files, before.commits, told) {
        Err(failed) => Err(failed),
        Ok(()) => Ok(count_turn(before, told)),
    }
}
