// The place in a schedule.
ghost use Rattle.std.specs.Prelude.{◌≡◌, ℕ, [], ◌∷◌, IfSome, MatchOption};
ghost use Rattle.std.specs.List.{All};
ghost use Rattle.run_model.specs.Schedule.{Fits};
ghost use Rattle.run_model.specs.declared.schedules.Run.{Run};
ghost use Rattle.g5_debugger.specs.Left.{left};

use run_model::schedules::{Run, RunKind};

/// In which run of a schedule the next turn stands, and how many turns of it and of the runs behind
/// it were made since that run began.
#[derive(Clone, Copy, Debug, PartialEq, Eq)]
pub struct Place {
    pub run: usize,
    pub done: u32,
}

/// The next turn of a schedule and the place behind it, None exactly where no turn is left.
pub fn next_turn(runs: &[Run], place: Place) -> Option<(RunKind, Place)>
    ensures next { MatchOption result (left runs.now place ≡ [])
        (λ n. left runs.now place ≡ n.0 ∷ left runs.now n.1) }
    ensures fits { (cpus : ℕ) → All (λ (r : Run). Fits cpus r.what) runs.now
        → IfSome result (λ n. Fits cpus n.0) }
{
    let mut done = place.done;
    'runs: for run in place.run..runs.len() {
        let at = runs[run];
        if done < at.count {
            let behind = Place {
                run,
                done: done + 1,
            };
            return Some((at.what, behind));
        }
        done -= at.count;
    }
    None
}
