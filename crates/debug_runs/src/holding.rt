// A session over a job, from its start to the end of its commands.
ghost use Rattle.std.specs.Prelude.{◌≤◌, All};
ghost use Rattle.g5_debugger.specs.Sessions.{HasBegun, IsUnused};
ghost use Rattle.machine_runs.specs.Jobs.{IsReadyJob};
ghost use Rattle.program_model.specs.Accepted.{Job};
ghost use Rattle.run_model.specs.Schedule.{Fits, turns_of};
ghost use Rattle.run_model.specs.declared.logs.Config.{Config};
ghost use Rattle.debug_runs.specs.Holding.{HoldsJob};

use crate::conversing::converse;
use g5_debugger::Session;
use g5_outside::{Failed, Sink};
use machine_runs::Ready;
use run_model::outputs::Counts;
use silicon::Silicon;

/// Holds a session over a job that is ready to run, by the lines of these commands, and answers what was
/// counted of the turns that they made.
///
/// # Errors
///
/// `Failed` at the first fault of the output; no further line is carried out.
pub fn hold_session<O: Sink, Z: Silicon>(
    ready: Ready,
    silicon: &mut Z,
    commands: &[u8],
    out: &mut O,
) -> Result<Counts, Failed>
    requires unused { IsUnused ready.machine }
    requires fits { All (λ r. Fits ready.machine.machine.config.cpus r.what) ready.schedule }
    requires few { turns_of ready.schedule ≤ 1000000 }
    requires begun { HasBegun 0 (Z.seen silicon.old) }
    ensures { (c : Config) (j : Job) → IsReadyJob c j (Z.seen silicon.old) ready
        → HoldsJob c j commands.now (Z.seen silicon.new) (Z.tape silicon.old)
        (Z.tape silicon.new) (O.seen out.old) (O.seen out.new) result }
{
    let mut session = Session::with_units(ready.machine, ready.schedule);
    match converse(&mut session, silicon, commands, out) {
        Ok(()) => Ok(session.made()),
        Err(failed) => Err(failed),
    }
}
