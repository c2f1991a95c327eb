// All that is done before a file is created.
ghost use Rattle.std.specs.Prelude.{◌≡◌, IfOk, IfErr, IsTrue};
ghost use Rattle.g5_reading.specs.Inputs.{OnlyReads};
ghost use Rattle.g5_words.specs.Asked.{job_names, session_names as session_asked};
ghost use Rattle.g5_words.specs.Ranges.{IsInLimits};
ghost use Rattle.silicon.specs.Chip.{Fresh};
ghost use Rattle.g5_run.specs.Accepting.{inputs_of, IsRefused};
ghost use Rattle.g5_run.specs.Readiness.{IsReady};

use g5_outside::Shelf;
use g5_words::{JobNames, SessionNames};
use job_inputs::{accept, read_inputs};
use machine_runs::{Ready, make_ready};
use program_model::status::Status;
use run_model::logs::Config;
use silicon::Silicon;
use std::alloc::Global;

// The files that a run reads.
fn inputs_of<'a>(names: &JobNames<'a>) -> SessionNames<'a>
    ensures { session_asked result ≡ inputs_of (job_names names.now) }
{
    SessionNames {
        deck: names.deck,
        console: names.console,
        schedule: names.schedule,
        script: names.script,
    }
}

/// Reads the inputs, gives the script to the silicon and makes the machine. A refusal is the first in
/// the order of the inputs, as they are read and then as they are tested.
pub fn prepare<F: Shelf, Z: Silicon>(
    alloc: Global,
    names: &JobNames<'_>,
    config: Config,
    shelf: &mut F,
    silicon: &mut Z,
) -> Result<Ready, Status>
    requires limits { IsInLimits config }
    requires fresh { Fresh (Z.seen silicon.old) }
    ensures only { OnlyReads (F.seen shelf.old) (F.seen shelf.new) }
    ensures ready { IfOk result (λ r. IsReady (job_names names.now) config (F.seen shelf.old)
        (F.seen shelf.new) (Z.seen silicon.new) r) }
    ensures refused { IfErr result (IsRefused (job_names names.now) config (F.seen shelf.old)
        (F.seen shelf.new)) }
    ensures tape { Z.tape silicon.new ≡ Z.tape silicon.old }
{
    let inputs = read_inputs(alloc, shelf, &inputs_of(names))?;
    let accepted = accept(alloc, config, inputs)?;
    Ok(make_ready(alloc, config, accepted, silicon)?)
}
