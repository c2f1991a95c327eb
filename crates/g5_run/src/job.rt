// A run, before anything is said of it.
ghost use Rattle.std.specs.Prelude.{◌≡◌, ◌≢◌, []};
ghost use Rattle.g5_words.specs.Asked.{job_names};
ghost use Rattle.g5_words.specs.Ranges.{IsInLimits};
ghost use Rattle.silicon.specs.Chip.{Fresh};
ghost use Rattle.g5_run.specs.Endings.{IsEnding};
ghost use Rattle.g5_run.specs.Leaving.{silicon_after};

use crate::ready::prepare;
use g5_outside::{Shelf, Sink};
use g5_words::JobNames;
use g5_writing::start_files;
use machine_runs::make_whole;
use program_model::status::Status;
use run_model::logs::Config;
use run_model::outputs::Counts;
use silicon::Silicon;
use std::alloc::Global;

/// How a run ended: after all turns of its schedule, or before.
#[derive(Clone, Copy, Debug, PartialEq, Eq)]
pub enum Ending {
    /// All turns were made: whether the script is within the premise, and what was counted.
    Whole(bool, Counts),
    Early(Status),
}

/// Makes the run of these files.
pub fn run_job<F: Shelf, O: Sink, Z: Silicon>(
    alloc: Global,
    names: &JobNames<'_>,
    config: Config,
    shelf: &mut F,
    out: &mut O,
    silicon: &mut Z,
) -> Ending
    requires limits { IsInLimits config }
    requires differ { names.now.log.now ≢ names.now.trace.now }
    requires shelf { (F.seen shelf.old).numbers ≡ [] }
    requires silicon { Fresh (Z.seen silicon.old) }
    ensures { IsEnding (job_names names.now) config (F.seen shelf.old) (F.seen shelf.new)
        (O.seen out.old) (O.seen out.new)
        (silicon_after (Z.seen silicon.new) (Z.tape silicon.old) (Z.tape silicon.new)) result }
{
    let mut ready = match prepare(alloc, names, config, shelf, silicon) {
        Ok(ready) => ready,
        Err(status) => return Ending::Early(status),
    };
    let files = match start_files(shelf, names.log, names.trace) {
        Ok(files) => files,
        Err(_) => return Ending::Early(Status::WriteFault),
    };
    match make_whole(
        &mut ready.machine,
        silicon,
        &ready.schedule,
        shelf,
        out,
        files,
    ) {
        Ok(counts) => Ending::Whole(ready.within, counts),
        Err(_) => Ending::Early(Status::WriteFault),
    }
}
