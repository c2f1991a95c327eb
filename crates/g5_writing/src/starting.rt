// The start of the two files.
ghost use Rattle.std.specs.Prelude.{◌≡◌, ◌≢◌, []};
ghost use Rattle.g5_writing.specs.Starts.{Starts};

use crate::OutputFiles;
use g5_outside::{Failed, Shelf};

/// Makes the log and then the trace, empty.
pub fn start_files<F: Shelf>(shelf: &mut F, log: &str, trace: &str) -> Result<OutputFiles, Failed>
    requires fresh { (F.seen shelf.old).numbers ≡ [] }
    requires differ { log.now ≢ trace.now }
    ensures { Starts log.now trace.now (F.seen shelf.old) (F.seen shelf.new) result }
{
    let log = match shelf.create(log) {
        Ok(file) => file,
        Err(failed) => return Err(failed),
    };
    match shelf.create(trace) {
        Ok(trace) => Ok(OutputFiles { log, trace }),
        Err(failed) => Err(failed),
    }
}
