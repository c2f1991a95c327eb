// The status of turns that were made to their end.
ghost use Rattle.std.specs.Prelude.{◌≡◌};
ghost use Rattle.g5_run.specs.Leaving.{status_by};

use program_model::status::Status;
use run_model::outputs::Counts;

/// Done, or CheckStopped where a CPU stopped for good.
pub fn status_of(counts: Counts) -> Status
    ensures { result ≡ status_by counts }
{
    if counts.stopped == 0 {
        Status::Done
    } else {
        Status::CheckStopped
    }
}
