// The run of a generated input.
ghost use Rattle.std.specs.Prelude.{◌≡◌, ◌≤◌};
ghost use Rattle.program_model.specs.Commands.{generate};
ghost use Rattle.program_model.specs.Inputs.{input_name};
ghost use Rattle.program_model.specs.Statuses.{line_of};
ghost use Rattle.silicon.specs.Chip.{Fresh};
ghost use Rattle.status_lines.specs.Says.{Says};
ghost use Rattle.g5_run.specs.Generates.{GenEnds};
ghost use Rattle.g5_run.specs.Leaving.{silicon_after};

use crate::statuses::status_of;
use g5_outside::Sink;
use g5_words::Command;
use g5_writing::add_to_sink;
use gen_runs::run_generated;
use program_model::status::Status;
use silicon::Silicon;
use status_lines::{report_of, say, say_line, summary_of};
use std::alloc::Global;

// Says the line of a status at which there is no report.
fn end<E: Sink>(err: &mut E, number: u32, turns: u32, status: Status) -> Status
    ensures status { result ≡ status }
    ensures said { Says (line_of (input_name (generate number turns)) status)
        (E.seen err.old) (E.seen err.new) }
{
    say_line(err, &Command::Gen { number, turns }, status);
    status
}

/// Makes the run that is drawn from a number, for 1 to 1,000,000 turns; writes its summary on `out`, and
/// says how it ended.
pub fn generate_and_run<O: Sink, E: Sink, Z: Silicon>(
    alloc: Global,
    number: u32,
    turns: u32,
    out: &mut O,
    err: &mut E,
    silicon: &mut Z,
) -> Status
    requires some { 1 ≤ turns }
    requires few { turns ≤ 1000000 }
    requires silicon { Fresh (Z.seen silicon.old) }
    ensures { GenEnds number turns (O.seen out.old) (O.seen out.new) (E.seen err.old)
        (E.seen err.new)
        (silicon_after (Z.seen silicon.new) (Z.tape silicon.old) (Z.tape silicon.new)) result }
{
    let tally = match run_generated(alloc, number, turns, silicon) {
        Ok(tally) => tally,
        Err(_) => return end(err, number, turns, Status::NoMemory),
    };
    match add_to_sink(out, &summary_of(tally.counts, tally.trace)) {
        Ok(()) => {
            say(err, &report_of(true, tally.counts));
            status_of(tally.counts)
        }
        Err(_) => end(err, number, turns, Status::WriteFault),
    }
}
