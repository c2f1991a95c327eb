// A debugger's session.
ghost use Rattle.g5_words.specs.Asked.{session_names};
ghost use Rattle.g5_words.specs.Ranges.{IsInLimits};
ghost use Rattle.silicon.specs.Chip.{Fresh};
ghost use Rattle.g5_run.specs.Conversing.{DebugEnds};
ghost use Rattle.g5_run.specs.Leaving.{beside, silicon_after};

use debug_command::debug_session;
use g5_outside::{Shelf, Sink, Source};
use g5_words::{Command, SessionNames};
use program_model::status::Status;
use run_model::logs::Config;
use silicon::Silicon;
use status_lines::{report_of, say, say_line};
use std::alloc::Global;

/// Answers the lines of `keys` on the output, and says the report over the turns that they made, or why
/// there is none.
pub fn converse_and_say<F: Shelf, I: Source, O: Sink, E: Sink, Z: Silicon>(
    alloc: Global,
    names: &SessionNames<'_>,
    config: Config,
    shelf: &mut F,
    keys: &mut I,
    out: &mut O,
    err: &mut E,
    silicon: &mut Z,
) -> Status
    requires limits { IsInLimits config }
    requires silicon { Fresh (Z.seen silicon.old) }
    ensures { DebugEnds (session_names names.now) config (F.seen shelf.old) (F.seen shelf.new)
        (O.seen out.old) (O.seen out.new) (E.seen err.old) (E.seen err.new)
        (beside (silicon_after (Z.seen silicon.new) (Z.tape silicon.old) (Z.tape silicon.new))
        (I.seen keys.old) (I.seen keys.new)) result }
{
    match debug_session(alloc, names, config, shelf, keys, out, silicon) {
        Ok(held) => {
            say(err, &report_of(held.within, held.counts));
            Status::Done
        }
        Err(status) => {
            let command = Command::Debug {
                session: *names,
                config,
            };
            say_line(err, &command, status);
            status
        }
    }
}
