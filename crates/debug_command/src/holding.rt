// A session, from its files and lines on.
ghost use Rattle.std.specs.Prelude.{IfErr, IfOk};
ghost use Rattle.g5_words.specs.Asked.{session_names};
ghost use Rattle.g5_words.specs.Ranges.{IsInLimits};
ghost use Rattle.silicon.specs.Chip.{Fresh};
ghost use Rattle.debug_command.specs.Sessions.{FailsToHold, HoldsSession};

use crate::preparing::prepare;
use debug_runs::hold_session;
use g5_outside::{Shelf, Sink, Source};
use g5_words::SessionNames;
use program_model::status::Status;
use run_model::logs::Config;
use run_model::outputs::Counts;
use silicon::Silicon;
use std::alloc::Global;

/// What is reported of a session: whether its script is within the premise, and what was counted of the
/// turns that its lines made.
#[derive(Clone, Copy, Debug, PartialEq, Eq)]
pub struct Held {
    pub within: bool,
    pub counts: Counts,
}

/// Holds a session over the inputs of these names and the lines of a source: the lines before the
/// first `quit` are carried out one after the other, each answered on the output.
///
/// # Errors
///
/// Before the first turn: `NoFile`, `ReadFault`, `TooLarge`, `DeckRefused`, `ScheduleRefused`,
/// `ScriptRefused`, `NoMemory`. Then `WriteFault`.
pub fn debug_session<F: Shelf, I: Source, O: Sink, Z: Silicon>(
    alloc: Global,
    names: &SessionNames<'_>,
    config: Config,
    shelf: &mut F,
    keys: &mut I,
    out: &mut O,
    silicon: &mut Z,
) -> Result<Held, Status>
    requires limits { IsInLimits config }
    requires silicon { Fresh (Z.seen silicon.old) }
    ensures held { IfOk result (HoldsSession (session_names names.now) config (F.seen shelf.old)
        (F.seen shelf.new) (I.seen keys.old) (O.seen out.old) (O.seen out.new)
        (Z.seen silicon.new) (Z.tape silicon.old) (Z.tape silicon.new)) }
    ensures fails { IfErr result (FailsToHold (session_names names.now) config (F.seen shelf.old)
        (F.seen shelf.new) (I.seen keys.old) (I.seen keys.new) (O.seen out.old)
        (O.seen out.new)) }
{
    let prepared = match prepare(alloc, names, config, shelf, keys, silicon) {
        Ok(prepared) => prepared,
        Err(status) => return Err(status),
    };
    let within = prepared.ready.within;
    match hold_session(prepared.ready, silicon, &prepared.lines, out) {
        Ok(counts) => Ok(Held { within, counts }),
        Err(_) => Err(Status::WriteFault),
    }
}
