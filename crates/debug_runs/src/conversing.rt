// A session that is held by the lines of a text.
ghost use Rattle.std.specs.Prelude.{◌≡◌};
ghost use Rattle.g5_debugger.specs.Sessions.{HasBegun};
ghost use Rattle.machine_runs.specs.Views.{view_of};
ghost use Rattle.debug_runs.specs.Conversing.{Converses};

use crate::answers::{answer_text, write_line};
use g5_debugger::Session;
use g5_outside::{Failed, Sink};
use service_log::next_line;
use silicon::Silicon;

/// Carries out the lines of the commands before the first `quit`, each on this silicon, and writes its
/// answer and a line feed before the next. The last line may lack its line feed. What the session
/// reports after it counts the turns that the lines made.
///
/// # Errors
///
/// `Failed` at the first fault of the output; no further line is carried out.
pub fn converse<O: Sink, Z: Silicon>(
    session: &mut Session,
    silicon: &mut Z,
    commands: &[u8],
    out: &mut O,
) -> Result<(), Failed>
    requires begun { HasBegun session.old.reached.made.turns (Z.seen silicon.old) }
    ensures converses { Converses commands.now session.old session.new
        (view_of session.old.engine (Z.seen silicon.old) (Z.tape silicon.old))
        (view_of session.new.engine (Z.seen silicon.new) (Z.tape silicon.new))
        (O.seen out.old) (O.seen out.new) result }
    ensures script { (Z.seen silicon.new).lines ≡ (Z.seen silicon.old).lines }
    ensures begun { HasBegun session.new.reached.made.turns (Z.seen silicon.new) }
{
    let mut rest = commands;
    'lines: while let Some((line, after)) = next_line(rest) {
        let answer = session.command(line, silicon);
        let Some(text) = answer_text(&answer) else {
            return Ok(());
        };
        match write_line(out, text) {
            Err(failed) => return Err(failed),
            Ok(()) => rest = after,
        }
    }
    Ok(())
}
