// Decks, linked.
ghost use Rattle.std.specs.Prelude.{◌≡◌, ◌≤◌, [], length, map};
ghost use Rattle.program_model.specs.Commands.{link as link_asked};
ghost use Rattle.g5_words.specs.Asked.{asked_by};
ghost use Rattle.g5_run.specs.Linking.{LinkEnds};

use g5_outside::{Shelf, Sink};
use g5_words::Command;
use program_model::status::Status;
use source_commands::link_files;
use status_lines::say_line;
use std::alloc::Global;

/// Makes a file with the linked deck of 1 to 16 decks, which the command names, and says why it
/// could not.
pub fn link_and_say<F: Shelf, E: Sink>(
    alloc: Global,
    command: &Command<'_>,
    out: &str,
    decks: &[&str],
    shelf: &mut F,
    err: &mut E,
) -> Status
    requires command { asked_by command.now ≡ link_asked out.now (map (λ d. d.now) decks.now) }
    requires some { 1 ≤ length decks.now }
    requires few { length decks.now ≤ 16 }
    requires shelf { (F.seen shelf.old).numbers ≡ [] }
    ensures { LinkEnds out.now (map (λ d. d.now) decks.now) (F.seen shelf.old)
        (F.seen shelf.new) (E.seen err.old) (E.seen err.new) result }
{
    match link_files(alloc, out, decks, shelf) {
        Ok(()) => Status::Done,
        Err(status) => {
            say_line(err, command, status);
            status
        }
    }
}
