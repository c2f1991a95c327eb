// A source, assembled.
ghost use Rattle.std.specs.Prelude.{◌≡◌, []};
ghost use Rattle.g5_run.specs.Assembling.{AsmEnds};

use g5_outside::{Shelf, Sink};
use g5_words::Command;
use program_model::status::Status;
use source_commands::assemble_file;
use status_lines::say_line;
use std::alloc::Global;

/// Makes a file with the deck of a source, and says why it could not.
pub fn assemble_and_say<F: Shelf, E: Sink>(
    alloc: Global,
    source: &str,
    deck: &str,
    shelf: &mut F,
    err: &mut E,
) -> Status
    requires shelf { (F.seen shelf.old).numbers ≡ [] }
    ensures { AsmEnds source.now deck.now (F.seen shelf.old) (F.seen shelf.new)
        (E.seen err.old) (E.seen err.new) result }
{
    match assemble_file(alloc, source, deck, shelf) {
        Ok(()) => Status::Done,
        Err(status) => {
            say_line(err, &Command::Asm { source, deck }, status);
            status
        }
    }
}
