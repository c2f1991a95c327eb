// Commands on decks.
ghost use Rattle.g5_run.specs.Shows.{DisEnds};

use deck_commands::disassemble_file;
use g5_outside::{Shelf, Sink};
use g5_words::Command;
use program_model::status::Status;
use status_lines::say_line;
use std::alloc::Global;

/// Writes instructions of a deck on the output, and says why it could not.
#[tactic(auto, using(crate::proofs::Failing::dis_fails))]
pub fn disassemble_and_say<F: Shelf, O: Sink, E: Sink>(
    alloc: Global,
    deck: &str,
    address: u32,
    count: u32,
    shelf: &mut F,
    out: &mut O,
    err: &mut E,
) -> Status
    ensures { DisEnds deck.now address count (F.seen shelf.old) (F.seen shelf.new)
        (O.seen out.old) (O.seen out.new) (E.seen err.old) (E.seen err.new) result }
{
    match disassemble_file(alloc, deck, address, count, shelf, out) {
        Ok(()) => Status::Done,
        Err(status) => {
            let command = Command::Dis {
                deck,
                address,
                count,
            };
            say_line(err, &command, status);
            status
        }
    }
}
