// A source assembled, from file to file.
ghost use Rattle.std.specs.Prelude.{◌≡◌, [], IfErr, OnOk};
ghost use Rattle.source_commands.specs.Assembles.{Assembles, FailsToAssemble};

use esa_asm::assemble;
use g5_outside::Shelf;
use g5_reading::read_input;
use g5_writing::write_file;
use program_model::inputs::Input;
use program_model::status::Status;
use std::alloc::Global;

/// Reads a source, and makes a file with its deck. The shelf has created no file before.
///
/// # Errors
///
/// Before the new file is created: `NoFile`, `ReadFault`, `TooLarge`, `SourceRefused` with the
/// source's first refusal, and `NoMemory`. Then `WriteFault`.
#[tactic(auto, using(crate::proofs::SourceRefusing::source_refuses))]
pub fn assemble_file<F: Shelf>(
    alloc: Global,
    source: &str,
    deck: &str,
    shelf: &mut F,
) -> Result<(), Status>
    requires fresh { (F.seen shelf.old).numbers ≡ [] }
    ensures made { OnOk result
        (Assembles source.now deck.now (F.seen shelf.old) (F.seen shelf.new)) }
    ensures fails { IfErr result
        (FailsToAssemble source.now deck.now (F.seen shelf.old) (F.seen shelf.new)) }
{
    let text = match read_input(alloc, shelf, Input::Program, source) {
        Ok(text) => text,
        Err(status) => return Err(status),
    };
    let bytes = match assemble(alloc, &text) {
        Ok(bytes) => bytes,
        Err(refusal) => return Err(Status::from(refusal)),
    };
    match write_file(shelf, deck, &bytes) {
        Ok(()) => Ok(()),
        Err(_) => Err(Status::WriteFault),
    }
}
