// Decks linked into one, from files to a file.
ghost use Rattle.std.specs.Prelude.{◌≡◌, ◌≤◌, [], length, map, IfErr, OnOk};
ghost use Rattle.source_commands.specs.Links.{FailsToLink, Links};

use crate::parts::read_parts;
use deck_link::link;
use g5_outside::Shelf;
use g5_writing::write_file;
use program_model::status::Status;
use std::alloc::Global;

/// Reads 1 to 16 decks in their order, and makes a file with the linked deck of all of them. The
/// shelf has created no file before.
///
/// # Errors
///
/// Before the new file is created: `NoFile`, `ReadFault` and `TooLarge` of the first such part,
/// `LinkRefused` with the first refusal, and `NoMemory`. Then `WriteFault`.
#[tactic(auto, using(crate::proofs::Refusing::link_refuses))]
pub fn link_files<F: Shelf>(
    alloc: Global,
    out: &str,
    decks: &[&str],
    shelf: &mut F,
) -> Result<(), Status>
    requires some { 1 ≤ length decks.now }
    requires few { length decks.now ≤ 16 }
    requires fresh { (F.seen shelf.old).numbers ≡ [] }
    ensures made { OnOk result (Links out.now (map (λ d. d.now) decks.now) (F.seen shelf.old)
        (F.seen shelf.new)) }
    ensures fails { IfErr result (FailsToLink out.now (map (λ d. d.now) decks.now)
        (F.seen shelf.old) (F.seen shelf.new)) }
{
    let parts = match read_parts(alloc, decks, shelf) {
        Ok(parts) => parts,
        Err(status) => return Err(status),
    };
    let deck = match link(alloc, &parts) {
        Ok(deck) => deck,
        Err(refusal) => return Err(Status::from(refusal)),
    };
    match write_file(shelf, out, &deck) {
        Ok(()) => Ok(()),
        Err(_) => Err(Status::WriteFault),
    }
}
