// Files in memory, and the deck that is made of them.
ghost use Rattle.std.specs.Prelude.{◌≡◌, [], IfOk};
ghost use Rattle.g5_outside.specs.MemoryShelves.{shelf_view};

use g5_outside::{MemoryShelf, NamedFile};
use program_model::status::Status;
use std::alloc::Global;
use std::test::Fail;

mod assembling;
mod linking;

// No call of this number is made.
const NONE: u64 = 1000;

// The front of a card, blank behind it, with its number in columns 73-80, if it has one.
fn add_card(deck: &mut Vec<u8>, front: &[u8], number: u8) -> Result<(), Fail> {
    deck.extend_from_slice(front)?;
    for _ in front.len()..72 {
        deck.push(0x40)?;
    }
    if number == 0 {
        deck.extend_from_slice(&[0x40; 8])?;
    } else {
        deck.extend_from_slice(&[0xF0; 7])?;
        deck.push(0xF0 | number % 10)?;
    }
    Ok(())
}

// How a command ended, and what it left.
#[derive(Drop)]
struct Left {
    made: Result<(), Status>,
    shelf: MemoryShelf,
}

fn add_file(files: &mut Vec<NamedFile>, name: String, bytes: Vec<u8>) -> Result<(), Fail> {
    files.push(NamedFile { name, bytes })?;
    Ok(())
}

// A shelf of which one call fails, whose created files have so much room.
fn shelf_of(
    alloc: Global,
    files: Vec<NamedFile>,
    failing: u64,
    room: usize,
) -> Result<MemoryShelf, Fail>
    ensures { IfOk result (λ s. (shelf_view s).numbers ≡ []) }
{
    let calls = Vec::from_slice(alloc, &[failing])?;
    Ok(MemoryShelf::new(alloc, files, calls, room)?)
}
