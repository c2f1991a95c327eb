// A deck's instructions, from its file to the output.
ghost use Rattle.std.specs.Prelude.{◌≡◌, ℕ, ◌<◌, ◌≤◌, ◌*◌, ◌%◌, ◌^◌, length, slice_index, IfErr, OnOk};
ghost use Rattle.asm_text.specs.Lines.{listing};
ghost use Rattle.g5_writing.specs.Outputs.{AddsToSink};
ghost use Rattle.deck_commands.specs.Disassembles.{Disassembles, FailsToDisassemble, storage_size};
ghost use Rattle.deck_commands.specs.Statements.{ShowsStatements};

use asm_text::dis_line;
use g5_outside::{Failed, Shelf, Sink};
use g5_reading::read_input;
use g5_writing::add_to_sink;
use job_inputs::load_deck;
use program_model::inputs::Input;
use program_model::status::Status;
use std::alloc::Global;

// The bytes of the largest storage.
#[tactic(auto, unfolding(crate::specs::Disassembles::storage_size))]
fn largest_size() -> u32
    ensures size { result ≡ storage_size }
    ensures pages { result % 4096 ≡ 0 }
    ensures most { result ≤ 4096 * 4096 }
{
    16_777_216
}

// Writes so many lines of a storage, fewer where one is outside it.
fn write_lines<O: Sink>(storage: &[u8], from: u32, count: u32, out: &mut O) -> Result<(), Failed>
    requires { length storage.now ≤ 2 ^ 24 }
    ensures { AddsToSink (listing storage.now count from) (O.seen out.old) (O.seen out.new)
        result }
{
    let mut at = from;
    'lines: for made in 0..count {
        let (line, next) = dis_line(storage, at);
        match add_to_sink(out, line.as_slice()) {
            Err(failed) => return Err(failed),
            Ok(()) => {}
        }
        match next {
            None => return Ok(()),
            Some(after) => at = after,
        }
    }
    Ok(())
}

// A storage holds bytes. It does nothing.
fn holds_bytes(storage: &[u8])
    ensures { (k : ℕ) → slice_index storage.now k < 256 }
{}

// Each instruction of a storage is shown by a statement that assembles to it. It does nothing.
fn shows_statements(storage: &[u8])
    ensures { ShowsStatements storage.now }
{
    holds_bytes(storage);
}

/// Loads a deck into a storage of 16,384 KiB and writes `count` lines of it on the output, from an
/// address on: the address and the instruction there. Fewer lines are written where one says that
/// its bytes are outside the storage.
///
/// # Errors
///
/// Before the first byte is written: `NoFile`, `ReadFault`, `TooLarge`, `DeckRefused` with the deck's
/// first violation, and `NoMemory`. Then `WriteFault`.
pub fn disassemble_file<F: Shelf, O: Sink>(
    alloc: Global,
    name: &str,
    address: u32,
    count: u32,
    shelf: &mut F,
    out: &mut O,
) -> Result<(), Status>
    ensures written { OnOk result (Disassembles name.now address count (F.seen shelf.old)
        (F.seen shelf.new) (O.seen out.old) (O.seen out.new)) }
    ensures fails { IfErr result (FailsToDisassemble name.now address count (F.seen shelf.old)
        (F.seen shelf.new) (O.seen out.old) (O.seen out.new)) }
{
    let deck = match read_input(alloc, shelf, Input::Deck, name) {
        Ok(deck) => deck,
        Err(status) => return Err(status),
    };
    let loaded = match load_deck(alloc, &deck, largest_size()) {
        Ok(loaded) => loaded,
        Err(status) => return Err(status),
    };
    shows_statements(loaded.storage.bytes());
    match write_lines(loaded.storage.bytes(), address, count, out) {
        Ok(()) => Ok(()),
        Err(_) => Err(Status::WriteFault),
    }
}
