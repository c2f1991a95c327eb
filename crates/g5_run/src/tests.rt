// The top call over files and streams in memory.
ghost use Rattle.std.specs.Prelude.{◌≡◌, [], IfOk};
ghost use Rattle.g5_outside.specs.MemoryShelves.{shelf_view};

mod assembling;
mod decks;
mod failing_calls;
mod faults;
mod generated;
mod groups;
mod linking;
mod logs;
mod recovery;
mod refusals;
mod rows;
mod runs;
mod sessions;

use crate::{Status, g5_top};
use g5_outside::{MemoryShelf, MemorySink, MemorySource, NamedFile};
use silicon::ScriptSilicon;
use std::alloc::Global;
use std::test::Fail;

// One section of 30 bytes: it counts, and writes its last two bytes to the console.
static DECK: [u8; 240] = [
    0x02, 0xC5, 0xE2, 0xC4, 0x40, 0x40, 0x40, 0x40, 0x40, 0x40, 0x00, 0x10, 0x40, 0x40, 0x00, 0x01,
    0xD4, 0xC1, 0xC9, 0xD5, 0x40, 0x40, 0x40, 0x40, 0x00, 0x00, 0x00, 0x00, 0x40, 0x00, 0x00, 0x1E,
    0x40, 0x40, 0x40, 0x40, 0x40, 0x40, 0x40, 0x40, 0x40, 0x40, 0x40, 0x40, 0x40, 0x40, 0x40, 0x40,
    0x40, 0x40, 0x40, 0x40, 0x40, 0x40, 0x40, 0x40, 0x40, 0x40, 0x40, 0x40, 0x40, 0x40, 0x40, 0x40,
    0x40, 0x40, 0x40, 0x40, 0x40, 0x40, 0x40, 0x40, 0x40, 0x40, 0x40, 0x40, 0x40, 0x40, 0x40, 0x40,
    0x02, 0xE3, 0xE7, 0xE3, 0x40, 0x00, 0x00, 0x00, 0x40, 0x40, 0x00, 0x1E, 0x40, 0x40, 0x00, 0x01,
    0x41, 0x10, 0x08, 0x00, 0x1A, 0x11, 0x1A, 0x11, 0x1A, 0x11, 0x1A, 0x11, 0x1A, 0x11, 0x41, 0x10,
    0x10, 0x1C, 0x41, 0x20, 0x00, 0x02, 0x83, 0x12, 0x01, 0x00, 0x07, 0x00, 0xC8, 0xC9, 0x40, 0x40,
    0x40, 0x40, 0x40, 0x40, 0x40, 0x40, 0x40, 0x40, 0x40, 0x40, 0x40, 0x40, 0x40, 0x40, 0x40, 0x40,
    0x40, 0x40, 0x40, 0x40, 0x40, 0x40, 0x40, 0x40, 0x40, 0x40, 0x40, 0x40, 0x40, 0x40, 0x40, 0x40,
    0x02, 0xC5, 0xD5, 0xC4, 0x40, 0x40, 0x40, 0x40, 0x40, 0x40, 0x40, 0x40, 0x40, 0x40, 0x40, 0x40,
    0x40, 0x40, 0x40, 0x40, 0x40, 0x40, 0x40, 0x40, 0x40, 0x40, 0x40, 0x40, 0x40, 0x40, 0x40, 0x40,
    0x40, 0x40, 0x40, 0x40, 0x40, 0x40, 0x40, 0x40, 0x40, 0x40, 0x40, 0x40, 0x40, 0x40, 0x40, 0x40,
    0x40, 0x40, 0x40, 0x40, 0x40, 0x40, 0x40, 0x40, 0x40, 0x40, 0x40, 0x40, 0x40, 0x40, 0x40, 0x40,
    0x40, 0x40, 0x40, 0x40, 0x40, 0x40, 0x40, 0x40, 0x40, 0x40, 0x40, 0x40, 0x40, 0x40, 0x40, 0x40,
];

const TRACE: &[u8] = b"\
1 C0 00080000 80010004\n\
2 C0 00082000 80010006\n\
3 C0 00082000 80010008\n\
4 C0 00082000 8001000A\n\
5 C0 00082000 8001000C\n\
6 C0 00082000 8001000E\n\
7 C0 00082000 80010012\n\
8 C0 00082000 80010016\n\
9 C0 00082000 8001001A\n\
10 C0 00082000 8001001C\n";

const HEAD: &[u8] = b"G5LOG 2 CPUS 1 SPARES 0 THRESHOLD 3\n";

const WORDS: &[&str] = &["run", "D", "C", "S", "F", "L", "T"];

fn words_of(alloc: Global, texts: &[&str]) -> Result<Vec<String>, Fail> {
    let mut words = Vec::new(alloc);
    for text in texts {
        words.push(String::from_str(alloc, text)?)?;
    }
    Ok(words)
}

// The bytes of the four inputs, and which calls of the shelf fail.
#[derive(Clone, Copy)]
struct Given<'a> {
    deck: &'a [u8],
    console: &'a [u8],
    schedule: &'a [u8],
    script: &'a [u8],
    failing: &'a [u64],
}

fn file(alloc: Global, name: &str, bytes: &[u8]) -> Result<NamedFile, Fail> {
    Ok(NamedFile {
        name: String::from_str(alloc, name)?,
        bytes: Vec::from_slice(alloc, bytes)?,
    })
}

// A shelf whose files to be created have so much room each.
fn shelf_of(alloc: Global, given: &Given<'_>, room: usize) -> Result<MemoryShelf, Fail>
    ensures { IfOk result (λ s. (shelf_view s).numbers ≡ []) }
{
    let mut files = Vec::new(alloc);
    files.push(file(alloc, "D", given.deck)?)?;
    files.push(file(alloc, "C", given.console)?)?;
    files.push(file(alloc, "S", given.schedule)?)?;
    files.push(file(alloc, "F", given.script)?)?;
    let failing = Vec::from_slice(alloc, given.failing)?;
    Ok(MemoryShelf::new(alloc, files, failing, room)?)
}

// How a run ended, and what it left.
#[derive(Drop)]
struct Left {
    status: Status,
    shelf: MemoryShelf,
    out: MemorySink,
    err: MemorySink,
}

// The top call, with so much room on `err`.
fn run(alloc: Global, texts: &[&str], given: &Given<'_>, room: usize) -> Result<Left, Fail> {
    let keys = MemorySource::new(Vec::new(alloc), Vec::new(alloc));
    run_with_keys(alloc, texts, given, keys, room)
}

// The top call over lines of a session.
fn run_with_keys(
    alloc: Global,
    texts: &[&str],
    given: &Given<'_>,
    source: MemorySource,
    room: usize,
) -> Result<Left, Fail> {
    let words = words_of(alloc, texts)?;
    let mut shelf = shelf_of(alloc, given, 4000)?;
    let mut keys = source;
    let mut out = MemorySink::new(alloc, Vec::new(alloc), 400)?;
    let mut err = MemorySink::new(alloc, Vec::new(alloc), room)?;
    let mut silicon = ScriptSilicon::new();
    let status = g5_top(
        alloc,
        &words,
        &mut shelf,
        &mut keys,
        &mut out,
        &mut err,
        &mut silicon,
    );
    Ok(Left {
        status,
        shelf,
        out,
        err,
    })
}

fn add_card(deck: &mut Vec<u8>, left: &[u8]) -> Result<(), Fail> {
    deck.extend_from_slice(left)?;
    for _ in left.len()..80 {
        deck.push(0x40)?;
    }
    Ok(())
}

// A deck of one section of fewer than 65,536 bytes.
fn deck_of(alloc: Global, text: &[u8]) -> Result<Vec<u8>, Fail> {
    let mut section = Vec::from_slice(
        alloc,
        &[
            0x02, 0xC5, 0xE2, 0xC4, 0x40, 0x40, 0x40, 0x40, 0x40, 0x40, 0x00, 0x10, 0x40, 0x40,
            0x00, 0x01, 0xD4, 0xC1, 0xC9, 0xD5, 0x40, 0x40, 0x40, 0x40, 0x00, 0x00, 0x00, 0x00,
            0x40, 0x00,
        ],
    )?;
    let length = (text.len() % 0x1_0000) as u16;
    section.extend_from_slice(&length.to_be_bytes())?;
    let mut deck = Vec::new(alloc);
    add_card(&mut deck, &section)?;
    let mut at: u16 = 0;
    for part in text.chunks(56) {
        let mut content = Vec::from_slice(alloc, &[0x02, 0xE3, 0xE7, 0xE3, 0x40, 0x00])?;
        content.extend_from_slice(&at.to_be_bytes())?;
        content.extend_from_slice(&[0x40, 0x40, 0x00, part.len() as u8])?;
        content.extend_from_slice(&[0x40, 0x40, 0x00, 0x01])?;
        content.extend_from_slice(part)?;
        add_card(&mut deck, &content)?;
        at = at.wrapping_add(56);
    }
    add_card(&mut deck, &[0x02, 0xC5, 0xD5, 0xC4])?;
    Ok(deck)
}

// A run of a deck of one section, with an empty console input.
fn run_text(alloc: Global, text: &[u8], schedule: &[u8]) -> Result<Left, Fail> {
    let deck = deck_of(alloc, text)?;
    let given = Given {
        deck: &deck,
        console: b"",
        schedule,
        script: b"",
        failing: &[],
    };
    run(alloc, WORDS, &given, 400)
}
