// Decks in memory, and what is shown of them.
use crate::disassemble_file;
use deck_model::decks::DeckRefusal;
use g5_outside::{MemoryShelf, MemorySink, NamedFile};
use program_model::inputs::Input;
use program_model::status::Status;
use std::alloc::Global;
use std::test::Fail;

// No call of this number is made.
const NONE: u64 = 1000;

#[derive(Clone, Copy)]
struct Case<'a> {
    name: &'a str,
    address: u32,
    count: u32,
    failing: u64,
    room: usize,
    done: Result<(), Status>,
    out: &'a [u8],
}

// A section of six bytes: LA and AR.
const CARDS: [&[u8]; 3] = [
    &[
        0x02, 0xC5, 0xE2, 0xC4, 0x40, 0x40, 0x40, 0x40, 0x40, 0x40, 0x00, 0x10, 0x40, 0x40, 0x00,
        0x01, 0xD4, 0xC1, 0xC9, 0xD5, 0x40, 0x40, 0x40, 0x40, 0x00, 0x00, 0x00, 0x00, 0x40, 0x00,
        0x00, 0x06,
    ],
    &[
        0x02, 0xE3, 0xE7, 0xE3, 0x40, 0x00, 0x00, 0x00, 0x40, 0x40, 0x00, 0x06, 0x40, 0x40, 0x00,
        0x01, 0x41, 0x10, 0x08, 0x00, 0x1A, 0x11,
    ],
    &[0x02, 0xC5, 0xD5, 0xC4],
];

fn deck_of(alloc: Global, cards: &[&[u8]]) -> Result<Vec<u8>, Fail> {
    let mut deck = Vec::new(alloc);
    for card in cards {
        deck.extend_from_slice(card)?;
        for _ in card.len()..80 {
            deck.push(0x40)?;
        }
    }
    Ok(deck)
}

// 'The first two instructions', bytes that are none, the end of the storage, and what fails.
#[test]
fn decks_shown(rt: HostRuntime) -> Result<(), Fail> {
    let alloc = rt.alloc();
    let first = Case {
        name: "D",
        address: 0x01_0000,
        count: 2,
        failing: NONE,
        room: 400,
        done: Ok(()),
        out: b"010000 LA 1,2048(0,0)\n010004 AR 1,1\n",
    };
    let cases = [
        first,
        Case {
            address: 0x01_0004,
            out: b"010004 AR 1,1\n010006 DC X'0000'\n",
            ..first
        },
        Case {
            address: 0xFF_FFFE,
            count: 3,
            out: b"FFFFFE DC X'0000'\n000000 outside\n",
            ..first
        },
        Case {
            name: "E",
            done: Err(Status::DeckRefused(DeckRefusal::NoEnd)),
            out: b"",
            ..first
        },
        Case {
            name: "X",
            done: Err(Status::NoFile(Input::Deck)),
            out: b"",
            ..first
        },
        Case {
            failing: 1,
            done: Err(Status::ReadFault),
            out: b"",
            ..first
        },
        Case {
            room: 12,
            done: Err(Status::WriteFault),
            out: b"010000 LA 1,",
            ..first
        },
    ];
    for case in &cases {
        let mut files = Vec::new(alloc);
        files.push(NamedFile {
            name: String::from_str(alloc, "D")?,
            bytes: deck_of(alloc, &CARDS)?,
        })?;
        files.push(NamedFile {
            name: String::from_str(alloc, "E")?,
            bytes: Vec::new(alloc),
        })?;
        let failing = Vec::from_slice(alloc, &[case.failing])?;
        let mut shelf = MemoryShelf::new(alloc, files, failing, 100)?;
        let mut out = MemorySink::new(alloc, Vec::new(alloc), case.room)?;
        let done = disassemble_file(
            alloc,
            case.name,
            case.address,
            case.count,
            &mut shelf,
            &mut out,
        );
        assert_eq!(rt; done, case.done);
        assert_eq!(rt; out.taken(), case.out);
    }
    Ok(())
}
