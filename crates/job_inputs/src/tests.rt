// Inputs of files in memory, read and accepted.

use crate::{Accepted, accept, read_inputs};
use deck_model::decks::DeckRefusal;
use g5_outside::{MemoryShelf, NamedFile};
use g5_words::SessionNames;
use program_model::inputs::Input;
use program_model::status::Status;
use run_model::faults::ScriptRefusal;
use run_model::logs::Config;
use run_model::schedules::ScheduleRefusal;
use std::alloc::Global;
use std::test::Fail;

// One section of 30 bytes, with its first byte at X'10000'.
static DECK: [u8; 240] = [
    0x02, 0xC5, 0xE2, 0xC4, 0x40, 0x40, 0x40, 0x40, 0x40, 0x40, 0x00, 0x10, 0x40, 0x40, 0x00, 0x01,
    0xD4, 0xC1, 0xC9, 0xD5, 0x40, 0x40, 0x40, 0x40, 0x00, 0x00, 0x00, 0x00, 0x40, 0x00, 0x00, 0x1E,
    0x40, 0x40, 0x40, 0x40, 0x40, 0x40, 0x40, 0x40, 0x40, 0x40, 0x40, 0x40, 0x40, 0x40, 0x40, 0x40,
    0x40, 0x40, 0x40, 0x40, 0x40, 0x40, 0x40, 0x40, 0x40, 0x40, 0x40, 0x40, 0x40, 0x40, 0x40, 0x40,
    0x40, 0x40, 0x40, 0x40, 0x40, 0x40, 0x40, 0x40, 0x40, 0x40, 0x40, 0x40, 0x40, 0x40, 0x40, 0x40,
    0x02, 0xE3, 0xE7, 0xE3, 0x40, 0x00, 0x00, 0x00, 0x40, 0x40, 0x00, 0x1E, 0x40, 0x40, 0x00, 0x01,
    0x41, 0x10, 0x08, 0x00, 0x1A, 0x11, 0x1A, 0x11, 0x1A, 0x11, 0x1A, 0x11, 0x1A, 0x11, 0x41, 0x10,
    0x10, 0x1C, 0x41, 0x20, 0x00, 0x02, 0x83, 0x12, 0x01, 0x00, 0x07, 0x00, 0xC8, 0xC9, 0x40, 0x40,
    0x40, 0x40, 0x40, 0x40, 0x40, 0x40, 0x40, 0x40, 0x40, 0x40, 0x40, 0x40, 0x40, 0x40, 0x40, 0x40,
    0x40, 0x40, 0x40, 0x40, 0x40, 0x40, 0x40, 0x40, 0x40, 0x40, 0x40, 0x40, 0x40, 0x40, 0x40, 0x40,
    0x02, 0xC5, 0xD5, 0xC4, 0x40, 0x40, 0x40, 0x40, 0x40, 0x40, 0x40, 0x40, 0x40, 0x40, 0x40, 0x40,
    0x40, 0x40, 0x40, 0x40, 0x40, 0x40, 0x40, 0x40, 0x40, 0x40, 0x40, 0x40, 0x40, 0x40, 0x40, 0x40,
    0x40, 0x40, 0x40, 0x40, 0x40, 0x40, 0x40, 0x40, 0x40, 0x40, 0x40, 0x40, 0x40, 0x40, 0x40, 0x40,
    0x40, 0x40, 0x40, 0x40, 0x40, 0x40, 0x40, 0x40, 0x40, 0x40, 0x40, 0x40, 0x40, 0x40, 0x40, 0x40,
    0x40, 0x40, 0x40, 0x40, 0x40, 0x40, 0x40, 0x40, 0x40, 0x40, 0x40, 0x40, 0x40, 0x40, 0x40, 0x40,
];

const CONFIG: Config = Config {
    cpus: 2,
    spares: 0,
    pages: 32,
    threshold: 3,
};

const NAMES: SessionNames<'static> = SessionNames {
    deck: "D",
    console: "C",
    schedule: "S",
    script: "F",
};

// The bytes of the four inputs.
#[derive(Clone, Copy)]
struct Given<'a> {
    deck: &'a [u8],
    console: &'a [u8],
    schedule: &'a [u8],
    script: &'a [u8],
}

fn file(alloc: Global, name: &str, bytes: &[u8]) -> Result<NamedFile, Fail> {
    Ok(NamedFile {
        name: String::from_str(alloc, name)?,
        bytes: Vec::from_slice(alloc, bytes)?,
    })
}

// What the inputs give under these names, where a call of the shelf fails.
fn outcome(
    alloc: Global,
    given: &Given<'_>,
    names: &SessionNames<'_>,
    failing: u64,
) -> Result<Result<Accepted, Status>, Fail> {
    let mut files = Vec::new(alloc);
    files.push(file(alloc, "D", given.deck)?)?;
    files.push(file(alloc, "C", given.console)?)?;
    files.push(file(alloc, "S", given.schedule)?)?;
    files.push(file(alloc, "F", given.script)?)?;
    let mut shelf = MemoryShelf::new(alloc, files, Vec::from_slice(alloc, &[failing])?, 0)?;
    match read_inputs(alloc, &mut shelf, names) {
        Ok(inputs) => Ok(accept(alloc, CONFIG, inputs)),
        Err(status) => Ok(Err(status)),
    }
}

// No call of this number is made.
const NONE: u64 = 1_000_000;

#[test]
fn accepted_inputs(rt: HostRuntime) -> Result<(), Fail> {
    let given = Given {
        deck: &DECK,
        console: b"keys",
        schedule: b"0*2 1*3 R8",
        script: b"F 0 1 64\n",
    };
    match outcome(rt.alloc(), &given, &NAMES, NONE)? {
        Ok(accepted) => {
            assert_eq!(rt; accepted.storage.size(), 0x2_0000);
            assert_eq!(rt; accepted.storage.fetch(0xFFFF), Some(0));
            assert_eq!(rt; accepted.storage.fetch(0x1_0000), Some(0x41));
            assert_eq!(rt; accepted.storage.fetch(0x1_001D), Some(0xC9));
            assert_eq!(rt; accepted.entry.address, 0x1_0000);
            assert_eq!(rt; accepted.console.as_slice(), b"keys".as_slice());
            assert_eq!(rt; accepted.schedule.runs().len(), 3);
            assert_eq!(rt; accepted.schedule.turns(), 6);
            assert_eq!(rt; accepted.script.strikes().len(), 1);
        }
        Err(_) => assert!(rt; false, "the inputs are accepted"),
    }
    Ok(())
}

fn status_of(
    alloc: Global,
    given: &Given<'_>,
    names: &SessionNames<'_>,
    failing: u64,
) -> Result<Status, Fail> {
    match outcome(alloc, given, names, failing)? {
        Ok(_) => Ok(Status::Done),
        Err(status) => Ok(status),
    }
}

#[test]
fn refusals_in_their_order(rt: HostRuntime) -> Result<(), Fail> {
    let cases: [(&[u8], &[u8], &[u8], Status); 6] = [
        (b"", b"x", b"x", Status::DeckRefused(DeckRefusal::NoEnd)),
        (
            &DECK[80..],
            b"x",
            b"x",
            Status::DeckRefused(DeckRefusal::UnknownId(1)),
        ),
        (
            &DECK,
            b"0*2 x",
            b"x",
            Status::ScheduleRefused(ScheduleRefusal::BadWord(2)),
        ),
        (
            &DECK,
            b"1 2",
            b"",
            Status::ScheduleRefused(ScheduleRefusal::BadCpu(2)),
        ),
        (
            &DECK,
            b"",
            b"\nx",
            Status::ScriptRefused(ScriptRefusal::BadLine(2)),
        ),
        (&DECK, b"", b"", Status::Done),
    ];
    for (deck, schedule, script, status) in cases {
        let given = Given {
            deck,
            console: b"",
            schedule,
            script,
        };
        assert_eq!(rt; status_of(rt.alloc(), &given, &NAMES, NONE)?, status);
    }
    Ok(())
}

// Each input takes a find, a read of its bytes where it has some, and one that finds its end.
#[test]
fn inputs_that_are_not_read(rt: HostRuntime) -> Result<(), Fail> {
    let given = Given {
        deck: b"x",
        console: b"",
        schedule: b"",
        script: b"",
    };
    let cases: [(&str, &str, &str, &str, u64, Status); 7] = [
        ("A", "A", "S", "F", NONE, Status::NoFile(Input::Deck)),
        ("D", "A", "A", "F", NONE, Status::NoFile(Input::Console)),
        ("D", "C", "A", "A", NONE, Status::NoFile(Input::Schedule)),
        ("D", "C", "S", "A", NONE, Status::NoFile(Input::Script)),
        ("A", "C", "S", "F", 1, Status::ReadFault),
        ("D", "C", "S", "F", 9, Status::ReadFault),
        (
            "D",
            "C",
            "S",
            "F",
            10,
            Status::DeckRefused(DeckRefusal::NotCards),
        ),
    ];
    for (deck, console, schedule, script, failing, status) in cases {
        let names = SessionNames {
            deck,
            console,
            schedule,
            script,
        };
        assert_eq!(rt; status_of(rt.alloc(), &given, &names, failing)?, status);
    }
    Ok(())
}

// The limit of the deck is above that of the others, and each comes in its order.
#[test]
fn inputs_above_their_limits(rt: HostRuntime) -> Result<(), Fail> {
    let alloc = rt.alloc();
    let deck = vec![in alloc; 0x40; 16_000_001]?;
    let text = vec![in alloc; 0x20; 1_048_577]?;
    let most = &text[1..];
    let cases: [(&[u8], &[u8], &[u8], &[u8], Status); 5] = [
        (&deck, &text, &text, &text, Status::TooLarge(Input::Deck)),
        (&text, &text, &text, &text, Status::TooLarge(Input::Console)),
        (&text, most, &text, &text, Status::TooLarge(Input::Schedule)),
        (&text, most, most, &text, Status::TooLarge(Input::Script)),
        (
            &text,
            most,
            most,
            most,
            Status::DeckRefused(DeckRefusal::NotCards),
        ),
    ];
    for (deck, console, schedule, script, status) in cases {
        let given = Given {
            deck,
            console,
            schedule,
            script,
        };
        assert_eq!(rt; status_of(alloc, &given, &NAMES, NONE)?, status);
    }
    Ok(())
}
