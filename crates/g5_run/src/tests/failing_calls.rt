// Hosts that fail, hosts that are slow, and files that are full: each command, call by call.
use super::assembling::SOURCE;
use super::logs::OLD;
use super::{DECK, Given, HEAD, Left, WORDS, shelf_of, words_of};
use crate::{Status, g5_top};
use deck_model::decks::DeckRefusal;
use g5_outside::{FileNo, MemorySink, MemorySource};
use silicon::ScriptSilicon;
use std::alloc::Global;
use std::test::Fail;

// A command: its words, its first file and the lines of a session.
#[derive(Clone, Copy)]
struct Asked<'a> {
    words: &'a [&'a str],
    file: &'a [u8],
    lines: &'a [u8],
}

const RUN: Asked<'_> = Asked {
    words: WORDS,
    file: &DECK,
    lines: b"",
};

const DEBUG_WORDS: &[&str] = &["debug", "D", "C", "S", "F"];

const DEBUG: Asked<'_> = Asked {
    words: DEBUG_WORDS,
    file: &DECK,
    lines: b"turns 2\npsw 0\nmem 01001C 2\nquit\n",
};

const GEN_WORDS: &[&str] = &["gen", "1", "2"];

const GEN: Asked<'_> = Asked {
    words: GEN_WORDS,
    file: b"",
    lines: b"",
};

const DIS_WORDS: &[&str] = &["dis", "D", "010000", "2"];

const DIS: Asked<'_> = Asked {
    words: DIS_WORDS,
    file: &DECK,
    lines: b"",
};

const MIGRATE_WORDS: &[&str] = &["migrate", "D", "N"];

const MIGRATE: Asked<'_> = Asked {
    words: MIGRATE_WORDS,
    file: OLD,
    lines: b"",
};

const AUDIT_WORDS: &[&str] = &["audit", "D"];

const AUDIT: Asked<'_> = Asked {
    words: AUDIT_WORDS,
    file: b"G5LOG 2 CPUS 1 SPARES 0 THRESHOLD 3\nEND 10 RETURNED 0\n",
    lines: b"",
};

const ASM_WORDS: &[&str] = &["asm", "D", "N"];

const ASM: Asked<'_> = Asked {
    words: ASM_WORDS,
    file: SOURCE,
    lines: b"",
};

const LINK_WORDS: &[&str] = &["link", "N", "D", "C"];

const LINK: Asked<'_> = Asked {
    words: LINK_WORDS,
    file: &DECK,
    lines: b"",
};

// The first bytes of a deck that is made: a card of type ESD.
const SECTION_FRONT: [u8; 10] = [0x02, 0xC5, 0xE2, 0xC4, 0x40, 0x40, 0x40, 0x40, 0x40, 0x40];

// What fails or falls short: which calls of the shelf, of the lines and of the output fail, how many
// bytes a call moves at most, and how much room each file and the output have.
#[derive(Clone, Copy)]
struct Host<'a> {
    shelf: &'a [u64],
    keys: &'a [u64],
    out: &'a [u64],
    step: usize,
    room: usize,
}

const SOUND: Host<'_> = Host {
    shelf: &[],
    keys: &[],
    out: &[],
    step: 4000,
    room: 4000,
};

// The top call on such a host, over an empty console input, ten turns and an empty script.
fn run_on(alloc: Global, asked: &Asked<'_>, host: &Host<'_>) -> Result<Left, Fail> {
    let words = words_of(alloc, asked.words)?;
    let given = Given {
        deck: asked.file,
        console: b"",
        schedule: b"0*10",
        script: b"",
        failing: host.shelf,
    };
    let mut shelf = shelf_of(alloc, &given, host.room)?;
    let lines = Vec::from_slice(alloc, asked.lines)?;
    let mut keys = MemorySource::new(lines, Vec::from_slice(alloc, host.keys)?);
    let mut out = MemorySink::new(alloc, Vec::from_slice(alloc, host.out)?, host.room)?;
    let mut err = MemorySink::new(alloc, Vec::new(alloc), 400)?;
    let step = host.step.max(1);
    shelf.set_step(step);
    keys.set_step(step);
    out.set_step(step);
    err.set_step(step);
    let mut silicon = ScriptSilicon::new();
    let status = g5_top(
        alloc,
        &words,
        &mut shelf,
        &mut keys,
        &mut out,
        &mut err,
        &mut silicon,
    );
    Ok(Left {
        status,
        shelf,
        out,
        err,
    })
}

// Whether two runs ended alike, with the same outputs.
fn is_alike(left: &Left, whole: &Left) -> bool {
    left.status == whole.status
        && left.shelf.text_of(FileNo(0)) == whole.shelf.text_of(FileNo(0))
        && left.shelf.text_of(FileNo(1)) == whole.shelf.text_of(FileNo(1))
        && left.out.taken() == whole.out.taken()
        && left.err.taken() == whole.err.taken()
}

// Whether each output is the front of the whole one, and the pieces are there in their one order: the
// head of the log, the trace, the tail of the log.
fn is_front(left: &Left, whole: &Left) -> bool {
    let (log, trace) = (left.shelf.text_of(FileNo(0)), left.shelf.text_of(FileNo(1)));
    let traced = whole.shelf.text_of(FileNo(1));
    whole.shelf.text_of(FileNo(0)).starts_with(log)
        && traced.starts_with(trace)
        && whole.out.taken().starts_with(left.out.taken())
        && (trace.is_empty() || log.len() >= HEAD.len())
        && (log.len() <= HEAD.len() || trace == traced)
}

// Whether nothing was created or written.
fn is_untouched(left: &Left) -> bool {
    left.shelf.given() == 0 && left.out.taken().is_empty()
}

#[derive(Clone, Copy)]
enum Place {
    Shelf,
    Keys,
    Out,
}

// A host of which one call fails.
fn failing_at<'a>(place: Place, call: &'a [u64], step: usize) -> Host<'a> {
    let host = Host { step, ..SOUND };
    match place {
        Place::Shelf => Host {
            shelf: call,
            ..host
        },
        Place::Keys => Host { keys: call, ..host },
        Place::Out => Host { out: call, ..host },
    }
}

// How many calls of a place fail as reads and how many as writes, each alone in a run of its own, until
// no call fails; None where a run did not end as it must.
fn faults_at(
    alloc: Global,
    asked: &Asked<'_>,
    place: Place,
    step: usize,
) -> Result<Option<(u64, u64)>, Fail> {
    let whole = run_on(alloc, asked, &SOUND)?;
    let mut reads: u64 = 0;
    let mut writes: u64 = 0;
    for call in 1..=1000u64 {
        let left = run_on(alloc, asked, &failing_at(place, &[call], step))?;
        let fine = match left.status {
            Status::ReadFault => {
                reads = reads.saturating_add(1);
                is_untouched(&left) && left.err.taken() == b"read fault\n".as_slice()
            }
            Status::WriteFault => {
                writes = writes.saturating_add(1);
                is_front(&left, &whole) && left.err.taken() == b"write fault\n".as_slice()
            }
            _ => {
                let alike = is_alike(&left, &whole);
                return Ok(alike.then_some((reads, writes)));
            }
        };
        if !fine {
            return Ok(None);
        }
    }
    Ok(None)
}

// 'Row 2 with call k of the shelf failing', and so every command and every place; a run also in steps
// of one byte, so that the outputs break off behind each of their bytes.
#[test]
fn each_call_fails(rt: HostRuntime) -> Result<(), Fail> {
    let cases = [
        (RUN, Place::Shelf, 4000, (10, 14)),
        (RUN, Place::Shelf, 1, (252, 287)),
        (RUN, Place::Keys, 4000, (0, 0)),
        (RUN, Place::Out, 4000, (0, 1)),
        (DEBUG, Place::Shelf, 4000, (10, 0)),
        (DEBUG, Place::Keys, 1, (33, 0)),
        (DEBUG, Place::Out, 1, (0, 28)),
        (GEN, Place::Shelf, 4000, (0, 0)),
        (GEN, Place::Out, 1, (0, 76)),
        (DIS, Place::Shelf, 4000, (3, 0)),
        (DIS, Place::Out, 4000, (0, 2)),
        (MIGRATE, Place::Shelf, 4000, (3, 2)),
        (ASM, Place::Shelf, 4000, (3, 2)),
        (LINK, Place::Shelf, 4000, (5, 2)),
        (AUDIT, Place::Shelf, 4000, (3, 0)),
        (AUDIT, Place::Out, 4000, (0, 1)),
    ];
    for (asked, place, step, faults) in cases {
        assert_eq!(rt; faults_at(rt.alloc(), &asked, place, step)?, Some(faults));
    }
    Ok(())
}

// 'Row 2 with step 1 everywhere', and so every command.
#[test]
fn small_steps(rt: HostRuntime) -> Result<(), Fail> {
    let alloc = rt.alloc();
    for asked in [RUN, DEBUG, GEN, DIS, MIGRATE, ASM, LINK, AUDIT] {
        let whole = run_on(alloc, &asked, &SOUND)?;
        assert_eq!(rt; whole.status, Status::Done);
        for step in [1, 2, 7] {
            let left = run_on(alloc, &asked, &Host { step, ..SOUND })?;
            assert!(rt; is_alike(&left, &whole));
        }
    }
    Ok(())
}

// 'Row 2 with room 10', and so every command.
#[test]
fn little_room(rt: HostRuntime) -> Result<(), Fail> {
    let cases: [(Asked<'_>, &[u8], &[u8]); 8] = [
        (RUN, b"G5LOG 2 CP", b""),
        (DEBUG, b"", b"at 2\n00082"),
        (GEN, b"", b"turns 2\nco"),
        (DIS, b"", b"010000 LA "),
        (MIGRATE, b"G5LOG 2 CP", b""),
        (ASM, &SECTION_FRONT, b""),
        (LINK, &SECTION_FRONT, b""),
        (Asked { file: b"", ..AUDIT }, b"", b"no: BadLin"),
    ];
    for (asked, log, out) in cases {
        let left = run_on(rt.alloc(), &asked, &Host { room: 10, ..SOUND })?;
        assert_eq!(rt; left.status, Status::WriteFault);
        assert_eq!(rt; left.shelf.text_of(FileNo(0)), log);
        assert_eq!(rt; left.shelf.text_of(FileNo(1)), b"".as_slice());
        assert_eq!(rt; left.out.taken(), out);
        assert_eq!(rt; left.err.taken(), b"write fault\n".as_slice());
    }
    Ok(())
}

// A deck that breaks off behind each of its bytes.
#[test]
fn deck_that_breaks_off(rt: HostRuntime) -> Result<(), Fail> {
    for length in 0..DECK.len() {
        let refusal = if length % 80 == 0 {
            DeckRefusal::NoEnd
        } else {
            DeckRefusal::NotCards
        };
        for asked in [RUN, DEBUG] {
            let cut = Asked {
                file: &DECK[..length],
                ..asked
            };
            let left = run_on(rt.alloc(), &cut, &SOUND)?;
            assert_eq!(rt; left.status, Status::DeckRefused(refusal));
            assert!(rt; is_untouched(&left));
        }
    }
    Ok(())
}
