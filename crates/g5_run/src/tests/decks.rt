// Decks, shown.
use super::{DECK, Given, run};
use crate::{Input, Status};
use deck_model::decks::DeckRefusal;
use std::test::Fail;

#[derive(Clone, Copy)]
struct Case<'a> {
    words: &'a [&'a str],
    deck: &'a [u8],
    status: Status,
    out: &'a [u8],
    err: &'a [u8],
}

// 'The first two instructions of a deck', and refusals.
#[test]
fn decks_shown(rt: HostRuntime) -> Result<(), Fail> {
    let alloc = rt.alloc();
    let first = Case {
        words: &["dis", "D", "010000", "2"],
        deck: &DECK,
        status: Status::Done,
        out: b"010000 LA 1,2048(0,0)\n010004 AR 1,1\n",
        err: b"",
    };
    let cases = [
        first,
        Case {
            words: &["dis", "D", "FFFFFF", "2"],
            out: b"FFFFFF outside\n",
            ..first
        },
        Case {
            words: &["dis", "D", "010000", "1001"],
            status: Status::Usage,
            out: b"",
            err: b"usage\n",
            ..first
        },
        Case {
            words: &["dis", "D", "1FFFF", "1"],
            status: Status::Usage,
            out: b"",
            err: b"usage\n",
            ..first
        },
        Case {
            words: &["dis", "X", "010000", "2"],
            status: Status::NoFile(Input::Deck),
            out: b"",
            err: b"no file: X\n",
            ..first
        },
        Case {
            deck: b"",
            status: Status::DeckRefused(DeckRefusal::NoEnd),
            out: b"",
            err: b"deck refused: NoEnd\n",
            ..first
        },
    ];
    for case in &cases {
        let given = Given {
            deck: case.deck,
            console: b"",
            schedule: b"",
            script: b"",
            failing: &[],
        };
        let left = run(alloc, case.words, &given, 400)?;
        assert_eq!(rt; left.status, case.status);
        assert_eq!(rt; left.out.taken(), case.out);
        assert_eq!(rt; left.err.taken(), case.err);
    }
    Ok(())
}
