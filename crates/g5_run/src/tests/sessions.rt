// Sessions: their lines and answers, and how they end.
use super::{DECK, Given, run_with_keys};
use crate::{Input, Status};
use deck_model::decks::DeckRefusal;
use g5_outside::MemorySource;
use std::test::Fail;

// The given lines, and which calls of the source fail.
#[derive(Clone, Copy)]
struct Case<'a> {
    words: &'a [&'a str],
    deck: &'a [u8],
    script: &'a [u8],
    lines: &'a [u8],
    failing: &'a [u64],
    status: Status,
    out: &'a [u8],
    err: &'a [u8],
}

const DEBUG: &[&str] = &["debug", "D", "C", "S", "F"];

// 'Two turns, and questions after them': the first is answered after its turns.
const FIRST: Case<'_> = Case {
    words: DEBUG,
    deck: &DECK,
    script: b"",
    lines: b"turns 2\npsw 0\nmem 01001C 2\npsw 1\nquit\n",
    failing: &[],
    status: Status::Done,
    out: b"at 2\n00082000 80010006\nC8C9\nunknown\n",
    err: b"premise within\nturns 2 commits 2 retries 0 spared 0 stopped 0\n",
};

#[test]
fn sessions(rt: HostRuntime) -> Result<(), Fail> {
    let alloc = rt.alloc();
    let cases = [
        FIRST,
        // Nothing after `quit` is answered, and the last line may lack its line feed.
        Case {
            lines: b"turns 2\nquit\nturns 3\npsw 0\n",
            out: b"at 2\n",
            ..FIRST
        },
        Case {
            lines: b"turns 2\npsw 0",
            out: b"at 2\n00082000 80010006\n",
            ..FIRST
        },
        // A failure, and the questions before and after its retry.
        Case {
            script: b"U 0 1 A 2000 1\n",
            lines: b"turns 2\npsw 0\ncpu 0\nturns 1\npsw 0\n",
            out: b"at 2\nrecovering\noperating 0\nat 3\n00080000 80010004\n",
            err: b"premise within\nturns 3 commits 1 retries 1 spared 0 stopped 0\n",
            ..FIRST
        },
        // No spare and no retry: the CPU is check-stopped.
        Case {
            words: &["debug", "--threshold=0", "D", "C", "S", "F"],
            script: b"U 0 0 A 2000 *\n",
            lines: b"turns 4\npsw 0\nregs 0\ncpu 0\n",
            out: b"at 4\ncheck-stop\ncheck-stop\ncheck-stop 0\n",
            err: b"premise within\nturns 4 commits 0 retries 0 spared 0 stopped 1\n",
            ..FIRST
        },
        Case {
            lines: b"",
            out: b"",
            err: b"premise within\nturns 0 commits 0 retries 0 spared 0 stopped 0\n",
            ..FIRST
        },
        // Forms that are none: two blanks, lower case, lengths 0 and 65, and no such CPU.
        Case {
            lines: b"turns  2\nTURNS 2\nmem 01001c 2\nmem 010000 0\nmem 010000 65\ncpu 1\n",
            out: b"unknown\nunknown\nunknown\nunknown\nunknown\nunknown\n",
            err: b"premise within\nturns 0 commits 0 retries 0 spared 0 stopped 0\n",
            ..FIRST
        },
        Case {
            lines: b"mem 020000 1\nkey 010000\nconsole\n",
            out: b"outside\n00\n0 0\n",
            err: b"premise within\nturns 0 commits 0 retries 0 spared 0 stopped 0\n",
            ..FIRST
        },
        // The lines are read before the deck is refused.
        Case {
            failing: &[1],
            deck: b"",
            status: Status::ReadFault,
            out: b"",
            err: b"read fault\n",
            ..FIRST
        },
        Case {
            deck: b"",
            status: Status::DeckRefused(DeckRefusal::NoEnd),
            out: b"",
            err: b"deck refused: NoEnd\n",
            ..FIRST
        },
        Case {
            words: &["debug", "D", "C", "S", "X"],
            status: Status::NoFile(Input::Script),
            out: b"",
            err: b"no file: X\n",
            ..FIRST
        },
    ];
    for case in &cases {
        let given = Given {
            deck: case.deck,
            console: b"",
            schedule: b"0*10",
            script: case.script,
            failing: &[],
        };
        let lines = Vec::from_slice(alloc, case.lines)?;
        let keys = MemorySource::new(lines, Vec::from_slice(alloc, case.failing)?);
        let left = run_with_keys(alloc, case.words, &given, keys, 400)?;
        assert_eq!(rt; left.status, case.status);
        assert_eq!(rt; left.out.taken(), case.out);
        assert_eq!(rt; left.err.taken(), case.err);
    }
    Ok(())
}
