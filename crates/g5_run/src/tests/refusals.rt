// What is refused before a file is created.
use super::{DECK, Given, Left, WORDS, run};
use std::alloc::Global;
use std::test::Fail;

#[test]
fn words_and_files(rt: HostRuntime) -> Result<(), Fail> {
    let cases: [(&[&str], &[u64], u8, &[u8]); 11] = [
        (&[], &[], 2, b"usage\n"),
        (&["run", "D", "C"], &[], 2, b"usage\n"),
        (
            &["run", "--cpus=9", "D", "C", "S", "F", "L", "T"],
            &[],
            2,
            b"usage\n",
        ),
        (
            &["run", "--cpus=01", "D", "C", "S", "F", "L", "T"],
            &[],
            2,
            b"usage\n",
        ),
        (
            &["run", "--storage=100", "D", "C", "S", "F", "L", "T"],
            &[],
            2,
            b"usage\n",
        ),
        (&["run", "D", "C", "S", "F", "L", "L"], &[], 2, b"usage\n"),
        (&["run", "D", "C", "S", "-F", "L", "T"], &[], 2, b"usage\n"),
        (
            &["run", "nodeck", "C", "S", "F", "L", "T"],
            &[],
            3,
            b"no file: nodeck\n",
        ),
        (
            &["run", "D", "C", "S", "noscript", "L", "T"],
            &[],
            3,
            b"no file: noscript\n",
        ),
        (WORDS, &[1], 4, b"read fault\n"),
        (WORDS, &[7], 4, b"read fault\n"),
    ];
    for (texts, failing, number, line) in cases {
        let given = Given {
            deck: &DECK,
            console: b"",
            schedule: b"0*10",
            script: b"",
            failing,
        };
        let left = run(rt.alloc(), texts, &given, 400)?;
        assert_eq!(rt; left.status.number(), number);
        assert_eq!(rt; left.err.taken(), line);
        assert_eq!(rt; left.shelf.given(), 0);
        assert_eq!(rt; left.out.taken(), b"".as_slice());
    }
    Ok(())
}

// A run of these bytes as a deck, with an empty console input and script.
fn run_deck(alloc: Global, deck: &[u8]) -> Result<Left, Fail> {
    let given = Given {
        deck,
        console: b"",
        schedule: b"0*10",
        script: b"",
        failing: &[],
    };
    run(alloc, WORDS, &given, 400)
}

#[test]
fn empty_deck(rt: HostRuntime) -> Result<(), Fail> {
    let left = run_deck(rt.alloc(), b"")?;
    assert_eq!(rt; left.status.number(), 6);
    assert_eq!(rt; left.err.taken(), b"deck refused: NoEnd\n".as_slice());
    assert_eq!(rt; left.shelf.given(), 0);
    Ok(())
}

#[test]
fn cut_card(rt: HostRuntime) -> Result<(), Fail> {
    let left = run_deck(rt.alloc(), &DECK[..81])?;
    assert_eq!(rt; left.status.number(), 6);
    assert_eq!(rt; left.err.taken(), b"deck refused: NotCards\n".as_slice());
    assert_eq!(rt; left.shelf.given(), 0);
    Ok(())
}

// The first refusal is that of the deck, then that of the schedule, then that of the script.
#[test]
fn decks_schedules_and_scripts(rt: HostRuntime) -> Result<(), Fail> {
    let twice: &[u8] = b"F 0 1 0\nF 0 1 0\n";
    let cases: [(&[u8], &[u8], &[u8], u8, &[u8]); 10] = [
        (
            &DECK[80..],
            b"0 x",
            twice,
            6,
            b"deck refused: UnknownId 1\n",
        ),
        (&DECK, b"0 x", twice, 7, b"schedule refused: BadWord 2\n"),
        (&DECK, b"0 1", b"", 7, b"schedule refused: BadCpu 2\n"),
        (
            &DECK,
            b"0*1000000 0",
            b"",
            7,
            b"schedule refused: TooLong 2\n",
        ),
        (
            &DECK,
            b"0*1000001\n",
            b"",
            7,
            b"schedule refused: TooLong 1\n",
        ),
        (
            &DECK,
            b"0*10",
            twice,
            8,
            b"script refused: TwoAtOneAttempt 2\n",
        ),
        (
            &DECK,
            b"0*10",
            b"W 0 1 40 0",
            8,
            b"script refused: BadWord 1\n",
        ),
        (
            &DECK,
            b"0*10",
            b"W 0 1 36 72",
            8,
            b"script refused: BadBit 1\n",
        ),
        (
            &DECK,
            b"0*10",
            b"U 16 1 A 0 1",
            8,
            b"script refused: BadCore 1\n",
        ),
        (&DECK, b"0*10", b"\nX", 8, b"script refused: BadLine 2\n"),
    ];
    for (deck, schedule, script, number, line) in cases {
        let given = Given {
            deck,
            console: b"",
            schedule,
            script,
            failing: &[],
        };
        let left = run(rt.alloc(), WORDS, &given, 400)?;
        assert_eq!(rt; left.status.number(), number);
        assert_eq!(rt; left.err.taken(), line);
        assert_eq!(rt; left.shelf.given(), 0);
    }
    Ok(())
}

// The limits, in the order of the inputs; each comes before a file that is missing behind it.
#[test]
fn too_large(rt: HostRuntime) -> Result<(), Fail> {
    let alloc = rt.alloc();
    let deck = vec![in alloc; 0; 16_000_001]?;
    let long = vec![in alloc; 32; 1_048_577]?;
    let missing: &[&str] = &["run", "D", "C", "noschedule", "F", "L", "T"];
    let cases: [(&[&str], &[u8], &[u8], &[u8], &[u8], u8, &[u8]); 7] = [
        (WORDS, &deck, &long, b"0*1", b"", 9, b"too large: D\n"),
        (missing, &DECK, &long, b"0*1", b"", 9, b"too large: C\n"),
        (WORDS, &DECK[..81], &long, b"0*1", b"", 9, b"too large: C\n"),
        (
            missing,
            &DECK,
            &long[1..],
            b"0*1",
            b"",
            3,
            b"no file: noschedule\n",
        ),
        (WORDS, &DECK, b"", &long, &long, 9, b"too large: S\n"),
        (WORDS, &DECK[..81], b"", b"0 x", &long, 9, b"too large: F\n"),
        (
            WORDS,
            &deck[1..],
            b"",
            b"0*1",
            b"",
            6,
            b"deck refused: BadFirstByte 1\n",
        ),
    ];
    for (texts, deck, console, schedule, script, number, line) in cases {
        let given = Given {
            deck,
            console,
            schedule,
            script,
            failing: &[],
        };
        let left = run(alloc, texts, &given, 400)?;
        assert_eq!(rt; left.status.number(), number);
        assert_eq!(rt; left.err.taken(), line);
        assert_eq!(rt; left.shelf.given(), 0);
    }
    Ok(())
}
