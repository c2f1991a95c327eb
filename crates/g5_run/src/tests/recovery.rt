// Runs under fault scripts: what is struck, what the log tells of it, and that trace and console stay.
use super::{DECK, Given, TRACE, deck_of, run};
use g5_outside::FileNo;
use std::alloc::Global;
use std::test::Fail;

// A run of a deck of one CPU or more: its options, schedule and script, and what it ends with.
#[derive(Clone, Copy)]
struct Case<'a> {
    options: [&'a str; 2],
    schedule: &'a [u8],
    script: &'a [u8],
    number: u8,
    log: &'a [u8],
    report: &'a [u8],
}

// Whether a run of this deck ends so, with this trace where one is given.
fn ends_so(
    alloc: Global,
    deck: &[u8],
    case: &Case<'_>,
    trace: Option<&[u8]>,
) -> Result<bool, Fail> {
    let [first, second] = case.options;
    let given = Given {
        deck,
        console: b"",
        schedule: case.schedule,
        script: case.script,
        failing: &[],
    };
    let words = ["run", first, second, "D", "C", "S", "F", "L", "T"];
    let left = run(alloc, &words, &given, 400)?;
    let traced = match trace {
        Some(text) => left.shelf.text_of(FileNo(1)) == text,
        None => true,
    };
    Ok(
        traced
            && left.status.number() == case.number
            && left.shelf.text_of(FileNo(0)) == case.log
            && left.err.taken() == case.report,
    )
}

const ONE: [&str; 2] = ["--cpus=1", "--spares=0"];

// Unused bit; a store latch and a fetch latch that are struck; spare taken; a core that is fenced at
// the first failure; premise broken; a key turn; a core that is returned, and one that is not fenced.
#[test]
fn the_first_path_under_strikes(rt: HostRuntime) -> Result<(), Fail> {
    let cases = [
        Case {
            options: ONE,
            schedule: b"0*12",
            script: b"U 0 2 A 2000 1",
            number: 0,
            log: b"G5LOG 2 CPUS 1 SPARES 0 THRESHOLD 3\n3 0 0 FAIL MISMATCH 2\n\
4 0 0 RETRY 1\nEND 12 RETURNED 0\n",
            report: b"premise within\nturns 12 commits 10 retries 1 spared 0 stopped 0\n",
        },
        Case {
            options: ONE,
            schedule: b"0*12",
            script: b"S 0 2 4096\n",
            number: 0,
            log: b"G5LOG 2 CPUS 1 SPARES 0 THRESHOLD 3\n3 0 0 FAIL STORE 2\n\
4 0 0 RETRY 1\nEND 12 RETURNED 0\n",
            report: b"premise within\nturns 12 commits 10 retries 1 spared 0 stopped 0\n",
        },
        Case {
            options: ONE,
            schedule: b"0*12",
            script: b"F 0 2 64\n",
            number: 0,
            log: b"G5LOG 2 CPUS 1 SPARES 0 THRESHOLD 3\n3 0 0 FAIL FETCH 2\n\
4 0 0 RETRY 1\nEND 12 RETURNED 0\n",
            report: b"premise within\nturns 12 commits 10 retries 1 spared 0 stopped 0\n",
        },
        Case {
            options: ["--spares", "1"],
            schedule: b"0*18 R0",
            script: b"U 0 2 A 2000 *",
            number: 0,
            log: b"G5LOG 2 CPUS 1 SPARES 1 THRESHOLD 3\n3 0 0 FAIL MISMATCH 2\n\
4 0 0 RETRY 1\n5 0 0 FAIL MISMATCH 3\n6 0 0 RETRY 2\n7 0 0 FAIL MISMATCH 4\n8 0 0 RETRY 3\n\
9 0 0 FAIL MISMATCH 5\n10 0 0 FENCED\n10 0 0 SPARED 8\n19 - 0 RETURNED\n\
END 19 RETURNED 1\n",
            report: b"premise within\nturns 19 commits 10 retries 3 spared 1 stopped 0\n",
        },
        Case {
            options: ["--threshold=0", "--spares=1"],
            schedule: b"0*12",
            script: b"U 0 2 B 0 1",
            number: 0,
            log: b"G5LOG 2 CPUS 1 SPARES 1 THRESHOLD 0\n3 0 0 FAIL MISMATCH 2\n\
4 0 0 FENCED\n4 0 0 SPARED 8\nEND 12 RETURNED 0\n",
            report: b"premise within\nturns 12 commits 10 retries 0 spared 1 stopped 0\n",
        },
        Case {
            options: ONE,
            schedule: b"0*10",
            script: b"U 0 2 A 2000 1\nU 0 2 B 2000 1\n",
            number: 0,
            log: b"G5LOG 2 CPUS 1 SPARES 0 THRESHOLD 3\nEND 10 RETURNED 0\n",
            report: b"premise broken\nturns 10 commits 10 retries 0 spared 0 stopped 0\n",
        },
        Case {
            options: ONE,
            schedule: b"0*2 K0 R0 0*8",
            script: b"",
            number: 0,
            log: b"G5LOG 2 CPUS 1 SPARES 0 THRESHOLD 3\nEND 12 RETURNED 0\n",
            report: b"premise within\nturns 12 commits 10 retries 0 spared 0 stopped 0\n",
        },
    ];
    for case in &cases {
        assert!(rt; ends_so(rt.alloc(), &DECK, case, Some(TRACE))?);
    }
    Ok(())
}

// No spare, with one CPU and with two: the CPU stops after two commits.
#[test]
fn no_spare(rt: HostRuntime) -> Result<(), Fail> {
    let cases = [
        Case {
            options: ["--cpus=2", "--spares=0"],
            schedule: b"0*12 1*2",
            script: b"U 0 2 A 2000 *",
            number: 20,
            log: b"G5LOG 2 CPUS 2 SPARES 0 THRESHOLD 3\n3 0 0 FAIL MISMATCH 2\n\
4 0 0 RETRY 1\n5 0 0 FAIL MISMATCH 3\n6 0 0 RETRY 2\n7 0 0 FAIL MISMATCH 4\n8 0 0 RETRY 3\n\
9 0 0 FAIL MISMATCH 5\n10 0 0 FENCED\n10 0 0 NOSPARE\n10 0 0 STOP\nEND 14 RETURNED 0\n",
            report: b"premise within\nturns 14 commits 2 retries 3 spared 0 stopped 1\n",
        },
        Case {
            options: ONE,
            schedule: b"0*12",
            script: b"U 0 2 A 2000 *",
            number: 20,
            log: b"G5LOG 2 CPUS 1 SPARES 0 THRESHOLD 3\n3 0 0 FAIL MISMATCH 2\n\
4 0 0 RETRY 1\n5 0 0 FAIL MISMATCH 3\n6 0 0 RETRY 2\n7 0 0 FAIL MISMATCH 4\n8 0 0 RETRY 3\n\
9 0 0 FAIL MISMATCH 5\n10 0 0 FENCED\n10 0 0 NOSPARE\n10 0 0 STOP\nEND 12 RETURNED 0\n",
            report: b"premise within\nturns 12 commits 2 retries 3 spared 0 stopped 1\n",
        },
    ];
    for case in &cases {
        let trace = b"1 C0 00080000 80010004\n2 C0 00082000 80010006\n";
        assert!(rt; ends_so(rt.alloc(), &DECK, case, Some(trace.as_slice()))?);
    }
    Ok(())
}

// LA 1,X'800'; AR 1,1 five times; BCR 15,1: it loops.
static LOOP: [u8; 16] = [
    0x41, 0x10, 0x08, 0x00, 0x1A, 0x11, 0x1A, 0x11, 0x1A, 0x11, 0x1A, 0x11, 0x1A, 0x11, 0x07, 0xF1,
];

// Word strikes: one is corrected, two in one word are not, the same bit twice is none; three in a
// block are past the premise, and so are both units struck in one bit. And a core that is returned and
// taken again.
#[test]
fn words_struck_and_cores_taken_again(rt: HostRuntime) -> Result<(), Fail> {
    let alloc = rt.alloc();
    let deck = deck_of(alloc, &LOOP)?;
    let cases = [
        Case {
            options: ONE,
            schedule: b"0*20",
            script: b"W 0 3 5 10",
            number: 0,
            log: b"G5LOG 2 CPUS 1 SPARES 0 THRESHOLD 3\n17 0 0 CORRECTED 5 10\n\
END 20 RETURNED 0\n",
            report: b"premise within\nturns 20 commits 20 retries 0 spared 0 stopped 0\n",
        },
        Case {
            options: ONE,
            schedule: b"0*20",
            script: b"W 0 3 5 10\nW 0 4 5 11\n",
            number: 20,
            log: b"G5LOG 2 CPUS 1 SPARES 0 THRESHOLD 3\n17 0 0 UNCORRECTABLE 5\n\
17 0 0 FENCED\n17 0 0 STOP\nEND 20 RETURNED 0\n",
            report: b"premise within\nturns 20 commits 16 retries 0 spared 0 stopped 1\n",
        },
        Case {
            options: ONE,
            schedule: b"0*20",
            script: b"W 0 3 5 10\nW 0 4 5 10\n",
            number: 0,
            log: b"G5LOG 2 CPUS 1 SPARES 0 THRESHOLD 3\nEND 20 RETURNED 0\n",
            report: b"premise within\nturns 20 commits 20 retries 0 spared 0 stopped 0\n",
        },
        Case {
            options: ONE,
            schedule: b"0*20",
            script: b"W 0 3 5 10\nW 0 4 5 11\nW 0 5 5 12\n",
            number: 0,
            log: b"G5LOG 2 CPUS 1 SPARES 0 THRESHOLD 3\n17 0 0 CORRECTED 5 13\n\
END 20 RETURNED 0\n",
            report: b"premise broken\nturns 20 commits 20 retries 0 spared 0 stopped 0\n",
        },
        Case {
            options: ONE,
            schedule: b"0*12",
            script: b"U 0 2 A 80 1\nU 0 2 B 80 1\n",
            number: 0,
            log: b"G5LOG 2 CPUS 1 SPARES 0 THRESHOLD 3\nEND 12 RETURNED 0\n",
            report: b"premise broken\nturns 12 commits 12 retries 0 spared 0 stopped 0\n",
        },
        Case {
            options: ["--cpus=1", "--spares=1"],
            schedule: b"0*10 R0 0*9",
            script: b"U 0 2 A 2000 4\nU 8 0 A 2000 *\n",
            number: 0,
            log: b"G5LOG 2 CPUS 1 SPARES 1 THRESHOLD 3\n3 0 0 FAIL MISMATCH 2\n\
4 0 0 RETRY 1\n5 0 0 FAIL MISMATCH 3\n6 0 0 RETRY 2\n7 0 0 FAIL MISMATCH 4\n8 0 0 RETRY 3\n\
9 0 0 FAIL MISMATCH 5\n10 0 0 FENCED\n10 0 0 SPARED 8\n11 - 0 RETURNED\n\
12 0 8 FAIL MISMATCH 0\n13 0 8 RETRY 1\n14 0 8 FAIL MISMATCH 1\n15 0 8 RETRY 2\n\
16 0 8 FAIL MISMATCH 2\n17 0 8 RETRY 3\n18 0 8 FAIL MISMATCH 3\n19 0 8 FENCED\n\
19 0 8 SPARED 0\nEND 20 RETURNED 1\n",
            report: b"premise within\nturns 20 commits 3 retries 6 spared 2 stopped 0\n",
        },
    ];
    for case in &cases {
        assert!(rt; ends_so(alloc, &deck, case, None)?);
    }
    Ok(())
}

// BCR 0,0; STCK X'200': a turn that fails or retries does not move the clock.
#[test]
fn clock_under_a_strike(rt: HostRuntime) -> Result<(), Fail> {
    let alloc = rt.alloc();
    let deck = deck_of(alloc, &[0x07, 0x00, 0xB2, 0x05, 0x02, 0x00])?;
    let case = Case {
        options: ONE,
        schedule: b"0*4",
        script: b"F 0 1 0",
        number: 0,
        log: b"G5LOG 2 CPUS 1 SPARES 0 THRESHOLD 3\n2 0 0 FAIL FETCH 1\n\
3 0 0 RETRY 1\nEND 4 RETURNED 0\n",
        report: b"premise within\nturns 4 commits 2 retries 1 spared 0 stopped 0\n",
    };
    let trace = b"1 C0 00080000 80010002\n2 C0 00080000 80010006 000206=10\n";
    assert!(rt; ends_so(alloc, &deck, &case, Some(trace.as_slice()))?);
    Ok(())
}
