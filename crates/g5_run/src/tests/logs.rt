// Logs, migrated and judged.
use super::{Given, HEAD, run, shelf_of, words_of};
use crate::{Status, g5_top};
use deck_gen::generate;
use g5_outside::{FileNo, MemorySink, MemorySource};
use program_model::inputs::Input;
use program_model::refusals::AuditRefusal;
use run_model::logs::MigrateRefusal;
use silicon::ScriptSilicon;
use std::test::Fail;

// The log is file D.
#[derive(Clone, Copy)]
struct Case<'a> {
    words: &'a [&'a str],
    log: &'a [u8],
    failing: &'a [u64],
    status: Status,
    new: &'a [u8],
    out: &'a [u8],
    err: &'a [u8],
}

pub const OLD: &[u8] = b"G5LOG 1 CPUS 1 SPARES 0 THRESHOLD 3\nEND 10\n";

const MIGRATE: &[&str] = &["migrate", "D", "N"];

const AUDIT: &[&str] = &["audit", "D"];

// A CPU without spares that failed past the threshold of 3, and whose log lacks NOSPARE.
const NO_REASON: &[u8] = b"\
G5LOG 2 CPUS 1 SPARES 0 THRESHOLD 3\n\
2 0 0 FAIL MISMATCH 2\n\
3 0 0 RETRY 1\n\
4 0 0 FAIL MISMATCH 3\n\
5 0 0 RETRY 2\n\
6 0 0 FAIL MISMATCH 4\n\
7 0 0 RETRY 3\n\
8 0 0 FAIL MISMATCH 5\n\
9 0 0 FENCED\n\
9 0 0 STOP\n\
END 9 RETURNED 0\n";

// 'A log of version 1', 'A log whose second line is none', 'A log without its NOSPARE', and failures.
#[test]
fn logs_migrated_and_judged(rt: HostRuntime) -> Result<(), Fail> {
    let alloc = rt.alloc();
    let migrated = Case {
        words: MIGRATE,
        log: OLD,
        failing: &[],
        status: Status::Done,
        new: b"G5LOG 2 CPUS 1 SPARES 0 THRESHOLD 3\nEND 10 RETURNED 0\n",
        out: b"",
        err: b"",
    };
    let judged = Case {
        words: AUDIT,
        log: NO_REASON,
        failing: &[],
        status: Status::AuditNo(AuditRefusal::Stop(10)),
        new: b"",
        out: b"no: Stop 10\n",
        err: b"",
    };
    let lawful = b"G5LOG 2 CPUS 1 SPARES 0 THRESHOLD 3\nEND 10 RETURNED 0\n";
    let cases = [
        Case {
            log: b"G5LOG 1 CPUS 1 SPARES 0 THRESHOLD 3\nx\n",
            status: Status::LogRefused(MigrateRefusal::BadLine(2)),
            new: b"",
            err: b"log refused: BadLine 2\n",
            ..migrated
        },
        Case {
            words: &["migrate", "D", "D"],
            status: Status::Usage,
            new: b"",
            err: b"usage\n",
            ..migrated
        },
        Case {
            words: &["migrate", "X", "N"],
            status: Status::NoFile(Input::Log),
            new: b"",
            err: b"no file: X\n",
            ..migrated
        },
        Case {
            log: lawful,
            status: Status::Done,
            out: b"yes\n",
            ..judged
        },
        Case {
            log: HEAD,
            status: Status::AuditNo(AuditRefusal::BadLine(1)),
            out: b"no: BadLine 1\n",
            ..judged
        },
        Case {
            failing: &[1],
            status: Status::ReadFault,
            out: b"",
            err: b"read fault\n",
            ..judged
        },
        migrated,
        judged,
    ];
    for case in &cases {
        let given = Given {
            deck: case.log,
            console: b"",
            schedule: b"",
            script: b"",
            failing: case.failing,
        };
        let left = run(alloc, case.words, &given, 400)?;
        assert_eq!(rt; left.status, case.status);
        assert_eq!(rt; left.shelf.text_of(FileNo(0)), case.new);
        assert_eq!(rt; left.out.taken(), case.out);
        assert_eq!(rt; left.err.taken(), case.err);
    }
    Ok(())
}

// 'Generated, large': deck, schedule and script as files, run with 8 CPUs and 1 spare, and its log judged.
#[test]
fn the_log_of_a_generated_run_is_lawful(rt: HostRuntime) -> Result<(), Fail> {
    let alloc = rt.alloc();
    let texts = generate(alloc, 7, 100_000)?;
    let given = Given {
        deck: &texts.deck,
        console: b"",
        schedule: &texts.schedule,
        script: &texts.script,
        failing: &[],
    };
    let words = words_of(
        alloc,
        &[
            "run",
            "--cpus=8",
            "--spares=1",
            "D",
            "C",
            "S",
            "F",
            "L",
            "T",
        ],
    )?;
    let mut shelf = shelf_of(alloc, &given, 4_000_000)?;
    let mut keys = MemorySource::new(Vec::new(alloc), Vec::new(alloc));
    let mut out = MemorySink::new(alloc, Vec::new(alloc), 400)?;
    let mut err = MemorySink::new(alloc, Vec::new(alloc), 400)?;
    let mut silicon = ScriptSilicon::new();
    let status = g5_top(
        alloc,
        &words,
        &mut shelf,
        &mut keys,
        &mut out,
        &mut err,
        &mut silicon,
    );
    assert_eq!(rt; status, Status::Done);
    let log = Given {
        deck: shelf.text_of(FileNo(0)),
        ..given
    };
    let left = run(alloc, AUDIT, &log, 400)?;
    assert_eq!(rt; left.status, Status::Done);
    assert_eq!(rt; left.out.taken(), b"yes\n".as_slice());
    Ok(())
}
