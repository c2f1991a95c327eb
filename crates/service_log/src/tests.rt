ghost use Rattle.std.specs.Prelude.{◌<◌, ◌^◌, length};

use crate::{
    Config, Ending, Entry, Heading, LogRefusal, MigrateRefusal, What, head, migrate, read,
    read_head, read_tail, tail, write,
};
use esa_model::machine::CpuNo;
use run_model::faults::{Cause, CoreNo};
use std::alloc::Global;

fn entry(turn: u64, cpu: u8, core: u8, what: What) -> Entry {
    let cpu = CpuNo(cpu);
    let core = CoreNo(core);
    Entry {
        turn,
        cpu,
        core,
        what,
    }
}

// Whether the entry is written as the line, and the line is read as the entry.
fn stands_for(line: &[u8], e: Entry) -> bool {
    let text = write(&e);
    text.as_slice() == line && read(line) == Ok(e)
}

#[test]
fn each_kind_of_entry(rt: HostRuntime) {
    let rows: [(&[u8], Entry); 11] = [
        (
            b"2 0 8 FAIL FETCH 1\n",
            entry(2, 0, 8, What::Fail(Cause::Fetch, 1)),
        ),
        (
            b"3 0 0 FAIL MISMATCH 2\n",
            entry(3, 0, 0, What::Fail(Cause::Mismatch, 2)),
        ),
        (
            b"1000000 7 15 FAIL STORE 999999\n",
            entry(1000000, 7, 15, What::Fail(Cause::Store, 999999)),
        ),
        (b"4 0 0 RETRY 1\n", entry(4, 0, 0, What::Retry(1))),
        (
            b"17 0 0 CORRECTED 5 10\n",
            entry(17, 0, 0, What::Corrected(5, 10)),
        ),
        (
            b"17 0 0 UNCORRECTABLE 5\n",
            entry(17, 0, 0, What::Uncorrectable(5)),
        ),
        (b"10 0 0 FENCED\n", entry(10, 0, 0, What::Fenced)),
        (
            b"10 0 0 SPARED 8\n",
            entry(10, 0, 0, What::Spared(CoreNo(8))),
        ),
        (b"10 0 0 NOSPARE\n", entry(10, 0, 0, What::NoSpare)),
        (b"10 0 0 STOP\n", entry(10, 0, 0, What::Stop)),
        (b"19 - 0 RETURNED\n", entry(19, 255, 0, What::Returned)),
    ];
    for (line, e) in rows {
        assert!(rt; stands_for(line, e));
    }
}

// Whether the line is no entry.
fn is_refused(line: &[u8]) -> bool {
    read(line) == Err(LogRefusal::BadLine)
}

// RETURNED has no CPU and every other entry has one; numbers are decimals in their ranges.
#[test]
fn lines_that_are_no_entry(rt: HostRuntime) {
    let lines: [&[u8]; 16] = [
        b"19 255 0 RETURNED\n",
        b"10 - 0 STOP\n",
        b"10 256 0 STOP\n",
        b"18446744073709551616 0 0 STOP\n",
        b"10 0 0 RETRY 256\n",
        b"01 0 0 STOP\n",
        b"10 0  0 STOP\n",
        b"10 0 0 FAIL FETCH\n",
        b"10 0 0 FAIL PARITY 1\n",
        b"10 0 0 stop\n",
        b"10 0 0 STOP \n",
        b"10 0 0 STOP\n\n",
        b"10 0 0 STOP",
        b"END 10 RETURNED 0\n",
        b"\n",
        b"",
    ];
    for line in lines {
        assert!(rt; is_refused(line));
    }
}

#[test]
fn longest_line(rt: HostRuntime) {
    let line = b"18446744073709551615 255 255 FAIL MISMATCH 18446744073709551615\n";
    let e = entry(u64::MAX, 255, 255, What::Fail(Cause::Mismatch, u64::MAX));
    assert!(rt; stands_for(line, e));
}

#[test]
fn ends_of_a_log(rt: HostRuntime) {
    let c = Config {
        cpus: 8,
        spares: 0,
        pages: 32,
        threshold: 15,
    };
    let wanted = b"G5LOG 2 CPUS 8 SPARES 0 THRESHOLD 15\n".as_slice();
    assert_eq!(rt; head(&c).as_slice(), wanted);
    assert_eq!(rt; tail(19, 1).as_slice(), b"END 19 RETURNED 1\n".as_slice());
}

fn heading(cpus: u8, spares: u8, threshold: u8) -> Option<Heading> {
    Some(Heading {
        cpus,
        spares,
        threshold,
    })
}

// A head has its version and its line feed, and numbers that a machine may have.
#[test]
fn heads_read(rt: HostRuntime) {
    let rows: [(&[u8], Option<Heading>); 14] = [
        (b"G5LOG 2 CPUS 1 SPARES 0 THRESHOLD 3\n", heading(1, 0, 3)),
        (b"G5LOG 2 CPUS 1 SPARES 0 THRESHOLD 0\n", heading(1, 0, 0)),
        (b"G5LOG 2 CPUS 8 SPARES 8 THRESHOLD 15\n", heading(8, 8, 15)),
        (b"G5LOG 1 CPUS 1 SPARES 0 THRESHOLD 3\n", None),
        (b"G5LOG 2 CPUS 0 SPARES 0 THRESHOLD 3\n", None),
        (b"G5LOG 2 CPUS 9 SPARES 0 THRESHOLD 3\n", None),
        (b"G5LOG 2 CPUS 1 SPARES 9 THRESHOLD 3\n", None),
        (b"G5LOG 2 CPUS 1 SPARES 0 THRESHOLD 16\n", None),
        (b"G5LOG 2 CPUS 1 SPARES 0 THRESHOLD 3", None),
        (b"G5LOG 2 CPUS 1 SPARES 0 THRESHOLD 3 \n", None),
        (b"G5LOG 2 CPUS 1 SPARES 0 THRESHOLD 3\n\n", None),
        (b"G5LOG 2 SPARES 0 CPUS 1 THRESHOLD 3\n", None),
        (b"END 10 RETURNED 0\n", None),
        (b"", None),
    ];
    for (line, wanted) in rows {
        assert_eq!(rt; read_head(line), wanted);
    }
}

fn ending(turns: u64, returned: u64) -> Option<Ending> {
    Some(Ending { turns, returned })
}

// A tail has both its numbers and its line feed.
#[test]
fn tails_read(rt: HostRuntime) {
    let rows: [(&[u8], Option<Ending>); 11] = [
        (b"END 19 RETURNED 1\n", ending(19, 1)),
        (b"END 0 RETURNED 0\n", ending(0, 0)),
        (
            b"END 18446744073709551615 RETURNED 0\n",
            ending(u64::MAX, 0),
        ),
        (b"END 18446744073709551616 RETURNED 0\n", None),
        (b"END 10 RETURNED 00\n", None),
        (b"END 10 RETURNED\n", None),
        (b"END 10\n", None),
        (b"END 10 RETURNED 0", None),
        (b"END 10 RETURNED 0 \n", None),
        (b"10 0 0 STOP\n", None),
        (b"\n", None),
    ];
    for (line, wanted) in rows {
        assert_eq!(rt; read_tail(line), wanted);
    }
}

#[test]
fn worked_migration(rt: HostRuntime) {
    let old = b"G5LOG 1 CPUS 1 SPARES 0 THRESHOLD 3\n4 0 0 RETRY 1\nEND 10\n";
    let new = b"G5LOG 2 CPUS 1 SPARES 0 THRESHOLD 3\n4 0 0 RETRY 1\nEND 10 RETURNED 0\n";
    match migrate(rt.alloc(), old) {
        Ok(text) => assert_eq!(rt; text.as_slice(), new.as_slice()),
        Err(_) => assert!(rt; false),
    }
}

// Whether a log is refused so.
fn is_not_migrated(alloc: Global, log: &[u8], wanted: MigrateRefusal) -> bool
    requires { length log.now < 2 ^ 32 }
{
    match migrate(alloc, log) {
        Ok(_) => false,
        Err(refusal) => refusal == wanted,
    }
}

#[test]
fn first_line_that_is_bad(rt: HostRuntime) {
    let rows: [(u32, &[u8]); 11] = [
        (1, b"\n"),
        (1, b"END 10\n"),
        (1, b"G5LOG 2 CPUS 1 SPARES 0 THRESHOLD 3\nEND 10\n"),
        (1, b"G5LOG 1 CPUS 0 SPARES 0 THRESHOLD 3\nEND 10\n"),
        (1, b"G5LOG 1 CPUS 1 SPARES 9 THRESHOLD 3\nEND 10\n"),
        (1, b"G5LOG 1 CPUS 1 SPARES 0 THRESHOLD 16\nx\n"),
        (2, b"G5LOG 1 CPUS 1 SPARES 0 THRESHOLD 3\nx"),
        (2, b"G5LOG 1 CPUS 1 SPARES 0 THRESHOLD 3\nx\ny\n"),
        (
            2,
            b"G5LOG 1 CPUS 1 SPARES 0 THRESHOLD 3\nEND 10 RETURNED 0\n",
        ),
        (
            2,
            b"G5LOG 1 CPUS 1 SPARES 0 THRESHOLD 3\nEND 10\n4 0 0 RETRY 1\n",
        ),
        (
            3,
            b"G5LOG 1 CPUS 1 SPARES 0 THRESHOLD 3\n4 0 0 STOP\n5 - 0 RETURNED\nEND 10\n",
        ),
    ];
    for (n, log) in rows {
        assert!(rt; is_not_migrated(rt.alloc(), log, MigrateRefusal::BadLine(n)));
    }
}

#[test]
fn no_tail(rt: HostRuntime) {
    let logs: [&[u8]; 4] = [
        b"",
        b"G5LOG 1 CPUS 8 SPARES 8 THRESHOLD 15\n",
        b"G5LOG 1 CPUS 1 SPARES 0 THRESHOLD 3\n4 0 0 RETRY 1\n",
        b"G5LOG 1 CPUS 1 SPARES 0 THRESHOLD 3\nEND 10",
    ];
    for log in logs {
        assert!(rt; is_not_migrated(rt.alloc(), log, MigrateRefusal::NoTail));
    }
}
