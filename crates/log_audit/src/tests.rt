ghost use Rattle.std.specs.Prelude.{◌<◌, ◌^◌, length};

use crate::{AuditRefusal, Audited, audit};
use arrayvec::ArrayVec;

fn counts(turns: u64, spared: u64, stopped: u64) -> Result<Audited, AuditRefusal> {
    Ok(Audited {
        turns,
        spared,
        stopped,
    })
}

// Whether the verdict on a log is this.
fn is_judged(log: &[u8], wanted: Result<Audited, AuditRefusal>) -> bool
    requires { length log.now < 2 ^ 32 }
{
    audit(log) == wanted
}

// A core that is given up for a spare, repaired, and taken again.
#[test]
fn log_with_a_returned_core(rt: HostRuntime) {
    let log = b"G5LOG 2 CPUS 1 SPARES 1 THRESHOLD 3\n3 0 0 FAIL MISMATCH 2\n\
4 0 0 RETRY 1\n5 0 0 FAIL MISMATCH 3\n6 0 0 RETRY 2\n7 0 0 FAIL MISMATCH 4\n8 0 0 RETRY 3\n\
9 0 0 FAIL MISMATCH 5\n10 0 0 FENCED\n10 0 0 SPARED 8\n11 - 0 RETURNED\n\
12 0 8 FAIL MISMATCH 0\n13 0 8 RETRY 1\n14 0 8 FAIL MISMATCH 1\n15 0 8 RETRY 2\n\
16 0 8 FAIL MISMATCH 2\n17 0 8 RETRY 3\n18 0 8 FAIL MISMATCH 3\n19 0 8 FENCED\n\
19 0 8 SPARED 0\nEND 20 RETURNED 1\n";
    assert!(rt; is_judged(log, counts(20, 2, 0)));
}

#[test]
fn stop_without_its_no_spare(rt: HostRuntime) {
    let log = b"G5LOG 2 CPUS 2 SPARES 0 THRESHOLD 3\n3 0 0 FAIL MISMATCH 2\n\
4 0 0 RETRY 1\n5 0 0 FAIL MISMATCH 3\n6 0 0 RETRY 2\n7 0 0 FAIL MISMATCH 4\n8 0 0 RETRY 3\n\
9 0 0 FAIL MISMATCH 5\n10 0 0 FENCED\n10 0 0 STOP\nEND 14 RETURNED 0\n";
    assert!(rt; is_judged(log, Err(AuditRefusal::Stop(10))));
}

#[test]
fn retry_past_the_threshold(rt: HostRuntime) {
    let log = b"G5LOG 2 CPUS 1 SPARES 0 THRESHOLD 0\n1 0 0 FAIL FETCH 0\n2 0 0 RETRY 1\n\
END 2 RETURNED 0\n";
    assert!(rt; is_judged(log, Err(AuditRefusal::Retry(3))));
}

#[test]
fn entry_after_its_fence(rt: HostRuntime) {
    let log = b"G5LOG 2 CPUS 1 SPARES 0 THRESHOLD 0\n1 0 0 FAIL FETCH 0\n2 0 0 FENCED\n\
3 0 0 FAIL FETCH 1\nEND 3 RETURNED 0\n";
    assert!(rt; is_judged(log, Err(AuditRefusal::Core(4))));
}

// Two CPUs in turn: the first is given up for a lost word, and the second goes on.
#[test]
fn lost_word(rt: HostRuntime) {
    let log = b"G5LOG 2 CPUS 2 SPARES 2 THRESHOLD 3\n16 1 1 CORRECTED 5 10\n\
17 0 0 UNCORRECTABLE 5\n17 0 0 FENCED\n17 0 0 STOP\n18 1 1 FAIL STORE 3\nEND 20 RETURNED 0\n";
    assert!(rt; is_judged(log, counts(20, 0, 1)));
}

// A line that has not the form of its place comes before any point that fails.
#[test]
fn first_line_that_is_bad(rt: HostRuntime) {
    let rows: [(u32, &[u8]); 12] = [
        (1, b""),
        (1, b"\n"),
        (1, b"G5LOG 2 CPUS 1 SPARES 0 THRESHOLD 3\n"),
        (1, b"G5LOG 2 CPUS 1 SPARES 0 THRESHOLD 3"),
        (1, b"END 0 RETURNED 0\n"),
        (
            1,
            b"G5LOG 1 CPUS 1 SPARES 0 THRESHOLD 3\nEND 0 RETURNED 0\n",
        ),
        (2, b"G5LOG 2 CPUS 1 SPARES 0 THRESHOLD 3\nEND 0\n"),
        (2, b"G5LOG 2 CPUS 1 SPARES 0 THRESHOLD 3\nEND 0 RETURNED 0"),
        (
            2,
            b"G5LOG 2 CPUS 1 SPARES 0 THRESHOLD 3\nEND 0 RETURNED 0\nx",
        ),
        (
            2,
            b"G5LOG 2 CPUS 1 SPARES 0 THRESHOLD 3\n1 0 0 CORRECTED 1 1\n",
        ),
        (
            3,
            b"G5LOG 2 CPUS 1 SPARES 0 THRESHOLD 3\n9 7 7 STOP\n\nEND 0 RETURNED 0\n",
        ),
        (
            3,
            b"G5LOG 2 CPUS 1 SPARES 0 THRESHOLD 3\n9 7 7 STOP\nEND 0 RETURNED 0",
        ),
    ];
    for (n, log) in rows {
        assert!(rt; is_judged(log, Err(AuditRefusal::BadLine(n))));
    }
}

// Each point failed, on a machine of two CPUs with one spare and one retry.
#[test]
fn each_point_failed(rt: HostRuntime) {
    let rows: [(AuditRefusal, &[u8]); 14] = [
        (AuditRefusal::Turn(2), b"0 0 0 FAIL FETCH 0\n"),
        (AuditRefusal::Turn(2), b"100 0 0 FAIL FETCH 0\n"),
        (
            AuditRefusal::Turn(3),
            b"5 0 0 FAIL FETCH 0\n4 0 0 RETRY 1\n",
        ),
        (
            AuditRefusal::Turn(3),
            b"5 0 0 CORRECTED 1 1\n5 1 1 CORRECTED 1 1\n",
        ),
        (AuditRefusal::Core(2), b"1 2 2 FAIL FETCH 0\n"),
        (AuditRefusal::Core(2), b"1 0 1 FAIL FETCH 0\n"),
        (AuditRefusal::Core(2), b"1 200 200 FAIL FETCH 0\n"),
        (AuditRefusal::Retry(2), b"1 0 0 RETRY 1\n"),
        (
            AuditRefusal::Retry(3),
            b"1 0 0 FAIL FETCH 0\n2 0 0 RETRY 0\n",
        ),
        (
            AuditRefusal::Fenced(3),
            b"1 0 0 FAIL FETCH 0\n2 0 0 FENCED\n",
        ),
        (
            AuditRefusal::Spared(4),
            b"1 0 0 UNCORRECTABLE 1\n1 0 0 FENCED\n1 0 0 SPARED 9\n",
        ),
        (
            AuditRefusal::Stop(3),
            b"1 0 0 UNCORRECTABLE 1\n1 0 0 STOP\n",
        ),
        (AuditRefusal::Returned(2), b"1 - 8 RETURNED\n"),
        (AuditRefusal::Returned(2), b"1 - 99 RETURNED\n"),
    ];
    for (refusal, entries) in rows {
        assert!(rt; is_refused(entries, refusal));
    }
}

// Whether a log of these entries is refused so.
fn is_refused(entries: &[u8], wanted: AuditRefusal) -> bool {
    let mut log: ArrayVec<u8, 256> = ArrayVec::new();
    let _ = log.try_extend_from_slice(b"G5LOG 2 CPUS 2 SPARES 1 THRESHOLD 1\n");
    let _ = log.try_extend_from_slice(entries);
    let _ = log.try_extend_from_slice(b"END 99 RETURNED 0\n");
    is_judged(&log, Err(wanted))
}

#[test]
fn returned_cores_miscounted(rt: HostRuntime) {
    let log = b"G5LOG 2 CPUS 1 SPARES 0 THRESHOLD 3\nEND 9 RETURNED 1\n";
    assert!(rt; is_judged(log, Err(AuditRefusal::Tail)));
}
