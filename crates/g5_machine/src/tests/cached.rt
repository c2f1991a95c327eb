// How often the cache of a core is filled with a line.
use super::several::{SECOND, comes_to, programs, register};
use super::{FIRST, GREETING, Plant, loaded, logs, machine_of, started, turn};
use crate::Outcome;
use esa_model::machine::CpuNo;
use std::test::Fail;

fn fills_of(p: &Plant, cpu: CpuNo) -> Option<u64> {
    if cpu.0 >= p.machine.cpus() {
        return None;
    }
    Some(p.machine.fills(cpu))
}

fn make_turns(p: &mut Plant, turns: usize) -> bool {
    for _k in 0..turns {
        if turn(p, FIRST).is_none() {
            return false;
        }
    }
    true
}

/// The greeting lies in one line.
#[test]
fn first_path(rt: HostRuntime) -> Result<(), Fail> {
    let alloc = rt.alloc();
    let mut p = started(alloc, machine_of(1, 0, 3), loaded(alloc, &GREETING)?, b"")?;
    assert!(rt; make_turns(&mut p, 10));
    assert_eq!(rt; fills_of(&p, FIRST), Some(1));
    assert_eq!(rt; fills_of(&p, SECOND), None);
    Ok(())
}

/// A failure empties the cache, and the line is filled again.
#[test]
fn unused_bit(rt: HostRuntime) -> Result<(), Fail> {
    let alloc = rt.alloc();
    let storage = loaded(alloc, &GREETING)?;
    let mut p = started(alloc, machine_of(1, 0, 3), storage, b"U 0 2 A 2000 1")?;
    assert!(rt; make_turns(&mut p, 12));
    assert_eq!(rt; fills_of(&p, FIRST), Some(2));
    Ok(())
}

/// The core that is given up had its own cache; that of the spare begins without a line.
#[test]
fn spare_taken(rt: HostRuntime) -> Result<(), Fail> {
    let alloc = rt.alloc();
    let storage = loaded(alloc, &GREETING)?;
    let mut p = started(alloc, machine_of(1, 1, 3), storage, b"U 0 2 A 2000 *")?;
    assert!(rt; make_turns(&mut p, 9));
    assert_eq!(rt; fills_of(&p, FIRST), Some(4));
    assert!(rt; make_turns(&mut p, 1));
    assert_eq!(rt; fills_of(&p, FIRST), Some(0));
    assert!(rt; make_turns(&mut p, 8));
    assert_eq!(rt; fills_of(&p, FIRST), Some(1));
    Ok(())
}

/// CPU 0 is at MVI X'800',1, then five times MVI X'802',2; CPU 1 is after its restart at IC 1,X'800'
/// twice. The second time the byte of CPU 0 has left its buffer, and the line of CPU 1's core was
/// invalidated by it.
#[test]
fn stored_by_the_other(rt: HostRuntime) -> Result<(), Fail> {
    let first = [
        0x92, 0x01, 0x08, 0x00, 0x92, 0x02, 0x08, 0x02, 0x92, 0x02, 0x08, 0x02, 0x92, 0x02, 0x08,
        0x02, 0x92, 0x02, 0x08, 0x02, 0x92, 0x02, 0x08, 0x02,
    ];
    let second = [0x43, 0x10, 0x08, 0x00, 0x43, 0x10, 0x08, 0x00];
    let storage = programs(rt.alloc(), &first, &second)?;
    let mut p = started(rt.alloc(), machine_of(2, 0, 3), storage, b"")?;
    assert!(rt; logs(&mut p, 2, &[]));
    for _event in ["restart", "IC"] {
        assert!(rt; comes_to(&mut p, SECOND, Outcome::Committed));
    }
    assert_eq!(rt; register(&p, SECOND, 1), Some(0));
    // the lines of the restart PSW, of the program and of the byte
    assert_eq!(rt; fills_of(&p, SECOND), Some(3));
    assert!(rt; make_turns(&mut p, 6));
    assert!(rt; comes_to(&mut p, SECOND, Outcome::Committed));
    assert_eq!(rt; register(&p, SECOND, 1), Some(1));
    assert_eq!(rt; fills_of(&p, SECOND), Some(4));
    Ok(())
}
