// Stores of two CPUs to one byte, while they wait in buffers.
ghost use Rattle.std.specs.Prelude.{◌<◌, ◌^◌, length};

use super::several::{SECOND, changes, comes_to, programs};
use super::{FIRST, Plant, logs, machine_of, started, turn};
use crate::Outcome;
use run_model::faults::Cause;
use std::alloc::Global;
use std::test::Fail;

/// CPU 0 is at MVI X'800',1, CPU 1 before its restart at MVI X'800',7. Five times MVI X'802',2 or
/// MVI X'803',3 follow.
fn storing(alloc: Global, spares: u8, threshold: u8, script: &[u8]) -> Result<Plant, Fail>
    requires { length script.now < 2 ^ 32 }
{
    let first = [
        0x92, 0x01, 0x08, 0x00, 0x92, 0x02, 0x08, 0x02, 0x92, 0x02, 0x08, 0x02, 0x92, 0x02, 0x08,
        0x02, 0x92, 0x02, 0x08, 0x02, 0x92, 0x02, 0x08, 0x02,
    ];
    let second = [
        0x92, 0x07, 0x08, 0x00, 0x92, 0x03, 0x08, 0x03, 0x92, 0x03, 0x08, 0x03, 0x92, 0x03, 0x08,
        0x03, 0x92, 0x03, 0x08, 0x03, 0x92, 0x03, 0x08, 0x03,
    ];
    let storage = programs(alloc, &first, &second)?;
    let mut p = started(alloc, machine_of(2, spares, threshold), storage, script)?;
    if logs(&mut p, 2, &[]) {
        Ok(p)
    } else {
        Err("the start".into())
    }
}

fn first_stores(p: &mut Plant) -> bool {
    changes(p, FIRST, &[(0x800, 1)], 0x0008_0000, 0x8001_000C)
}

fn second_stores(p: &mut Plant) -> bool {
    changes(p, SECOND, &[(0x800, 7)], 0x0008_0000, 0x8001_1004)
}

/// The last CPU to store the byte decides it, though the buffer of CPU 0 comes first; both go on
/// until their buffers are drained.
#[test]
fn one_byte_of_two_cpus(rt: HostRuntime) -> Result<(), Fail> {
    let mut p = storing(rt.alloc(), 0, 3, b"")?;
    assert!(rt; first_stores(&mut p));
    assert_eq!(rt; p.machine.byte(0x800), Some(1));
    assert!(rt; comes_to(&mut p, SECOND, Outcome::Committed));
    assert!(rt; second_stores(&mut p));
    assert_eq!(rt; p.machine.byte(0x800), Some(7));
    for _k in 0..5 {
        assert!(rt; comes_to(&mut p, FIRST, Outcome::Committed));
        assert!(rt; comes_to(&mut p, SECOND, Outcome::Committed));
    }
    for (at, want) in [(0x800, 7), (0x801, 0), (0x802, 2), (0x803, 3)] {
        assert_eq!(rt; p.machine.byte(at), Some(want), "at {at}");
    }
    Ok(())
}

/// A store of an attempt that fails is not seen; the retry stores the byte after the other CPU.
#[test]
fn store_of_a_failed_attempt(rt: HostRuntime) -> Result<(), Fail> {
    let mut p = storing(rt.alloc(), 0, 3, b"S 0 2 9")?;
    assert!(rt; comes_to(&mut p, FIRST, Outcome::Failed(Cause::Store)));
    assert_eq!(rt; p.machine.byte(0x800), Some(0));
    assert!(rt; comes_to(&mut p, SECOND, Outcome::Committed));
    assert!(rt; second_stores(&mut p));
    assert!(rt; comes_to(&mut p, FIRST, Outcome::Retried(1)));
    assert_eq!(rt; p.machine.byte(0x800), Some(7));
    assert!(rt; first_stores(&mut p));
    assert_eq!(rt; p.machine.byte(0x800), Some(1));
    Ok(())
}

/// A committed store that waits stays, though the core of its CPU is given up and a spare goes on.
#[test]
fn store_before_a_transfer(rt: HostRuntime) -> Result<(), Fail> {
    let mut p = storing(rt.alloc(), 1, 0, b"U 0 3 A 2000 1")?;
    assert!(rt; first_stores(&mut p));
    assert!(rt; comes_to(&mut p, FIRST, Outcome::Failed(Cause::Mismatch)));
    match turn(&mut p, FIRST) {
        Some(made) => assert!(rt; matches!(made.outcome, Outcome::Spared(_))),
        None => assert!(rt; false),
    }
    assert_eq!(rt; p.machine.byte(0x800), Some(1));
    assert!(rt; comes_to(&mut p, FIRST, Outcome::Committed));
    assert_eq!(rt; p.machine.byte(0x802), Some(2));
    Ok(())
}
