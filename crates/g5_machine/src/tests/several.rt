// Two CPUs, of which the first starts the second.
use super::{
    FIRST, GREETING, Plant, entry, loaded, logs, machine_of, psw_of, put, retries_in_vain, started,
    turn,
};
use crate::Outcome;
use abs_storage::AbsStorage;
use esa_model::changes::Changed;
use esa_model::machine::{CpuNo, CpuState, Psw};
use run_model::faults::{Cause, CoreNo};
use run_model::logs::What;
use std::alloc::Global;
use std::test::Fail;

pub(super) const SECOND: CpuNo = CpuNo(1);

fn are_changed(changed: &[Changed], want: &[(u32, u8)]) -> bool {
    if changed.len() != want.len() {
        return false;
    }
    for k in 0..want.len() {
        if changed[k].at != want[k].0 || changed[k].byte != want[k].1 {
            return false;
        }
    }
    true
}

/// Whether a turn of a CPU changes these bytes and no others, and leaves this PSW.
pub(super) fn changes(p: &mut Plant, cpu: CpuNo, want: &[(u32, u8)], w0: u32, w1: u32) -> bool {
    match turn(p, cpu) {
        None => false,
        Some(made) => {
            made.psw == Psw { w0, w1 } && are_changed(made.written.changed.as_slice(), want)
        }
    }
}

/// Whether a turn of a CPU comes to this.
pub(super) fn comes_to(p: &mut Plant, cpu: CpuNo, want: Outcome) -> bool {
    match turn(p, cpu) {
        None => false,
        Some(made) => made.outcome == want,
    }
}

/// Whether CPU 1 makes three commits.
fn second_commits(p: &mut Plant) -> bool {
    for _k in 0..3 {
        if !comes_to(p, SECOND, Outcome::Committed) {
            return false;
        }
    }
    true
}

/// Programs of both CPUs. The restart PSW leads to the second; CPU 1 is restarted by LA 3,1;
/// SIGP 0,3,6.
pub(super) fn programs(alloc: Global, first: &[u8], second: &[u8]) -> Result<AbsStorage, Fail> {
    let mut storage = loaded(alloc, &[0x41, 0x30, 0x00, 0x01, 0xAE, 0x03, 0x00, 0x06])?;
    put(&mut storage, 0x1_0008, first);
    put(&mut storage, 0x1_1000, second);
    put(
        &mut storage,
        0,
        &[0x00, 0x08, 0x00, 0x00, 0x80, 0x01, 0x10, 0x00],
    );
    Ok(storage)
}

pub(super) fn register(p: &Plant, cpu: CpuNo, number: usize) -> Option<u32> {
    if cpu.0 >= p.machine.cpus() {
        return None;
    }
    match p.machine.registers(cpu) {
        Some(r) => r.general.get(number).copied(),
        None => None,
    }
}

/// Whether CPU 0 stopped on core 0, and CPU 1 stays as it is on core 1.
fn has_stopped(p: &Plant) -> bool {
    p.machine.cpus() == 2
        && p.machine.state(FIRST) == CpuState::CheckStop
        && p.machine.state(SECOND) == CpuState::Stopped
        && p.machine.core(FIRST) == CoreNo(0)
        && p.machine.core(SECOND) == CoreNo(1)
        && psw_of(p, FIRST).is_none()
}

/// Without a spare CPU 0 stops after its retries.
#[test]
fn no_spare(rt: HostRuntime) -> Result<(), Fail> {
    let alloc = rt.alloc();
    let storage = loaded(alloc, &GREETING)?;
    let mut p = started(alloc, machine_of(2, 0, 3), storage, b"U 0 2 A 2000 *")?;
    assert!(rt; logs(&mut p, 9, &retries_in_vain()));
    let stops = [
        entry(10, 0, What::Fenced),
        entry(10, 0, What::NoSpare),
        entry(10, 0, What::Stop),
    ];
    assert!(rt; logs(&mut p, 1, &stops) && logs(&mut p, 2, &[]));
    assert!(rt; comes_to(&mut p, SECOND, Outcome::Idle));
    assert!(rt; comes_to(&mut p, SECOND, Outcome::Idle));
    assert!(rt; p.machine.turns() == 14 && p.machine.commits() == 2);
    assert!(rt; has_stopped(&p));
    Ok(())
}

/// CPU 1 is at LCTL 0,0,X'200'; LPSW X'208', after which it waits for a malfunction alert.
fn waiting(alloc: Global) -> Result<AbsStorage, Fail> {
    let second = [0xB7, 0x00, 0x02, 0x00, 0x82, 0x00, 0x02, 0x08];
    let mut storage = programs(alloc, &[], &second)?;
    put(&mut storage, 0x200, &[0x00, 0x00, 0x80, 0xE0]);
    put(&mut storage, 0x208, &[0x01, 0x0A, 0, 0, 0x80, 0, 0, 0]);
    put(
        &mut storage,
        88,
        &[0x00, 0x08, 0, 0, 0x80, 0x01, 0x20, 0x00],
    );
    Ok(storage)
}

/// The alert comes as CPU 0 stops.
#[test]
fn malfunction_alert(rt: HostRuntime) -> Result<(), Fail> {
    let alloc = rt.alloc();
    let mut p = started(
        alloc,
        machine_of(2, 0, 0),
        waiting(alloc)?,
        b"U 0 2 A 2000 1",
    )?;
    assert!(rt; logs(&mut p, 2, &[]) && second_commits(&mut p));
    assert!(rt; comes_to(&mut p, SECOND, Outcome::Idle));
    let stops = [
        entry(7, 0, What::Fail(Cause::Mismatch, 2)),
        entry(8, 0, What::Fenced),
        entry(8, 0, What::NoSpare),
        entry(8, 0, What::Stop),
    ];
    assert!(rt; logs(&mut p, 2, &stops));
    let stored = [(0x18, 0x01), (0x19, 0x0A), (0x1C, 0x80), (0x86, 0x12)];
    assert!(rt; changes(&mut p, SECOND, &stored, 0x0008_0000, 0x8001_2000));
    Ok(())
}

/// Both CPUs are at CS 2,3,0(4) for the word at X'12000', after LA 3,2 or LA 3,1, and L 4,X'200'.
fn locked(alloc: Global) -> Result<AbsStorage, Fail> {
    let first = [
        0x41, 0x30, 0x00, 0x02, 0x58, 0x40, 0x02, 0x00, 0xBA, 0x23, 0x40, 0x00,
    ];
    let second = [
        0x41, 0x30, 0x00, 0x01, 0x58, 0x40, 0x02, 0x00, 0xBA, 0x23, 0x40, 0x00,
    ];
    let mut storage = programs(alloc, &first, &second)?;
    put(&mut storage, 0x200, &[0x00, 0x01, 0x20, 0x00]);
    Ok(storage)
}

/// CPU 0's attempt fails, CPU 1 gets the word, and CPU 0's retry finds it taken.
#[test]
fn lock(rt: HostRuntime) -> Result<(), Fail> {
    let alloc = rt.alloc();
    let mut p = started(alloc, machine_of(2, 0, 3), locked(alloc)?, b"F 0 4 5")?;
    assert!(rt; logs(&mut p, 4, &[]) && second_commits(&mut p));
    assert!(rt; comes_to(&mut p, FIRST, Outcome::Failed(Cause::Fetch)));
    assert!(rt; register(&p, FIRST, 2).is_none());
    assert!(rt; changes(&mut p, SECOND, &[(0x1_2003, 1)], 0x0008_0000, 0x8001_100C));
    assert!(rt; comes_to(&mut p, FIRST, Outcome::Retried(1)));
    assert!(rt; changes(&mut p, FIRST, &[], 0x0008_1000, 0x8001_0014));
    assert!(rt; register(&p, FIRST, 2) == Some(1));
    assert!(rt; p.machine.byte(0x1_2003) == Some(1) && p.machine.key_of(18) == Some(6));
    Ok(())
}
