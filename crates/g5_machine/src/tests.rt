// Small programs on machines whose silicon lands the strikes of short scripts. What they tell was
// worked by hand from the Principles of Operation and the rules of retry and sparing.
mod buffered;
mod cached;
mod several;

ghost use Rattle.std.specs.Prelude.{◌≡◌, ◌<◌, ◌*◌, ◌^◌, IsTrue, length};
ghost use Rattle.g5_machine.specs.Fits.{IsFitting};

use crate::{Machine, Outcome};
use abs_storage::AbsStorage;
use arrayvec::ArrayVec;
use deck_model::decks::Loaded;
use esa_model::machine::{CpuNo, Psw};
use fault_script::parse;
use result_packet::Written;
use run_model::faults::{Cause, CoreNo};
use run_model::logs::{Config, Entry, What};
use silicon::{ScriptSilicon, Silicon};
use std::alloc::Global;
use std::test::Fail;
use twin_units::PlainUnit;

const FIRST: CpuNo = CpuNo(0);

/// Where programs begin.
const ENTRY: u32 = 0x1_0000;

/// LA 1,X'800'; AR 1,1 five times, which gives X'10000'; LA 1,X'1C'(1); LA 2,2;
/// DIAGNOSE 1,2,X'100', which writes the two bytes at the end to the console; NOPR.
const GREETING: [u8; 30] = [
    0x41, 0x10, 0x08, 0x00, 0x1A, 0x11, 0x1A, 0x11, 0x1A, 0x11, 0x1A, 0x11, 0x1A, 0x11, 0x41, 0x10,
    0x10, 0x1C, 0x41, 0x20, 0x00, 0x02, 0x83, 0x12, 0x01, 0x00, 0x07, 0x00, 0xC8, 0xC9,
];

/// The first six of them; BR 1.
const LOOP: [u8; 16] = [
    0x41, 0x10, 0x08, 0x00, 0x1A, 0x11, 0x1A, 0x11, 0x1A, 0x11, 0x1A, 0x11, 0x1A, 0x11, 0x07, 0xF1,
];

/// A machine and its silicon.
#[derive(Drop)]
struct Plant {
    machine: Machine,
    z: ScriptSilicon,
}

fn put(storage: &mut AbsStorage, from: u32, bytes: &[u8]) {
    let mut at = from;
    for byte in bytes {
        let _ = storage.store(at, *byte);
        at = at.wrapping_add(1);
    }
}

/// A storage of 128 KiB with a program at the entry.
fn loaded(alloc: Global, program: &[u8]) -> Result<AbsStorage, Fail> {
    let mut storage = AbsStorage::new(alloc, 0x2_0000)?;
    put(&mut storage, ENTRY, program);
    Ok(storage)
}

fn machine_of(cpus: u8, spares: u8, threshold: u8) -> Config {
    Config {
        cpus,
        spares,
        pages: 32,
        threshold,
    }
}

fn is_within_limits(c: Config) -> bool
    ensures { IsTrue result → IsFitting c c.cpus }
{
    1 <= c.cpus && c.cpus <= 8 && c.spares <= 8 && c.threshold <= 15
}

fn has_pages(c: Config, storage: &AbsStorage) -> bool
    ensures { IsTrue result → length storage.now ≡ 4096 * c.pages }
{
    storage.size() == 4096 * u32::from(c.pages)
}

/// A machine at the entry, without console input, on silicon with a script.
fn started(alloc: Global, config: Config, storage: AbsStorage, script: &[u8]) -> Result<Plant, Fail>
    requires { length script.now < 2 ^ 32 }
{
    let Ok(script) = parse(alloc, script) else {
        return Err("a script".into());
    };
    if !is_within_limits(config) || !has_pages(config, &storage) {
        return Err("a configuration".into());
    }
    let mut z = ScriptSilicon::new();
    z.arm(script);
    let entry = Loaded { address: ENTRY };
    let machine = Machine::new(alloc, config, entry, storage, Vec::new(alloc), &mut z)?;
    Ok(Plant { machine, z })
}

/// What a turn tells.
#[derive(Drop)]
struct Told {
    outcome: Outcome,
    psw: Psw,
    entries: ArrayVec<Entry, 44>,
    written: Written,
}

/// One turn of a CPU. `None` for a CPU that is not there, or after many turns.
fn turn(p: &mut Plant, cpu: CpuNo) -> Option<Told> {
    if cpu.0 >= p.machine.cpus() || p.machine.turns() > 1000 {
        return None;
    }
    let core = p.machine.core(cpu);
    if core.0 > 15 || p.z.begun(core) > 1000 {
        return None;
    }
    let (mut a, mut b) = (PlainUnit::new(), PlainUnit::new());
    let mut entries = ArrayVec::new();
    let mut written = Written::new();
    let turn = p
        .machine
        .turn(cpu, &mut p.z, &mut a, &mut b, &mut entries, &mut written);
    Some(Told {
        outcome: turn.outcome,
        psw: turn.psw,
        entries,
        written,
    })
}

fn return_core(p: &mut Plant, core: CoreNo) -> Option<Entry> {
    if core.0 > 15 || p.machine.turns() > 1000 {
        return None;
    }
    p.machine.return_core(core)
}

fn press_key(p: &mut Plant, cpu: CpuNo) {
    if cpu.0 < p.machine.cpus() && p.machine.turns() < 1000 {
        p.machine.key(cpu);
    }
}

fn psw_of(p: &Plant, cpu: CpuNo) -> Option<Psw> {
    if cpu.0 >= p.machine.cpus() {
        return None;
    }
    match p.machine.registers(cpu) {
        Some(r) => Some(r.psw),
        None => None,
    }
}

fn core_of(p: &Plant, cpu: CpuNo) -> Option<CoreNo> {
    if cpu.0 >= p.machine.cpus() {
        return None;
    }
    Some(p.machine.core(cpu))
}

fn entry(turn: u64, core: u8, what: What) -> Entry {
    Entry {
        turn,
        cpu: FIRST,
        core: CoreNo(core),
        what,
    }
}

/// Where the entries stand in a list from a place on, the place after them.
fn place_after(entries: &[Entry], want: &[Entry], from: usize) -> Option<usize> {
    let mut at = from;
    for e in entries {
        if at >= want.len() || want[at] != *e {
            return None;
        }
        at += 1;
    }
    Some(at)
}

/// Whether so many turns of CPU 0 have these entries and no others.
fn logs(p: &mut Plant, turns: u64, want: &[Entry]) -> bool {
    let mut at = 0;
    for _k in 0..turns {
        let Some(made) = turn(p, FIRST) else {
            return false;
        };
        match place_after(made.entries.as_slice(), want, at) {
            None => return false,
            Some(after) => at = after,
        }
    }
    at == want.len()
}

/// Three retries at attempts from the third on, and a fourth failure: turns 3 to 9.
fn retries_in_vain() -> [Entry; 7] {
    [
        entry(3, 0, What::Fail(Cause::Mismatch, 2)),
        entry(4, 0, What::Retry(1)),
        entry(5, 0, What::Fail(Cause::Mismatch, 3)),
        entry(6, 0, What::Retry(2)),
        entry(7, 0, What::Fail(Cause::Mismatch, 4)),
        entry(8, 0, What::Retry(3)),
        entry(9, 0, What::Fail(Cause::Mismatch, 5)),
    ]
}

/// Whether the whole greeting was written, at the tenth commit.
fn has_greeted(p: &Plant) -> bool {
    let end = Psw {
        w0: 0x0008_2000,
        w1: 0x8001_001C,
    };
    p.machine.commits() == 10
        && p.machine.console_counts() == (2, 0)
        && psw_of(p, FIRST) == Some(end)
}

/// Two turns are lost to a strike that is undone.
fn greets_after_retry(alloc: Global, script: &[u8], why: Cause) -> Result<bool, Fail>
    requires { length script.now < 2 ^ 32 }
{
    let mut p = started(
        alloc,
        machine_of(1, 0, 3),
        loaded(alloc, &GREETING)?,
        script,
    )?;
    let want = [entry(3, 0, What::Fail(why, 2)), entry(4, 0, What::Retry(1))];
    Ok(logs(&mut p, 12, &want) && has_greeted(&p))
}

#[test]
fn unused_bit(rt: HostRuntime) -> Result<(), Fail> {
    let alloc = rt.alloc();
    let mismatch = greets_after_retry(alloc, b"U 0 2 A 2000 1", Cause::Mismatch)?;
    assert!(rt; mismatch);
    let store = greets_after_retry(alloc, b"S 0 2 4096", Cause::Store)?;
    assert!(rt; store);
    let fetch = greets_after_retry(alloc, b"F 0 2 64", Cause::Fetch)?;
    assert!(rt; fetch);
    Ok(())
}

/// CPU 0 goes on on core 8, and core 0 is a spare again after its return.
#[test]
fn spare_taken(rt: HostRuntime) -> Result<(), Fail> {
    let alloc = rt.alloc();
    let storage = loaded(alloc, &GREETING)?;
    let mut p = started(alloc, machine_of(1, 1, 3), storage, b"U 0 2 A 2000 *")?;
    assert!(rt; logs(&mut p, 9, &retries_in_vain()) && psw_of(&p, FIRST).is_none());
    let spared = [
        entry(10, 0, What::Fenced),
        entry(10, 0, What::Spared(CoreNo(8))),
    ];
    assert!(rt; logs(&mut p, 1, &spared) && logs(&mut p, 8, &[]));
    assert!(rt; has_greeted(&p) && core_of(&p, FIRST) == Some(CoreNo(8)));
    assert!(rt; return_core(&mut p, CoreNo(0)).is_some());
    assert!(rt; return_core(&mut p, CoreNo(0)).is_none());
    assert!(rt; p.machine.turns() == 20);
    Ok(())
}

/// A bit of word 5 is wrong as the 17th attempt is to begin, no bit, or two.
fn reads_word_5(alloc: Global, script: &[u8], want: &[Entry], commits: u64) -> Result<bool, Fail>
    requires { length script.now < 2 ^ 32 }
{
    let mut p = started(alloc, machine_of(1, 0, 3), loaded(alloc, &LOOP)?, script)?;
    Ok(logs(&mut p, 20, want) && p.machine.commits() == commits)
}

#[test]
fn word_strikes(rt: HostRuntime) -> Result<(), Fail> {
    let alloc = rt.alloc();
    let one = reads_word_5(
        alloc,
        b"W 0 3 5 10",
        &[entry(17, 0, What::Corrected(5, 10))],
        20,
    )?;
    assert!(rt; one);
    let lost = [
        entry(17, 0, What::Uncorrectable(5)),
        entry(17, 0, What::Fenced),
        entry(17, 0, What::Stop),
    ];
    let two = reads_word_5(alloc, b"W 0 3 5 10\nW 0 4 5 11", &lost, 16)?;
    assert!(rt; two);
    let none = reads_word_5(alloc, b"W 0 3 5 10\nW 0 4 5 10", &[], 20)?;
    assert!(rt; none);
    Ok(())
}

/// Core 0 is fenced, returned, and taken as a spare for core 8.
#[test]
fn repaired_core(rt: HostRuntime) -> Result<(), Fail> {
    let alloc = rt.alloc();
    let storage = loaded(alloc, &LOOP)?;
    let script = b"U 0 2 A 2000 4\nU 8 0 A 2000 *";
    let mut p = started(alloc, machine_of(1, 1, 3), storage, script)?;
    assert!(rt; logs(&mut p, 9, &retries_in_vain()));
    let spared = [
        entry(10, 0, What::Fenced),
        entry(10, 0, What::Spared(CoreNo(8))),
    ];
    assert!(rt; logs(&mut p, 1, &spared));
    let returned = Entry {
        turn: 11,
        cpu: CpuNo(255),
        core: CoreNo(0),
        what: What::Returned,
    };
    assert_eq!(rt; return_core(&mut p, CoreNo(0)), Some(returned));
    let want = [
        entry(12, 8, What::Fail(Cause::Mismatch, 0)),
        entry(13, 8, What::Retry(1)),
        entry(14, 8, What::Fail(Cause::Mismatch, 1)),
        entry(15, 8, What::Retry(2)),
        entry(16, 8, What::Fail(Cause::Mismatch, 2)),
        entry(17, 8, What::Retry(3)),
        entry(18, 8, What::Fail(Cause::Mismatch, 3)),
        entry(19, 8, What::Fenced),
        entry(19, 8, What::Spared(CoreNo(0))),
    ];
    assert!(rt; logs(&mut p, 9, &want));
    assert_eq!(rt; [p.machine.turns(), p.machine.commits()], [20, 3]);
    Ok(())
}

/// At threshold 0 the first failure gives the core up. The interrupt key stays pending, since the
/// PSW does not enable it.
#[test]
fn no_retry_and_key(rt: HostRuntime) -> Result<(), Fail> {
    let alloc = rt.alloc();
    let storage = loaded(alloc, &GREETING)?;
    let mut p = started(alloc, machine_of(1, 1, 0), storage, b"U 0 2 B 0 1")?;
    assert!(rt; logs(&mut p, 2, &[]));
    press_key(&mut p, FIRST);
    let want = [
        entry(4, 0, What::Fail(Cause::Mismatch, 2)),
        entry(5, 0, What::Fenced),
        entry(5, 0, What::Spared(CoreNo(8))),
    ];
    assert!(rt; logs(&mut p, 10, &want));
    assert!(rt; has_greeted(&p));
    assert_eq!(rt; p.machine.turns(), 13);
    Ok(())
}
