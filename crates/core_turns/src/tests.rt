// A turn of each row of the table, of a CPU at the unit `MVI X'800',X'C8'` on core 0, by the strikes of
// short scripts and by what stands wrong in checkpoint word 5 before it.
ghost use Rattle.std.specs.Prelude.{◌≡◌, ℕ, ◌+◌, ◌≤◌, ◌<◌, ◌^◌, IfOk, IfSome, length};
ghost use Rattle.core_turns.specs.Held.{core_of};
ghost use Rattle.core_turns.specs.Places.{on, with_cpu, in_pool};

use crate::{Held, Outcome, SparePool, Stamp, turn_held};
use abs_storage::AbsStorage;
use arrayvec::ArrayVec;
use core_states::SpareCore;
use esa_model::machine::{CpuNo, Psw, Registers, Request};
use fault_script::parse;
use result_packet::{Console, Side, Written};
use run_model::faults::{Cause, CoreNo, Mode};
use run_model::logs::{Entry, What};
use seen_memory::Memory;
use sigp_bus::Bus;
use silicon::{ScriptSilicon, Silicon};
use sparing::Pool;
use std::alloc::Global;
use std::test::Fail;
use storage_keys::Keys;
use twin_units::PlainUnit;

// The parts of a machine of two CPUs.
#[derive(Drop)]
struct Parts {
    memory: Memory,
    side: Side,
    pool: SparePool,
    z: ScriptSilicon,
}

fn new_storage(alloc: Global) -> Result<AbsStorage, Fail> {
    let mut storage = AbsStorage::new(alloc, 8192)?;
    for (k, byte) in [0x92, 0xC8, 8, 0].iter().enumerate() {
        let _ = storage.store(0x1000 + k as u32, *byte);
    }
    Ok(storage)
}

fn new_side(alloc: Global) -> Result<Side, Fail> {
    match (Keys::new(alloc, 2), Bus::new(alloc, 2)) {
        (Ok(keys), Ok(bus)) => Ok(Side {
            keys,
            bus,
            console: Console::new(Vec::new(alloc)),
            clock: 0,
        }),
        _ => Err("no memory".into()),
    }
}

// With the spares 9 and 8, or none.
fn new_pool(alloc: Global, spares: bool) -> Result<SparePool, Fail>
    ensures { IfOk result (λ p. (n : ℕ) → on 0 n + in_pool n p ≤ 1) }
{
    let mut pool: SparePool = Pool::new(alloc)?;
    if spares {
        pool.add(SpareCore::new(CoreNo(9)));
        pool.add(SpareCore::new(CoreNo(8)));
    }
    Ok(pool)
}

fn new_parts(alloc: Global, script: &[u8], spares: bool) -> Result<Parts, Fail>
    requires { length script.now < 2 ^ 32 }
    ensures { IfOk result (λ p. (n : ℕ) → on 0 n + in_pool n p.pool ≤ 1) }
{
    let Ok(script) = parse(alloc, script) else {
        return Err("a script".into());
    };
    let mut z = ScriptSilicon::new();
    z.arm(script);
    Ok(Parts {
        memory: Memory::new(alloc, new_storage(alloc)?)?,
        side: new_side(alloc)?,
        pool: new_pool(alloc, spares)?,
        z,
    })
}

// Core 0 runs at the unit, or waits; these positions are wrong in its word 5.
fn woken(waits: bool, wrong: u128, z: &mut ScriptSilicon) -> Held
    ensures { (n : ℕ) → with_cpu n result ≡ on 0 n }
{
    let w0 = if waits { 0x000A_0000 } else { 0x0008_0000 };
    let registers = Registers {
        general: [0; 16],
        control: [0; 16],
        psw: Psw {
            w0,
            w1: 0x8000_1000,
        },
        prefix: 0,
        clocks: [0; 4],
    };
    let k = SpareCore::new(CoreNo(0)).wake(registers, z);
    let stored = z.get_word(CoreNo(0), 5);
    z.put_word(CoreNo(0), 5, stored ^ wrong);
    Held::Running(k)
}

// A turn, and what is held after it.
#[derive(Drop)]
struct Seen {
    held: Held,
    outcome: Outcome,
    entries: ArrayVec<Entry, 44>,
    changed: usize,
}

fn core_held(held: &Held) -> CoreNo
    ensures { result.0 ≡ core_of held.now }
{
    match held {
        Held::Running(k) => k.core(),
        Held::Recovering(k) => k.core(),
        Held::Lost(core, _) => *core,
        Held::Taken => CoreNo(0),
    }
}

fn turn(held: Held, threshold: u8, p: &mut Parts) -> Option<Seen>
    requires once { (n : ℕ) → with_cpu n held + in_pool n p.old.pool ≤ 1 }
    requires small { threshold ≤ 15 }
    ensures { IfSome result (λ s. (n : ℕ) → with_cpu n s.held + in_pool n p.new.pool ≤ 1) }
{
    let core = core_held(&held);
    if core.0 > 15 || p.z.begun(core) > 9 {
        return None;
    }
    let stamp = Stamp {
        turn: 7,
        cpu: CpuNo(0),
        core,
    };
    let mut entries = ArrayVec::new();
    let mut a = PlainUnit::new();
    let mut b = PlainUnit::new();
    let mut written = Written::new();
    let turned = turn_held(
        held,
        CpuNo(0),
        threshold,
        &mut p.memory,
        &mut p.side,
        &mut p.pool,
        &mut p.z,
        &mut a,
        &mut b,
        stamp,
        &mut entries,
        &mut written,
    );
    Some(Seen {
        held: turned.held,
        outcome: turned.outcome,
        entries,
        changed: written.changed.len(),
    })
}

fn are_told(entries: &[Entry], whats: &[What]) -> bool {
    if entries.len() != whats.len() {
        return false;
    }
    for k in 0..entries.len() {
        let e = entries[k];
        if e.what != whats[k] || e.turn != 7 || e.cpu != CpuNo(0) || e.core != CoreNo(0) {
            return false;
        }
    }
    true
}

fn is_held(held: &Held, mode: Mode, core: CoreNo, retries: u8) -> bool {
    match held {
        Held::Running(k) => { mode == Mode::Running && k.core() == core && k.retries() == retries }
        Held::Recovering(k) => {
            mode == Mode::Recovering && k.core() == core && k.retries() == retries
        }
        Held::Lost(lost, tried) => mode == Mode::Lost && *lost == core && *tried == retries,
        Held::Taken => false,
    }
}

// The first turn on core 0: outcome, entries, and what is held.
fn first(
    alloc: Global,
    script: &[u8],
    waits: bool,
    wrong: u128,
    outcome: Outcome,
    whats: &[What],
    mode: Mode,
) -> Result<bool, Fail>
    requires { length script.now < 2 ^ 32 }
{
    let mut p = new_parts(alloc, script, false)?;
    let held = woken(waits, wrong, &mut p.z);
    let Some(s) = turn(held, 2, &mut p) else {
        return Ok(false);
    };
    let told = are_told(s.entries.as_slice(), whats);
    let changed = if outcome == Outcome::Committed { 1 } else { 0 };
    Ok(s.outcome == outcome && told && is_held(&s.held, mode, CoreNo(0), 0) && s.changed == changed)
}

// The second turn, after one that failed or in which a word was lost: the same, and the lowest spare.
fn second(
    alloc: Global,
    script: &[u8],
    wrong: u128,
    threshold: u8,
    spares: bool,
    outcome: Outcome,
    whats: &[What],
    mode: Mode,
    core: CoreNo,
    retries: u8,
    lowest: Option<CoreNo>,
) -> Result<bool, Fail>
    requires script { length script.now < 2 ^ 32 }
    requires small { threshold ≤ 15 }
{
    let mut p = new_parts(alloc, script, spares)?;
    let held = woken(false, wrong, &mut p.z);
    let Some(s) = turn(held, threshold, &mut p) else {
        return Ok(false);
    };
    let Some(s) = turn(s.held, threshold, &mut p) else {
        return Ok(false);
    };
    let told = are_told(s.entries.as_slice(), whats);
    let alerted = p.side.bus.pending(CpuNo(1), Request::Malfunction(CpuNo(0)));
    Ok(
        s.outcome == outcome
            && told
            && is_held(&s.held, mode, core, retries)
            && p.pool.lowest() == lowest
            && alerted == (mode == Mode::Lost),
    )
}

#[test]
fn rows_of_a_running_core(rt: HostRuntime) -> Result<(), Fail> {
    let alloc = rt.alloc();
    let idle = first(alloc, b"", true, 0, Outcome::Idle, &[], Mode::Running)?;
    assert!(rt; idle);
    let commit = first(alloc, b"", false, 0, Outcome::Committed, &[], Mode::Running)?;
    assert!(rt; commit);
    let fetch = Outcome::Failed(Cause::Fetch);
    let told = [What::Fail(Cause::Fetch, 0)];
    let fails = first(alloc, b"F 0 0 5", false, 0, fetch, &told, Mode::Recovering)?;
    assert!(rt; fails);
    let mismatch = Outcome::Failed(Cause::Mismatch);
    let told = [What::Fail(Cause::Mismatch, 0)];
    let fails = first(
        alloc,
        b"U 0 0 A 2000 1",
        false,
        0,
        mismatch,
        &told,
        Mode::Recovering,
    )?;
    assert!(rt; fails);
    let store = Outcome::Failed(Cause::Store);
    let told = [What::Fail(Cause::Store, 0)];
    let fails = first(alloc, b"S 0 0 7", false, 0, store, &told, Mode::Recovering)?;
    assert!(rt; fails);
    Ok(())
}

#[test]
fn words_read_before_an_attempt(rt: HostRuntime) -> Result<(), Fail> {
    let alloc = rt.alloc();
    let told = [What::Corrected(5, 10)];
    let mends = first(
        alloc,
        b"",
        false,
        1 << 10,
        Outcome::Committed,
        &told,
        Mode::Running,
    )?;
    assert!(rt; mends);
    let told = [What::Uncorrectable(5), What::Fenced, What::Stop];
    let loses = first(
        alloc,
        b"",
        false,
        3 << 10,
        Outcome::Stopped,
        &told,
        Mode::Lost,
    )?;
    assert!(rt; loses);
    let idle = second(
        alloc,
        b"",
        3 << 10,
        2,
        false,
        Outcome::Idle,
        &[],
        Mode::Lost,
        CoreNo(0),
        0,
        None,
    )?;
    assert!(rt; idle);
    Ok(())
}

#[test]
fn retries(rt: HostRuntime) -> Result<(), Fail> {
    let alloc = rt.alloc();
    let retried = second(
        alloc,
        b"F 0 0 5\nW 0 0 5 10",
        0,
        2,
        false,
        Outcome::Retried(1),
        &[What::Corrected(5, 10), What::Retry(1)],
        Mode::Running,
        CoreNo(0),
        1,
        None,
    )?;
    assert!(rt; retried);
    let lost = second(
        alloc,
        b"F 0 0 5\nW 0 0 5 10\nW 0 0 5 11",
        0,
        2,
        true,
        Outcome::Stopped,
        &[What::Uncorrectable(5), What::Fenced, What::Stop],
        Mode::Lost,
        CoreNo(0),
        0,
        Some(CoreNo(8)),
    )?;
    assert!(rt; lost);
    Ok(())
}

#[test]
fn transfers(rt: HostRuntime) -> Result<(), Fail> {
    let alloc = rt.alloc();
    let none = second(
        alloc,
        b"F 0 0 5",
        0,
        0,
        false,
        Outcome::Stopped,
        &[What::Fenced, What::NoSpare, What::Stop],
        Mode::Lost,
        CoreNo(0),
        0,
        None,
    )?;
    assert!(rt; none);
    let spared = second(
        alloc,
        b"F 0 0 5",
        0,
        0,
        true,
        Outcome::Spared(CoreNo(8)),
        &[What::Fenced, What::Spared(CoreNo(8))],
        Mode::Running,
        CoreNo(8),
        0,
        Some(CoreNo(9)),
    )?;
    assert!(rt; spared);
    let lost = second(
        alloc,
        b"F 0 0 5\nW 0 0 5 10\nW 0 0 5 11",
        0,
        0,
        true,
        Outcome::Stopped,
        &[What::Fenced, What::Uncorrectable(5), What::Stop],
        Mode::Lost,
        CoreNo(0),
        0,
        Some(CoreNo(8)),
    )?;
    assert!(rt; lost);
    Ok(())
}
