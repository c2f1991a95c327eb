// Attempts, retries and transfers at the unit `LA 1,2048`, by the strikes of short scripts.
ghost use Rattle.std.specs.Prelude.{◌≡◌, ◌<◌, ◌^◌, [], length};

mod held;
mod stored;

use crate::{
    Attempt, Notes, Recovered, RecoveringCore, RunningCore, SpareCore, one_cause, passes_unstruck,
};
use abs_storage::AbsStorage;
use esa_model::machine::{CpuNo, Psw, Registers};
use fault_script::parse;
use held::Holding;
use result_packet::{Console, Packet, Side};
use run_model::faults::{Cause, CoreNo, Unit};
use sigp_bus::Bus;
use silicon::{Handed, ScriptSilicon, Silicon, TapSilicon};
use std::alloc::Global;
use std::test::Fail;
use storage_keys::Keys;
use twin_units::{FixedUnit, PlainUnit, ResultUnit};

// A CPU whose next unit is `LA 1,2048` at X'10000', with what it sees.
#[derive(Drop)]
struct Scene {
    registers: Registers,
    storage: Holding,
    side: Side,
}

fn new_scene(alloc: Global) -> Result<Scene, Fail> {
    let mut storage = AbsStorage::new(alloc, 0x2_0000)?;
    let _ = storage.store(0x1_0000, 0x41);
    let _ = storage.store(0x1_0001, 0x10);
    let _ = storage.store(0x1_0002, 0x08);
    let (Ok(keys), Ok(bus)) = (Keys::new(alloc, 32), Bus::new(alloc, 1)) else {
        return Err("no memory".into());
    };
    let mut general = [0; 16];
    general[15] = 6;
    let mut control = [0; 16];
    control[0] = 0xE0;
    Ok(Scene {
        registers: Registers {
            general,
            control,
            psw: Psw {
                w0: 0x0008_0000,
                w1: 0x8001_0000,
            },
            prefix: 0x4000,
            clocks: [0x2000, 1 << 63, 0, 0],
        },
        storage: Holding::new(storage),
        side: Side {
            keys,
            bus,
            console: Console::new(Vec::new(alloc)),
            clock: 0,
        },
    })
}

fn armed(alloc: Global, lines: &[u8]) -> Result<ScriptSilicon, Fail>
    requires { length lines.now < 2 ^ 32 }
{
    let mut z = ScriptSilicon::new();
    match parse(alloc, lines) {
        Ok(script) => z.arm(script),
        Err(_) => return Err("no script".into()),
    }
    Ok(z)
}

// The next attempt with two units.
fn attempt<Z: Silicon, P: ResultUnit, Q: ResultUnit>(
    k: RunningCore,
    s: &mut Scene,
    z: &mut Z,
    a: &mut P,
    b: &mut Q,
    notes: &mut Notes,
) -> Result<Attempt, Fail>
    requires empty { notes.old.items ≡ [] }
    requires calls_a { (P.seen a.old).calls < 1000 }
    requires calls_b { (Q.seen b.old).calls < 1000 }
{
    if z.begun(k.core) >= 1_000_000 {
        return Err("too many attempts".into());
    }
    Ok(k.attempt(CpuNo(0), &mut s.storage, &s.side, z, a, b, notes))
}

// The next attempt with two plain units.
fn plain<Z: Silicon>(
    k: RunningCore,
    s: &mut Scene,
    z: &mut Z,
    notes: &mut Notes,
) -> Result<Attempt, Fail>
    requires { notes.old.items ≡ [] }
{
    attempt(k, s, z, &mut PlainUnit::new(), &mut PlainUnit::new(), notes)
}

fn is_mismatch(answer: &Attempt) -> bool {
    match answer {
        Attempt::Failed(k, Cause::Mismatch, n) => *n == 0 && k.core().0 == 0 && k.retries() == 0,
        _ => false,
    }
}

// The first attempt of core 0 with two units, without a strike.
fn with_units<P: ResultUnit, Q: ResultUnit>(
    alloc: Global,
    a: &mut P,
    b: &mut Q,
) -> Result<Attempt, Fail>
    requires calls_a { (P.seen a.old).calls < 1000 }
    requires calls_b { (Q.seen b.old).calls < 1000 }
{
    let mut s = new_scene(alloc)?;
    let mut z = ScriptSilicon::new();
    let k = SpareCore::new(CoreNo(0)).wake(s.registers, &mut z);
    attempt(k, &mut s, &mut z, a, b, &mut Notes::new())
}

/// A unit that answers 512 zero bytes differs from one that works by the rule, whichever is the
/// first; two of them agree.
#[test]
fn plain_and_fixed_units(rt: HostRuntime) -> Result<(), Fail> {
    let mut zeros = FixedUnit::new(Packet::zeros());
    let mut others = FixedUnit::new(Packet::zeros());
    let first = with_units(rt.alloc(), &mut PlainUnit::new(), &mut zeros)?;
    assert!(rt; is_mismatch(&first));
    let second = with_units(
        rt.alloc(),
        &mut FixedUnit::new(Packet::zeros()),
        &mut PlainUnit::new(),
    )?;
    assert!(rt; is_mismatch(&second));
    let third = with_units(
        rt.alloc(),
        &mut FixedUnit::new(Packet::zeros()),
        &mut others,
    )?;
    match third {
        Attempt::Committed(k, packet) => {
            assert_eq!(rt; k.core().0, 0);
            for place in 0..512 {
                assert_eq!(rt; packet.byte(place), 0, "byte {place}");
            }
        }
        _ => assert!(rt; false),
    }
    Ok(())
}

// How the first attempt of core 0 fails.
fn failed(s: &mut Scene, z: &mut ScriptSilicon) -> Result<(RecoveringCore, Cause), Fail> {
    let k = SpareCore::new(CoreNo(0)).wake(s.registers, z);
    match plain(k, s, z, &mut Notes::new())? {
        Attempt::Failed(k, cause, _) => Ok((k, cause)),
        _ => Err("the attempt did not fail".into()),
    }
}

// A retry.
fn retry<Z: Silicon>(k: RecoveringCore, z: &mut Z, notes: &mut Notes) -> Result<Recovered, Fail>
    requires { notes.old.items ≡ [] }
{
    if k.retries() >= 15 {
        return Err("too many retries".into());
    }
    Ok(k.recover(z, notes))
}

/// A struck latch or packet is seen, and the retry is the attempt over again.
#[test]
fn struck_latches_and_packets(rt: HostRuntime) -> Result<(), Fail> {
    for (line, wanted) in [
        (b"F 0 0 64".as_slice(), Cause::Fetch),
        (b"F 0 0 0".as_slice(), Cause::Fetch),
        (b"U 0 0 A 2000 1".as_slice(), Cause::Mismatch),
        (b"U 0 0 B 4095 1".as_slice(), Cause::Mismatch),
        (b"S 0 0 4096".as_slice(), Cause::Store),
        (b"S 0 0 9".as_slice(), Cause::Store),
    ] {
        let mut s = new_scene(rt.alloc())?;
        let mut z = armed(rt.alloc(), line)?;
        let (k, cause) = failed(&mut s, &mut z)?;
        assert_eq!(rt; cause, wanted);
        assert_eq!(rt; (k.core().0, k.retries()), (0, 0));
        let mut notes = Notes::new();
        match retry(k, &mut z, &mut notes)? {
            Recovered::Running(k) => {
                assert_eq!(rt; (k.core().0, k.retries()), (0, 1));
                assert!(rt; *k.registers() == s.registers);
                assert_eq!(rt; notes.len(), 0);
                match plain(k, &mut s, &mut z, &mut notes)? {
                    Attempt::Committed(k, packet) => {
                        assert_eq!(rt; k.retries(), 1);
                        assert_eq!(rt; packet.byte(7), 4);
                    }
                    _ => assert!(rt; false),
                }
            }
            Recovered::Lost(_, _) => assert!(rt; false),
        }
    }
    Ok(())
}

// Whether these are what an attempt of core 0 hands in: the latch of `LA 1,2048` and twice the
// packet of it, of which byte 7 is the low byte of the next address.
fn are_told(told: &[Handed]) -> bool {
    match told {
        [
            Handed::Fetch(c, 0, latch),
            Handed::Packet(d, 0, Unit::A, p),
            Handed::Packet(e, 0, Unit::B, q),
            Handed::Store(f, 0, store),
        ] => {
            let cores = c.0 == 0 && d.0 == 0 && e.0 == 0 && f.0 == 0;
            let latches = latch.bytes == [0, 4, 0x41, 0x10, 8, 0, 0, 0] && latch.is_good();
            let packets = p.byte(7) == 4 && q.byte(7) == 4 && p.as_bytes() == q.as_bytes();
            cores
                && latches
                && packets
                && store.packet.as_bytes() == p.as_bytes()
                && store.is_good()
        }
        _ => false,
    }
}

/// What one attempt hands in, in its order; a retry hands in nothing.
#[test]
fn tape_of_one_attempt(rt: HostRuntime) -> Result<(), Fail> {
    one_cause();
    passes_unstruck();
    let mut s = new_scene(rt.alloc())?;
    let mut z = TapSilicon::new(rt.alloc(), 16)?;
    match parse(rt.alloc(), b"S 0 0 17") {
        Ok(script) => z.arm(script),
        Err(_) => return Err("no script".into()),
    }
    let k = SpareCore::new(CoreNo(0)).wake(s.registers, &mut z);
    match plain(k, &mut s, &mut z, &mut Notes::new())? {
        Attempt::Failed(k, cause, n) => {
            assert_eq!(rt; (cause, n), (Cause::Store, 0));
            let _ = retry(k, &mut z, &mut Notes::new())?;
        }
        _ => assert!(rt; false),
    }
    assert!(rt; are_told(z.told()));
    Ok(())
}

/// A core that was given up keeps its number.
#[test]
fn given_up(rt: HostRuntime) -> Result<(), Fail> {
    let mut s = new_scene(rt.alloc())?;
    let mut z = armed(rt.alloc(), b"F 0 0 0")?;
    let (k, _) = failed(&mut s, &mut z)?;
    let fenced = k.give_up();
    assert_eq!(rt; fenced.core().0, 0);
    let k = fenced.repaired().wake(s.registers, &mut z);
    assert_eq!(rt; (k.core().0, k.retries()), (0, 0));
    Ok(())
}
