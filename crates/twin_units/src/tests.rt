// Latches and packets of a unit of operation, of a refused fetch, of an early exception and of an external
// interruption.
ghost use Rattle.std.specs.Prelude.{◌<◌};

use crate::{compute, latch};
use abs_storage::AbsStorage;
use esa_model::machine::{CpuNo, Psw, Registers};
use packet_law::Packet;
use result_packet::{Console, FetchLatch, Side};
use sigp_bus::Bus;
use std::alloc::Global;
use std::test::Fail;
use storage_keys::Keys;

/// Two CPUs; an emergency signal of CPU 1 is pending at CPU 0.
fn new_side(alloc: Global) -> Result<Side, Fail> {
    match (Keys::new(alloc, 2), Bus::new(alloc, 2)) {
        (Ok(keys), Ok(mut bus)) => {
            bus.signal(CpuNo(1), CpuNo(0), 3);
            Ok(Side {
                keys,
                bus,
                console: Console::new(Vec::new(alloc)),
                clock: 0,
            })
        }
        _ => Err("no memory".into()),
    }
}

fn put(storage: &mut AbsStorage, at: u32, bytes: &[u8; 8])
    requires { at < 8192 }
{
    for (k, byte) in bytes.iter().enumerate() {
        let _ = storage.store(at + k as u32, *byte);
    }
}

/// Two pages: MVI X'800',X'C8' at X'1000'; the new PSWs of program and of external interruptions.
fn new_storage(alloc: Global) -> Result<AbsStorage, Fail> {
    let mut storage = AbsStorage::new(alloc, 8192)?;
    put(&mut storage, 88, &[0, 8, 0, 0, 0x80, 0, 6, 0]);
    put(&mut storage, 104, &[0, 8, 0, 0, 0x80, 0, 4, 0]);
    put(&mut storage, 0x1000, &[0x92, 0xC8, 8, 0, 0, 0, 0, 0]);
    Ok(storage)
}

/// The latch and the packet of CPU 0 with a PSW; emergency signals are enabled by control register 0.
fn event(rt: &HostRuntime, w0: u32, w1: u32) -> Result<(FetchLatch, Packet), Fail> {
    let side = new_side(rt.alloc())?;
    let mut storage = new_storage(rt.alloc())?;
    let mut control = [0; 16];
    control[0] = 0x0000_4000;
    let r = Registers {
        general: [0; 16],
        control,
        psw: Psw { w0, w1 },
        prefix: 0,
        clocks: [0; 4],
    };
    let told = latch(&r, CpuNo(0), &mut storage, &side);
    let packet = compute(&told, &r, CpuNo(0), &mut storage, &side);
    Ok((told, packet))
}

/// Eight bytes of a packet.
fn eight(p: &Packet, at: u16) -> [u8; 8]
    requires { at < 500 }
{
    [
        p.byte(at),
        p.byte(at + 1),
        p.byte(at + 2),
        p.byte(at + 3),
        p.byte(at + 4),
        p.byte(at + 5),
        p.byte(at + 6),
        p.byte(at + 7),
    ]
}

#[test]
fn a_store(rt: HostRuntime) -> Result<(), Fail> {
    let (told, p) = event(&rt, 0x0008_0000, 0x8000_1000)?;
    assert_eq!(rt; told.bytes, [0, 4, 0x92, 0xC8, 8, 0, 0, 0]);
    assert!(rt; told.odd);
    assert_eq!(rt; eight(&p, 0), [0, 8, 0, 0, 0x80, 0, 0x10, 4]);
    assert_eq!(rt; eight(&p, 72), [0, 0, 0x40, 0, 0, 0, 0, 0]);
    assert_eq!(rt; eight(&p, 140), [0; 8]);
    assert_eq!(rt; eight(&p, 156), [0xFF, 0, 0xFF, 0xFF, 0, 0, 0, 0]);
    assert_eq!(rt; eight(&p, 164), [0, 1, 0, 0, 8, 0, 0, 0]);
    assert_eq!(rt; eight(&p, 172), [0, 0, 0, 0, 1, 0, 0, 1]);
    assert_eq!(rt; eight(&p, 256), [0xC8, 0, 0, 0, 0, 0, 0, 0]);
    Ok(())
}

#[test]
fn a_refused_fetch(rt: HostRuntime) -> Result<(), Fail> {
    let (told, p) = event(&rt, 0x0008_0000, 0x8000_1001)?;
    assert_eq!(rt; told.bytes, [4, 6, 0, 0, 0, 0, 0, 0]);
    assert!(rt; !told.odd);
    assert_eq!(rt; eight(&p, 0), [0, 8, 0, 0, 0x80, 0, 4, 0]);
    assert_eq!(rt; eight(&p, 140), [1, 0, 0, 8, 0, 0, 0x80, 0]);
    assert_eq!(rt; eight(&p, 148), [0x10, 3, 0, 2, 0, 6, 0, 0]);
    assert_eq!(rt; eight(&p, 172), [0; 8]);
    Ok(())
}

#[test]
fn an_early_exception(rt: HostRuntime) -> Result<(), Fail> {
    let (told, p) = event(&rt, 0x0100_0000, 0x8000_1000)?;
    assert_eq!(rt; told.bytes, [3, 0, 0, 0, 0, 0, 0, 0]);
    assert!(rt; told.odd);
    assert_eq!(rt; eight(&p, 0), [0, 8, 0, 0, 0x80, 0, 4, 0]);
    assert_eq!(rt; eight(&p, 140), [1, 0, 1, 0, 0, 0, 0x80, 0]);
    assert_eq!(rt; eight(&p, 148), [0x10, 0, 0, 0, 0, 6, 0, 0]);
    Ok(())
}

#[test]
fn an_emergency_signal(rt: HostRuntime) -> Result<(), Fail> {
    let (told, p) = event(&rt, 0x0108_0000, 0x8000_1000)?;
    assert_eq!(rt; told.bytes, [1, 0, 0, 0, 0, 0, 0, 0]);
    assert!(rt; !told.odd);
    assert_eq!(rt; eight(&p, 0), [0, 8, 0, 0, 0x80, 0, 6, 0]);
    assert_eq!(rt; eight(&p, 140), [3, 0, 1, 8, 0, 0, 0x80, 0]);
    assert_eq!(rt; eight(&p, 148), [0x10, 0, 0, 1, 0x12, 1, 3, 1]);
    Ok(())
}
