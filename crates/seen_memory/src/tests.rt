// Bytes on their way from a CPU to the storage, and one that another CPU stores again.
use crate::{Memory, Reading};
use abs_storage::{AbsStorage, View};
use esa_model::machine::{CpuNo, Psw, Registers};
use result_packet::{Console, Packet, Side, Written};
use run_model::faults::CoreNo;
use sigp_bus::Bus;
use std::alloc::Global;
use std::test::Fail;
use storage_keys::Keys;
use store_buffer::Holder;

fn new_memory(alloc: Global) -> Result<Memory, Fail> {
    Ok(Memory::new(alloc, AbsStorage::new(alloc, 0x2_0000)?)?)
}

// Bytes are held for a CPU, where they lie inside.
fn hold_for(m: &mut Memory, cpu: u8, at: u32, bytes: &[u8]) -> bool {
    if cpu >= 8 || at >= 0x2_0000 || bytes.is_empty() || bytes.len() > 256 {
        return false;
    }
    m.lend_to(CpuNo(cpu), CoreNo(cpu));
    if at + bytes.len() as u32 > m.size() {
        return false;
    }
    m.hold(at, bytes);
    true
}

fn store_by(m: &mut Memory, cpu: u8, at: u32, bytes: &[u8]) -> bool {
    let done = hold_for(m, cpu, at, bytes);
    m.commit();
    done
}

/// A word is not seen while it is held, and is seen once it is committed; then nothing drops it. A
/// word that is dropped, or whose CPU begins its next attempt, is never seen.
#[test]
fn held_committed_dropped(rt: HostRuntime) -> Result<(), Fail> {
    let mut m = new_memory(rt.alloc())?;
    assert!(rt; hold_for(&mut m, 0, 0x1_2000, &[0, 0, 0, 1]));
    assert_eq!(rt; m.read(0x1_2003), Some(0));
    m.commit();
    assert_eq!(rt; m.read(0x1_2003), Some(1));
    m.drop_held();
    assert_eq!(rt; m.read(0x1_2003), Some(1));
    assert!(rt; hold_for(&mut m, 0, 0x1_2003, &[2]));
    m.drop_held();
    m.commit();
    assert_eq!(rt; m.read(0x1_2003), Some(1));
    assert!(rt; hold_for(&mut m, 0, 0x1_2003, &[2]));
    m.lend_to(CpuNo(0), CoreNo(0));
    m.commit();
    assert_eq!(rt; m.read(0x1_2003), Some(1));
    Ok(())
}

/// The last CPU to commit a byte decides it, whatever its number; CPU 0, whose buffer comes first,
/// has stored the byte before.
#[test]
fn one_byte_of_two_cpus(rt: HostRuntime) -> Result<(), Fail> {
    let mut m = new_memory(rt.alloc())?;
    assert!(rt; store_by(&mut m, 1, 0x2000, &[1, 2, 3, 4]));
    assert!(rt; store_by(&mut m, 0, 0x2001, &[9]));
    assert!(rt; hold_for(&mut m, 7, 0x2001, &[7, 7]));
    let mut reading = Reading { memory: &m };
    assert_eq!(rt; reading.size(), 0x2_0000);
    assert_eq!(rt; reading.byte(0x2001), Some(9));
    m.commit();
    for (at, want) in [
        (0x1FFF, Some(0)),
        (0x2000, Some(1)),
        (0x2001, Some(7)),
        (0x2002, Some(7)),
        (0x2003, Some(4)),
        (0x2_0000, None),
    ] {
        assert_eq!(rt; m.read(at), want, "at {at}");
        assert_eq!(rt; m.byte(at), want, "at {at}");
    }
    Ok(())
}

/// More stores than a buffer has entries.
#[test]
fn many_stores(rt: HostRuntime) -> Result<(), Fail> {
    let mut m = new_memory(rt.alloc())?;
    for k in 0..40u8 {
        assert!(rt; store_by(&mut m, k % 3, 0x3000 + k as u32 * 2, &[k, 0xFF]));
    }
    for k in 0..40u8 {
        assert_eq!(rt; m.read(0x3000 + k as u32 * 2), Some(k));
    }
    Ok(())
}

/// The bytes that a CPU fetches fill lines of its core's cache, and what is read beside it fills none.
/// A line is filled again once a store of another CPU into it has left that CPU's buffer, and once
/// the cache was emptied.
#[test]
fn lines_are_filled_by_cores(rt: HostRuntime) -> Result<(), Fail> {
    let mut m = new_memory(rt.alloc())?;
    m.lend_to(CpuNo(2), CoreNo(9));
    for at in [0x1_2000, 0x1_20FF, 0x1_2100, 0x1_2000, 0x2_0000] {
        assert_eq!(rt; m.byte(at), m.read(at), "at {at}");
    }
    assert_eq!(rt;
        [m.fills(CoreNo(9)), m.fills(CoreNo(2)), m.fills(CoreNo(16))],
        [2, 0, 0]
    );
    for k in 0..6u8 {
        assert!(rt; store_by(&mut m, 0, 0x1_2000 + k as u32, &[k + 1]));
    }
    m.lend_to(CpuNo(2), CoreNo(9));
    // the first two stores have reached the storage, the others are seen in the buffer of CPU 0
    for k in 0..6u8 {
        assert_eq!(rt; m.byte(0x1_2000 + k as u32), Some(k + 1));
    }
    assert_eq!(rt; m.byte(0x1_2100), Some(0));
    assert_eq!(rt; m.fills(CoreNo(9)), 3);
    m.empty_cache();
    assert_eq!(rt; m.byte(0x1_2000), Some(1));
    assert_eq!(rt; m.byte(0x1_2100), Some(0));
    assert_eq!(rt; m.fills(CoreNo(9)), 5);
    Ok(())
}

// Carries out a packet of one piece, which is held for CPU 1.
fn carry_out(m: &mut Memory, side: &mut Side, packet: &Packet) -> Option<Written> {
    let mut r = Registers {
        general: [0; 16],
        control: [0; 16],
        psw: Psw { w0: 0, w1: 0 },
        prefix: 0,
        clocks: [0; 4],
    };
    m.lend_to(CpuNo(1), CoreNo(1));
    let pieces = packet.stores(r.prefix, m.size());
    match pieces.as_slice() {
        [piece] => {
            m.hold(piece.at, piece.bytes.as_slice());
            let mut written = Written::new();
            m.carry_out(side, CpuNo(1), &mut r, packet, &mut written);
            Some(written)
        }
        _ => None,
    }
}

/// A packet that stores one byte, carried out twice: the second time nothing changes.
#[test]
fn packet_of_one_byte(rt: HostRuntime) -> Result<(), Fail> {
    let (Ok(keys), Ok(bus)) = (Keys::new(rt.alloc(), 32), Bus::new(rt.alloc(), 2)) else {
        return Err("no memory".into());
    };
    let mut side = Side {
        keys,
        bus,
        console: Console::new(Vec::new(rt.alloc())),
        clock: 0,
    };
    let mut m = new_memory(rt.alloc())?;
    let mut packet = Packet::zeros();
    packet.set_piece_len(0, 1);
    packet.set_piece_at(0, 0x4020);
    packet.set_tail_byte(0, 5);
    for want in [1, 0] {
        match carry_out(&mut m, &mut side, &packet) {
            Some(written) => assert_eq!(rt; written.changed.len(), want),
            None => assert!(rt; false),
        }
        assert_eq!(rt; m.read(0x4020), Some(5));
    }
    Ok(())
}
