// The layout of packets and latches, one packet that does everything, and the new PSW of each kind.
ghost use Rattle.std.specs.Prelude.{◌<◌, ◌≤◌, length};

use crate::{
    Console, FetchLatch, Packet, Piece, Side, StoreLatch, interruption_of, key_set_of, psw_left,
    taken_of,
};
use abs_storage::AbsStorage;
use esa_model::events::{Interruption, KeySet, Taken};
use esa_model::machine::{CpuNo, CpuState, Psw, Registers, Request};
use sigp_bus::Bus;
use std::alloc::Global;
use std::test::Fail;
use storage_keys::Keys;

#[test]
fn layout(rt: HostRuntime) {
    let mut p = Packet::zeros();
    p.set_psw(Psw {
        w0: 0x0008_0000,
        w1: 0x8001_0020,
    });
    p.set_general(15, 0x0102_0304);
    p.set_console_count(256);
    p.set_block(7, 0xABCD);
    p.set_clock_word(0, 0x0102_0304_0506_0708);
    p.set_clock_word(3, 0xFF);
    p.set_tail_byte(255, 0xEE);
    p.flip(0);
    p.flip(8 * 511 + 7);
    assert_eq!(rt; p.psw().w0, 0x8008_0000);
    assert_eq!(rt; [p.byte(68), p.byte(71)], [1, 4]);
    assert_eq!(rt; [p.byte(162), p.byte(163)], [1, 0]);
    assert_eq!(rt; [p.byte(192), p.byte(193), p.byte(194)], [0xAB, 0xCD, 0]);
    assert_eq!(rt; [p.byte(195), p.byte(196), p.byte(203)], [0, 1, 8]);
    assert_eq!(rt; [p.byte(227), p.byte(228)], [0xFF, 0]);
    assert_eq!(rt; p.clock_word(0), 0x0102_0304_0506_0708);
    assert_eq!(rt; p.tail_byte(255), 0xEF);
    assert_eq!(rt; p.general(15), 0x0102_0304);
}

/// The numbers of the last interruption, of the last request and of no key, and those after them.
#[test]
fn numbers(rt: HostRuntime) {
    assert_eq!(rt; interruption_of(4), Some(Interruption::Restart));
    assert_eq!(rt; interruption_of(5), None);
    assert_eq!(rt;
        taken_of(4, 7),
        Some(Taken::Request(Request::ExternalCall(CpuNo(7))))
    );
    assert_eq!(rt; taken_of(5, 7), Some(Taken::Restart));
    assert_eq!(rt; taken_of(7, 7), Some(Taken::Request(Request::Timer)));
    assert_eq!(rt; taken_of(8, 7), None);
    let set = KeySet {
        block: 0xFFFE,
        key: 0x30,
    };
    assert_eq!(rt; key_set_of(0xFFFE, 0x30), Some(set));
    assert_eq!(rt; key_set_of(0xFFFF, 0x30), None);
}

#[test]
fn parity(rt: HostRuntime) {
    let fetch = FetchLatch {
        bytes: [0, 2, 0x1A, 0x13, 0, 0, 0, 0],
        odd: false,
    }
    .sealed();
    assert!(rt; !fetch.odd);
    assert!(rt; fetch.is_good());
    let mut store = StoreLatch {
        packet: Packet::zeros(),
        odd: false,
    }
    .sealed();
    assert!(rt; store.odd);
    assert!(rt; store.is_good());
    store.packet.flip(4095);
    assert!(rt; !store.is_good());
}

fn new_side(alloc: Global) -> Result<Side, Fail> {
    let input = vec![in alloc; 0xC8u8; 3];
    match (Keys::new(alloc, 32), Bus::new(alloc, 2), input) {
        (Ok(keys), Ok(bus), Ok(bytes)) => Ok(Side {
            keys,
            bus,
            console: Console::new(bytes),
            clock: 0x5000,
        }),
        _ => Err("no memory".into()),
    }
}

/// Two bytes over a page border, a program interruption, a key, an order, two bytes of console
/// input.
fn eventful() -> Packet {
    let mut p = Packet::zeros();
    p.set_psw(Psw {
        w0: 0x0008_0000,
        w1: 0x8001_0080,
    });
    p.set_kind(1);
    p.set_old_psw(Psw {
        w0: 0x0008_3000,
        w1: 0x8001_0022,
    });
    p.set_identification(0x0002_0008);
    p.set_sigp_cpu(1);
    p.set_sigp_order(4);
    p.set_key_block(2);
    p.set_key(0x30);
    p.set_console_kind(2);
    p.set_console_count(2);
    p.set_piece_len(0, 1);
    p.set_piece_at(0, 0x1FFF);
    p.set_piece_len(1, 1);
    p.set_piece_at(1, 0x2000);
    p.set_block_count(1);
    p.set_block(0, 3);
    p.set_tail_byte(0, 0xAA);
    p.set_tail_byte(1, 0);
    p
}

fn registers() -> Registers {
    Registers {
        general: [1; 16],
        control: [1; 16],
        psw: Psw {
            w0: 0,
            w1: 0x8000_1000,
        },
        prefix: 0x4000,
        clocks: [1; 4],
    }
}

/// The place of a piece, and its byte number `n`.
fn stored_by(pieces: &[Piece], k: usize, n: usize) -> Option<(u32, u8)> {
    let piece = pieces.get(k)?;
    let byte = piece.bytes.as_slice().get(n)?;
    Some((piece.at, *byte))
}

/// The two pieces, and those of the interruption in the prefix's page; without that page the last
/// two are left out.
#[test]
fn pieces(rt: HostRuntime) {
    let stores = eventful().stores(0x4000, 0x2_0000);
    assert_eq!(rt; stores.len(), 4);
    for (k, n, at, byte) in [
        (0, 0, 0x1FFF, 0xAA),
        (1, 0, 0x2000, 0x00),
        (2, 2, 0x4028, 0x30),
        (3, 3, 0x408C, 0x08),
    ] {
        assert_eq!(rt;
            stored_by(stores.as_slice(), k, n),
            Some((at, byte)),
            "piece {k}"
        );
    }
    assert_eq!(rt; eventful().stores(0x4000, 0x4000).len(), 2);
}

#[test]
fn applied(rt: HostRuntime) -> Result<(), Fail> {
    let mut side = new_side(rt.alloc())?;
    let Ok(mut storage) = AbsStorage::new(rt.alloc(), 0x2_0000) else {
        return Err("no memory".into());
    };
    let mut r = registers();
    r.prefix = 0;
    let written = eventful().apply(CpuNo(0), &mut r, &mut storage, &mut side);
    let changed = written.changed.as_slice();
    assert_eq!(rt; changed.len(), 8);
    assert_eq!(rt;
        [changed[0].at, changed[5].at, changed[6].at, changed[7].at],
        [0x29, 0x8D, 0x8F, 0x1FFF]
    );
    assert_eq!(rt;
        [
            changed[0].byte,
            changed[5].byte,
            changed[6].byte,
            changed[7].byte
        ],
        [0x08, 0x02, 0x08, 0xAA]
    );
    assert_eq!(rt;
        [
            side.keys.get(0),
            side.keys.get(1),
            side.keys.get(2),
            side.keys.get(3)
        ],
        [Some(6), Some(6), Some(0x30), Some(4)]
    );
    assert_eq!(rt; side.bus.state(CpuNo(1)), CpuState::Operating);
    assert_eq!(rt; side.console.left(), 1);
    assert_eq!(rt; side.console.ahead(1), None);
    assert_eq!(rt; r.psw.w1, 0x8001_0080);
    assert_eq!(rt; (r.general[0], r.clocks[0]), (0, 0));
    assert_eq!(rt; side.clock, 0x5000);
    Ok(())
}

fn put(storage: &mut AbsStorage, at: u32, bytes: &[u8])
    requires low { at < 256 }
    requires short { length bytes.now ≤ 8 }
{
    for k in 0..bytes.len() {
        let _ = storage.store(at + k as u32, bytes[k]);
    }
}

/// The PSW after an event of each kind, where the bytes that it stores overlap the new PSW of an
/// SVC and the one of a program interruption.
#[test]
fn new_psws(rt: HostRuntime) -> Result<(), Fail> {
    let Ok(mut storage) = AbsStorage::new(rt.alloc(), 0x2_0000) else {
        return Err("no memory".into());
    };
    put(&mut storage, 0, &[0, 8, 0, 0, 0x80, 0, 0, 0x40]);
    put(&mut storage, 88, &[0, 8, 0, 1, 0x80, 0, 1, 0x40]);
    put(&mut storage, 96, &[0, 8, 0, 2, 0x80, 0, 2, 0x40]);
    put(&mut storage, 104, &[0, 8, 0, 3, 0x80, 0, 3, 0x40]);
    let mut r = registers();
    r.prefix = 0;
    let stored = [9, 8, 7, 6, 5, 4, 3, 2];
    for (number, w0, w1) in [
        (0, 0x0000_0000, 0x8000_1000),
        (1, 0x0504_0302, 0x8000_0340),
        (2, 0x0008_0002, 0x0908_0706),
        (3, 0x0008_0001, 0x8000_0140),
        (4, 0x0008_0000, 0x8000_0040),
    ] {
        let kind = interruption_of(number);
        let psw = psw_left(&r, &mut storage, 100, &stored, kind, r.psw, 0x0002_0007);
        assert_eq!(rt; psw, Psw { w0, w1 }, "kind {number}");
    }
    Ok(())
}
