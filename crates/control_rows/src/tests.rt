// Rows by their words, worked by hand from the Principles of Operation.
ghost use Rattle.std.specs.Prelude.{IfSome, IsTrue};
ghost use Rattle.esa_model.specs.Rows.Controls.{has_control};
ghost use Rattle.row_frame.specs.Made.{IsInRange};

use crate::{effect_of, in_order, operands};
use abs_storage::AbsStorage;
use esa_model::codes::ADDRESSING;
use esa_model::events::{KeySet, SentOrder};
use esa_model::kinds::{ControlKind, Kind};
use esa_model::machine::{CpuNo, Psw, Registers};
use esa_table::{decode, kind, row};
use result_packet::{Console, Side};
use row_frame::{Effect, Instruction};
use sigp_bus::Bus;
use std::alloc::Global;
use std::test::Fail;
use storage_keys::Keys;

const CPU: CpuNo = CpuNo(1);

/// A control row where it stands.
#[derive(Clone, Copy)]
struct ControlRow {
    kind: ControlKind,
    opcode: u16,
    instruction: Instruction,
}

/// The control row that a word names, at X'1000'.
#[tactic(auto, unfolding(esa_model::specs::Rows::All::is_of_kind))]
fn row_of_word(word: u32) -> Option<ControlRow>
    ensures fields { IfSome result (λ p. IsInRange p.instruction.decoded) }
    ensures known { IfSome result (λ p. IsTrue (has_control p.kind p.opcode)) }
{
    let [first, second, third, fourth] = word.to_be_bytes();
    let decoded = decode(&[first, second, third, fourth, 0, 0])?;
    let row = row(decoded.row)?;
    let Some(Kind::Controls(kind)) = kind(decoded.row) else {
        return None;
    };
    Some(ControlRow {
        kind,
        opcode: row.opcode,
        instruction: Instruction {
            decoded,
            own: 0x1000,
            len: 4,
        },
    })
}

/// Control register n has X'C0' plus n. The instruction is in 31-bit mode, the condition code 2,
/// the system mask X'03'. Register 1 has an address in page 1, register 7 one past the storage.
/// The comparator is 7, and the timer was zero at the clock X'FFF'.
fn registers() -> Registers {
    Registers {
        general: [
            0,
            0x1800,
            2,
            5,
            0x202,
            0x1234_56FF,
            257,
            0x2000,
            1,
            0xFFFF_0001,
            10,
            11,
            12,
            13,
            14,
            15,
        ],
        control: [
            0xC0, 0xC1, 0xC2, 0xC3, 0xC4, 0xC5, 0xC6, 0xC7, 0xC8, 0xC9, 0xCA, 0xCB, 0xCC, 0xCD,
            0xCE, 0xCF,
        ],
        psw: Psw {
            w0: 0x0308_2000,
            w1: 0x8000_1000,
        },
        prefix: 0,
        clocks: [7, 0xFFF, 0, 0],
    }
}

/// Block 1 has the key X'36', CPU 1 of three was started, three bytes of console input are left,
/// and the clock is X'1000', as after one event.
fn new_side(alloc: Global) -> Result<Side, Fail> {
    let mut keys = Keys::new(alloc, 2)?;
    keys.set(1, 0x36);
    let mut bus = Bus::new(alloc, 3)?;
    bus.signal(CpuNo(0), CPU, 4);
    let console = Console::new(vec![in alloc; 0xC8u8; 3]?);
    Ok(Side {
        keys,
        bus,
        console,
        clock: 0x1000,
    })
}

fn put(storage: &mut AbsStorage, at: u32, bytes: &[u8]) {
    let mut at = at;
    for b in bytes {
        let _ = storage.store(at, *b);
        at = at.wrapping_add(1);
    }
}

/// Two pages with a PSW, the prefix X'1000', another word and the number 5 from X'200' on.
fn new_storage(alloc: Global) -> Result<AbsStorage, Fail> {
    let mut storage = AbsStorage::new(alloc, 0x2000)?;
    put(&mut storage, 0x200, &[0x01, 0x08, 0x30, 0, 0x80, 0, 4, 0]);
    put(&mut storage, 0x208, &[0x80, 0, 0x1F, 0xFF, 1, 2, 3, 4]);
    put(&mut storage, 0x210, &[0, 0, 0, 0, 0, 0, 0, 5]);
    Ok(storage)
}

/// The address and the length of the first operand, and whether it is fetched and stored; none
/// where the instruction is out of order.
fn operand(word: u32, storage: &AbsStorage, side: &Side) -> Option<(u32, usize, bool, bool)> {
    let r = registers();
    let p = row_of_word(word)?;
    if !in_order(p.kind, p.opcode, &r, CPU, storage, side, &p.instruction) {
        return None;
    }
    let o = operands(p.kind, p.opcode, &r, CPU, storage, side, &p.instruction).first;
    Some((o.at, o.offsets.len(), o.fetch, o.store))
}

/// What a row does.
fn effect(word: u32, storage: &mut AbsStorage, side: &Side) -> Result<Effect, Fail> {
    let r = registers();
    match row_of_word(word) {
        Some(p) => Ok(effect_of(p.kind, p.opcode, &r, CPU, storage, side, &p.instruction)),
        None => Err("no control row".into()),
    }
}

/// Each on its boundary, and off it; DIAGNOSE with a function that is none, and with counts of 0
/// and 257.
#[test]
fn operands_and_boundaries(rt: HostRuntime) -> Result<(), Fail> {
    let side = new_side(rt.alloc())?;
    let storage = new_storage(rt.alloc())?;
    for (name, word, first) in [
        ("LPSW", 0x8200_0208, Some((0x208, 8, true, false))),
        ("LPSW", 0x8200_0204, None),
        ("DIAG 4,2", 0x8342_0100, Some((0x202, 2, true, false))),
        ("DIAG 4,3", 0x8343_0104, Some((0x202, 5, false, true))),
        ("DIAG 4,2", 0x8342_0108, None),
        ("DIAG 4,0", 0x8340_0100, None),
        ("DIAG 4,6", 0x8346_0104, None),
        ("STOSM", 0xAD44_1200, Some((0x1A00, 1, false, true))),
        ("STCTL 14,1", 0xB6E1_0200, Some((0x200, 16, false, true))),
        ("LCTL 1,0", 0xB710_0204, Some((0x204, 64, true, false))),
        ("LCTL 1,0", 0xB710_0202, None),
        ("STCK", 0xB205_0201, Some((0x201, 8, false, true))),
        ("SPT", 0xB208_0208, Some((0x208, 8, true, false))),
        ("SPT", 0xB208_0204, None),
        ("STCKC", 0xB207_0208, Some((0x208, 8, false, true))),
        ("STCKC", 0xB207_0204, None),
    ] {
        assert_eq!(rt; operand(word, &storage, &side), first, "{name}");
    }
    Ok(())
}

/// The masks and the PSW, control registers 14, 15, 0 and 1, and the prefix: the number of bytes
/// that are stored and the last of them, the left word of the PSW, control register 0, and the
/// prefix.
#[test]
fn masks_control_registers_and_prefix(rt: HostRuntime) -> Result<(), Fail> {
    let side = new_side(rt.alloc())?;
    let mut storage = new_storage(rt.alloc())?;
    for (name, word, len, last, w0, control, prefix) in [
        ("SSM", 0x8000_0200, 0, None, 0x0108_2000, 0xC0, 0),
        ("LPSW", 0x8200_0200, 0, None, 0x0108_3000, 0xC0, 0),
        ("STOSM", 0xAD44_0300, 1, Some(3), 0x4708_2000, 0xC0, 0),
        ("STCTL", 0xB6E1_0200, 16, Some(0xC1), 0x0308_2000, 0xC0, 0),
        ("LCTL", 0xB7E1_0200, 0, None, 0x0308_2000, 0x8000_1FFF, 0),
        ("SPX", 0xB210_0208, 0, None, 0x0308_2000, 0xC0, 0x1000),
        ("STAP", 0xB212_0202, 2, Some(1), 0x0308_2000, 0xC0, 0),
    ] {
        let e = effect(word, &mut storage, &side)?;
        assert_eq!(rt; e.stored.len(), len, "{name}");
        assert_eq!(rt; e.stored.as_slice().last().copied(), last, "{name}");
        assert_eq!(rt; e.registers.psw.w0, w0, "{name}");
        assert_eq!(rt; e.registers.control[0], control, "{name}");
        assert_eq!(rt; e.registers.prefix, prefix, "{name}");
    }
    Ok(())
}

/// For block 1, whose reference and change bits are one: register 5, the condition code and the
/// key that is set. One byte past the storage there is no block.
#[test]
fn keys_of_blocks(rt: HostRuntime) -> Result<(), Fail> {
    let side = new_side(rt.alloc())?;
    let mut storage = new_storage(rt.alloc())?;
    for (name, word, register, code, set) in [
        ("ISKE 5,1", 0xB229_0051, 0x1234_5636, 2, None),
        ("RRBE 5,1", 0xB22A_0051, 0x1234_56FF, 3, Some(0x32)),
        ("SSKE 5,1", 0xB22B_0051, 0x1234_56FF, 2, Some(0xFE)),
    ] {
        let e = effect(word, &mut storage, &side)?;
        assert_eq!(rt; e.registers.general[5], register, "{name}");
        assert_eq!(rt; e.registers.psw.condition_code(), code, "{name}");
        assert_eq!(rt;
            e.set_key,
            set.map(|key| KeySet { block: 1, key }),
            "{name}"
        );
    }
    let past = effect(0xB22B_0057, &mut storage, &side)?;
    assert_eq!(rt; (past.set_key, past.fault), (None, ADDRESSING), "SSKE 5,7");
    Ok(())
}

/// Two bytes are written; of five that are asked for the three that are left are read. The number
/// of bytes for the console and for the storage, the last of each, how many are read, and register
/// 3.
#[test]
fn console(rt: HostRuntime) -> Result<(), Fail> {
    let side = new_side(rt.alloc())?;
    let mut storage = new_storage(rt.alloc())?;
    for (name, word, written, stored, read, count) in [
        ("DIAG 4,2", 0x8342_0100, (2, Some(0)), (0, None), None, 5),
        (
            "DIAG 4,3",
            0x8343_0104,
            (0, None),
            (3, Some(0xC8)),
            Some(3),
            3,
        ),
    ] {
        let e = effect(word, &mut storage, &side)?;
        let out = e.console_out.as_slice();
        let bytes = e.stored.as_slice();
        assert_eq!(rt; (out.len(), out.last().copied()), written, "{name}");
        assert_eq!(rt; (bytes.len(), bytes.last().copied()), stored, "{name}");
        assert_eq!(rt;
            (e.console_in, e.registers.general[3]),
            (read, count),
            "{name}"
        );
    }
    Ok(())
}

/// SIGP to the CPU itself, which is operating, to CPU 2, which is stopped, and to CPU 5, which is
/// not there; register 9 names CPU 1 by its low half. Register 5, the condition code, and the
/// order that is sent and its CPU.
#[test]
fn orders(rt: HostRuntime) -> Result<(), Fail> {
    let side = new_side(rt.alloc())?;
    let mut storage = new_storage(rt.alloc())?;
    for (name, word, register, code, sent) in [
        ("sense of 1", 0xAE58_0001, 0x1234_56FF, 0, None),
        ("sense of 1", 0xAE59_0001, 0x1234_56FF, 0, None),
        ("sense of 2", 0xAE52_0001, 0x40, 1, None),
        ("restart of 5", 0xAE53_0006, 0x1234_56FF, 3, None),
        ("start of 2", 0xAE52_0004, 0x1234_56FF, 0, Some((4, 2))),
        ("external call", 0xAE58_0F02, 0x1234_56FF, 0, Some((2, 1))),
        ("no order", 0xAE50_0007, 2, 1, None),
    ] {
        let e = effect(word, &mut storage, &side)?;
        assert_eq!(rt; e.registers.general[5], register, "{name}");
        assert_eq!(rt; e.registers.psw.condition_code(), code, "{name}");
        assert_eq!(rt;
            e.sent,
            sent.map(|(order, to)| SentOrder { order, to }),
            "{name}"
        );
    }
    Ok(())
}

/// The clock is stored as it was before the event, with condition code 0. The timer, which is one
/// below zero, becomes 5, so that it is zero at the clock X'1005'.
#[test]
fn clocks(rt: HostRuntime) -> Result<(), Fail> {
    let side = new_side(rt.alloc())?;
    let mut storage = new_storage(rt.alloc())?;
    for (name, word, stored, code, words) in [
        ("STCK", 0xB205_0201, Some(0x1000), 0, [7, 0xFFF, 0, 0]),
        ("SCKC", 0xB206_0210, None, 2, [5, 0xFFF, 0, 0]),
        ("STCKC", 0xB207_0210, Some(7), 2, [7, 0xFFF, 0, 0]),
        ("SPT", 0xB208_0210, None, 2, [7, 0x1005, 0, 0]),
        ("STPT", 0xB209_0210, Some(u64::MAX), 2, [7, 0xFFF, 0, 0]),
    ] {
        let e = effect(word, &mut storage, &side)?;
        let bytes = e.stored.as_slice().first_chunk::<8>().copied();
        assert_eq!(rt; bytes.map(u64::from_be_bytes), stored, "{name}");
        assert_eq!(rt; e.registers.psw.condition_code(), code, "{name}");
        assert_eq!(rt; e.registers.clocks, words, "{name}");
    }
    Ok(())
}
