// Rows on bytes and on decimal fields, worked by hand from the Principles of Operation: that each
// takes its own operands, byte after byte, and puts addresses into registers by the mode. An
// instruction is a number of six bytes, and its operands are numbers of eight bytes at X'200' and
// at X'300', where registers 4 and 5 point.
ghost use Rattle.std.specs.Prelude.{IfSome, IsTrue};
ghost use Rattle.esa_model.specs.Rows.All.{is_of_kind};
ghost use Rattle.row_frame.specs.Made.{IsInRange};

use crate::{bytes, decimals};
use abs_storage::AbsStorage;
use esa_model::events::Interruption;
use esa_model::machine::{Psw, Registers};
use esa_table::{Kind, decode, kind, row};
use operand_access::Operands;
use row_frame::{Effect, Instruction};
use std::alloc::Global;
use std::test::Fail;

/// Registers 1 and 2 at first.
const MARK: u32 = 0xA1B2_C3D4;

const SECOND_MARK: u32 = 0xB2C3_D4E5;

/// The second word of a PSW in 31-bit mode, and in 24-bit mode.
const WIDE: u32 = 0x8000_1000;

const NARROW: u32 = 0x1000;

/// Registers in the mode of a PSW's second word, with condition code 3, registers 1 and 2 marked
/// and registers 8 to 11 as they are given.
fn registers(w1: u32, long: [u32; 4]) -> Registers {
    let mut general = [0xFFFF_FFFF; 16];
    general[1] = MARK;
    general[2] = SECOND_MARK;
    general[4] = 0x200;
    general[5] = 0x300;
    general[8..12].copy_from_slice(&long);
    Registers {
        general,
        control: [0; 16],
        psw: Psw {
            w0: 0x0008_3000,
            w1,
        },
        prefix: 0,
        clocks: [0; 4],
    }
}

fn put(storage: &mut AbsStorage, at: u32, number: u64) {
    let mut next = at;
    for byte in number.to_be_bytes() {
        let _ = storage.store(next, byte);
        next = next.saturating_add(1);
    }
}

/// Storage of one page, zero but for eight bytes at each of two addresses.
fn new_storage(alloc: Global, at: [u32; 2], numbers: [u64; 2]) -> Result<AbsStorage, Fail> {
    let Ok(mut storage) = AbsStorage::new(alloc, 0x1000) else {
        return Err("no memory".into());
    };
    put(&mut storage, at[0], numbers[0]);
    put(&mut storage, at[1], numbers[1]);
    Ok(storage)
}

struct Placed {
    instruction: Instruction,
    kind: Kind,
    opcode: u16,
}

/// An instruction at X'1000'.
fn place(code: u64) -> Option<Placed>
    ensures range { IfSome result (λ p. IsInRange p.instruction.decoded) }
    ensures known { IfSome result (λ p. IsTrue (is_of_kind p.kind p.opcode)) }
{
    let [_, _, a, b, c, d, e, f] = code.to_be_bytes();
    let decoded = decode(&[a, b, c, d, e, f])?;
    let opcode = row(decoded.row)?.opcode;
    let kind = kind(decoded.row)?;
    let instruction = Instruction {
        decoded,
        own: 0x1000,
        len: match a {
            0..=0x3F => 2,
            0x40..=0xBF => 4,
            _ => 6,
        },
    };
    Some(Placed {
        instruction,
        kind,
        opcode,
    })
}

/// The operands of an instruction, and what it does; None where its numbers are not in order.
#[tactic(auto, unfolding(esa_model::specs::Rows::All::is_of_kind))]
fn run(code: u64, r: &Registers, storage: &mut AbsStorage) -> Option<(Operands, Effect)> {
    let Placed {
        instruction: i,
        kind,
        opcode,
    } = place(code)?;
    match kind {
        Kind::Bytes(kind) if bytes::in_order(kind, opcode, r, storage, &i) => {
            let os = bytes::operands(kind, opcode, r, storage, &i);
            Some((os, bytes::effect_of(kind, opcode, r, storage, &i)))
        }
        Kind::Decimals(kind) if decimals::in_order(kind, opcode, r, storage, &i) => {
            let os = decimals::operands(kind, opcode, r, storage, &i);
            Some((os, decimals::effect_of(kind, opcode, r, storage, &i)))
        }
        _ => None,
    }
}

/// The number that at most eight bytes spell.
fn number_of(bytes: &[u8]) -> u64 {
    bytes.iter().fold(0u64, |number, byte| {
        number.wrapping_mul(256).wrapping_add(u64::from(*byte))
    })
}

/// The instruction, the words at X'200' and at X'300'; whether the first operand is fetched; how
/// many bytes are stored, and their number; the condition code after it.
type StoreCase = (u64, u32, u32, bool, usize, u64, u8);

const STORE_CASES: [StoreCase; 15] = [
    // MVN 0(1,4),0(5), MVC 0(2,4),0(5), CLC 0(2,4),0(5)
    (0xD100_4000_5000, 0x1200_0000, 0xA500_0000, true, 1, 0x15, 3),
    (
        0xD201_4000_5000,
        0x0102_0000,
        0x0506_0000,
        false,
        2,
        0x506,
        3,
    ),
    (0xD501_4000_5000, 0x1234_0000, 0x1300_0000, true, 0, 0, 1),
    // the first operand one byte after the second: MVC 1(3,5),0(5), NC, XC; and at the same place
    (0xD202_5001_5000, 0, 0x0102_0304, false, 3, 0x01_0101, 3),
    (0xD402_5001_5000, 0, 0x0FFF_FFF0, true, 3, 0x0F_0F00, 1),
    (0xD702_5001_5000, 0, 0x0103_0200, true, 3, 0x02_0000, 1),
    (0xD702_5000_5000, 0, 0x0103_0200, true, 3, 0, 0),
    // TR 0(3,4),0(5), TR 1(2,5),0(5), MVCIN 0(3,4),2(5)
    (
        0xDC02_4000_5000,
        0x0103_0000,
        0x1011_1213,
        true,
        3,
        0x11_1310,
        3,
    ),
    (0xDC01_5001_5000, 0, 0x0700_0100, true, 2, 0x0707, 3),
    (0xE802_4000_5002, 0, 0x0102_0300, false, 3, 0x03_0201, 3),
    // AP 0(2,4),0(1,5), ZAP 0(2,4),0(1,5), CP 0(2,4),0(1,5), SRP 0(3,4),63,5
    (
        0xFA10_4000_5000,
        0x999C_0000,
        0x1C00_0000,
        true,
        2,
        0x000C,
        3,
    ),
    (
        0xF810_4000_5000,
        0xAAAA_0000,
        0x2F00_0000,
        false,
        2,
        0x2C,
        2,
    ),
    (0xF910_4000_5000, 0x001C_0000, 0x2C00_0000, true, 0, 0, 1),
    (0xF025_4000_003F, 0x1234_5C00, 0, true, 3, 0x01_235C, 2),
    // CVD 6,0(0,5)
    (0x4E60_5000_0000, 0, 0, false, 8, 0x1D, 3),
];

#[test]
fn rows_that_store(rt: HostRuntime) -> Result<(), Fail> {
    let r = registers(WIDE, [0; 4]);
    for (code, first, second, fetched, count, stored, condition) in STORE_CASES {
        let numbers = [u64::from(first) << 32, u64::from(second) << 32];
        let mut storage = new_storage(rt.alloc(), [0x200, 0x300], numbers)?;
        let Some((os, e)) = run(code, &r, &mut storage) else {
            return Err("a row is not in order".into());
        };
        assert_eq!(rt; os.first.fetch, fetched, "row {code}");
        assert_eq!(rt; e.stored.len(), count, "row {code}");
        assert_eq!(rt; number_of(e.stored.as_slice()), stored, "row {code}");
        assert_eq!(rt; e.registers.psw.condition_code(), condition, "row {code}");
    }
    Ok(())
}

/// TRT 0(3,4),0(5), EDMK 0(7,4),0(5) and CVB 1,0(0,5).
const TEST: u64 = 0xDD02_4000_5000;

const EDIT: u64 = 0xDF06_4000_5000;

const CONVERT: u64 = 0x4F10_5000_0000;

const PATTERN: u64 = 0x4020_2021_4B20_2000;

const SHOWN: u64 = 0x40_4040_F14B_F2F3;

/// The instruction, the second word of the PSW, the bytes at X'200' and at X'300'; the number of
/// the bytes that are stored; the condition code, register 1 and the last byte of register 2 after
/// it.
type MarkCase = (u64, u32, u64, u64, u64, u8, u32, u8);

const MARK_CASES: [MarkCase; 6] = [
    // the function byte of 7 is 9
    (TEST, WIDE, 0x01_0707 << 40, 9, 0, 1, 0x201, 9),
    (TEST, NARROW, 0x01_0207 << 40, 9, 0, 2, 0xA100_0202, 9),
    (TEST, WIDE, 0x01_0203 << 40, 9, 0, 0, MARK, 0xE5),
    (EDIT, WIDE, PATTERN, 0x123C << 40, SHOWN, 2, 0x203, 0xE5),
    (
        EDIT,
        NARROW,
        PATTERN,
        0x123C << 40,
        SHOWN,
        2,
        0xA100_0203,
        0xE5,
    ),
    (CONVERT, WIDE, 0, 0x1B, 0, 3, 0xFFFF_FFFF, 0xE5),
];

#[test]
fn rows_that_mark(rt: HostRuntime) -> Result<(), Fail> {
    for (code, w1, first, second, stored, condition, mark, last) in MARK_CASES {
        let r = registers(w1, [0; 4]);
        let mut storage = new_storage(rt.alloc(), [0x200, 0x300], [first, second])?;
        let Some((_, e)) = run(code, &r, &mut storage) else {
            return Err("a row is not in order".into());
        };
        assert_eq!(rt; number_of(e.stored.as_slice()), stored, "row {code}");
        assert_eq!(rt; e.registers.psw.condition_code(), condition, "row {code}");
        assert_eq!(rt; e.registers.general[1], mark, "row {code}");
        assert_eq!(rt;
            e.registers.general[2] % 0x100,
            u32::from(last),
            "row {code}"
        );
    }
    Ok(())
}

/// MVCL 8,10 or CLCL 8,10, the second word of the PSW, registers 8 to 11, the bytes where they
/// point; how many bytes are stored; the condition code, the address and the registers after it.
type UnitCase = (u64, u32, [u32; 4], [u64; 2], usize, u8, u32, [u32; 4]);

const MOVE: u64 = 0x0E8A_0000_0000;

const COMPARE: u64 = 0x0F8A_0000_0000;

const UNIT_CASES: [UnitCase; 6] = [
    // 600 bytes: the first unit, and the last
    (
        MOVE,
        WIDE,
        [0x8000_0400, 0x7700_0258, 0x8000_0800, 0x4000_0258],
        [0, 0x11],
        256,
        3,
        0x1000,
        [0x500, 0x7700_0158, 0x900, 0x4000_0158],
    ),
    (
        MOVE,
        WIDE,
        [0x600, 0x7700_0058, 0xA00, 0x4000_0058],
        [0, 0x33],
        88,
        0,
        0x1002,
        [0x658, 0x7700_0000, 0xA58, 0x4000_0000],
    ),
    // in 24-bit mode, with a pad byte
    (
        MOVE,
        0x1000,
        [0xFF00_0400, 2, 0xEE00_0800, 0x4000_0001],
        [0, 0x11 << 56],
        2,
        2,
        0x1002,
        [0x402, 0, 0x801, 0x4000_0000],
    ),
    // a byte would be fetched after it was stored into
    (
        MOVE,
        WIDE,
        [0x8000_0801, 3, 0x800, 3],
        [0, 0],
        0,
        3,
        0x1002,
        [0x8000_0801, 3, 0x800, 3],
    ),
    // unequal at the second byte; equal so far
    (
        COMPARE,
        WIDE,
        [0x8000_0400, 0x7700_0003, 0x8000_0800, 0x4000_0003],
        [0x01_0203 << 40, 0x01_0303 << 40],
        0,
        1,
        0x1002,
        [0x401, 0x7700_0002, 0x801, 0x4000_0002],
    ),
    (
        COMPARE,
        WIDE,
        [0x8000_0400, 0x258, 0x8000_0800, 0x258],
        [0, 0],
        0,
        3,
        0x1000,
        [0x500, 0x158, 0x900, 0x158],
    ),
];

#[test]
fn long_units(rt: HostRuntime) -> Result<(), Fail> {
    for (code, w1, long, numbers, count, condition, next, after) in UNIT_CASES {
        let at = [long[0] % 0x1000, long[2] % 0x1000];
        let mut storage = new_storage(rt.alloc(), at, numbers)?;
        let Some((_, e)) = run(code, &registers(w1, long), &mut storage) else {
            return Err("a row is not in order".into());
        };
        assert_eq!(rt; e.stored.len(), count, "row {code}");
        assert_eq!(rt; e.registers.psw.condition_code(), condition, "row {code}");
        assert_eq!(rt; e.registers.psw.address(), next, "row {code}");
        assert_eq!(rt;
            e.registers.general,
            registers(w1, after).general,
            "row {code}"
        );
    }
    Ok(())
}

/// An instruction, the bytes at X'200' and at X'300'; the interruption after it and its code; the
/// program code that suppresses it.
type EndCase = (u64, u64, u64, Option<Interruption>, u8, u8);

const OVERFLOW: Option<Interruption> = Some(Interruption::Program);

const END_CASES: [EndCase; 4] = [
    // AP 0(2,4),0(1,5), DP 0(3,4),0(1,5) by zero
    (0xFA10_4000_5000, 0x999C << 48, 0x1C << 56, OVERFLOW, 10, 0),
    (0xFD20_4000_5000, 0x123C << 40, 0x0C << 56, None, 0, 11),
    // ED 0(2,4),0(5) of a bad digit, CVB 1,0(0,5) of a number that is too large
    (0xDE01_4000_5000, 0x4020 << 48, 0xA2 << 56, None, 0, 7),
    (CONVERT, 0, 0x0000_0214_7483_648C, None, 0, 9),
];

/// A decimal overflow interrupts where its mask bit is one; other codes suppress.
#[test]
fn exceptions(rt: HostRuntime) -> Result<(), Fail> {
    let mut r = registers(WIDE, [0; 4]);
    r.psw.w0 = 0x0008_0400;
    for (code, first, second, interruption, program_code, fault) in END_CASES {
        let mut storage = new_storage(rt.alloc(), [0x200, 0x300], [first, second])?;
        let Some((_, e)) = run(code, &r, &mut storage) else {
            return Err("a row is not in order".into());
        };
        assert!(rt; e.interruption == interruption, "row {code}");
        assert_eq!(rt; [e.code, e.fault], [program_code, fault], "row {code}");
    }
    // MP of a multiplier of nine bytes, and of one as long as its first operand; MVCL 8,11
    let mut storage = new_storage(rt.alloc(), [0, 0], [0, 0])?;
    for code in [0xFC98_4000_5000, 0xFC11_4000_5000, 0x0E8B_0000_0000] {
        assert!(rt; run(code, &r, &mut storage).is_none(), "row {code}");
    }
    Ok(())
}
