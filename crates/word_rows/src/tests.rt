// Rows of each class, worked by hand from the Principles of Operation: that each takes its own
// registers, address and mask.
ghost use Rattle.std.specs.Prelude.{IfSome, IsTrue};
ghost use Rattle.esa_model.specs.Rows.All.{is_of_kind};
ghost use Rattle.row_frame.specs.Made.{IsInRange};

use crate::{branches, stores, words};
use abs_storage::AbsStorage;
use esa_model::events::Interruption;
use esa_model::machine::{Psw, Registers};
use esa_table::{Kind, decode, kind, row};
use row_frame::{Effect, Instruction};
use std::alloc::Global;
use std::test::Fail;

const GREATEST: u32 = 0x7FFF_FFFF;

/// Register n has n, but register 2 has X'100' and register 10 the greatest number; the instruction
/// is at X'1000', in 31-bit mode, with condition code 3.
fn registers() -> Registers {
    Registers {
        general: [
            0, 1, 0x100, 3, 4, 5, 6, 7, 8, 9, GREATEST, 11, 12, 13, 14, 15,
        ],
        control: [0; 16],
        psw: Psw {
            w0: 0x0008_3000,
            w1: 0x8000_1000,
        },
        prefix: 0,
        clocks: [0; 4],
    }
}

/// Storage of one page with the words X'00000001', X'807F00FF', 0 and 1 at X'200'.
fn new_storage(alloc: Global) -> Result<AbsStorage, Fail> {
    let Ok(mut storage) = AbsStorage::new(alloc, 0x1000) else {
        return Err("no memory".into());
    };
    for (at, byte) in [
        (0x203, 1),
        (0x204, 0x80),
        (0x205, 0x7F),
        (0x207, 0xFF),
        (0x20F, 1),
    ] {
        let _ = storage.store(at, byte);
    }
    Ok(storage)
}

struct Placed {
    instruction: Instruction,
    kind: Kind,
    opcode: u16,
}

/// An instruction at X'1000'.
fn place(code: [u8; 4]) -> Option<Placed>
    ensures range { IfSome result (λ p. IsInRange p.instruction.decoded) }
    ensures known { IfSome result (λ p. IsTrue (is_of_kind p.kind p.opcode)) }
{
    let decoded = decode(&[code[0], code[1], code[2], code[3], 0, 0])?;
    let opcode = row(decoded.row)?.opcode;
    let kind = kind(decoded.row)?;
    let instruction = Instruction {
        decoded,
        own: 0x1000,
        len: if code[0] < 0x40 { 2 } else { 4 },
    };
    Some(Placed {
        instruction,
        kind,
        opcode,
    })
}

/// Whether the first operand of an instruction is fetched, and what the instruction does; None
/// where its numbers are not in order.
#[tactic(auto, unfolding(esa_model::specs::Rows::All::is_of_kind))]
fn run(code: [u8; 4], r: &Registers, storage: &mut AbsStorage) -> Option<(bool, Effect)> {
    let Placed {
        instruction: i,
        kind,
        opcode,
    } = place(code)?;
    match kind {
        Kind::Words(kind) if words::in_order(kind, opcode, r, storage, &i) => {
            let os = words::operands(kind, opcode, r, storage, &i);
            Some((
                os.first.fetch,
                words::effect_of(kind, opcode, r, storage, &i),
            ))
        }
        Kind::Branches(kind) if branches::in_order(kind, opcode, r, storage, &i) => {
            let os = branches::operands(kind, opcode, r, storage, &i);
            Some((
                os.first.fetch,
                branches::effect_of(kind, opcode, r, storage, &i),
            ))
        }
        Kind::Stores(kind) if stores::in_order(kind, opcode, r, storage, &i) => {
            let os = stores::operands(kind, opcode, r, storage, &i);
            Some((
                os.first.fetch,
                stores::effect_of(kind, opcode, r, storage, &i),
            ))
        }
        _ => None,
    }
}

/// The instruction; whether its operand is fetched; a register and its word after it; the condition
/// code and the address after it.
type LoadCase = ([u8; 4], bool, usize, u32, u8, u32);

const LOAD_CASES: [LoadCase; 26] = [
    // A 3,X'104'(2), AR 10,1, AHI 3,-2
    ([0x5A, 0x32, 0x01, 0x04], true, 3, 0x807F_0102, 1, 0x1004),
    ([0x1A, 0xA1, 0, 0], false, 10, 0x8000_0000, 3, 0x1002),
    ([0xA7, 0x3A, 0xFF, 0xFE], false, 3, 1, 2, 0x1004),
    // MR 4,5, MSR 5,5, DR 0,7
    ([0x1C, 0x45, 0, 0], false, 5, 25, 3, 0x1002),
    ([0xB2, 0x52, 0, 0x55], false, 5, 25, 3, 0x1004),
    ([0x1D, 0x07, 0, 0], false, 0, 1, 3, 0x1002),
    // LA 3,X'100'(2,2), LH 3,X'104'(0,2), SLDL 0,X'60' by the low six bits
    ([0x41, 0x32, 0x21, 0x00], false, 3, 0x300, 3, 0x1004),
    ([0x48, 0x30, 0x21, 0x04], true, 3, 0xFFFF_807F, 3, 0x1004),
    ([0x8D, 0x00, 0x00, 0x60], false, 0, 1, 3, 0x1004),
    // BCTR 3,2, BCT 1,X'100'(0,2), BRCT 3,*-4
    ([0x06, 0x32, 0, 0], false, 3, 2, 3, 0x100),
    ([0x46, 0x10, 0x21, 0x00], false, 1, 0, 3, 0x1004),
    ([0xA7, 0x36, 0xFF, 0xFE], false, 3, 2, 3, 0xFFC),
    // BXH 4,5,X'100'(2), whose comparand is the odd register as it was; BALR 1,2, IPM 3
    ([0x86, 0x45, 0x21, 0x00], false, 4, 9, 3, 0x200),
    ([0x05, 0x12, 0, 0], false, 1, 0x8000_1002, 3, 0x100),
    ([0xB2, 0x22, 0, 0x30], false, 3, 0x3000_0003, 3, 0x1004),
    // LM 15,1,X'100'(2): register 0 after 15
    ([0x98, 0xF1, 0x21, 0x00], true, 15, 1, 3, 0x1004),
    ([0x98, 0xF1, 0x21, 0x00], true, 0, 0x807F_00FF, 3, 0x1004),
    ([0x98, 0xF1, 0x21, 0x00], true, 2, 0x100, 3, 0x1004),
    // IC 3,X'107'(0,2), ICM 3,5,X'104'(2), ICM 3,0,X'104'(2)
    ([0x43, 0x30, 0x21, 0x07], true, 3, 0xFF, 3, 0x1004),
    ([0xBF, 0x35, 0x21, 0x04], true, 3, 0x0080_007F, 1, 0x1004),
    ([0xBF, 0x30, 0x21, 0x04], true, 3, 3, 0, 0x1004),
    // CLM 3,3,X'104'(2), TM X'104'(2),X'C0', CLI X'104'(2),X'7F'
    ([0xBD, 0x33, 0x21, 0x04], true, 3, 3, 1, 0x1004),
    ([0x91, 0xC0, 0x21, 0x04], true, 0, 0, 1, 0x1004),
    ([0x95, 0x7F, 0x21, 0x04], true, 0, 0, 2, 0x1004),
    // CS 3,4,X'100'(2) and CDS 4,6,X'108'(2), unequal
    ([0xBA, 0x34, 0x21, 0x00], true, 3, 1, 1, 0x1004),
    ([0xBB, 0x46, 0x21, 0x08], true, 5, 1, 1, 0x1004),
];

#[test]
fn rows_that_store_nothing(rt: HostRuntime) -> Result<(), Fail> {
    let mut storage = new_storage(rt.alloc())?;
    let r = registers();
    for (code, fetched, n, word, condition, next) in LOAD_CASES {
        let Some((fetch, e)) = run(code, &r, &mut storage) else {
            return Err("a row is not in order".into());
        };
        let loaded = e.registers.general.get(n).copied();
        assert_eq!(rt; fetch, fetched, "row {}", code[0]);
        assert_eq!(rt; loaded, Some(word), "row {}", code[0]);
        assert_eq!(rt;
            e.registers.psw.condition_code(),
            condition,
            "row {}",
            code[0]
        );
        assert_eq!(rt; e.registers.psw.address(), next, "row {}", code[0]);
        assert_eq!(rt; e.stored.len(), 0, "row {}", code[0]);
    }
    Ok(())
}

/// The instruction; whether its operand is fetched; how many bytes are stored, and their number;
/// the condition code after it.
type StoreCase = ([u8; 4], bool, usize, u64, u8);

const STORE_CASES: [StoreCase; 9] = [
    // STH 10,X'100'(0,2), STC 3,X'100'(0,2), ST 2,X'100'(0,2)
    ([0x40, 0xA0, 0x21, 0x00], false, 2, 0xFFFF, 3),
    ([0x42, 0x30, 0x21, 0x00], false, 1, 3, 3),
    ([0x50, 0x20, 0x21, 0x00], false, 4, 0x100, 3),
    // STM 15,0,X'100'(2), STCM 10,9,X'100'(2)
    ([0x90, 0xF0, 0x21, 0x00], false, 8, 0xF_0000_0000, 3),
    ([0xBE, 0xA9, 0x21, 0x00], false, 2, 0x7FFF, 3),
    // MVI X'100'(2),X'C1', XI X'105'(2),X'FF', TS X'104'(2)
    ([0x92, 0xC1, 0x21, 0x00], false, 1, 0xC1, 3),
    ([0x97, 0xFF, 0x21, 0x05], true, 1, 0x80, 1),
    ([0x93, 0, 0x21, 0x04], true, 1, 0xFF, 1),
    // CDS 0,6,X'108'(2), equal
    ([0xBB, 0x06, 0x21, 0x08], false, 8, 0x6_0000_0007, 0),
];

/// The number that at most eight bytes spell.
fn number_of(bytes: &[u8]) -> u64 {
    bytes.iter().fold(0u64, |number, byte| {
        number.wrapping_mul(256).wrapping_add(u64::from(*byte))
    })
}

#[test]
fn rows_that_store(rt: HostRuntime) -> Result<(), Fail> {
    let mut storage = new_storage(rt.alloc())?;
    let r = registers();
    for (code, fetched, count, stored, condition) in STORE_CASES {
        let Some((fetch, e)) = run(code, &r, &mut storage) else {
            return Err("a row is not in order".into());
        };
        assert_eq!(rt; fetch, fetched, "row {}", code[0]);
        assert_eq!(rt; e.stored.len(), count, "row {}", code[0]);
        assert_eq!(rt; number_of(e.stored.as_slice()), stored, "row {}", code[0]);
        assert_eq!(rt;
            e.registers.psw.condition_code(),
            condition,
            "row {}",
            code[0]
        );
    }
    Ok(())
}

/// What does not end with a result alone: an overflow that interrupts, a call, a divide exception,
/// and numbers that are not in order.
#[test]
fn exceptions(rt: HostRuntime) -> Result<(), Fail> {
    let mut storage = new_storage(rt.alloc())?;
    let mut r = registers();
    r.psw.w0 = 0x0008_3800;
    for (code, interruption, program_code, fault) in [
        // AR 10,1, SVC X'C9', DR 0,0
        ([0x1A, 0xA1, 0, 0], Some(Interruption::Program), 8, 0),
        (
            [0x0A, 0xC9, 0, 0],
            Some(Interruption::SupervisorCall),
            0xC9,
            0,
        ),
        ([0x1D, 0x00, 0, 0], None, 0, 9),
    ] {
        let Some((_, e)) = run(code, &r, &mut storage) else {
            return Err("a row is not in order".into());
        };
        assert!(rt; e.interruption == interruption, "row {}", code[0]);
        assert_eq!(rt; [e.code, e.fault], [program_code, fault], "row {}", code[0]);
    }
    // MR 3,5, CS off a word, CDS off a doubleword, CDS with odd registers
    for code in [
        [0x1C, 0x35, 0, 0],
        [0xBA, 0x14, 0x21, 0x02],
        [0xBB, 0x06, 0x21, 0x04],
        [0xBB, 0x16, 0x21, 0x08],
        [0xBB, 0x07, 0x21, 0x08],
    ] {
        assert!(rt; run(code, &r, &mut storage).is_none(), "row {}", code[0]);
    }
    Ok(())
}
