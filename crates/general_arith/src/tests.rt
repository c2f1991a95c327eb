ghost use Rattle.std.specs.Prelude.{◌↔◌, IsTrue};
ghost use Rattle.esa_model.specs.WordRows.{is_rr, is_half, is_shift};

use crate::{Value, half, rr, shift};

const MINUS: u32 = 0xFFFF_FFFF;

const LEAST: u32 = 0x8000_0000;

const MOST: u32 = 0x7FFF_FFFF;

fn value(word: u32, low: u32, cc: u8, fault: u8) -> Value {
    Value {
        word,
        low,
        cc,
        fault,
    }
}

#[tactic(auto, unfolding(esa_model::specs::WordRows::is_rr))]
fn has_word_row(op: u8) -> bool
    ensures { IsTrue result ↔ IsTrue (is_rr op) }
{
    matches!(op, 0x10..=0x1F | 0x54..=0x5F | 0x71)
}

#[tactic(auto, unfolding(esa_model::specs::WordRows::is_half))]
fn has_half_row(op: u8) -> bool
    ensures { IsTrue result ↔ IsTrue (is_half op) }
{
    matches!(op, 0x48..=0x4C | 0xA0 | 0xA1)
}

#[tactic(auto, unfolding(esa_model::specs::WordRows::is_shift))]
fn has_shift_row(op: u8) -> bool
    ensures { IsTrue result ↔ IsTrue (is_shift op) }
{
    matches!(op, 0x88..=0x8F)
}

// AR of the greatest word and 1.
#[test]
#[tactic(auto, unfolding(esa_model::specs::WordRows::is_rr))]
fn overflow(rt: HostRuntime) {
    assert_eq!(rt; rr(0x1A, MOST, 0, 1), value(LEAST, 0, 3, 8));
}

// ALR of X'FFFFFFFF' and 1.
#[test]
#[tactic(auto, unfolding(esa_model::specs::WordRows::is_rr))]
fn carry_and_zero(rt: HostRuntime) {
    assert_eq!(rt; rr(0x1E, MINUS, 0, 1), value(0, 0, 2, 0));
}

// SLA of X'40000000' by 1.
#[test]
#[tactic(auto, unfolding(esa_model::specs::WordRows::is_shift))]
fn bit_unlike_the_sign_is_lost(rt: HostRuntime) {
    assert_eq!(rt; shift(0x8B, 0x4000_0000, 0, 1), value(0, 0, 3, 8));
}

/// Opcode, register, second word of the pair, operand; word, second word, condition code or 4 where
/// it stays, program code or 0.
type WordCase = (u8, u32, u32, u32, u32, u32, u8, u8);

const WORDS: [WordCase; 59] = [
    (0x10, 0, 0, 0, 0, 0, 0, 0), // LPR
    (0x10, 0, 0, MINUS, 1, 0, 2, 0), // LPR
    (0x10, 0, 0, MOST, MOST, 0, 2, 0), // LPR
    (0x10, 0, 0, LEAST, LEAST, 0, 3, 8), // LPR
    (0x11, 0, 0, 0, 0, 0, 0, 0), // LNR
    (0x11, 0, 0, 1, MINUS, 0, 1, 0), // LNR
    (0x11, 0, 0, LEAST, LEAST, 0, 1, 0), // LNR
    (0x12, 9, 0, 0, 0, 0, 0, 0), // LTR
    (0x12, 9, 0, LEAST, LEAST, 0, 1, 0), // LTR
    (0x12, 9, 0, MOST, MOST, 0, 2, 0), // LTR
    (0x13, 0, 0, 0, 0, 0, 0, 0), // LCR
    (0x13, 0, 0, 1, MINUS, 0, 1, 0), // LCR
    (0x13, 0, 0, MINUS, 1, 0, 2, 0), // LCR
    (0x13, 0, 0, LEAST, LEAST, 0, 3, 8), // LCR
    (0x14, 0xF0F0_F0F0, 0, 0x0F0F_0F0F, 0, 0, 0, 0), // NR
    (0x54, 0xFF00_FF00, 0, 0x0FF0_0FF0, 0x0F00_0F00, 0, 1, 0), // N
    (0x15, LEAST, 0, MOST, LEAST, 0, 2, 0), // CLR
    (0x55, 1, 0, 2, 1, 0, 1, 0), // CL
    (0x55, MINUS, 0, MINUS, MINUS, 0, 0, 0), // CL
    (0x16, 0, 0, 0, 0, 0, 0, 0), // OR
    (0x56, 0xF0, 0, 0x0F, 0xFF, 0, 1, 0), // O
    (0x17, MINUS, 0, MINUS, 0, 0, 0, 0), // XR
    (0x57, MINUS, 0, 1, 0xFFFF_FFFE, 0, 1, 0), // X
    (0x18, 9, 0, 0x1234_5678, 0x1234_5678, 0, 4, 0), // LR
    (0x58, 9, 0, 0, 0, 0, 4, 0), // L
    (0x19, LEAST, 0, MOST, LEAST, 0, 1, 0), // CR
    (0x59, 1, 0, MINUS, 1, 0, 2, 0), // C
    (0x59, LEAST, 0, LEAST, LEAST, 0, 0, 0), // C
    (0x1A, MINUS, 0, 1, 0, 0, 0, 0), // AR
    (0x1A, 0, 0, MINUS, MINUS, 0, 1, 0), // AR
    (0x5A, LEAST, 0, LEAST, 0, 0, 3, 8), // A
    (0x5A, 1, 0, 1, 2, 0, 2, 0), // A
    (0x1B, LEAST, 0, 1, MOST, 0, 3, 8), // SR
    (0x1B, 5, 0, 5, 0, 0, 0, 0), // SR
    (0x5B, 0, 0, LEAST, LEAST, 0, 3, 8), // S
    (0x5B, 1, 0, 2, MINUS, 0, 1, 0), // S
    (0x1C, 9, MINUS, LEAST, 0, LEAST, 4, 0), // MR
    (0x1C, 9, MINUS, 2, MINUS, 0xFFFF_FFFE, 4, 0), // MR
    (0x5C, 9, LEAST, LEAST, 0x4000_0000, 0, 4, 0), // M
    (0x1D, MINUS, 0xFFFF_FFF9, 2, MINUS, 0xFFFF_FFFD, 4, 0), // DR
    (0x1D, 0, 7, 0xFFFF_FFFE, 1, 0xFFFF_FFFD, 4, 0), // DR
    (0x1D, 1, 2, 0, 1, 2, 4, 9), // DR
    (0x1D, 0, LEAST, 1, 0, LEAST, 4, 9), // DR
    (0x1D, MINUS, LEAST, 1, 0, LEAST, 4, 0), // DR
    (0x5D, LEAST, 0, MINUS, LEAST, 0, 4, 9), // D
    (0x1E, MINUS, 0, MINUS, 0xFFFF_FFFE, 0, 3, 0), // ALR
    (0x1E, LEAST, 0, LEAST, 0, 0, 2, 0), // ALR
    (0x5E, 0, 0, 0, 0, 0, 0, 0), // AL
    (0x5E, MOST, 0, 1, LEAST, 0, 1, 0), // AL
    (0x1F, 5, 0, 5, 0, 0, 2, 0), // SLR
    (0x1F, 4, 0, 5, MINUS, 0, 1, 0), // SLR
    (0x5F, 5, 0, 4, 1, 0, 3, 0), // SL
    (0x5F, 0, 0, LEAST, LEAST, 0, 1, 0), // SL
    (0x5F, MINUS, 0, 0, MINUS, 0, 3, 0), // SL
    (0x71, LEAST, 0, MINUS, LEAST, 0, 4, 0), // MS
    (0x71, 0x1_0000, 0, 0x1_0000, 0, 0, 4, 0), // MS
    (0x71, 3, 0, 5, 15, 0, 4, 0), // MS
    (0x71, MINUS, 0, MINUS, 1, 0, 4, 0), // MS
    (0x71, 0, 0, LEAST, 0, 0, 4, 0), // MS
];

#[test]
fn words_at_their_edges(rt: HostRuntime) {
    for (op, a, a_low, b, word, low, cc, fault) in WORDS {
        assert!(rt; has_word_row(op));
        assert_eq!(rt;
            rr(op, a, a_low, b),
            value(word, low, cc, fault),
            "row {op} of {a}, {a_low}, {b}"
        );
    }
}

/// Opcode, register, halfword; word, condition code or 4 where it stays, program code or 0.
type HalfCase = (u8, u32, u16, u32, u8, u8);

const HALVES: [HalfCase; 25] = [
    (0x48, 9, 0x8000, 0xFFFF_8000, 4, 0), // LH
    (0x48, 9, 0x7FFF, 0x7FFF, 4, 0), // LH
    (0x48, 9, 0, 0, 4, 0), // LH
    (0x49, 0xFFFF_8000, 0x8000, 0xFFFF_8000, 0, 0), // CH
    (0x49, 0, 0xFFFF, 0, 2, 0), // CH
    (0x49, LEAST, 0x7FFF, LEAST, 1, 0), // CH
    (0x4A, MOST, 1, LEAST, 3, 8), // AH
    (0x4A, 0, 0xFFFF, MINUS, 1, 0), // AH
    (0x4A, 1, 0xFFFF, 0, 0, 0), // AH
    (0x4B, LEAST, 1, MOST, 3, 8), // SH
    (0x4B, 5, 5, 0, 0, 0), // SH
    (0x4B, MOST, 0xFFFF, LEAST, 3, 8), // SH
    (0x4C, 3, 0xFFFF, 0xFFFF_FFFD, 4, 0), // MH
    (0x4C, LEAST, 0xFFFF, LEAST, 4, 0), // MH
    (0x4C, 0x1_0000, 0x7FFF, 0x7FFF_0000, 4, 0), // MH
    (0xA0, 0x0000_FFFF, 0xFFFF, 0x0000_FFFF, 0, 0), // TMH
    (0xA0, MINUS, 0, MINUS, 0, 0), // TMH
    (0xA0, 0x4000_FFFF, 0xC000, 0x4000_FFFF, 1, 0), // TMH
    (0xA0, 0x8000_0000, 0xC000, 0x8000_0000, 2, 0), // TMH
    (0xA0, 0xC000_0000, 0xC000, 0xC000_0000, 3, 0), // TMH
    (0xA1, 0xFFFF_0000, 0xFFFF, 0xFFFF_0000, 0, 0), // TML
    (0xA1, 0x0000_0001, 0x8001, 0x0000_0001, 1, 0), // TML
    (0xA1, 0xFFFF_8000, 0x8001, 0xFFFF_8000, 2, 0), // TML
    (0xA1, 0x0000_0002, 0x0003, 0x0000_0002, 2, 0), // TML
    (0xA1, 0x0000_FFFF, 0x0001, 0x0000_FFFF, 3, 0), // TML
];

#[test]
fn halves_at_their_edges(rt: HostRuntime) {
    for (op, a, b, word, cc, fault) in HALVES {
        assert!(rt; has_half_row(op));
        assert_eq!(rt;
            half(op, a, b),
            value(word, 0, cc, fault),
            "row {op} of {a}, {b}"
        );
    }
}

/// Opcode, register, second word of the pair, places; word, second word, condition code or 4 where
/// it stays, program code or 0.
type ShiftCase = (u8, u32, u32, u8, u32, u32, u8, u8);

const SHIFTS: [ShiftCase; 40] = [
    (0x88, LEAST, 0, 0, LEAST, 0, 4, 0), // SRL
    (0x88, LEAST, 0, 1, 0x4000_0000, 0, 4, 0), // SRL
    (0x88, LEAST, 0, 31, 1, 0, 4, 0), // SRL
    (0x88, LEAST, 0, 32, 0, 0, 4, 0), // SRL
    (0x88, MINUS, 0, 63, 0, 0, 4, 0), // SRL
    (0x89, MINUS, 0, 1, 0xFFFF_FFFE, 0, 4, 0), // SLL
    (0x89, 1, 0, 31, LEAST, 0, 4, 0), // SLL
    (0x89, MINUS, 0, 32, 0, 0, 4, 0), // SLL
    (0x89, MINUS, 0, 63, 0, 0, 4, 0), // SLL
    (0x8A, MINUS, 0, 0, MINUS, 0, 1, 0), // SRA
    (0x8A, 4, 0, 1, 2, 0, 2, 0), // SRA
    (0x8A, LEAST, 0, 31, MINUS, 0, 1, 0), // SRA
    (0x8A, MOST, 0, 31, 0, 0, 0, 0), // SRA
    (0x8A, MOST, 0, 32, 0, 0, 0, 0), // SRA
    (0x8A, LEAST, 0, 63, MINUS, 0, 1, 0), // SRA
    (0x8B, LEAST, 0, 0, LEAST, 0, 1, 0), // SLA
    (0x8B, LEAST, 0, 1, LEAST, 0, 3, 8), // SLA
    (0x8B, 1, 0, 30, 0x4000_0000, 0, 2, 0), // SLA
    (0x8B, 1, 0, 31, 0, 0, 3, 8), // SLA
    (0x8B, MINUS, 0, 31, LEAST, 0, 1, 0), // SLA
    (0x8B, MINUS, 0, 32, LEAST, 0, 3, 8), // SLA
    (0x8B, 0, 0, 63, 0, 0, 0, 0), // SLA
    (0x8C, LEAST, 1, 0, LEAST, 1, 4, 0), // SRDL
    (0x8C, LEAST, 1, 1, 0x4000_0000, 0, 4, 0), // SRDL
    (0x8C, LEAST, 1, 32, 0, LEAST, 4, 0), // SRDL
    (0x8C, LEAST, 1, 63, 0, 1, 4, 0), // SRDL
    (0x8D, 0, LEAST, 1, 1, 0, 4, 0), // SLDL
    (0x8D, 0, LEAST, 32, LEAST, 0, 4, 0), // SLDL
    (0x8D, MINUS, MINUS, 63, LEAST, 0, 4, 0), // SLDL
    (0x8E, 0, LEAST, 0, 0, LEAST, 2, 0), // SRDA
    (0x8E, 0, 1, 1, 0, 0, 0, 0), // SRDA
    (0x8E, MINUS, 0xFFFF_FFFE, 1, MINUS, MINUS, 1, 0), // SRDA
    (0x8E, LEAST, 0, 32, MINUS, LEAST, 1, 0), // SRDA
    (0x8E, LEAST, 0, 63, MINUS, MINUS, 1, 0), // SRDA
    (0x8F, LEAST, 0, 0, LEAST, 0, 1, 0), // SLDA
    (0x8F, 0, LEAST, 31, 0x4000_0000, 0, 2, 0), // SLDA
    (0x8F, 0, LEAST, 32, 0, 0, 3, 8), // SLDA
    (0x8F, MINUS, MINUS, 63, LEAST, 0, 1, 0), // SLDA
    (0x8F, LEAST, 1, 63, LEAST, 0, 3, 8), // SLDA
    (0x8F, 0, 0, 63, 0, 0, 0, 0), // SLDA
];

#[test]
fn shifts_at_their_edges(rt: HostRuntime) {
    for (op, a, a_low, n, word, low, cc, fault) in SHIFTS {
        assert!(rt; has_shift_row(op) && n < 64);
        assert_eq!(rt;
            shift(op, a, a_low, n),
            value(word, low, cc, fault),
            "row {op} of {a}, {a_low} by {n}"
        );
    }
}
