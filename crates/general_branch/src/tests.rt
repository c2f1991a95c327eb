ghost use Rattle.std.specs.Prelude.{◌≡◌, ◌↔◌, IsTrue};
ghost use Rattle.esa_model.specs.BranchRows.{is_branch};

use crate::{Decoded, Psw, Registers, branch};

const SPM: u16 = 0x04;

const BALR: u16 = 0x05;

const BCTR: u16 = 0x06;

const BCR: u16 = 0x07;

const BSM: u16 = 0x0B;

const BASSM: u16 = 0x0C;

const BASR: u16 = 0x0D;

const BAL: u16 = 0x45;

const BCT: u16 = 0x46;

const BC: u16 = 0x47;

const BAS: u16 = 0x4D;

const BRXH: u16 = 0x84;

const BRXLE: u16 = 0x85;

const BXH: u16 = 0x86;

const BXLE: u16 = 0x87;

const BRC: u16 = 0xA74;

const BRAS: u16 = 0xA75;

const BRCT: u16 = 0xA76;

const IPM: u16 = 0xB222;

#[tactic(auto, unfolding(esa_model::specs::BranchRows::is_branch))]
fn has_row(op: u16) -> bool
    ensures { IsTrue result ↔ IsTrue (is_branch op) }
{
    matches!(op, SPM..=BCR | BSM..=BASR | BAL..=BC | BAS | BRXH..=BXLE | BRC..=BRCT | IPM)
}

/// Addresses in 31-bit mode have bit 0.
const WIDE: u32 = 0x8001_0000;

const NARROW: u32 = 0x0001_0000;

const NEXT: u32 = 0x0001_0004;

const WIDE_NEXT: u32 = 0x8001_0004;

const TARGET: u32 = 0x0002_0000;

const WIDE_TARGET: u32 = 0x8002_0000;

/// Registers 0 to 3, condition code and program mask as bits 18-23 of the PSW, and its right word;
/// everything else is zero.
fn registers(words: [u32; 4], both: u8, w1: u32) -> Registers {
    let mut general = [0; 16];
    for (register, word) in general.iter_mut().zip(words) {
        *register = word;
    }
    Registers {
        general,
        control: [0; 16],
        psw: psw(both, w1),
        prefix: 0,
        clocks: [0; 4],
    }
}

fn psw(both: u8, w1: u32) -> Psw {
    Psw {
        w0: 0x0008_0000 + u32::from(both) * 0x100,
        w1,
    }
}

fn fields(r1: u8, r2: u8) -> Decoded
    ensures first { result.r1 ≡ r1 }
    ensures second { result.r2 ≡ r2 }
{
    Decoded {
        row: 0,
        r1,
        r2,
        b1: 0,
        d1: 0,
        b2: 0,
        d2: 0,
        imm: 0,
        len: 0,
    }
}

/// Whether a row of length code 2 leaves this word in R1, this PSW, and all else as it was.
fn leaves(op: u16, r1: u8, r2: u8, before: &Registers, word: u32, psw: Psw) -> bool {
    if !has_row(op) || r1 > 15 || r2 > 15 {
        return false;
    }
    let mut after = *before;
    after.general[r1 as usize] = word;
    after.psw = psw;
    branch(op, 2, NEXT, TARGET, before, &fields(r1, r2)) == after
}

// BALR 12,0.
#[test]
#[tactic(auto, unfolding(esa_model::specs::BranchRows::is_branch))]
fn link_in_31_bit_mode_is_the_next_address(rt: HostRuntime) {
    let before = registers([0; 4], 0, WIDE);
    let after = branch(BALR, 1, 0x0001_0002, 0, &before, &fields(12, 0));
    assert_eq!(rt; after.general[12], 0x8001_0002);
    assert_eq!(rt; after.psw, psw(0, 0x8001_0002));
}

#[test]
fn link_in_24_bit_mode_has_the_length_code(rt: HostRuntime) {
    for (op, r2, word, link, to) in [
        (BALR, 2, 0xFF12_3456, 0xBF01_0004, 0x0012_3456),
        (BALR, 0, 0, 0xBF01_0004, NEXT),
        (BAL, 0, 0, 0xBF01_0004, TARGET),
        (BASR, 2, 0xFF02_0000, NEXT, 0x0002_0000),
        (BAS, 0, 0, NEXT, TARGET),
        (BASSM, 2, 0x8003_0000, NEXT, 0x8003_0000),
        (BASSM, 0, 0, NEXT, NEXT),
    ] {
        let before = registers([7, 0, word, 0], 0x3F, NARROW);
        assert!(rt; leaves(op, 1, r2, &before, link, psw(0x3F, to)), "row {op}");
    }
    for (op, r2, word, to) in [
        (BALR, 2, 0x8002_0001, 0x8002_0001),
        (BAL, 0, 0, WIDE_TARGET),
        (BASR, 0, 0, WIDE_NEXT),
        (BRAS, 0, 0, WIDE_TARGET),
        (BASSM, 2, 0x0003_0000, 0x0003_0000),
    ] {
        let before = registers([7, 0, word, 0], 0x12, WIDE);
        assert!(rt;
            leaves(op, 1, r2, &before, WIDE_NEXT, psw(0x12, to)),
            "row {op}"
        );
    }
}

// R1 is R2, or R1 is register 0, which holds a link like any other.
#[test]
fn operands_are_taken_before_they_change(rt: HostRuntime) {
    for (op, w1, word, after, to) in [
        (BALR, NARROW, 0xFF12_3456, 0x8001_0004, 0x0012_3456),
        (BCTR, WIDE, 0x0003_0000, 0x0002_FFFF, 0x8003_0000),
        (BSM, NARROW, 0x8003_0000, 0x0003_0000, 0x8003_0000),
        (BASSM, WIDE, 0x0003_0000, WIDE_NEXT, 0x0003_0000),
    ] {
        let before = registers([0, word, 0, 0], 0, w1);
        assert!(rt; leaves(op, 1, 1, &before, after, psw(0, to)), "row {op}");
    }
    let before = registers([0; 4], 0, WIDE);
    assert!(rt; leaves(BAL, 0, 0, &before, WIDE_NEXT, psw(0, WIDE_TARGET)));
}

#[test]
fn mode_is_bit_0_of_a_register(rt: HostRuntime) {
    for (r1, r2, words, w1, after, to) in [
        (0, 0, [0x8003_0000, 0, 0, 0], NARROW, 0x8003_0000, NEXT),
        (1, 0, [0, 0, 0, 0], WIDE, 0x8000_0000, WIDE_NEXT),
        (1, 2, [0, 0, 0x7F03_0000, 0], WIDE, 0x8000_0000, 0x0003_0000),
        (
            1,
            2,
            [0, 0xFFFF_FFFF, 0x8003_0000, 0],
            NARROW,
            0x7FFF_FFFF,
            0x8003_0000,
        ),
    ] {
        let before = registers(words, 0, w1);
        assert!(rt;
            leaves(BSM, r1, r2, &before, after, psw(0, to)),
            "{r1}, {r2}"
        );
    }
}

#[test]
fn count_of_zero_does_not_branch(rt: HostRuntime) {
    for (op, r2, count, after, to) in [
        (BCTR, 2, 2, 1, 0x8003_0000),
        (BCTR, 2, 1, 0, WIDE_NEXT),
        (BCTR, 0, 0, 0xFFFF_FFFF, WIDE_NEXT),
        (BCT, 0, 2, 1, WIDE_TARGET),
        (BCT, 0, 1, 0, WIDE_NEXT),
        (BRCT, 0, 0, 0xFFFF_FFFF, WIDE_TARGET),
    ] {
        let before = registers([7, count, 0x0003_0000, 0], 0, WIDE);
        assert!(rt;
            leaves(op, 1, r2, &before, after, psw(0, to)),
            "row {op} of {count}"
        );
    }
}

// The masks 8, 4, 2 and 1 are for the codes 0 to 3; BCR 15,0 does not branch.
#[test]
fn mask_selects_the_condition_code(rt: HostRuntime) {
    for (op, mask, r2, code, to) in [
        (BCR, 1, 2, 3, 0x8003_0000),
        (BCR, 14, 2, 3, WIDE_NEXT),
        (BCR, 15, 0, 3, WIDE_NEXT),
        (BC, 8, 0, 0, WIDE_TARGET),
        (BC, 4, 0, 1, WIDE_TARGET),
        (BRC, 13, 0, 2, WIDE_NEXT),
    ] {
        assert!(rt; code < 4);
        let before = registers([7, 0, 0x0003_0000, 0], code * 16, WIDE);
        let after = psw(code * 16, to);
        assert!(rt;
            leaves(op, mask, r2, &before, 0, after),
            "row {op}, mask {mask}"
        );
    }
}

#[test]
fn equal_index_is_not_high(rt: HostRuntime) {
    for (op, r1, r2, words, after, to) in [
        (BXH, 1, 2, [0, 5, 1, 5], 6, WIDE_TARGET),
        (BXH, 1, 2, [0, 5, 1, 6], 6, WIDE_NEXT),
        (BXH, 3, 2, [0, 0, 1, 5], 6, WIDE_TARGET),
        (BRXH, 1, 3, [0, 1, 0, 1], 2, WIDE_TARGET),
        (BRXH, 1, 2, [0, 0x7FFF_FFFF, 1, 0], 0x8000_0000, WIDE_NEXT),
        (BXLE, 1, 2, [0, 5, 1, 6], 6, WIDE_TARGET),
        (BXLE, 1, 2, [0, 5, 1, 5], 6, WIDE_NEXT),
        (
            BRXLE,
            1,
            2,
            [0, 0, 0xFFFF_FFFF, 0],
            0xFFFF_FFFF,
            WIDE_TARGET,
        ),
    ] {
        let before = registers(words, 0, WIDE);
        assert!(rt;
            leaves(op, r1, r2, &before, after, psw(0, to)),
            "row {op} of {r1}"
        );
    }
}

// SPM sets condition code and program mask from bits 2-7 of R1, IPM inserts them as bits 0-7.
#[test]
fn mask_is_set_and_inserted(rt: HostRuntime) {
    for (op, both, word, after, both_after) in [
        (SPM, 0x00, 0xEFFF_FFFF, 0xEFFF_FFFF, 0x2F),
        (SPM, 0x3F, 0x1000_0000, 0x1000_0000, 0x10),
        (IPM, 0x2A, 0xEFFF_FFFF, 0x2AFF_FFFF, 0x2A),
    ] {
        let before = registers([0, word, 0, 0], both, WIDE);
        let psw_after = psw(both_after, WIDE_NEXT);
        assert!(rt; leaves(op, 1, 0, &before, after, psw_after), "row {op}");
    }
}
