use crate::{cvb, cvd, srp, two};
use esa_model::codes::{
    DATA, DECIMAL_DIVIDE, DECIMAL_OVERFLOW, FIXED_DIVIDE, SPECIFICATION, STAYS,
};

const MVO: u8 = 0xF1;

const PACK: u8 = 0xF2;

const UNPK: u8 = 0xF3;

const ZAP: u8 = 0xF8;

const CP: u8 = 0xF9;

const AP: u8 = 0xFA;

const SP: u8 = 0xFB;

const MP: u8 = 0xFC;

const DP: u8 = 0xFD;

/// Whether an instruction leaves this first field, this condition code and this program code.
fn leaves(op: u8, first: &[u8], second: &[u8], field: &[u8], code: u8, fault: u8) -> bool {
    if first.len() == 0 || first.len() > 16 || second.len() == 0 || second.len() > 16 {
        return false;
    }
    if op < MVO || (op > UNPK && op < ZAP) || op > DP {
        return false;
    }
    let mut area = [0; 16];
    let at = &mut area[..first.len()];
    at.copy_from_slice(first);
    let v = two(op, at, second);
    *at == *field && v.cc == code && v.fault == fault
}

#[test]
fn decimal_overflow(rt: HostRuntime) {
    assert!(rt; leaves(AP, &[0x99, 0x9C], &[0x1C], &[0, 0x0C], 3, DECIMAL_OVERFLOW));
    assert!(rt; leaves(AP, &[0x99, 0x9D], &[0x1D], &[0, 0x0D], 3, DECIMAL_OVERFLOW));
    assert!(rt; leaves(SP, &[0x99, 0x9D], &[0x3C], &[0, 0x2D], 3, DECIMAL_OVERFLOW));
}

#[test]
fn decimal_divide(rt: HostRuntime) {
    let long = [0x01, 0x23, 0x4C];
    assert!(rt; leaves(DP, &long, &[0x1C], &long, STAYS, DECIMAL_DIVIDE));
    let short = [0x00, 0x12, 0x3C];
    assert!(rt; leaves(DP, &short, &[0x0C], &short, STAYS, DECIMAL_DIVIDE));
    assert!(rt; leaves(DP, &short, &[0x5C], &[0x02, 0x4C, 0x3C], STAYS, 0));
}

#[test]
fn quotient_that_just_fits(rt: HostRuntime) {
    assert!(rt; leaves(DP, &[0, 0x99, 0x9D], &[0x1D], &[0x99, 0x9C, 0x0D], STAYS, 0));
    let more = [1, 0, 0x0D];
    assert!(rt; leaves(DP, &more, &[0x1D], &more, STAYS, DECIMAL_DIVIDE));
    assert!(rt; leaves(DP, &[0, 0x2C], &[0, 0x2C], &[0, 0x2C], STAYS, SPECIFICATION));
}

#[test]
fn signs_c_and_d_are_written(rt: HostRuntime) {
    for (sign, code, written) in [
        (0x5A, 2, 0x5C),
        (0x5B, 1, 0x5D),
        (0x5C, 2, 0x5C),
        (0x5D, 1, 0x5D),
        (0x5E, 2, 0x5C),
        (0x5F, 2, 0x5C),
    ] {
        assert!(rt; leaves(ZAP, &[0xFF], &[sign], &[written], code, 0));
    }
}

// Zero that is negative stays so only where digits are lost.
#[test]
fn zero_is_positive(rt: HostRuntime) {
    assert!(rt; leaves(ZAP, &[0xFF], &[0x0D], &[0x0C], 0, 0));
    assert!(rt; leaves(ZAP, &[0xFF], &[0x10, 0x0D], &[0x0D], 3, DECIMAL_OVERFLOW));
    assert!(rt; leaves(AP, &[0x0D], &[0x0D], &[0x0C], 0, 0));
    assert!(rt; leaves(SP, &[0, 0x5C], &[0x5F], &[0, 0x0C], 0, 0));
}

#[test]
fn bad_digits_leave_the_field(rt: HostRuntime) {
    assert!(rt; leaves(AP, &[0xA0, 0x0C], &[0x0C], &[0xA0, 0x0C], STAYS, DATA));
    assert!(rt; leaves(SP, &[0x0C], &[0x01], &[0x0C], STAYS, DATA));
}

#[test]
fn comparison_is_by_value(rt: HostRuntime) {
    assert!(rt; leaves(CP, &[0x0D], &[0, 0x0C], &[0x0D], 0, 0));
    assert!(rt; leaves(CP, &[0x1D], &[0x0C], &[0x1D], 1, 0));
    assert!(rt; leaves(CP, &[0x1C], &[0x2D], &[0x1C], 2, 0));
}

// 12 times 2; times zero with a minus; too few zero bytes; a second operand too long.
#[test]
fn product_wants_zeros_at_its_left(rt: HostRuntime) {
    assert!(rt; leaves(MP, &[0, 1, 0x2C], &[0x2C], &[0, 2, 0x4C], STAYS, 0));
    assert!(rt; leaves(MP, &[0, 1, 0x2C], &[0x0D], &[0, 0, 0x0D], STAYS, 0));
    assert!(rt; leaves(MP, &[16, 1, 0x2C], &[0x2C], &[16, 1, 0x2C], STAYS, DATA));
    assert!(rt; leaves(MP, &[0, 0x2C], &[0, 0x2C], &[0, 0x2C], STAYS, SPECIFICATION));
    assert!(rt; leaves(MP, &[0; 16], &[0; 9], &[0; 16], STAYS, SPECIFICATION));
}

#[test]
fn half_bytes_are_taken_from_the_right(rt: HostRuntime) {
    let offset = [0, 1, 0x23, 0x4C];
    assert!(rt; leaves(MVO, &[7, 8, 9, 0x0C], &[0x12, 0x34], &offset, STAYS, 0));
    let zoned = [0xF1, 0xF2, 0xF3, 0xC4];
    assert!(rt; leaves(PACK, &[0; 2], &zoned, &[0x23, 0x4C], STAYS, 0));
}

#[test]
fn unpacked_digits_have_zones(rt: HostRuntime) {
    assert!(rt; leaves(UNPK, &[0; 3], &[0x12, 0x3C], &[0xF1, 0xF2, 0xC3], STAYS, 0));
    let filled = [0xF0, 0xF0, 0xF1, 0xF2, 0xD3];
    assert!(rt; leaves(UNPK, &[0; 5], &[0x12, 0x3D], &filled, STAYS, 0));
}

fn shifts(field: [u8; 3], by: u8, round: u8, shifted: [u8; 3], code: u8, fault: u8) -> bool {
    if by > 63 {
        return false;
    }
    let mut at = field;
    let v = srp(&mut at, by, round);
    at == shifted && v.cc == code && v.fault == fault
}

// SRP by 63 is one digit to the right.
#[test]
fn shift_to_the_right_is_rounded(rt: HostRuntime) {
    for (field, by, round, shifted, code, fault) in [
        ([0x12, 0x34, 0x5C], 63, 5, [0x01, 0x23, 0x5C], 2, 0),
        ([0x12, 0x34, 0x5D], 63, 4, [0x01, 0x23, 0x4D], 1, 0),
        (
            [0x12, 0x34, 0x5D],
            2,
            0,
            [0x34, 0x50, 0x0D],
            3,
            DECIMAL_OVERFLOW,
        ),
        (
            [0x10, 0x00, 0x0D],
            31,
            0,
            [0x00, 0x00, 0x0D],
            3,
            DECIMAL_OVERFLOW,
        ),
        ([0x99, 0x99, 0x9D], 32, 9, [0x00, 0x00, 0x0C], 0, 0),
        ([0x00, 0x00, 0x0D], 31, 0, [0x00, 0x00, 0x0C], 0, 0),
        ([0x00, 0x00, 0x1C], 0, 10, [0x00, 0x00, 0x1C], STAYS, DATA),
        ([0x00, 0x00, 0x12], 0, 0, [0x00, 0x00, 0x12], STAYS, DATA),
    ] {
        assert!(rt; shifts(field, by, round, shifted, code, fault));
    }
}

// CVB and CVD of 2^31 - 1, -2^31, 2^31, a bad sign and -1.
#[test]
fn words_are_from_least_to_greatest(rt: HostRuntime) {
    let most = cvb(&[0, 0, 0x02, 0x14, 0x74, 0x83, 0x64, 0x7C]);
    assert!(rt; most.word == 0x7FFF_FFFF && most.cc == STAYS && most.fault == 0);
    let least = cvb(&[0, 0, 0x02, 0x14, 0x74, 0x83, 0x64, 0x8D]);
    assert!(rt; least.word == 0x8000_0000 && least.fault == 0);
    let over = cvb(&[0, 0, 0x02, 0x14, 0x74, 0x83, 0x64, 0x8C]);
    assert!(rt; over.fault == FIXED_DIVIDE);
    let bad = cvb(&[0, 0, 0x02, 0x14, 0x74, 0x83, 0x64, 0x88]);
    assert!(rt; bad.fault == DATA);
    assert!(rt; cvd(0x8000_0000) == [0, 0, 0x02, 0x14, 0x74, 0x83, 0x64, 0x8D]);
    assert!(rt; cvd(0xFFFF_FFFF) == [0, 0, 0, 0, 0, 0, 0, 0x1D]);
}

const POINT: [u8; 7] = [0x40, 0x20, 0x20, 0x21, 0x4B, 0x20, 0x20];

#[test]
fn edit(rt: HostRuntime) {
    let mut pattern = POINT;
    let some = crate::edit(&mut pattern, &[0x00, 0x12, 0x3C, 0, 0, 0, 0]);
    assert!(rt; pattern == [0x40, 0x40, 0x40, 0xF1, 0x4B, 0xF2, 0xF3]);
    assert!(rt; some.cc == 2 && some.used == 3 && some.fault == 0 && some.mark == Some(3));
    let mut empty = POINT;
    let none = crate::edit(&mut empty, &[0x00, 0x00, 0x0C, 0, 0, 0, 0]);
    assert!(rt; empty == [0x40, 0x40, 0x40, 0x40, 0x4B, 0xF0, 0xF0]);
    assert!(rt; none.cc == 0 && none.mark == None);
    let mut left = POINT;
    let bad = crate::edit(&mut left, &[0x00, 0xA2, 0x3C, 0, 0, 0, 0]);
    assert!(rt; left == POINT && bad.fault == DATA && bad.used == 2);
}

// Two fields, the first of them with a plus sign, which turns the significance indicator off.
#[test]
fn code_is_of_the_last_field(rt: HostRuntime) {
    let pattern = [0x5C, 0x20, 0x20, 0x20, 0x4B, 0x22, 0x20, 0x20, 0x20, 0x60];
    for (source, text, code, mark) in [
        (
            [0x01, 0x2C, 0x30, 0x4D, 0, 0, 0, 0, 0, 0],
            [0x5C, 0x5C, 0xF1, 0xF2, 0x5C, 0x5C, 0xF3, 0xF0, 0xF4, 0x60],
            1,
            Some(6),
        ),
        (
            [0x01, 0x2D, 0x00, 0x0C, 0, 0, 0, 0, 0, 0],
            [0x5C, 0x5C, 0xF1, 0xF2, 0x4B, 0x5C, 0x5C, 0x5C, 0x5C, 0x5C],
            0,
            Some(2),
        ),
        (
            [0x1C, 0x2C, 0x3C, 0x4C, 0x5C, 0x6C, 0, 0, 0, 0],
            [0x5C, 0xF1, 0xF2, 0xF3, 0x5C, 0x5C, 0xF4, 0xF5, 0xF6, 0x5C],
            2,
            Some(8),
        ),
    ] {
        let mut at = pattern;
        let edited = crate::edit(&mut at, &source);
        assert!(rt; at == text);
        assert!(rt; edited.cc == code && edited.mark == mark && edited.fault == 0);
    }
}

// At the last digit it shows none of it, but what follows; before a digit it leaves no mark.
#[test]
fn significance_starter_turns_the_indicator_on(rt: HostRuntime) {
    let mut starter = [0x5C, 0x20, 0x21, 0x60];
    let last = crate::edit(&mut starter, &[0x00, 0x0D, 0, 0]);
    assert!(rt; starter == [0x5C, 0x5C, 0x5C, 0x60] && last.cc == 0 && last.used == 1);
    let mut marked = [0x5C, 0x21, 0x20];
    let on = crate::edit(&mut marked, &[0x05, 0, 0]);
    assert!(rt; marked == [0x5C, 0x5C, 0xF5] && on.cc == 1 && on.mark == None);
}
