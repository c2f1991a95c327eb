ghost use Rattle.std.specs.Prelude.{◌≡◌};
ghost use Rattle.esa_model.specs.Moves.{is_logical};

use crate::{
    CompareUnit, Hit, LongOperands, MoveUnit, compare_unit, logical, move_unit, overlapped,
    translate_test,
};
use esa_model::codes::STAYS;

const MVN: u8 = 0xD1;

const MVC: u8 = 0xD2;

const MVZ: u8 = 0xD3;

const NC: u8 = 0xD4;

const CLC: u8 = 0xD5;

const OC: u8 = 0xD6;

const XC: u8 = 0xD7;

fn is_row(op: u8) -> bool
    ensures { result ≡ is_logical op }
{
    matches!(op, MVN..=XC)
}

// MVN of X'12' from X'A5' gives X'15', MVZ X'A2'; the condition code stays.
#[test]
fn low_and_high_halves_are_moved(rt: HostRuntime) {
    for (op, after) in [
        (MVN, [0x15, 0x36]),
        (MVC, [0xA5, 0xC6]),
        (MVZ, [0xA2, 0xC4]),
    ] {
        assert!(rt; is_row(op));
        let mut first = [0x12, 0x34];
        assert_eq!(rt; logical(op, &mut first, &[0xA5, 0xC6]), STAYS, "row {op}");
        assert!(rt; first == after, "row {op}");
    }
}

#[test]
fn code_is_of_all_bytes(rt: HostRuntime) {
    let cases = [
        (NC, [0xF0, 0x0F], [0x0F, 0x0F], [0x00, 0x0F], 1),
        (NC, [0x0F, 0xF0], [0x0F, 0x0F], [0x0F, 0x00], 1),
        (NC, [0xF0, 0xF0], [0x0F, 0x0F], [0x00, 0x00], 0),
        (OC, [0xF0, 0x00], [0x0F, 0x00], [0xFF, 0x00], 1),
        (XC, [0xA5, 0xC6], [0xA5, 0xC6], [0x00, 0x00], 0),
        (CLC, [0x12, 0x34], [0x12, 0x34], [0x12, 0x34], 0),
        (CLC, [0x12, 0x34], [0x13, 0x00], [0x12, 0x34], 1),
        (CLC, [0x12, 0x34], [0x12, 0x33], [0x12, 0x34], 2),
    ];
    for (op, before, second, after, code) in cases {
        assert!(rt; is_row(op));
        let mut first = before;
        assert_eq!(rt; logical(op, &mut first, &second), code, "row {op}");
        assert!(rt; first == after, "row {op}");
    }
}

/// Whether the first `count` bytes are `of` and the others zero.
fn begins_with(area: &[u8], of: u8, count: usize) -> bool {
    area.iter()
        .enumerate()
        .all(|(k, b)| *b == if k < count { of } else { 0 })
}

// MVC one place to the right fills the area with its first byte, one place to the left it moves it.
#[test]
fn propagation(rt: HostRuntime) {
    for len in [0, 1, 2, 255, 256] {
        assert!(rt; len <= 256);
        let mut right = [0; 258];
        right[0] = 0x5B;
        assert_eq!(rt;
            overlapped(MVC, &mut right, 1, 0, len),
            STAYS,
            "length {len}"
        );
        assert!(rt;
            begins_with(&right, 0x5B, len + 1),
            "to the right, length {len}"
        );
        let mut left = [0; 258];
        left[len] = 0x5B;
        assert_eq!(rt;
            overlapped(MVC, &mut left, 0, 1, len),
            STAYS,
            "length {len}"
        );
        let place = left.iter().position(|b| *b != 0);
        assert_eq!(rt; place, Some(len.max(1) - 1), "to the left, length {len}");
    }
}

// NC of an area with itself leaves it, XC clears it.
#[test]
fn area_is_cleared_by_itself(rt: HostRuntime) {
    let mut area = [0x5B; 258];
    assert_eq!(rt; overlapped(NC, &mut area, 0, 0, 257), 1);
    assert!(rt; begins_with(&area, 0x5B, 258));
    assert_eq!(rt; overlapped(XC, &mut area, 0, 0, 257), 0);
    assert_eq!(rt; area.iter().position(|b| *b != 0), Some(257));
}

#[test]
fn first_function_byte_is_hit(rt: HostRuntime) {
    let mut functions = [0; 256];
    functions[7] = 9;
    let cases = [
        ([1, 2, 3], None),
        ([7, 7, 3], Some(Hit { at: 0, function: 9 })),
        ([1, 2, 7], Some(Hit { at: 2, function: 9 })),
    ];
    for (first, hit) in cases {
        assert!(rt; translate_test(&first, &functions) == hit);
    }
}

fn apart(to: u32, to_len: u32, from: u32, from_len: u32) -> LongOperands {
    LongOperands {
        to,
        to_len,
        from,
        from_len,
        pad: 0x40,
        wide: true,
    }
}

fn unit(copied: u16, padded: u16, cc: Option<u8>) -> MoveUnit {
    MoveUnit {
        copied,
        padded,
        cc,
        destructive: false,
    }
}

// Each case has the first address and length, then the second's, and what the unit does.
#[test]
fn pad_follows_the_second_operand(rt: HostRuntime) {
    let destructive = MoveUnit {
        copied: 0,
        padded: 0,
        cc: Some(3),
        destructive: true,
    };
    let cases = [
        (apart(0x1000, 0, 0x2000, 5), unit(0, 0, Some(1))),
        (apart(0x1000, 5, 0x2000, 0), unit(0, 5, Some(2))),
        (apart(0x1000, 0, 0x2000, 0), unit(0, 0, Some(0))),
        (apart(0x1000, 4, 0x2000, 9), unit(4, 0, Some(1))),
        (apart(0x1000, 9, 0x2000, 4), unit(4, 5, Some(2))),
        (apart(0x1000, 600, 0x2000, 600), unit(256, 0, None)),
        (apart(0x1000, 600, 0x2000, 100), unit(100, 156, None)),
        (apart(0x1000, 256, 0x2000, 300), unit(256, 0, Some(1))),
        (apart(0x1000, 9, 0x1000, 9), unit(9, 0, Some(0))),
        (apart(0x1001, 9, 0x1000, 9), destructive),
        (apart(0x1000, 9, 0x1001, 9), unit(9, 0, Some(0))),
        (apart(0x1007, 8, 0x1000, 9), destructive),
        (apart(0x1008, 8, 0x1000, 9), unit(8, 0, Some(1))),
        (apart(0x1004, 9, 0x1000, 4), unit(4, 5, Some(2))),
        (apart(0x8000_1001, 9, 0x1000, 9), destructive),
        (apart(0, 9, 0x7FFF_FFFF, 9), destructive),
    ];
    for (operands, answer) in cases {
        assert!(rt;
            move_unit(&operands) == answer,
            "first address {}",
            operands.to
        );
    }
}

#[test]
fn unequal_place_ends_the_comparison(rt: HostRuntime) {
    let same = [0x40; 256];
    let mut first = same;
    first[0] = 0x41;
    let mut last = same;
    last[255] = 0x3F;
    let cases = [
        (same, 256, same, 256, 256, Some(0)),
        (same, 300, same, 300, 256, None),
        (same, 300, same, 0, 256, None),
        (same, 0, same, 0, 0, Some(0)),
        (same, 256, same, 3, 256, Some(0)),
        (first, 256, same, 256, 0, Some(2)),
        (first, 1, same, 0, 0, Some(2)),
        (same, 0, first, 5, 0, Some(1)),
        (last, 300, same, 300, 255, Some(1)),
        (last, 256, same, 3, 255, Some(1)),
        (same, 3, last, 256, 255, Some(2)),
        (last, 255, same, 255, 255, Some(0)),
    ];
    for (a, a_len, b, b_len, equal, cc) in cases {
        let unit = compare_unit(&a, &b, &apart(0x1000, a_len, 0x2000, b_len));
        assert!(rt;
            unit == CompareUnit { equal, cc },
            "lengths {a_len} and {b_len}"
        );
    }
}
