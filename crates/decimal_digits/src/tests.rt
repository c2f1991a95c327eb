use crate::{Digits, Wide, add, divide, multiply, pack, shift, subtract, unpack};

// 31 nines.
const NINES: u128 = 9_999_999_999_999_999_999_999_999_999_999;

fn value(negative: bool, magnitude: u128) -> Digits {
    if magnitude > NINES {
        return Digits::new(false, 0);
    }
    Digits::new(negative, magnitude)
}

fn is_value(d: &Digits, negative: bool, magnitude: u128) -> bool {
    d.is_negative() == negative && d.magnitude() == magnitude
}

fn is_wide(w: &Wide, negative: bool, magnitude: u128, lost: bool) -> bool {
    is_value(&w.digits, negative, magnitude) && w.lost == lost
}

fn reads(field: &[u8], negative: bool, magnitude: u128) -> bool {
    if field.len() == 0 || field.len() > 16 {
        return false;
    }
    match unpack(field) {
        Some(d) => is_value(&d, negative, magnitude),
        None => false,
    }
}

fn is_bad(field: [u8; 2]) -> bool {
    match unpack(&field) {
        Some(_) => false,
        None => true,
    }
}

// The signs A to F, one and sixteen bytes, and a bad half-byte at each place.
#[test]
fn signs_a_to_f_are_read(rt: HostRuntime) {
    let mut nines = [0x99; 16];
    nines[15] = 0x9D;
    assert!(rt; reads(&nines, true, NINES));
    for (last, negative) in [
        (0x3A, false),
        (0x3B, true),
        (0x3C, false),
        (0x3D, true),
        (0x3E, false),
        (0x3F, false),
    ] {
        assert!(rt; reads(&[0x12, last], negative, 123));
    }
    assert!(rt; reads(&[0x7D], true, 7));
    assert!(rt; reads(&[0x0D], true, 0));
    for field in [
        [0xA0, 0x0C],
        [0x0A, 0x0C],
        [0x00, 0xAC],
        [0x00, 0x09],
        [0x12, 0x30],
    ] {
        assert!(rt; is_bad(field));
    }
}

// 31 nines, and numbers that have more digits than a field of one or two bytes.
#[test]
fn high_digits_are_lost(rt: HostRuntime) {
    let mut nines = [0; 16];
    assert!(rt; !pack(&value(true, NINES), &mut nines));
    assert!(rt; reads(&nines, true, NINES) && nines[0] == 0x99 && nines[15] == 0x9D);
    let mut two = [0; 2];
    for (magnitude, negative, field, lost) in [
        (12, false, [0x01, 0x2C], false),
        (999, true, [0x99, 0x9D], false),
        (1000, true, [0x00, 0x0D], true),
        (0, true, [0x00, 0x0D], false),
    ] {
        assert!(rt; pack(&value(negative, magnitude), &mut two) == lost);
        assert!(rt; two == field);
    }
    let mut one = [0];
    assert!(rt; pack(&value(false, 47), &mut one));
    assert!(rt; one == [0x7C]);
}

// Each sum is also the difference of the opposite number.
#[test]
fn zero_sum_is_positive(rt: HostRuntime) {
    for (a_negative, a, b_negative, b, negative, sum, lost) in [
        (false, 5, true, 7, true, 2, false),
        (false, 5, true, 5, false, 0, false),
        (true, 0, true, 0, false, 0, false),
        (false, NINES, false, 0, false, NINES, false),
        (false, NINES, false, 1, false, 0, true),
        (true, NINES, true, 1, true, 0, true),
        (true, NINES, true, NINES, true, NINES - 1, true),
    ] {
        let x = value(a_negative, a);
        assert!(rt; is_wide(&add(&x, &value(b_negative, b)), negative, sum, lost));
        assert!(rt; is_wide(&subtract(&x, &value(!b_negative, b)), negative, sum, lost));
    }
}

// Signs by algebra, for zero too; 15 nines squared have 30 digits.
#[test]
fn signs_are_by_algebra(rt: HostRuntime) {
    let half = Digits::new(true, 999_999_999_999_999);
    let square = multiply(&half, &half);
    assert!(rt; is_value(&square, false, 999_999_999_999_998_000_000_000_000_001));
    let none = multiply(&half, &Digits::new(false, 0));
    assert!(rt; is_value(&none, true, 0));
    for (a, b, quotient) in [
        (false, false, false),
        (false, true, true),
        (true, false, true),
        (true, true, false),
    ] {
        let answer = match divide(&value(a, 17), &value(b, 5)) {
            Some((q, r)) => is_value(&q, quotient, 3) && is_value(&r, a, 2),
            None => false,
        };
        assert!(rt; answer);
    }
    assert!(rt; divide(&value(true, 17), &value(true, 0)).is_none());
}

// A shift to the right adds the rounding digit to the last digit that is lost.
#[test]
fn last_lost_digit_is_rounded(rt: HostRuntime) {
    for (a, by, round, shifted, lost) in [
        (NINES, -32, 9, 0, false),
        (NINES, -31, 0, 0, false),
        (NINES, -31, 5, 1, false),
        (12345, -1, 0, 1234, false),
        (12345, -1, 5, 1235, false),
        (12341, -1, 9, 1235, false),
        (12345, 0, 9, 12345, false),
        (12345, 1, 9, 123450, false),
        (7, 30, 0, 7_000_000_000_000_000_000_000_000_000_000, false),
        (12, 30, 0, 2_000_000_000_000_000_000_000_000_000_000, true),
        (1, 31, 0, 0, true),
        (0, 31, 0, 0, false),
    ] {
        assert!(rt; is_shifted(a, by, round, shifted, lost));
    }
}

fn is_shifted(a: u128, by: i8, round: u8, magnitude: u128, lost: bool) -> bool {
    if by < -32 || by > 31 || round > 9 {
        return false;
    }
    is_wide(&shift(&value(true, a), by, round), true, magnitude, lost)
}
