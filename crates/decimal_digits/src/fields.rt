//! Packed fields, read and written.

ghost use Rattle.std.specs.Prelude.{◌≡◌, ◌*◌, ◌/◌, ◌<◌, ◌≤◌, ◌^◌, IsTrue, IfSome, IfNone, length, nat_le, false, take, drop};
ghost use Rattle.esa_model.specs.Packed.{body, all_pairs, pair, is_pair, pairs, written, limit};
ghost use Rattle.decimal_digits.specs.Meaning.{ReadAs, WrittenIsRead};

use crate::values::Digits;

// The two digits of a byte.
fn pair_of(b: u8) -> Option<u8>
    ensures some { IfSome result (λ x. IsTrue (is_pair b) × (x ≡ pair b) × (x < 100)) }
    ensures none { IfNone result (is_pair b ≡ false) }
{
    let high = b / 16;
    let low = b % 16;
    if high > 9 || low > 9 {
        None
    } else {
        Some(high * 10 + low)
    }
}

// The number that bytes of two digits each stand for.
fn body_of(bytes: &[u8]) -> Option<u128>
    requires { length bytes.now ≤ 15 }
    ensures some { IfSome result (λ m.
        IsTrue (all_pairs bytes.now) × (m ≡ body bytes.now) × (m < 10 ^ 30)) }
    ensures none { IfNone result (all_pairs bytes.now ≡ false) }
{
    let mut value: u128 = 0;
    for b in bytes {
        let x = pair_of(*b)?;
        value = value * 100 + u128::from(x);
    }
    Some(value)
}

/// The sign and the number of a packed field of 1 to 16 bytes, None exactly at a bad digit or sign.
/// The signs A, C, E and F are plus, B and D are minus (Principles of Operation, Decimal
/// Instructions).
pub fn unpack(field: &[u8]) -> Option<Digits>
    requires some { 1 ≤ length field.now }
    requires few { length field.now ≤ 16 }
    ensures { ReadAs field.now result }
{
    let n = field.len() - 1;
    let front = body_of(&field[..n])?;
    let last = field[n];
    let digit = last / 16;
    let sign = last % 16;
    if digit > 9 || sign < 10 {
        return None;
    }
    Some(Digits {
        negative: sign == 11 || sign == 13,
        magnitude: front * 10 + u128::from(digit),
    })
}

// Writes the low digits of m into the first n bytes, and gives what is left of m.
fn fill(into: &mut [u8], n: usize, m: u128) -> u128
    requires { n ≤ length into.old }
    ensures front { take n into.new ≡ pairs n m }
    ensures kept { drop n into.new ≡ drop n into.old }
    ensures left { result ≡ m / 100 ^ n }
{
    let mut i = n;
    let mut left = m;
    while i > 0 {
        i -= 1;
        let x = (left % 100) as u8;
        into[i] = x / 10 * 16 + x % 10;
        left /= 100;
    }
    left
}

/// Writes the sign, C or D, and the low digits into a field of 1 to 16 bytes, and answers true
/// exactly where a digit that is not zero is lost.
pub fn pack(d: &Digits, into: &mut [u8]) -> bool
    requires some { 1 ≤ length into.old }
    requires few { length into.old ≤ 16 }
    ensures field { into.new ≡ written (length into.old) d.now.negative d.now.magnitude }
    ensures lost { result ≡ nat_le (limit (length into.old)) d.now.magnitude }
{
    let n = into.len() - 1;
    let sign: u8 = if d.negative { 13 } else { 12 };
    into[n] = (d.magnitude % 10) as u8 * 16 + sign;
    fill(into, n, d.magnitude / 10) != 0
}

/// The law that a written field is good and is read as the sign and the low digits that were
/// written.
pub fn written_is_read()
    ensures { WrittenIsRead }
{}
