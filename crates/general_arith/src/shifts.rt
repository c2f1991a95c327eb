//! Shifts of a word and of a pair.

ghost use Rattle.std.specs.Prelude.{◌≡◌, ◌-◌, ◌*◌, ◌<◌, ◌^◌, ◌==◌, if◌then◌else◌, pos, IsTrue};
ghost use Rattle.esa_model.specs.WordRows.{shift_right_logical_row, shift_left_logical_row, shift_right_row, shift_left_row, shift_right_double_logical_row, shift_left_double_logical_row, shift_right_double_row, shift_left_double_row, in_pair, shifted_left, lost, like_sign, bits_sign, shift_row, is_shift};
ghost use Rattle.std.specs.Int.{int_div_euclid};

use crate::numbers::{
    bits_of_pair, double, high_word_of, pair_of, sign_of, signed_of, single, unchanged,
};
use esa_model::codes::{FIXED_OVERFLOW, STAYS};
use esa_model::machine::Value;
use esa_model::words::wrap32;

/// 64 bits in a pair.
fn in_pair_of(bits: u64, code: u8, fault: u8) -> Value
    ensures { result ≡ in_pair bits code fault }
{
    double(
        (bits / 0x1_0000_0000) as u32,
        (bits % 0x1_0000_0000) as u32,
        code,
        fault,
    )
}

/// The weight of the place n, counted from the right.
fn power(n: u8) -> u64
    requires { n < 64 }
    ensures { result ≡ 2 ^ n }
{
    1u64 << n
}

#[tactic(auto, unfolding(esa_model::specs::WordRows::shift_right_logical_row))]
fn shift_right_logical(a: u32, n: u8) -> Value
    requires { n < 64 }
    ensures { result ≡ shift_right_logical_row a n }
{
    unchanged((u64::from(a) / power(n)) as u32)
}

#[tactic(auto, unfolding(esa_model::specs::WordRows::shift_left_logical_row))]
fn shift_left_logical(a: u32, n: u8) -> Value
    requires { n < 64 }
    ensures { result ≡ shift_left_logical_row a n }
{
    unchanged((u128::from(a) * u128::from(power(n)) % 0x1_0000_0000) as u32)
}

/// A number divided by 2^n, rounded down.
fn shift_down(z: i128, n: u8) -> i128
    requires { n < 64 }
    ensures { result ≡ int_div_euclid z (pos (2 ^ n)) }
{
    z.div_euclid(i128::from(power(n)))
}

#[tactic(auto, unfolding(esa_model::specs::WordRows::shift_right_row))]
fn shift_right(a: u32, n: u8) -> Value
    requires { n < 64 }
    ensures { result ≡ shift_right_row a n }
{
    let z = shift_down(signed_of(a), n);
    single(wrap32(z), sign_of(z), 0)
}

#[tactic(auto, unfolding(esa_model::specs::WordRows::shift_right_double_row))]
fn shift_right_double(a: u32, low: u32, n: u8) -> Value
    requires { n < 64 }
    ensures { result ≡ shift_right_double_row a low n }
{
    let z = shift_down(pair_of(a, low), n);
    double(high_word_of(z), wrap32(z), sign_of(z), 0)
}

#[tactic(auto, unfolding(esa_model::specs::WordRows::shift_right_double_logical_row))]
fn shift_right_double_logical(a: u32, low: u32, n: u8) -> Value
    requires { n < 64 }
    ensures { result ≡ shift_right_double_logical_row a low n }
{
    in_pair_of(bits_of_pair(a, low) / power(n), STAYS, 0)
}

#[tactic(auto, unfolding(esa_model::specs::WordRows::shift_left_double_logical_row))]
fn shift_left_double_logical(a: u32, low: u32, n: u8) -> Value
    requires { n < 64 }
    ensures { result ≡ shift_left_double_logical_row a low n }
{
    let bits = u128::from(bits_of_pair(a, low)) * u128::from(power(n));
    in_pair_of((bits % 0x1_0000_0000_0000_0000) as u64, STAYS, 0)
}

/// Bits shifted left by n places, with none lost.
fn shift_wide(bits: u64, n: u8) -> u128
    requires { n < 64 }
    ensures { result ≡ bits * 2 ^ n }
{
    u128::from(bits) * u128::from(power(n))
}

/// n bits like a sign.
fn bits_like(negative: bool, n: u8) -> u128
    requires { n < 64 }
    ensures { result ≡ if negative then 2 ^ n - 1 else 0 }
{
    if negative {
        u128::from(power(n)) - 1
    } else {
        0
    }
}

/// The bits after the sign shifted left, with zeros from the right.
fn shift_word(a: u32, n: u8) -> u32
    requires { n < 64 }
    ensures { result ≡ shifted_left 32 a n }
{
    let wide = shift_wide(u64::from(a % 0x8000_0000), n);
    a / 0x8000_0000 * 0x8000_0000 + (wide % 0x8000_0000) as u32
}

/// Whether every bit that the shift loses is like the sign.
fn keeps_word(a: u32, n: u8) -> bool
    requires { n < 64 }
    ensures { result ≡ (lost 32 a n == like_sign 32 a n) }
{
    let wide = shift_wide(u64::from(a % 0x8000_0000), n);
    wide / 0x8000_0000 == bits_like(a >= 0x8000_0000, n)
}

/// The condition code of the sign of a word.
fn sign_of_word(a: u32) -> u8
    ensures { result ≡ bits_sign 32 a }
{
    if a == 0 {
        0
    } else if a < 0x8000_0000 {
        2
    } else {
        1
    }
}

#[tactic(auto, unfolding(esa_model::specs::WordRows::shift_left_row))]
fn shift_left(a: u32, n: u8) -> Value
    requires { n < 64 }
    ensures { result ≡ shift_left_row a n }
{
    let word = shift_word(a, n);
    if keeps_word(a, n) {
        single(word, sign_of_word(word), 0)
    } else {
        single(word, 3, FIXED_OVERFLOW)
    }
}

/// The same of 64 bits.
fn shift_pair(bits: u64, n: u8) -> u64
    requires { n < 64 }
    ensures { result ≡ shifted_left 64 bits n }
{
    let wide = shift_wide(bits % 0x8000_0000_0000_0000, n);
    bits / 0x8000_0000_0000_0000 * 0x8000_0000_0000_0000 + (wide % 0x8000_0000_0000_0000) as u64
}

/// The same of 64 bits.
fn keeps_pair(bits: u64, n: u8) -> bool
    requires { n < 64 }
    ensures { result ≡ (lost 64 bits n == like_sign 64 bits n) }
{
    let wide = shift_wide(bits % 0x8000_0000_0000_0000, n);
    wide / 0x8000_0000_0000_0000 == bits_like(bits >= 0x8000_0000_0000_0000, n)
}

/// The condition code of the sign of 64 bits.
fn sign_of_pair(bits: u64) -> u8
    ensures { result ≡ bits_sign 64 bits }
{
    if bits == 0 {
        0
    } else if bits < 0x8000_0000_0000_0000 {
        2
    } else {
        1
    }
}

#[tactic(auto, unfolding(esa_model::specs::WordRows::shift_left_double_row))]
fn shift_left_double(a: u32, low: u32, n: u8) -> Value
    requires { n < 64 }
    ensures { result ≡ shift_left_double_row a low n }
{
    let bits = bits_of_pair(a, low);
    let left = shift_pair(bits, n);
    if keeps_pair(bits, n) {
        in_pair_of(left, sign_of_pair(left), 0)
    } else {
        in_pair_of(left, 3, FIXED_OVERFLOW)
    }
}

/// The value of a shift by n places: `a` is the register's word, `a_low` the second word of a pair.
/// Source: Principles of Operation, chapter on general instructions.
#[tactic(auto, unfolding(esa_model::specs::WordRows::shift_row, esa_model::specs::WordRows::is_shift))]
pub fn shift(op: u8, a: u32, a_low: u32, n: u8) -> Value
    requires opcode { IsTrue (is_shift op) }
    requires places { n < 64 }
    ensures { result ≡ shift_row op a a_low n }
{
    cases! { op;
        0x88 => shift_right_logical(a, n),
        0x89 => shift_left_logical(a, n),
        0x8A => shift_right(a, n),
        0x8B => shift_left(a, n),
        0x8C => shift_right_double_logical(a, a_low, n),
        0x8D => shift_left_double_logical(a, a_low, n),
        0x8E => shift_right_double(a, a_low, n),
        0x8F => shift_left_double(a, a_low, n)
    }
}
