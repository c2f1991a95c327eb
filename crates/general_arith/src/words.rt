//! Rows on two words.

ghost use Rattle.std.specs.Prelude.{◌≡◌, ◌+◌, ◌-◌, ◌%◌, ◌<◌, ◌^◌, ◌≢◌, pos, neg_ℤ, ◌<ℤ◌, ◌≤ℤ◌, int_div, int_rem, unsigned_abs, IsTrue};
ghost use Rattle.esa_model.specs.Word.{signed};
ghost use Rattle.esa_model.specs.WordRows.{load_positive_row, load_negative_row, load_and_test_row, load_complement_row, and_row, or_row, exclusive_or_row, compare_logical_row, load_row, compare_row, add_row, subtract_row, multiply_row, multiply_single_row, divide_row, add_logical_row, subtract_logical_row, not_divided, rr_row, is_rr};

use crate::numbers::{
    bits_value, code_of, code_of_bits, double, order_of, pair_of, pair_value, sign_of, signed_of,
    signed_value, single, unchanged,
};
use esa_model::codes::{FIXED_DIVIDE, STAYS};
use esa_model::machine::Value;
use esa_model::words::wrap32;

/// The absolute value of a signed number.
fn absolute_of(b: u32) -> i128
    ensures { result ≡ pos (unsigned_abs (signed b)) }
{
    let z = signed_of(b);
    if z < 0 { -z } else { z }
}

#[tactic(auto, unfolding(esa_model::specs::WordRows::load_positive_row))]
fn load_positive(b: u32) -> Value
    ensures { result ≡ load_positive_row b }
{
    signed_value(absolute_of(b))
}

#[tactic(auto, unfolding(esa_model::specs::WordRows::load_negative_row))]
fn load_negative(b: u32) -> Value
    ensures { result ≡ load_negative_row b }
{
    signed_value(-absolute_of(b))
}

#[tactic(auto, unfolding(esa_model::specs::WordRows::load_and_test_row))]
fn load_and_test(b: u32) -> Value
    ensures { result ≡ load_and_test_row b }
{
    single(b, sign_of(signed_of(b)), 0)
}

#[tactic(auto, unfolding(esa_model::specs::WordRows::load_complement_row))]
fn load_complement(b: u32) -> Value
    ensures { result ≡ load_complement_row b }
{
    signed_value(-signed_of(b))
}

#[tactic(auto, unfolding(esa_model::specs::WordRows::and_row))]
fn and(a: u32, b: u32) -> Value
    ensures { result ≡ and_row a b }
{
    bits_value(a & b)
}

#[tactic(auto, unfolding(esa_model::specs::WordRows::or_row))]
fn or(a: u32, b: u32) -> Value
    ensures { result ≡ or_row a b }
{
    bits_value(a | b)
}

#[tactic(auto, unfolding(esa_model::specs::WordRows::exclusive_or_row))]
fn exclusive_or(a: u32, b: u32) -> Value
    ensures { result ≡ exclusive_or_row a b }
{
    bits_value(a ^ b)
}

#[tactic(auto, unfolding(esa_model::specs::WordRows::compare_logical_row))]
fn compare_logical(a: u32, b: u32) -> Value
    ensures { result ≡ compare_logical_row a b }
{
    single(a, order_of(i128::from(a), i128::from(b)), 0)
}

#[tactic(auto, unfolding(esa_model::specs::WordRows::load_row))]
fn load(b: u32) -> Value
    ensures { result ≡ load_row b }
{
    unchanged(b)
}

#[tactic(auto, unfolding(esa_model::specs::WordRows::compare_row))]
pub(crate) fn compare(a: u32, b: u32) -> Value
    ensures { result ≡ compare_row a b }
{
    single(a, order_of(signed_of(a), signed_of(b)), 0)
}

#[tactic(auto, unfolding(esa_model::specs::WordRows::add_row))]
pub(crate) fn add(a: u32, b: u32) -> Value
    ensures { result ≡ add_row a b }
{
    signed_value(signed_of(a) + signed_of(b))
}

#[tactic(auto, unfolding(esa_model::specs::WordRows::subtract_row))]
pub(crate) fn subtract(a: u32, b: u32) -> Value
    ensures { result ≡ subtract_row a b }
{
    signed_value(signed_of(a) - signed_of(b))
}

#[tactic(auto, unfolding(esa_model::specs::WordRows::multiply_row))]
fn multiply(low: u32, b: u32) -> Value
    ensures { result ≡ multiply_row low b }
{
    pair_value(signed_of(low) * signed_of(b))
}

#[tactic(auto, unfolding(esa_model::specs::WordRows::multiply_single_row))]
pub(crate) fn multiply_single(a: u32, b: u32) -> Value
    ensures { result ≡ multiply_single_row a b }
{
    unchanged(wrap32(signed_of(a) * signed_of(b)))
}

/// The quotient toward zero.
fn quotient(z: i128, d: i128) -> i128
    requires low { neg_ℤ (pos (2 ^ 63)) ≤ℤ z }
    requires high { z <ℤ pos (2 ^ 63) }
    requires divisor { d ≢ pos 0 }
    ensures { result ≡ int_div z d }
{
    z / d
}

/// The remainder, with the dividend's sign.
fn remainder(z: i128, d: i128) -> i128
    requires low { neg_ℤ (pos (2 ^ 63)) ≤ℤ z }
    requires high { z <ℤ pos (2 ^ 63) }
    requires divisor { d ≢ pos 0 }
    ensures { result ≡ int_rem z d }
{
    z % d
}

/// A fixed-point divide exception, which leaves the pair.
fn refuse_quotient(a: u32, low: u32) -> Value
    ensures { result ≡ not_divided a low }
{
    double(a, low, STAYS, FIXED_DIVIDE)
}

#[tactic(auto, unfolding(esa_model::specs::WordRows::divide_row))]
fn divide(a: u32, low: u32, b: u32) -> Value
    ensures { result ≡ divide_row a low b }
{
    if b == 0 {
        return refuse_quotient(a, low);
    }
    let z = pair_of(a, low);
    let d = signed_of(b);
    let q = quotient(z, d);
    if code_of(q) == 3 {
        return refuse_quotient(a, low);
    }
    double(wrap32(remainder(z, d)), wrap32(q), STAYS, 0)
}

#[tactic(auto, unfolding(esa_model::specs::WordRows::add_logical_row))]
fn add_logical(a: u32, b: u32) -> Value
    ensures { result ≡ add_logical_row a b }
{
    let sum = u64::from(a) + u64::from(b);
    let word = (sum % 0x1_0000_0000) as u32;
    let carry = if sum < 0x1_0000_0000 { 0 } else { 2 };
    single(word, code_of_bits(word) + carry, 0)
}

#[tactic(auto, unfolding(esa_model::specs::WordRows::subtract_logical_row))]
fn subtract_logical(a: u32, b: u32) -> Value
    ensures { result ≡ subtract_logical_row a b }
{
    let word = ((u64::from(a) + 0x1_0000_0000 - u64::from(b)) % 0x1_0000_0000) as u32;
    let code = if a < b {
        1
    } else if a == b {
        2
    } else {
        3
    };
    single(word, code, 0)
}

/// The value of a row on words: `a` is the register's word, `a_low` the second word of a pair, `b`
/// the second operand. `op` is the opcode of the RR or the RX row; MSR has that of MS. Source:
/// Principles of Operation, chapter on general instructions.
#[tactic(auto, unfolding(esa_model::specs::WordRows::rr_row, esa_model::specs::WordRows::is_rr))]
pub fn rr(op: u8, a: u32, a_low: u32, b: u32) -> Value
    requires { IsTrue (is_rr op) }
    ensures { result ≡ rr_row op a a_low b }
{
    cases! { op;
        0x10 => load_positive(b),
        0x11 => load_negative(b),
        0x12 => load_and_test(b),
        0x13 => load_complement(b),
        0x14 | 0x54 => and(a, b),
        0x15 | 0x55 => compare_logical(a, b),
        0x16 | 0x56 => or(a, b),
        0x17 | 0x57 => exclusive_or(a, b),
        0x18 | 0x58 => load(b),
        0x19 | 0x59 => compare(a, b),
        0x1A | 0x5A => add(a, b),
        0x1B | 0x5B => subtract(a, b),
        0x1C | 0x5C => multiply(a_low, b),
        0x1D | 0x5D => divide(a, a_low, b),
        0x1E | 0x5E => add_logical(a, b),
        0x1F | 0x5F => subtract_logical(a, b),
        0x71 => multiply_single(a, b)
    }
}
