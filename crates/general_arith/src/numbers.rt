//! Whole numbers, their words, and the values that are made of them.

ghost use Rattle.std.specs.Prelude.{◌≡◌, ◌+◌, ◌*◌, ◌<◌, ◌≤◌, ◌^◌, pos, neg_ℤ, ◌<ℤ◌, ◌≤ℤ◌};
ghost use Rattle.esa_model.specs.Word.{signed, arith};
ghost use Rattle.esa_model.specs.WordRows.{word, sign_code, order_code, bits_code, signed_result, bits_result, pair, pair_bits, high_word, pair_result, value, plain};

use esa_model::codes::{FIXED_OVERFLOW, STAYS};
use esa_model::machine::Value;
use esa_model::words::{signed32, wrap32};

const WORDS: i128 = 0x1_0000_0000;

/// A value of one word.
pub(crate) fn single(word: u32, code: u8, fault: u8) -> Value
    ensures { result ≡ value word 0 code fault }
{
    Value {
        word,
        low: 0,
        cc: code,
        fault,
    }
}

/// A value of a pair.
pub(crate) fn double(word: u32, low: u32, code: u8, fault: u8) -> Value
    ensures { result ≡ value word low code fault }
{
    Value {
        word,
        low,
        cc: code,
        fault,
    }
}

/// A word, with the condition code as it was.
pub(crate) fn unchanged(word: u32) -> Value
    ensures { result ≡ plain word }
{
    single(word, STAYS, 0)
}

/// The signed number that a word stands for.
pub(crate) fn signed_of(w: u32) -> i128
    ensures value { result ≡ signed w }
    ensures low { neg_ℤ (pos (2 ^ 31)) ≤ℤ result }
    ensures high { result <ℤ pos (2 ^ 31) }
{
    i128::from(signed32(w))
}

/// 0 zero, 1 negative, 2 positive.
pub(crate) fn sign_of(z: i128) -> u8
    ensures { result ≡ sign_code z }
{
    if z < 0 {
        1
    } else if 0 < z {
        2
    } else {
        0
    }
}

/// 0 equal, 1 first low, 2 first high.
pub(crate) fn order_of(x: i128, y: i128) -> u8
    ensures { result ≡ order_code x y }
{
    if x < y {
        1
    } else if y < x {
        2
    } else {
        0
    }
}

/// 0 zero, 1 not zero.
pub(crate) fn code_of_bits(word: u32) -> u8
    ensures value { result ≡ bits_code word }
    ensures small { result < 2 }
{
    if word == 0 { 0 } else { 1 }
}

/// The condition code of a signed result, 3 where it has no word.
pub(crate) fn code_of(z: i128) -> u8
    ensures { result ≡ arith z }
{
    if z < -0x8000_0000 || 0x7FFF_FFFF < z {
        3
    } else {
        sign_of(z)
    }
}

/// A signed result.
pub(crate) fn signed_value(z: i128) -> Value
    ensures { result ≡ signed_result z }
{
    let code = code_of(z);
    single(wrap32(z), code, if code == 3 { FIXED_OVERFLOW } else { 0 })
}

/// A result of bits.
pub(crate) fn bits_value(word: u32) -> Value
    ensures { result ≡ bits_result word }
{
    single(word, code_of_bits(word), 0)
}

/// The whole number of a pair.
pub(crate) fn pair_of(high: u32, low: u32) -> i128
    ensures value { result ≡ pair high low }
    ensures low { neg_ℤ (pos (2 ^ 63)) ≤ℤ result }
    ensures high { result <ℤ pos (2 ^ 63) }
{
    signed_of(high) * WORDS + i128::from(low)
}

/// The 64 bits of a pair.
pub(crate) fn bits_of_pair(high: u32, low: u32) -> u64
    ensures { result ≡ pair_bits high low }
{
    u64::from(high) * 0x1_0000_0000 + u64::from(low)
}

/// The first word of a whole number in a pair.
pub(crate) fn high_word_of(z: i128) -> u32
    ensures { result ≡ high_word z }
{
    wrap32(z.div_euclid(WORDS))
}

/// A whole number in a pair, with the condition code as it was.
pub(crate) fn pair_value(z: i128) -> Value
    ensures { result ≡ pair_result z }
{
    double(high_word_of(z), wrap32(z), STAYS, 0)
}
