//! Rows on a word and a halfword.

ghost use Rattle.std.specs.Prelude.{◌≡◌, ◌<◌, ◌/◌, ◌%◌, IsTrue};
ghost use Rattle.esa_model.specs.WordRows.{extended, load_half_row, compare_half_row, add_half_row, subtract_half_row, multiply_half_row, leftmost, test_code, test_high_row, test_low_row, half_row, is_half};

use crate::numbers::{single, unchanged};
use crate::words::{add, compare, multiply_single, subtract};
use esa_model::machine::Value;

/// The halfword as a word with the same signed number.
fn extended_of(h: u16) -> u32
    ensures { result ≡ extended h }
{
    if h < 0x8000 {
        u32::from(h)
    } else {
        u32::from(h) + 0xFFFF_0000
    }
}

#[tactic(auto, unfolding(esa_model::specs::WordRows::load_half_row))]
fn load_half(h: u16) -> Value
    ensures { result ≡ load_half_row h }
{
    unchanged(extended_of(h))
}

#[tactic(auto, unfolding(esa_model::specs::WordRows::compare_half_row))]
fn compare_half(a: u32, h: u16) -> Value
    ensures { result ≡ compare_half_row a h }
{
    compare(a, extended_of(h))
}

#[tactic(auto, unfolding(esa_model::specs::WordRows::add_half_row))]
fn add_half(a: u32, h: u16) -> Value
    ensures { result ≡ add_half_row a h }
{
    add(a, extended_of(h))
}

#[tactic(auto, unfolding(esa_model::specs::WordRows::subtract_half_row))]
fn subtract_half(a: u32, h: u16) -> Value
    ensures { result ≡ subtract_half_row a h }
{
    subtract(a, extended_of(h))
}

#[tactic(auto, unfolding(esa_model::specs::WordRows::multiply_half_row))]
fn multiply_half(a: u32, h: u16) -> Value
    ensures { result ≡ multiply_half_row a h }
{
    multiply_single(a, extended_of(h))
}

/// The place, counted from the right, of the leftmost one of 16 bits; 0 where there is none.
fn leftmost_of(mask: u16) -> u8
    ensures value { result ≡ leftmost 16 mask }
    ensures small { result < 16 }
{
    let mut place = 0;
    for n in 0..16u8 {
        place = if (mask >> n) % 2 == 1 { n } else { place };
    }
    place
}

/// 0 all selected bits zero or none selected, 1 mixed with the leftmost of them zero, 2 mixed with
/// it one, 3 all ones.
#[tactic(auto, unfolding(esa_model::specs::WordRows::test_code))]
fn test_under_mask(bits: u16, mask: u16) -> u8
    ensures { result ≡ test_code bits mask }
{
    let ones = bits & mask;
    if ones == 0 {
        0
    } else if ones == mask {
        3
    } else if (bits >> leftmost_of(mask)) % 2 == 1 {
        2
    } else {
        1
    }
}

#[tactic(auto, unfolding(esa_model::specs::WordRows::test_high_row))]
fn test_high(a: u32, mask: u16) -> Value
    ensures { result ≡ test_high_row a mask }
{
    single(a, test_under_mask((a / 0x1_0000) as u16, mask), 0)
}

#[tactic(auto, unfolding(esa_model::specs::WordRows::test_low_row))]
fn test_low(a: u32, mask: u16) -> Value
    ensures { result ≡ test_low_row a mask }
{
    single(a, test_under_mask((a % 0x1_0000) as u16, mask), 0)
}

/// The value of a row on a register's word and a halfword. LHI, CHI, AHI and MHI have the opcodes
/// of LH, CH, AH and MH, TMH and TML have X'A0' and X'A1'. Source: Principles of Operation, chapter
/// on general instructions.
#[tactic(auto, unfolding(esa_model::specs::WordRows::half_row, esa_model::specs::WordRows::is_half))]
pub fn half(op: u8, a: u32, b: u16) -> Value
    requires { IsTrue (is_half op) }
    ensures { result ≡ half_row op a b }
{
    cases! { op;
        0x48 => load_half(b),
        0x49 => compare_half(a, b),
        0x4A => add_half(a, b),
        0x4B => subtract_half(a, b),
        0x4C => multiply_half(a, b),
        0xA0 => test_high(a, b),
        0xA1 => test_low(a, b)
    }
}
