//! The units of MVCL and CLCL.

ghost use Rattle.std.specs.Prelude.{◌≡◌, ◌<◌, ◌≤◌, length, min};
ghost use Rattle.esa_model.specs.LongMoves.{wrap, gap, length_code, move_row, padded_byte, places, first_byte, second_byte, same_places, unit_code, compare_row};

use esa_model::long_operands::{CompareUnit, LongOperands, MoveUnit};

/// One more than the last address of the mode.
fn wrap_of(wide: bool) -> u32
    ensures { result ≡ wrap wide }
{
    if wide { 0x8000_0000 } else { 0x100_0000 }
}

/// The first address less the second, modulo the wrap.
fn gap_of(m: &LongOperands) -> u32
    ensures { result ≡ gap m.now }
{
    let modulus = wrap_of(m.wide);
    (m.to % modulus + (modulus - m.from % modulus)) % modulus
}

/// 0 where the lengths are equal, 1 where the first is lower, 2 where it is higher.
fn length_code_of(a: u32, b: u32) -> u8
    ensures { result ≡ length_code a b }
{
    if a == b {
        0
    } else if a < b {
        1
    } else {
        2
    }
}

/// One unit of MVCL: at most 256 bytes are stored, from the second operand as far as that goes and
/// then pad bytes. A move is destructive where a byte of the second operand would be fetched after
/// it was stored into; it stores nothing.
///
/// Source: Principles of Operation, chapter on general instructions; the size of a unit is a choice
/// of this project.
#[tactic(auto, unfolding(esa_model::specs::LongMoves::move_row))]
pub fn move_unit(m: &LongOperands) -> MoveUnit
    ensures { result ≡ move_row m.now }
{
    let apart = gap_of(m);
    if 0 < apart && apart < m.to_len.min(m.from_len) {
        return MoveUnit {
            copied: 0,
            padded: 0,
            cc: Some(3),
            destructive: true,
        };
    }
    let stored = m.to_len.min(256);
    let copied = stored.min(m.from_len);
    MoveUnit {
        copied: copied as u16,
        padded: (stored - copied) as u16,
        cc: if m.to_len <= 256 {
            Some(length_code_of(m.to_len, m.from_len))
        } else {
            None
        },
        destructive: false,
    }
}

/// The byte at a place of an operand of `len` bytes that pad bytes follow.
fn byte_at(bytes: &[u8], len: u32, pad: u8, i: u32) -> u8
    requires bytes { min 256 len ≤ length bytes.now }
    requires place { i < 256 }
    ensures { result ≡ padded_byte bytes.now len pad i }
{
    if i < len { bytes[i as usize] } else { pad }
}

/// How many places a unit compares.
fn places_of(c: &LongOperands) -> u32
    ensures value { result ≡ places c.now }
    ensures few { result ≤ 256 }
{
    c.to_len.max(c.from_len).min(256)
}

/// The number of equal places before the first unequal one. All places of the unit are looked at.
fn same_until(first: &[u8], second: &[u8], c: &LongOperands) -> u32
    requires first { min 256 c.now.to_len ≤ length first.now }
    requires second { min 256 c.now.from_len ≤ length second.now }
    ensures value { result ≡ same_places first.now second.now c.now }
    ensures within { result ≤ places c.now }
{
    let mut same: u32 = 0;
    for i in 0..places_of(c) {
        same = if same == i
            && byte_at(first, c.to_len, c.pad, i) == byte_at(second, c.from_len, c.pad, i)
        {
            i + 1
        } else {
            same
        };
    }
    same
}

/// The condition code, where this many places are equal before the first unequal one.
fn code_after(first: &[u8], second: &[u8], same: u32, c: &LongOperands) -> Option<u8>
    requires first { min 256 c.now.to_len ≤ length first.now }
    requires second { min 256 c.now.from_len ≤ length second.now }
    ensures { let x = first_byte first.now c.now same in
        let y = second_byte second.now c.now same in
        result ≡ unit_code same x y c.now }
{
    if same < places_of(c) {
        let x = byte_at(first, c.to_len, c.pad, same);
        let y = byte_at(second, c.from_len, c.pad, same);
        if x < y { Some(1) } else { Some(2) }
    } else if c.to_len.max(c.from_len) <= 256 {
        Some(0)
    } else {
        None
    }
}

/// One unit of CLCL: at most 256 places are compared, each operand followed by pad bytes as far as
/// the longer one goes.
///
/// Source: Principles of Operation, chapter on general instructions; the size of a unit is a choice
/// of this project.
#[tactic(auto, unfolding(esa_model::specs::LongMoves::compare_row))]
pub fn compare_unit(first: &[u8], second: &[u8], c: &LongOperands) -> CompareUnit
    requires first { min 256 c.now.to_len ≤ length first.now }
    requires second { min 256 c.now.from_len ≤ length second.now }
    ensures { result ≡ compare_row first.now second.now c.now }
{
    let same = same_until(first, second, c);
    CompareUnit {
        equal: same as u16,
        cc: code_after(first, second, same, c),
    }
}
