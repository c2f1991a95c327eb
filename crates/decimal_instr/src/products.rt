//! Products and quotients.

ghost use Rattle.std.specs.Prelude.{◌≡◌, ◌-◌, ◌*◌, ◌<◌, ◌≤◌, ◌^◌, ◌++◌, nat_lt, true, false, length, take, ◌==◌};
ghost use Rattle.std.specs.List.{list_all};
ghost use Rattle.esa_model.specs.Packed.{is_packed, magnitude_of, differ, written, limit};
ghost use Rattle.esa_model.specs.DecimalRows.{Leaves, bad_lengths, has_room, multiply_row, divide_row};

use crate::endings::{completed, suppressed};
use decimal_digits::{Digits, divide, multiply, pack, unpack};
use esa_model::codes::{DATA, DECIMAL_DIVIDE, SPECIFICATION};
use esa_model::machine::Value;

/// Whether the second operand has more than 8 bytes, or as many as the first or more.
fn have_bad_lengths(first: &[u8], second: &[u8]) -> bool
    ensures { result ≡ bad_lengths first.now second.now }
{
    second.len() > 8 || first.len() <= second.len()
}

fn all_zero(bytes: &[u8]) -> bool
    ensures { result ≡ list_all (λ b. b == 0) bytes.now }
{
    bytes.iter().all(|b| *b == 0)
}

/// The product of a field with enough zero bytes at its left has at most 30 digits.
fn product_of(first: &[u8], second: &[u8], a: &Digits, b: &Digits) -> Digits
    requires first_few { length first.now ≤ 16 }
    requires second_some { 1 ≤ length second.now }
    requires lengths { bad_lengths first.now second.now ≡ false }
    requires room { has_room first.now second.now ≡ true }
    requires first_packed { is_packed first.now ≡ true }
    requires second_packed { is_packed second.now ≡ true }
    requires first_is { a.now.magnitude ≡ magnitude_of first.now }
    requires second_is { b.now.magnitude ≡ magnitude_of second.now }
    ensures magnitude { result.magnitude ≡ magnitude_of first.now * magnitude_of second.now }
    ensures sign { result.negative ≡ differ a.now.negative b.now.negative }
{
    multiply(a, b)
}

/// MULTIPLY DECIMAL.
#[tactic(auto, unfolding(esa_model::specs::DecimalRows::multiply_row))]
pub(crate) fn multiply_decimal(first: &mut [u8], second: &[u8]) -> Value
    requires some { 1 ≤ length first.old }
    requires few { length first.old ≤ 16 }
    requires second_some { 1 ≤ length second.now }
    requires second_few { length second.now ≤ 16 }
    ensures { Leaves (multiply_row first.old second.now) first.new result }
{
    if have_bad_lengths(first, second) {
        return suppressed(SPECIFICATION);
    }
    let Some(a) = unpack(first) else {
        return suppressed(DATA);
    };
    let Some(b) = unpack(second) else {
        return suppressed(DATA);
    };
    if !all_zero(&first[..second.len()]) {
        return suppressed(DATA);
    }
    let product = product_of(first, second, &a, &b);
    let _lost = pack(&product, first);
    completed()
}

/// Writes a quotient into the first bytes and a remainder into the others.
fn write_two(first: &mut [u8], at: usize, quotient: &Digits, remainder: &Digits)
    requires some { 1 ≤ at }
    requires fewer { at < length first.old }
    requires few { length first.old ≤ 16 }
    ensures { first.new ≡ written at quotient.now.negative quotient.now.magnitude
        ++ written (length first.old - at) remainder.now.negative remainder.now.magnitude }
{
    let (left, right) = first.split_at_mut(at);
    let _lost = pack(quotient, left);
    let _none = pack(remainder, right);
}

/// Whether no digit is lost in a field of so many bytes.
fn fits_in(d: &Digits, bytes: usize) -> bool
    requires some { 1 ≤ bytes }
    requires few { bytes ≤ 16 }
    ensures { result ≡ nat_lt d.now.magnitude (limit bytes) }
{
    let mut field = [0; 16];
    let lost = pack(d, &mut field[..bytes]);
    !lost
}

/// DIVIDE DECIMAL.
#[tactic(auto, unfolding(esa_model::specs::DecimalRows::divide_row))]
pub(crate) fn divide_decimal(first: &mut [u8], second: &[u8]) -> Value
    requires some { 1 ≤ length first.old }
    requires few { length first.old ≤ 16 }
    requires second_some { 1 ≤ length second.now }
    requires second_few { length second.now ≤ 16 }
    ensures { Leaves (divide_row first.old second.now) first.new result }
{
    if have_bad_lengths(first, second) {
        return suppressed(SPECIFICATION);
    }
    let at = first.len() - second.len();
    let Some(a) = unpack(first) else {
        return suppressed(DATA);
    };
    let Some(b) = unpack(second) else {
        return suppressed(DATA);
    };
    let Some((quotient, remainder)) = divide(&a, &b) else {
        return suppressed(DECIMAL_DIVIDE);
    };
    if !fits_in(&quotient, at) {
        return suppressed(DECIMAL_DIVIDE);
    }
    write_two(first, at, &quotient, &remainder);
    completed()
}
