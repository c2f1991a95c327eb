//! Sums, differences, comparisons and shifts.

ghost use Rattle.std.specs.Prelude.{◌≡◌, ◌||◌, ◌<◌, ◌≤◌, ℕ, ℤ, Bool, length, unsigned_abs};
ghost use Rattle.std.specs.Int.{is_negative};
ghost use Rattle.esa_model.specs.Packed.{whole};
ghost use Rattle.esa_model.specs.DecimalRows.{Leaves, stored, add_row, subtract_row, zero_and_add_row, compare_row, order_code, shift_row, signed_shift};
ghost use Rattle.decimal_digits.specs.Meaning.{IsWide, number_of};
ghost use Rattle.decimal_instr.specs.Ends.{sum_end};

use crate::endings::{ended, suppressed, whole_number};
use decimal_digits::{Digits, Wide, add, pack, shift, subtract, unpack};
use esa_model::codes::{DATA, DECIMAL_OVERFLOW};
use esa_model::machine::Value;

/// The value of a sum: 0 zero, 1 negative, 2 positive, 3 where digits are lost.
fn end_sum(lost: bool, negative: bool, magnitude: u128) -> Value
    ensures { result ≡ sum_end lost negative magnitude }
{
    if lost {
        ended(3, DECIMAL_OVERFLOW)
    } else if magnitude == 0 {
        ended(0, 0)
    } else if negative {
        ended(1, 0)
    } else {
        ended(2, 0)
    }
}

/// Stores a whole number that is known by its sign and its low 31 digits.
fn store(first: &mut [u8], w: &Wide) -> Value
    requires some { 1 ≤ length first.old }
    requires few { length first.old ≤ 16 }
    ensures { (z : ℤ) → IsWide w.now (is_negative z) (unsigned_abs z)
        → Leaves (stored (length first.old) z) first.new result }
{
    let lost = pack(&w.digits, first);
    let over = w.lost || lost;
    end_sum(over, w.digits.is_negative(), w.digits.magnitude())
}

/// The same number, but zero is positive.
fn with_positive_zero(w: &Wide) -> Wide
    ensures { (negative : Bool) (m : ℕ) → IsWide w.now negative m
        → IsWide result (is_negative (whole negative m)) (unsigned_abs (whole negative m)) }
{
    let nonzero = w.lost || w.digits.magnitude() != 0;
    Wide {
        digits: Digits::new(w.digits.is_negative() && nonzero, w.digits.magnitude()),
        lost: w.lost,
    }
}

/// A number of which no digit is lost.
fn wide_of(d: Digits) -> Wide
    ensures { IsWide result d.negative d.magnitude }
{
    Wide {
        digits: d,
        lost: false,
    }
}

/// ADD DECIMAL.
#[tactic(auto, unfolding(esa_model::specs::DecimalRows::add_row))]
pub(crate) fn add_decimal(first: &mut [u8], second: &[u8]) -> Value
    requires some { 1 ≤ length first.old }
    requires few { length first.old ≤ 16 }
    requires second_some { 1 ≤ length second.now }
    requires second_few { length second.now ≤ 16 }
    ensures { Leaves (add_row first.old second.now) first.new result }
{
    let Some(a) = unpack(first) else {
        return suppressed(DATA);
    };
    let Some(b) = unpack(second) else {
        return suppressed(DATA);
    };
    store(first, &add(&a, &b))
}

/// SUBTRACT DECIMAL.
#[tactic(auto, unfolding(esa_model::specs::DecimalRows::subtract_row))]
pub(crate) fn subtract_decimal(first: &mut [u8], second: &[u8]) -> Value
    requires some { 1 ≤ length first.old }
    requires few { length first.old ≤ 16 }
    requires second_some { 1 ≤ length second.now }
    requires second_few { length second.now ≤ 16 }
    ensures { Leaves (subtract_row first.old second.now) first.new result }
{
    let Some(a) = unpack(first) else {
        return suppressed(DATA);
    };
    let Some(b) = unpack(second) else {
        return suppressed(DATA);
    };
    store(first, &subtract(&a, &b))
}

/// ZERO AND ADD.
#[tactic(auto, unfolding(esa_model::specs::DecimalRows::zero_and_add_row))]
pub(crate) fn zero_and_add(first: &mut [u8], second: &[u8]) -> Value
    requires some { 1 ≤ length first.old }
    requires few { length first.old ≤ 16 }
    requires second_some { 1 ≤ length second.now }
    requires second_few { length second.now ≤ 16 }
    ensures { Leaves (zero_and_add_row first.old second.now) first.new result }
{
    match unpack(second) {
        Some(b) => store(first, &with_positive_zero(&wide_of(b))),
        None => suppressed(DATA),
    }
}

/// 0 equal, 1 first low, 2 first high.
fn order_of(a: &Digits, b: &Digits) -> u8
    ensures { result ≡ order_code (number_of a.now) (number_of b.now) }
{
    let x = whole_number(a);
    let y = whole_number(b);
    if x < y {
        1
    } else if y < x {
        2
    } else {
        0
    }
}

/// COMPARE DECIMAL.
#[tactic(auto, unfolding(esa_model::specs::DecimalRows::compare_row))]
pub(crate) fn compare_decimal(first: &[u8], second: &[u8]) -> Value
    requires some { 1 ≤ length first.now }
    requires few { length first.now ≤ 16 }
    requires second_some { 1 ≤ length second.now }
    requires second_few { length second.now ≤ 16 }
    ensures { Leaves (compare_row first.now second.now) first.now result }
{
    let Some(a) = unpack(first) else {
        return suppressed(DATA);
    };
    let Some(b) = unpack(second) else {
        return suppressed(DATA);
    };
    ended(order_of(&a, &b), 0)
}

/// The signed number of six bits.
fn shift_of(by: u8) -> i8
    requires { by < 64 }
    ensures { result ≡ signed_shift by }
{
    if by < 32 { by as i8 } else { by as i8 - 64 }
}

/// SHIFT AND ROUND DECIMAL: shifts the field by the signed number of the six bits `by`, rounding a
/// shift to the right by the digit `round`. A bad digit or sign of the field, or a `round` above 9,
/// is a data exception and leaves the field (Principles of Operation, Decimal Instructions).
#[tactic(auto, unfolding(esa_model::specs::DecimalRows::shift_row))]
pub fn srp(first: &mut [u8], by: u8, round: u8) -> Value
    requires some { 1 ≤ length first.old }
    requires few { length first.old ≤ 16 }
    requires by { by < 64 }
    ensures { Leaves (shift_row first.old by round) first.new result }
{
    let Some(a) = unpack(first) else {
        return suppressed(DATA);
    };
    if round > 9 {
        return suppressed(DATA);
    }
    let shifted = shift(&a, shift_of(by), round);
    store(first, &with_positive_zero(&shifted))
}
