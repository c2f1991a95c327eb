//! Sums and differences.

ghost use Rattle.std.specs.Prelude.{◌≡◌, ◌+ℤ◌, ◌-ℤ◌, ℤ, unsigned_abs};
ghost use Rattle.std.specs.Int.{is_negative};
ghost use Rattle.decimal_digits.specs.Meaning.{IsWide, number_of};

use crate::values::{Digits, Wide};

/// The least number of 32 digits.
const LIMIT: u128 = 10_000_000_000_000_000_000_000_000_000_000;

fn low_digits(negative: bool, exact: u128) -> Wide
    ensures { IsWide result negative exact }
{
    let magnitude = exact % LIMIT;
    Wide {
        digits: Digits {
            negative,
            magnitude,
        },
        lost: exact >= LIMIT,
    }
}

/// The sum of two values as whole numbers, whose zero is positive.
pub fn add(a: &Digits, b: &Digits) -> Wide
    ensures { let z = number_of a.now +ℤ number_of b.now in
        IsWide result (is_negative z) (unsigned_abs z) }
{
    if a.negative == b.negative {
        let sum = a.magnitude + b.magnitude;
        low_digits(a.negative && sum > 0, sum)
    } else if a.magnitude > b.magnitude {
        low_digits(a.negative, a.magnitude - b.magnitude)
    } else if a.magnitude < b.magnitude {
        low_digits(b.negative, b.magnitude - a.magnitude)
    } else {
        low_digits(false, 0)
    }
}

fn opposite(d: &Digits) -> Digits
    ensures { (x : ℤ) → (x +ℤ number_of result) ≡ (x -ℤ number_of d.now) }
{
    Digits {
        negative: !d.negative,
        magnitude: d.magnitude,
    }
}

/// The difference of two values as whole numbers, whose zero is positive.
pub fn subtract(a: &Digits, b: &Digits) -> Wide
    ensures { let z = number_of a.now -ℤ number_of b.now in
        IsWide result (is_negative z) (unsigned_abs z) }
{
    add(a, &opposite(b))
}
