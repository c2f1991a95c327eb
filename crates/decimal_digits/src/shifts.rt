//! Shifts by powers of ten.

ghost use Rattle.std.specs.Prelude.{◌≡◌, ◌+◌, ◌-◌, ◌*◌, ◌/◌, ◌<◌, ◌≤◌, ◌^◌, ◌≤ℤ◌, pos, negsuc};
ghost use Rattle.esa_model.specs.Packed.{shifted};
ghost use Rattle.decimal_digits.specs.Meaning.{IsWide};

use crate::values::{Digits, Wide};

fn ten_to(k: u32) -> u128
    requires { k ≤ 32 }
    ensures value { result ≡ 10 ^ k }
    ensures positive { 0 < result }
{
    10u128.pow(k)
}

// The high digits are dropped before the product, which stays below 10^31.
fn shift_left(a: &Digits, by: u8) -> Wide
    requires { by ≤ 31 }
    ensures { IsWide result a.now.negative (a.now.magnitude * 10 ^ by) }
{
    let scale = ten_to(31 - u32::from(by));
    let magnitude = a.magnitude % scale * ten_to(u32::from(by));
    Wide {
        digits: Digits {
            negative: a.negative,
            magnitude,
        },
        lost: a.magnitude >= scale,
    }
}

fn shift_right(a: &Digits, by: u8, round: u8) -> Wide
    requires some { 1 ≤ by }
    requires few { by ≤ 32 }
    requires digit { round ≤ 9 }
    ensures { IsWide result a.now.negative ((a.now.magnitude / 10 ^ (by - 1) + round) / 10) }
{
    let part = a.magnitude / ten_to(u32::from(by) - 1) + u128::from(round);
    Wide {
        digits: Digits {
            negative: a.negative,
            magnitude: part / 10,
        },
        lost: false,
    }
}

/// The value shifted by powers of ten, to the left where `by` is not negative. To the right the
/// rounding digit is added to the last digit that is lost (Principles of Operation, SHIFT AND ROUND
/// DECIMAL). The sign stays, also that of zero.
pub fn shift(a: &Digits, by: i8, round: u8) -> Wide
    requires low { negsuc 31 ≤ℤ by }
    requires high { by ≤ℤ pos 31 }
    requires digit { round ≤ 9 }
    ensures { IsWide result a.now.negative (shifted a.now.magnitude by round) }
{
    if by < 0 {
        shift_right(a, by.unsigned_abs(), round)
    } else {
        shift_left(a, by.unsigned_abs())
    }
}
