ghost use Rattle.std.specs.Prelude.{◌≡◌, ◌+◌, ◌*◌, ◌<◌, ◌≤◌, ◌^◌, ◌%◌};
ghost use Rattle.run_model.specs.Code.{value_of, placed};

use crate::parity::check_position;

// The low n bits of w.
#[tactic(auto, using(crate::proofs::Room::low_mask))]
fn low_bits(w: u128, n: u32) -> u128
    requires { n < 128 }
    ensures { result ≡ w % 2 ^ n }
{
    w & ((1 << n) - 1)
}

// w times 2^n.
#[tactic(auto, using(crate::proofs::Room::whole_shift))]
fn raised(w: u128, n: u32) -> u128
    requires few { n < 128 }
    requires fits { w * 2 ^ n < 2 ^ 128 }
    ensures { result ≡ w * 2 ^ n }
{
    w << n
}

// The bits of w between the check positions 2^j and 2^(j + 1), in their places of the value.
fn gathered(w: u128, j: u32) -> u128
    requires { j < 7 }
    ensures value { value_of (2 ^ (j + 1)) w ≡ result + value_of (2 ^ j) w }
    ensures room { value_of (2 ^ (j + 1)) w < 2 ^ 128 }
{
    let at = check_position(j);
    let bits = low_bits(w >> (at + 1), at - 1);
    raised(bits, at - 1 - j)
}

/// The value that the positions below 2^checks hold.
pub(crate) fn value_at(checks: u32, w: u128) -> u128
    requires { checks ≤ 7 }
    ensures { result ≡ value_of (2 ^ checks) w }
{
    let mut value: u128 = 0;
    for j in 0..checks {
        value += gathered(w, j);
    }
    value
}

// The bits of the value that belong between the check positions 2^j and 2^(j + 1), at those positions.
fn scattered(value: u128, j: u32) -> u128
    requires { j < 7 }
    ensures value { placed (2 ^ (j + 1)) value ≡ result + placed (2 ^ j) value }
    ensures room { placed (2 ^ (j + 1)) value < 2 ^ 128 }
{
    let at = check_position(j);
    let bits = low_bits(value >> (at - 1 - j), at - 1);
    raised(bits, at + 1)
}

/// A value in its places below 2^checks, and zeros at the check positions.
pub(crate) fn placed_in(checks: u32, value: u128) -> u128
    requires { checks ≤ 7 }
    ensures { result ≡ placed (2 ^ checks) value }
{
    let mut w: u128 = 0;
    for j in 0..checks {
        w += scattered(value, j);
    }
    w
}
