// Numbers in decimal digits, without sign and without a zero that is not needed.
#![tactic(auto)]

ghost use Rattle.std.specs.Prelude.{◌≡◌, ℕ, ◌+◌, ◌<◌, ◌≤◌, ◌++◌, min, length, true, IfSome, IfNone};
ghost use Rattle.std.specs.Char.{is_ascii_digit};
ghost use Rattle.std.specs.List.{list_all};
ghost use Rattle.std.specs.Str.Parse.{digits_value};
ghost use Rattle.arrayvec.specs.ArrayVec.{array_vec_len};
ghost use Rattle.run_model.specs.Numbers.{decimal as decimal_text, is_decimal as is_decimal_text, number_up_to};

use arrayvec::ArrayVec;

fn push_decimal(out: &mut ArrayVec<u8, 20>, n: u64)
    requires { array_vec_len out.old + length (decimal_text n) ≤ 20 }
    ensures { out.new.items ≡ out.old.items ++ decimal_text n }
{
    if n < 10 {
        out.push(b'0' + n as u8);
        return;
    }
    push_decimal(out, n / 10);
    out.push(b'0' + (n % 10) as u8);
}

/// A number in decimal digits.
pub fn decimal(n: u64) -> ArrayVec<u8, 20>
    ensures { result.items ≡ decimal_text n }
{
    let mut out = ArrayVec::new();
    push_decimal(&mut out, n);
    out
}

fn has_only_digits(t: &[u8]) -> bool
    ensures { result ≡ list_all is_ascii_digit t.now }
{
    t.iter().all(|b| b.is_ascii_digit())
}

/// Whether a text is a decimal, of any length.
#[tactic(auto, unfolding(run_model::specs::Numbers::is_decimal))]
pub fn is_decimal(t: &[u8]) -> bool
    ensures { result ≡ is_decimal_text t.now }
{
    t.len() > 0 && has_only_digits(t) && (t.len() == 1 || t[0] != b'0')
}

// The value of digits, or one more than the greatest wanted for any that is greater.
fn clipped_value(digits: &[u8], most: u64) -> u128
    requires { list_all is_ascii_digit digits.now ≡ true }
    ensures { result ≡ min (digits_value 10 digits.now) (most + 1) }
{
    let mut value: u128 = 0;
    for b in digits {
        value = (value * 10 + u128::from(*b - b'0')).min(u128::from(most) + 1);
    }
    value
}

/// The number of a decimal, None exactly where the text is no decimal or its number is above
/// `most`.
pub fn read_decimal(t: &[u8], most: u64) -> Option<u64>
    ensures value { result ≡ number_up_to most t.now }
    ensures some { IfSome result (λ n. (t.now ≡ decimal_text n) × (n ≤ most)) }
    ensures none { IfNone result ((n : ℕ) → n ≤ most → t.now ≡ decimal_text n → ⊥) }
{
    if !is_decimal(t) {
        return None;
    }
    let value = clipped_value(t, most);
    if value > u128::from(most) {
        return None;
    }
    Some(value as u64)
}
