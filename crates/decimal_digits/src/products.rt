//! Products and quotients.

ghost use Rattle.std.specs.Prelude.{◌≡◌, ◌*◌, ◌/◌, ◌%◌, ◌<◌, ◌^◌, ◌↔◌, IsNone, IfSome};
ghost use Rattle.esa_model.specs.Packed.{differ};

use crate::values::Digits;

fn are_unlike(a: bool, b: bool) -> bool
    ensures { result ≡ differ a b }
{
    if a { !b } else { b }
}

/// The product of two values that is below 10^31. Its sign is by algebra, for zero too.
pub fn multiply(a: &Digits, b: &Digits) -> Digits
    requires { a.now.magnitude * b.now.magnitude < 10 ^ 31 }
    ensures magnitude { result.magnitude ≡ a.now.magnitude * b.now.magnitude }
    ensures sign { result.negative ≡ differ a.now.negative b.now.negative }
{
    let negative = are_unlike(a.negative, b.negative);
    Digits {
        negative,
        magnitude: a.magnitude * b.magnitude,
    }
}

/// Quotient and remainder, the quotient cut toward zero; None exactly where b is zero. The
/// quotient's sign is by algebra and the remainder's is the dividend's, for zero too.
pub fn divide(a: &Digits, b: &Digits) -> Option<(Digits, Digits)>
    ensures none { IsNone result ↔ (b.now.magnitude ≡ 0) }
    ensures quotient { IfSome result (λ p. p.0.magnitude ≡ a.now.magnitude / b.now.magnitude) }
    ensures quotient_sign { IfSome result (λ p.
        p.0.negative ≡ differ a.now.negative b.now.negative) }
    ensures remainder { IfSome result (λ p. p.1.magnitude ≡ a.now.magnitude % b.now.magnitude) }
    ensures remainder_sign { IfSome result (λ p. p.1.negative ≡ a.now.negative) }
{
    if b.magnitude == 0 {
        return None;
    }
    let negative = are_unlike(a.negative, b.negative);
    let quotient = Digits {
        negative,
        magnitude: a.magnitude / b.magnitude,
    };
    let remainder = Digits {
        negative: a.negative,
        magnitude: a.magnitude % b.magnitude,
    };
    Some((quotient, remainder))
}
