//! What ends an instruction, and the numbers of its operands.

ghost use Rattle.std.specs.Prelude.{◌≡◌};
ghost use Rattle.esa_model.specs.DecimalRows.{ends};
ghost use Rattle.decimal_digits.specs.Meaning.{number_of};

use decimal_digits::Digits;
use esa_model::codes::STAYS;
use esa_model::machine::Value;

/// A condition code, and a program code that comes with the result or 0.
pub(crate) fn ended(code: u8, fault: u8) -> Value
    ensures { result ≡ ends code fault }
{
    Value {
        word: 0,
        low: 0,
        cc: code,
        fault,
    }
}

/// A result that leaves the condition code.
pub(crate) fn completed() -> Value
    ensures { result ≡ ends STAYS 0 }
{
    ended(STAYS, 0)
}

/// A program code that leaves all as it was.
pub(crate) fn suppressed(fault: u8) -> Value
    ensures { result ≡ ends STAYS fault }
{
    ended(STAYS, fault)
}

/// The whole number of a value.
pub(crate) fn whole_number(d: &Digits) -> i128
    ensures { result ≡ number_of d.now }
{
    let m = d.magnitude() as i128;
    if d.is_negative() { -m } else { m }
}
