// Values of words, whose condition codes are below 5. An opcode of the definitions is any number;
// those that have a value are below 256.
ghost use Rattle.std.specs.Prelude.{◌≡◌, ◌<◌, IsTrue};
ghost use Rattle.esa_model.specs.WordRows.{half_row, is_half, is_rr, is_shift, plain, rr_row, shift_row};

use esa_model::codes::STAYS;
use esa_model::machine::Value;
use general_arith::{half, rr, shift};

/// A word as it is.
pub(crate) fn plain_value(word: u32) -> Value
    ensures value { result ≡ plain word }
    ensures code { result.cc < 5 }
{
    Value {
        word,
        low: 0,
        cc: STAYS,
        fault: 0,
    }
}

/// The value of a row on words.
#[tactic(auto, using(crate::proofs::Codes::rr_small, crate::proofs::Opcodes::rr_byte))]
pub(crate) fn rr_value(op: u16, a: u32, low: u32, b: u32) -> Value
    requires { IsTrue (is_rr op) }
    ensures value { result ≡ rr_row op a low b }
    ensures code { result.cc < 5 }
{
    rr(op as u8, a, low, b)
}

/// The value of a row on a word and a halfword.
#[tactic(auto, using(crate::proofs::Codes::half_small, crate::proofs::Opcodes::half_byte))]
pub(crate) fn half_value(op: u16, a: u32, b: u16) -> Value
    requires { IsTrue (is_half op) }
    ensures value { result ≡ half_row op a b }
    ensures code { result.cc < 5 }
{
    half(op as u8, a, b)
}

/// The value of a shift.
#[tactic(auto, using(crate::proofs::Codes::shift_small, crate::proofs::Opcodes::shift_byte))]
pub(crate) fn shift_value(op: u16, a: u32, low: u32, n: u8) -> Value
    requires opcode { IsTrue (is_shift op) }
    requires places { n < 64 }
    ensures value { result ≡ shift_row op a low n }
    ensures code { result.cc < 5 }
{
    shift(op as u8, a, low, n)
}
