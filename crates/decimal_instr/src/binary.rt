//! Conversions between decimal and binary.

ghost use Rattle.std.specs.Prelude.{◌≡◌};
ghost use Rattle.esa_model.specs.DecimalRows.{word_value, to_binary, to_decimal};

use crate::endings::{suppressed, whole_number};
use decimal_digits::{Digits, pack, unpack};
use esa_model::codes::{DATA, FIXED_DIVIDE, STAYS};
use esa_model::machine::Value;
use esa_model::words::{signed32, wrap32};

/// A whole number in a word.
fn word_value_of(z: i128) -> Value
    ensures { result ≡ word_value z }
{
    if -0x8000_0000 <= z && z < 0x8000_0000 {
        Value {
            word: wrap32(z),
            low: 0,
            cc: STAYS,
            fault: 0,
        }
    } else {
        suppressed(FIXED_DIVIDE)
    }
}

/// CONVERT TO BINARY: the word of a field of 8 bytes. A bad digit or sign is a data exception, a
/// number that no word has a fixed-point divide exception (Principles of Operation, General
/// Instructions).
#[tactic(auto, unfolding(esa_model::specs::DecimalRows::to_binary))]
pub fn cvb(field: &[u8; 8]) -> Value
    ensures { result ≡ to_binary field.now }
{
    match unpack(field) {
        Some(d) => word_value_of(whole_number(&d)),
        None => suppressed(DATA),
    }
}

/// CONVERT TO DECIMAL: the field of 8 bytes of a signed word (Principles of Operation, General
/// Instructions).
#[tactic(auto, unfolding(esa_model::specs::DecimalRows::to_decimal))]
pub fn cvd(word: u32) -> [u8; 8]
    ensures { result ≡ to_decimal word }
{
    let z = signed32(word);
    let d = Digits::new(z < 0, u128::from(z.unsigned_abs()));
    let mut field = [0; 8];
    let _lost = pack(&d, &mut field);
    field
}
