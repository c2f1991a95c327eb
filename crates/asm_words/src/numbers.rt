//! Numbers, in decimal digits and as `X'..'`.
ghost use Rattle.std.specs.Prelude.{◌≡◌, ◌+◌, ◌<◌, ◌≤◌, true, length, IfSome};
ghost use Rattle.std.specs.List.{list_all};
ghost use Rattle.std.specs.Char.{digit_value};
ghost use Rattle.std.specs.Str.Parse.{digits_value};
ghost use Rattle.run_model.specs.Numbers.{is_decimal as is_decimal_text};
ghost use Rattle.asm_model.specs.Words.{capped, quoted as quoted_text, is_hex_byte as is_hex_test};
ghost use Rattle.asm_model.specs.Words.{is_enclosed as is_enclosed_text, is_hexadecimal as is_hexadecimal_text};
ghost use Rattle.asm_model.specs.Words.{number_of as number_of_text};

use esa_words::{is_decimal, read_decimal};

/// Whether a byte is a hexadecimal digit.
fn is_hex_byte(b: u8) -> bool
    ensures { result ≡ is_hex_test b }
{
    b.is_ascii_digit() || (b'A' <= b && b <= b'F')
}

/// Whether a text has no other bytes than hexadecimal digits.
pub fn has_hex_bytes(t: &[u8]) -> bool
    ensures { result ≡ list_all is_hex_test t.now }
{
    t.iter().all(|b| is_hex_byte(*b))
}

/// Whether a text begins with a letter and a mark and ends with a mark, with something between them.
pub fn is_enclosed(w: &[u8], letter: u8, left: u8, right: u8) -> bool
    ensures { result ≡ is_enclosed_text letter left right w.now }
{
    w.len() > 3 && w[0] == letter && w[1] == left && w[w.len() - 1] == right
}

/// What stands between the marks of an enclosed text.
pub fn quoted(w: &[u8]) -> &[u8]
    requires { 3 < length w.now }
    ensures { result.now ≡ quoted_text w.now }
{
    let (_letter, rest) = w.split_at(2);
    rest.split_at(w.len() - 3).0
}

fn is_hexadecimal(w: &[u8]) -> bool
    ensures { result ≡ is_hexadecimal_text w.now }
{
    is_enclosed(w, b'X', b'\'', b'\'') && w.len() <= 11 && has_hex_bytes(quoted(w))
}

/// The value of a hexadecimal digit.
#[tactic(auto, using(crate::proofs::Words::low_value, crate::proofs::Words::high_value))]
pub fn hex_value(b: u8) -> u8
    requires { is_hex_test b ≡ true }
    ensures value { result ≡ digit_value b }
    ensures small { result < 16 }
{
    if b < b'A' { b - b'0' } else { b - b'A' + 10 }
}

// The number of hexadecimal digits; 2 ^ 32 for any that is greater.
fn capped_hex(digits: &[u8]) -> u64
    requires { list_all is_hex_test digits.now ≡ true }
    ensures { result ≡ capped (digits_value 16 digits.now) }
{
    let mut value: u64 = 0;
    for b in digits {
        value = (value * 16 + u64::from(hex_value(*b))).min(0x1_0000_0000);
    }
    value
}

/// The number of a decimal; 2 ^ 32 for any that is greater.
pub fn capped_decimal(w: &[u8]) -> u64
    requires { is_decimal_text w.now ≡ true }
    ensures { result ≡ capped (digits_value 10 w.now) }
{
    match read_decimal(w, 0xFFFF_FFFF) {
        Some(n) => n,
        None => 0x1_0000_0000,
    }
}

/// A number, decimal or `X'h'`; None exactly where the text is none. One above 4,294,967,295 is
/// 4,294,967,296.
#[tactic(auto, unfolding(asm_model::specs::Words::number_of))]
pub fn number_of(w: &[u8]) -> Option<u64>
    ensures value { result ≡ number_of_text w.now }
    ensures capped { IfSome result (λ n. n ≤ 4294967296) }
{
    if is_decimal(w) {
        return Some(capped_decimal(w));
    }
    if is_hexadecimal(w) {
        return Some(capped_hex(quoted(w)));
    }
    None
}
