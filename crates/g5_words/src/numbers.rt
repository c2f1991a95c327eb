// The numbers of words, as decimals in a range or as hexadecimal addresses.
ghost use Rattle.std.specs.Prelude.{◌≡◌, ◌≤◌, ◌<◌, ◌^◌, IfSome};
ghost use Rattle.std.specs.List.{list_all};
ghost use Rattle.program_model.specs.Addresses.{address as address_text, is_capital_digit as capital_digit};
ghost use Rattle.program_model.specs.Commands.{number_in};

use esa_words::read_decimal;

/// The number of a decimal, None exactly where the text is none from `least` to `most`.
pub fn number(text: &str, least: u32, most: u32) -> Option<u32>
    ensures value { result ≡ number_in least most text.now }
    ensures range { IfSome result (λ n. (least ≤ n) × (n ≤ most)) }
{
    match read_decimal(text.as_bytes(), u64::from(most)) {
        Some(n) if u64::from(least) <= n => Some(n as u32),
        _ => None,
    }
}

fn is_capital_digit(b: u8) -> bool
    ensures { result ≡ capital_digit b }
{
    b.is_ascii_digit() || (b'A' <= b && b <= b'F')
}

fn has_capital_digits(text: &[u8]) -> bool
    ensures { result ≡ list_all capital_digit text.now }
{
    text.iter().all(|b| is_capital_digit(*b))
}

/// The address of six capital hexadecimal digits, None exactly where the text is none.
#[tactic(auto, unfolding(program_model::specs::Addresses::address))]
pub fn address(text: &str) -> Option<u32>
    ensures value { result ≡ address_text text.now }
    ensures range { IfSome result (λ n. n < 2 ^ 24) }
{
    if text.len() == 6 && has_capital_digits(text.as_bytes()) {
        u32::from_str_radix(text, 16).ok()
    } else {
        None
    }
}
