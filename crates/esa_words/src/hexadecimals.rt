// Numbers in hexadecimal digits, with capitals for the letters.
#![tactic(auto)]

ghost use Rattle.std.specs.Prelude.{◌≡◌, ◌<◌, ◌/◌, ◌%◌};
ghost use Rattle.run_model.specs.Numbers.{hex_digit, hex_text};

use arrayvec::ArrayVec;

// The digit at the place that has this weight.
fn digit(n: u32, weight: u32) -> u8
    requires { 0 < weight }
    ensures { result ≡ hex_digit (n / weight % 16) }
{
    let d = (n / weight % 16) as u8;
    if d < 10 { b'0' + d } else { b'A' - 10 + d }
}

/// A word in eight digits.
#[tactic(auto, unfolding(run_model::specs::Numbers::hex_text))]
pub fn hex8(w: u32) -> ArrayVec<u8, 8>
    ensures { result.items ≡ hex_text 8 w }
{
    ArrayVec::from([
        digit(w, 0x1000_0000),
        digit(w, 0x100_0000),
        digit(w, 0x10_0000),
        digit(w, 0x1_0000),
        digit(w, 0x1000),
        digit(w, 0x100),
        digit(w, 0x10),
        digit(w, 1),
    ])
}

/// The low 24 bits of a word in six digits.
#[tactic(auto, unfolding(run_model::specs::Numbers::hex_text))]
pub fn hex6(w: u32) -> ArrayVec<u8, 6>
    ensures { result.items ≡ hex_text 6 w }
{
    ArrayVec::from([
        digit(w, 0x10_0000),
        digit(w, 0x1_0000),
        digit(w, 0x1000),
        digit(w, 0x100),
        digit(w, 0x10),
        digit(w, 1),
    ])
}

/// A byte in two digits.
#[tactic(auto, unfolding(run_model::specs::Numbers::hex_text))]
pub fn hex2(b: u8) -> ArrayVec<u8, 2>
    ensures { result.items ≡ hex_text 2 b }
{
    let n = u32::from(b);
    ArrayVec::from([digit(n, 16), digit(n, 1)])
}
