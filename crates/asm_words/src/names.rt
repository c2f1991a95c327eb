//! Names as numbers.
ghost use Rattle.std.specs.Prelude.{◌≡◌, true};
ghost use Rattle.std.specs.List.{list_all};
ghost use Rattle.asm_model.specs.Words.{is_name as is_name_text, is_name_byte as is_name_test};
ghost use Rattle.asm_model.specs.Words.{ebcdic as ebcdic_of, name_byte, name_bytes, name_of as name_of_text};

use byteorder::{BigEndian, ByteOrder};

fn is_name_byte(b: u8) -> bool
    ensures { result ≡ is_name_test b }
{
    (b'A' <= b && b <= b'Z') || b.is_ascii_digit()
}

fn has_name_bytes(w: &[u8]) -> bool
    ensures { result ≡ list_all is_name_test w.now }
{
    w.iter().all(|b| is_name_byte(*b))
}

#[tactic(auto, unfolding(asm_model::specs::Words::is_name))]
fn is_name(w: &[u8]) -> bool
    ensures { result ≡ is_name_text w.now }
{
    1 <= w.len() && w.len() <= 8 && (b'A' <= w[0] && w[0] <= b'Z') && has_name_bytes(w)
}

fn ebcdic(b: u8) -> u8
    requires { is_name_test b ≡ true }
    ensures { result ≡ ebcdic_of b }
{
    if b < b'A' {
        b + 192
    } else if b < b'J' {
        b + 128
    } else if b < b'S' {
        b + 135
    } else {
        b + 143
    }
}

#[tactic(auto, using(crate::proofs::Words::name_byte_at))]
fn byte_at(w: &[u8], k: usize) -> u8
    requires { list_all is_name_test w.now ≡ true }
    ensures { result ≡ name_byte w.now k }
{
    if k < w.len() { ebcdic(w[k]) } else { 0x40 }
}

fn eight_bytes(w: &[u8]) -> [u8; 8]
    requires { list_all is_name_test w.now ≡ true }
    ensures { result ≡ name_bytes w.now }
{
    [
        byte_at(w, 0),
        byte_at(w, 1),
        byte_at(w, 2),
        byte_at(w, 3),
        byte_at(w, 4),
        byte_at(w, 5),
        byte_at(w, 6),
        byte_at(w, 7),
    ]
}

/// A name as the number of its eight EBCDIC bytes; None exactly where the text is no name.
#[tactic(auto, unfolding(asm_model::specs::Words::name_of), using(crate::proofs::Words::all_name_bytes))]
pub fn name_of(w: &[u8]) -> Option<u64>
    ensures { result ≡ name_of_text w.now }
{
    if !is_name(w) {
        return None;
    }
    Some(BigEndian::read_u64(&eight_bytes(w)))
}
