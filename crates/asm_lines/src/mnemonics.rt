//! The names of operations.
ghost use Rattle.std.specs.Prelude.{◌≡◌, ◌<◌, ◌≤◌, length};
ghost use Rattle.esa_model.specs.Table.{row_numbered};
ghost use Rattle.asm_model.specs.Statement.{six, row_named as row_of_name, mnemonic_numbered};
ghost use Rattle.asm_model.specs.Statement.{machine as machine_by, mnemonic_of as mnemonic_text};
ghost use Rattle.asm_lines.specs.Names.{has_name as is_row_name, six_byte};

use asm_model::statements::Mnemonic;
use byteorder::{BigEndian, ByteOrder};
use esa_model::instructions::{Form, Row};
use esa_table::row;

// The byte at a place of a name, and a blank past its end.
fn byte_at(word: &[u8], k: usize) -> u8
    ensures { result ≡ six_byte word.now k }
{
    if k < word.len() { word[k] } else { b' ' }
}

// A name of at most six bytes as a number, as the names of rows are.
#[tactic(auto, using(crate::proofs::Rows::six_bytes_are))]
fn six_of(word: &[u8]) -> u64
    requires { length word.now ≤ 6 }
    ensures { result ≡ six word.now }
{
    let bytes = [
        byte_at(word, 0),
        byte_at(word, 1),
        byte_at(word, 2),
        byte_at(word, 3),
        byte_at(word, 4),
        byte_at(word, 5),
    ];
    BigEndian::read_u48(&bytes)
}

/// The row of a number, and past the table one that has opcode 0 and no name.
#[tactic(auto, using(crate::proofs::Rows::row_is, crate::proofs::Rows::no_row))]
pub(crate) fn row_or_none(number: u16) -> Row
    ensures { result ≡ row_numbered number }
{
    match row(number) {
        Some(row) => row,
        None => Row {
            opcode: 0,
            form: Form::Rr,
            name: *b"      ",
            privileged: false,
        },
    }
}

fn has_name(number: u16, name: u64) -> bool
    ensures { result ≡ is_row_name name number }
{
    BigEndian::read_u48(&row_or_none(number).name) == name
}

// The number of the first row with a name.
#[tactic(auto, using(crate::proofs::Rows::none_at_start, crate::proofs::Rows::none_next, crate::proofs::Rows::first_named, crate::proofs::Rows::none_named))]
fn row_named(name: u64) -> Option<u16>
    ensures { result ≡ row_of_name name }
{
    for number in 0..134u16 {
        if has_name(number, name) {
            return Some(number);
        }
    }
    None
}

fn machine(row: Option<u16>) -> Option<Mnemonic>
    ensures { result ≡ machine_by row }
{
    match row {
        Some(row) => Some(Mnemonic::Machine(row)),
        None => None,
    }
}

// The operation whose name, with the blanks behind it, has this number.
fn numbered(name: u64) -> Option<Mnemonic>
    ensures { result ≡ mnemonic_numbered name }
{
    match name {
        0x4353_4543_5420 => Some(Mnemonic::Csect),
        0x4443_2020_2020 => Some(Mnemonic::Dc),
        0x4453_2020_2020 => Some(Mnemonic::Ds),
        0x5553_494E_4720 => Some(Mnemonic::Using),
        0x454E_4420_2020 => Some(Mnemonic::End),
        _ => machine(row_named(name)),
    }
}

/// The operation that a word names; None exactly where it is none of the language.
#[tactic(auto, unfolding(asm_model::specs::Statement::mnemonic_of))]
pub fn mnemonic_of(word: &[u8]) -> Option<Mnemonic>
    ensures { result ≡ mnemonic_text word.now }
{
    if word.len() < 1 || word.len() > 6 {
        return None;
    }
    numbered(six_of(word))
}
