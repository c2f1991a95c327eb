//! What an operation is with its operands.
ghost use Rattle.std.specs.Prelude.{◌≡◌, ◌≤◌, length, true, []};
ghost use Rattle.std.specs.List.{list_all};
ghost use Rattle.asm_model.specs.Words.{is_hex_byte};
ghost use Rattle.asm_model.specs.Pieces.{operands, pieces};
ghost use Rattle.asm_model.specs.Slots.{instruction as instruction_of_row};
ghost use Rattle.asm_model.specs.Statement.{pairs as pairs_of, hex_digit_value};
ghost use Rattle.asm_model.specs.Statement.{hex_bytes as hex_bytes_of, constant as constant_of};
ghost use Rattle.asm_model.specs.Statement.{word_by, address_by, external_by};
ghost use Rattle.asm_model.specs.Statement.{space_of, is_pair as is_pair_text, space as space_text};
ghost use Rattle.asm_model.specs.Statement.{using_of, using_by, end_by, section_by, instruction_by};
ghost use Rattle.asm_model.specs.Statement.{operation as operation_text};

use crate::slots::instruction;
use arrayvec::ArrayVec;
use asm_model::operands::{Given, Operand};
use asm_model::statements::{Mnemonic, Operation};
use asm_words::cuts::{Rest, next_piece};
use asm_words::names::name_of;
use asm_words::numbers::{has_hex_bytes, hex_value, is_enclosed, number_of, quoted};
use asm_words::operands::{signed, simple_operand};

#[tactic(auto, using(crate::proofs::Digits::digit_is))]
fn digit(b: u8) -> u8
    requires { is_hex_byte b ≡ true }
    ensures value { result ≡ hex_digit_value b }
    ensures small { result ≤ 15 }
{
    hex_value(b)
}

// The bytes of hexadecimal digits, two each.
#[tactic(auto, using(crate::proofs::Digits::two_digits, crate::proofs::Digits::no_digits))]
fn pairs(digits: &[u8]) -> ArrayVec<u8, 56>
    requires few { length digits.now ≤ 112 }
    requires digits { list_all is_hex_byte digits.now ≡ true }
    ensures { result.items ≡ pairs_of digits.now }
{
    let mut bytes = ArrayVec::new();
    let mut rest = digits;
    while rest.len() >= 2 {
        bytes.push(digit(rest[0]) * 16 + digit(rest[1]));
        rest = rest.split_at(2).1;
    }
    bytes
}

// The bytes of `DC X'..'`, by its digits.
fn hex_bytes(digits: &[u8]) -> Option<Operation>
    ensures { result ≡ hex_bytes_of digits.now }
{
    if !has_hex_bytes(digits) {
        return None;
    }
    if digits.len() < 2 || digits.len() > 112 || digits.len() % 2 != 0 {
        return None;
    }
    Some(Operation::Bytes(pairs(digits)))
}

// The word of `DC F'..'`, by the number there.
fn word(operand: Operand) -> Option<Operation>
    ensures { result ≡ word_by operand }
{
    match operand {
        Operand::Plain(n) => {
            if n < 0x8000_0000 {
                Some(Operation::Word(n as u32))
            } else {
                None
            }
        }
        Operand::Negative(n) => {
            if n <= 0x8000_0000 {
                Some(Operation::Word(((0x1_0000_0000 - n) % 0x1_0000_0000) as u32))
            } else {
                None
            }
        }
        Operand::Based(_, _) | Operand::Indexed(_, _, _) | Operand::Named(_, _) | Operand::Bad =>
            None,
    }
}

// The address word of `DC A(..)`, by the operand there.
fn address(operand: Operand) -> Option<Operation>
    ensures { result ≡ address_by operand }
{
    match operand {
        Operand::Named(name, plus) => Some(Operation::Address(name, plus)),
        Operand::Plain(_)
        | Operand::Negative(_)
        | Operand::Based(_, _)
        | Operand::Indexed(_, _, _)
        | Operand::Bad => None,
    }
}

fn external(name: Option<u64>) -> Option<Operation>
    ensures { result ≡ external_by name }
{
    Some(Operation::External(name?))
}

// `X'..'`, `F'..'`, `A(..)` and `V(..)`.
#[tactic(auto, unfolding(asm_model::specs::Statement::constant), using(crate::proofs::Digits::enclosed_long))]
fn constant(w: &[u8]) -> Option<Operation>
    ensures { result ≡ constant_of w.now }
{
    if is_enclosed(w, b'X', b'\'', b'\'') {
        return hex_bytes(quoted(w));
    }
    if is_enclosed(w, b'F', b'\'', b'\'') {
        return word(signed(quoted(w)));
    }
    if is_enclosed(w, b'A', b'(', b')') {
        return address(simple_operand(quoted(w)));
    }
    if is_enclosed(w, b'V', b'(', b')') {
        return external(name_of(quoted(w)));
    }
    None
}

// The zero bytes of a number, from 1 to 65,535.
fn zeros(count: Option<u64>) -> Option<Operation>
    ensures { result ≡ space_of count }
{
    let count = count?;
    if count < 1 || count > 65_535 {
        return None;
    }
    Some(Operation::Space(count as u16))
}

fn is_pair(a: u8, b: u8, w: &[u8]) -> bool
    ensures { result ≡ is_pair_text a b w.now }
{
    w.len() == 2 && w[0] == a && w[1] == b
}

// `0F`, `0D`, or a number of bytes.
#[tactic(auto, unfolding(asm_model::specs::Statement::space))]
fn space(w: &[u8]) -> Option<Operation>
    ensures { result ≡ space_text w.now }
{
    if is_pair(b'0', b'F', w) {
        return Some(Operation::AlignWord);
    }
    if is_pair(b'0', b'D', w) {
        return Some(Operation::AlignDouble);
    }
    zeros(number_of(w))
}

fn base(name: Option<u64>, register: Option<u64>) -> Option<Operation>
    ensures { result ≡ using_of name register }
{
    Some(Operation::Using(name?, register?))
}

// The base of `name,r`.
#[tactic(auto, using(crate::proofs::Operating::not_two))]
fn using(text: &[u8]) -> Option<Operation>
    ensures { result ≡ using_by (pieces [] text.now) }
{
    let (name, Rest::More(rest)) = next_piece(text) else {
        return None;
    };
    let (register, after) = next_piece(rest);
    match after {
        Rest::Nothing => base(name_of(name), number_of(register)),
        Rest::More(_) => None,
    }
}

// The end of a source, with the name of its entry.
fn end(name: Option<u64>) -> Option<Operation>
    ensures { result ≡ end_by name }
{
    Some(Operation::End(Some(name?)))
}

// A section, which has a name and no operands.
fn section(name: Option<u64>, text: &[u8]) -> Option<Operation>
    ensures { result ≡ section_by name text.now }
{
    if name.is_none() || text.len() != 0 {
        return None;
    }
    Some(Operation::Section)
}

fn machine(given: Option<Given>) -> Option<Operation>
    ensures { result ≡ instruction_by given }
{
    Some(Operation::Instruction(given?))
}

/// An operation with the text of its operands, of a statement with this name; None exactly where
/// it has not their form.
#[tactic(auto, unfolding(asm_model::specs::Statement::operation))]
pub fn operation_of(mnemonic: Mnemonic, name: Option<u64>, text: &[u8]) -> Option<Operation>
    ensures { result ≡ operation_text mnemonic name text.now }
{
    match mnemonic {
        Mnemonic::Csect => section(name, text),
        Mnemonic::Dc => constant(text),
        Mnemonic::Ds => space(text),
        Mnemonic::Using => using(text),
        Mnemonic::End => {
            if text.len() == 0 {
                Some(Operation::End(None))
            } else {
                end(name_of(text))
            }
        }
        Mnemonic::Machine(row) => machine(instruction(row, text)),
    }
}
