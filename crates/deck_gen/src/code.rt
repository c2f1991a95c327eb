// The text of the section: a start that restarts the other CPUs, the loop that is drawn, and its
// operands.
#![tactic(auto)]

ghost use Rattle.std.specs.Prelude.{◌≡◌, ◌+◌, ◌-◌, ◌*◌, ◌%◌, ◌<◌, ◌≤◌, [], ◌∷◌, ◌++◌, length, OnOk, IfOk};
ghost use Rattle.byteorder.specs.Endian.{big_bytes};
ghost use Rattle.program_model.specs.Draws.{draw, after};
ghost use Rattle.program_model.specs.GeneratedDeck.{register, two_registers, register_and_zero, word, field, instruction, instructions, code, operands, text, up_to};

use crate::draws::Draws;
use crate::puts::put;
use std::alloc::{AllocError, Global};

// One of the registers 2 to 9.
fn register_of(d: u32) -> u8
    ensures value { result ≡ register d }
    ensures small { result < 10 }
{
    (2 + d % 8) as u8
}

fn two_registers_of(d: u32, e: u32) -> u8
    ensures { result ≡ two_registers d e }
{
    register_of(d) * 16 + register_of(e)
}

fn register_and_zero_of(d: u32) -> u8
    ensures { result ≡ register_and_zero d }
{
    register_of(d) * 16
}

fn two_bytes(n: u16) -> [u8; 2]
    ensures { result ≡ big_bytes 2 n }
{
    n.to_be_bytes()
}

// The address of one of the eight words.
fn word_of(d: u32) -> [u8; 2]
    ensures { result ≡ word d }
{
    two_bytes((0xC1F2 + 4 * (d % 8)) as u16)
}

// The address of one of the eight packed fields.
fn field_of(d: u32) -> [u8; 2]
    ensures { result ≡ field d }
{
    two_bytes((0xC212 + 8 * (d % 8)) as u16)
}

// Puts an instruction on one register and one word.
fn push_on_word(code: &mut Vec<u8>, opcode: u8, d: u32, e: u32) -> Result<(), AllocError>
    ensures { OnOk result (code.new.items ≡ code.old.items ++ (opcode ∷ register_and_zero d ∷ word e)) }
{
    let [high, low] = word_of(e);
    put(code, &[opcode, register_and_zero_of(d), high, low])
}

// Puts an instruction on two packed fields, with its byte of lengths.
fn push_on_fields(code: &mut Vec<u8>, start: [u8; 2], d: u32, e: u32) -> Result<(), AllocError>
    ensures { OnOk result (code.new.items ≡ code.old.items ++ (start ++ field d ++ field e)) }
{
    put(code, &start)?;
    put(code, &field_of(d))?;
    put(code, &field_of(e))
}

// Puts AR, XR, A, ST, L, SLL, AP or MVC.
#[tactic(auto, unfolding(program_model::specs::GeneratedDeck::instruction))]
fn push_instruction(code: &mut Vec<u8>, sort: u32, d: u32, e: u32) -> Result<(), AllocError>
    ensures { OnOk result (code.new.items ≡ code.old.items ++ instruction sort d e) }
{
    match sort {
        0 => put(code, &[0x1A, two_registers_of(d, e)]),
        1 => put(code, &[0x17, two_registers_of(d, e)]),
        2 => push_on_word(code, 0x5A, d, e),
        3 => push_on_word(code, 0x50, d, e),
        4 => push_on_word(code, 0x58, d, e),
        5 => put(code, &[0x89, register_and_zero_of(d), 0, (e % 32) as u8]),
        6 => push_on_fields(code, [0xFA, 0x77], d, e),
        _ => push_on_fields(code, [0xD2, 0x07], d, e),
    }
}

// Puts so many drawn instructions.
fn push_instructions(code: &mut Vec<u8>, count: u32, draws: &mut Draws) -> Result<(), AllocError>
    ensures code { OnOk result (code.new.items ≡ code.old.items ++ instructions count draws.old) }
    ensures rest { OnOk result (draws.new ≡ after (3 * count) draws.old) }
{
    for _ in 0..count {
        let (sort, d, e) = draws.three();
        push_instruction(code, sort % 8, d, e)?;
    }
    Ok(())
}

// BALR, MVC, LA, SIGP and BCT, and the BALR before the loop.
const START: [u8; 22] = [
    0x05, 0xC0, 0xD2, 0x07, 0x00, 0x00, 0xC1, 0xFE, 0x41, 0x30, 0x00, 0x07, 0xAE, 0x03, 0x00, 0x06,
    0x46, 0x30, 0xC0, 0x0A, 0x05, 0xC0,
];

// BC to the start of the loop.
const BACK: [u8; 4] = [0x47, 0xF0, 0xC0, 0x00];

// The restart PSW, the words 1 to 8, and the packed fields +1 to +8.
const OPERANDS: [u8; 104] = [
    0x00, 0x08, 0x00, 0x00, 0x80, 0x00, 0x00, 0x14, // PSW
    0, 0, 0, 1, 0, 0, 0, 2, 0, 0, 0, 3, 0, 0, 0, 4, // words
    0, 0, 0, 5, 0, 0, 0, 6, 0, 0, 0, 7, 0, 0, 0, 8, //
    0, 0, 0, 0, 0, 0, 0, 0x1C, 0, 0, 0, 0, 0, 0, 0, 0x2C, // fields
    0, 0, 0, 0, 0, 0, 0, 0x3C, 0, 0, 0, 0, 0, 0, 0, 0x4C, //
    0, 0, 0, 0, 0, 0, 0, 0x5C, 0, 0, 0, 0, 0, 0, 0, 0x6C, //
    0, 0, 0, 0, 0, 0, 0, 0x7C, 0, 0, 0, 0, 0, 0, 0, 0x8C, //
];

// Puts the code of the section.
#[tactic(auto, unfolding(program_model::specs::GeneratedDeck::code))]
fn push_code(text: &mut Vec<u8>, draws: &mut Draws) -> Result<(), AllocError>
    ensures code { OnOk result (text.new.items ≡ text.old.items ++ code draws.old) }
    ensures rest { OnOk result (draws.new ≡ after 192 draws.old) }
{
    put(text, &START)?;
    push_instructions(text, 64, draws)?;
    put(text, &BACK)?;
    Ok(())
}

// Puts zeros up to an offset.
fn fill_up(text: &mut Vec<u8>, size: usize) -> Result<(), AllocError>
    requires { length text.old.items ≤ size }
    ensures { OnOk result (text.new.items ≡ up_to size text.old.items) }
{
    text.resize(size, 0)
}

#[tactic(auto, unfolding(program_model::specs::GeneratedDeck::operands))]
fn operands_of() -> [u8; 104]
    ensures { result ≡ operands }
{
    OPERANDS
}

/// The text of the section, X'268' bytes.
#[tactic(auto, unfolding(program_model::specs::GeneratedDeck::text))]
pub fn text_of(alloc: Global, draws: &mut Draws) -> Result<Vec<u8>, AllocError>
    ensures text { IfOk result (λ t. t.items ≡ text draws.old) }
    ensures length { IfOk result (λ t. length t.items ≡ 616) }
    ensures rest { OnOk result (draws.new ≡ after 192 draws.old) }
{
    let mut text = Vec::with_capacity(alloc, 0x268)?;
    push_code(&mut text, draws)?;
    fill_up(&mut text, 0x200)?;
    put(&mut text, &operands_of())?;
    Ok(text)
}
