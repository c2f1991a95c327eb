//! The operands of a machine instruction, and the fields that they give.
ghost use Rattle.std.specs.Prelude.{◌≡◌, [], ◌∷◌};
ghost use Rattle.esa_model.specs.Table.{row_numbered};
ghost use Rattle.asm_model.specs.Pieces.{operands};
ghost use Rattle.asm_model.specs.Slots.{slots as slots_of_form, filled, given as given_by};
ghost use Rattle.asm_model.specs.Slots.{first, second, index, target, signed_half, refer};
ghost use Rattle.asm_model.specs.Slots.{code_of as code_by, half_of as half_by, minus_half};
ghost use Rattle.asm_model.specs.Slots.{byte_of as byte_by, nothing_given};
ghost use Rattle.asm_model.specs.Slots.{instruction as instruction_of};
ghost use Rattle.asm_words.specs.Operands.{rest_operands};

use crate::mnemonics::row_or_none;
use arrayvec::ArrayVec;
use asm_model::operands::{Given, Goes, Operand, Reference, Slot};
use asm_words::cuts::{Rest, next_piece};
use asm_words::operands::operand_of;
use esa_model::instructions::Form;

fn one(a: Slot) -> ArrayVec<Slot, 3>
    ensures { result.items ≡ a ∷ [] }
{
    let mut slots = ArrayVec::new();
    slots.push(a);
    slots
}

fn two(a: Slot, b: Slot) -> ArrayVec<Slot, 3>
    ensures { result.items ≡ a ∷ b ∷ [] }
{
    let mut slots = one(a);
    slots.push(b);
    slots
}

fn three(a: Slot, b: Slot, c: Slot) -> ArrayVec<Slot, 3>
    ensures { result.items ≡ a ∷ b ∷ c ∷ [] }
{
    let mut slots = two(a, b);
    slots.push(c);
    slots
}

// Which operands an instruction has, by the form and the opcode of its row.
#[tactic(auto, unfolding(asm_model::specs::Slots::slots))]
fn slots_of(form: Form, opcode: u16) -> ArrayVec<Slot, 3>
    ensures { result.items ≡ slots_of_form form opcode }
{
    match form {
        Form::Rr => {
            if opcode == 0x04 {
                one(Slot::Reg1)
            } else if opcode == 0x0A {
                one(Slot::Both)
            } else {
                two(Slot::Reg1, Slot::Reg2)
            }
        }
        Form::Rx => two(Slot::Reg1, Slot::Index2),
        Form::Rs => {
            if 0x88 <= opcode && opcode <= 0x8F {
                two(Slot::Reg1, Slot::Address2)
            } else {
                three(Slot::Reg1, Slot::Reg2, Slot::Address2)
            }
        }
        Form::Si => two(Slot::Address1, Slot::Byte),
        Form::S => one(Slot::Address2),
        Form::Ri => {
            if 0xA74 <= opcode && opcode <= 0xA76 {
                two(Slot::Reg1, Slot::Target)
            } else if opcode <= 0xA71 {
                two(Slot::Reg1, Slot::Half)
            } else {
                two(Slot::Reg1, Slot::SignedHalf)
            }
        }
        Form::Rsi => three(Slot::Reg1, Slot::Reg2, Slot::Target),
        Form::Rre => {
            if opcode == 0xB222 {
                one(Slot::Reg1)
            } else {
                two(Slot::Reg1, Slot::Reg2)
            }
        }
        Form::Ss1 => two(Slot::Long, Slot::Address2),
        Form::Ss2 => {
            if opcode == 0xF0 {
                three(Slot::Sized1, Slot::Address2, Slot::Reg2)
            } else {
                two(Slot::Sized1, Slot::Sized2)
            }
        }
    }
}

// The length code of a number of bytes.
fn code_of(bytes: u64) -> u64
    ensures { result ≡ code_by bytes }
{
    if bytes == 0 { 0x1_0000 } else { bytes - 1 }
}

fn half_of(n: u64) -> u64
    ensures { result ≡ half_by n }
{
    if n < 0x8000 { n } else { 0x1_0000 }
}

// The halfword of a negative number, by its magnitude.
fn minus_half_of(n: u64) -> u64
    ensures { result ≡ minus_half n }
{
    if n <= 0x8000 {
        (0x1_0000 - n) % 0x1_0000
    } else {
        0x1_0000
    }
}

fn byte_of(n: u64) -> u64
    ensures { result ≡ byte_by n }
{
    if n < 256 { n } else { 0x1_0000 }
}

fn reference(goes: Goes, name: u64, plus: u32) -> Option<Reference>
    ensures { result ≡ refer goes name plus }
{
    Some(Reference { goes, name, plus })
}

fn at_first(g: Given, operand: Operand) -> Option<Given>
    ensures { result ≡ first g operand }
{
    match operand {
        Operand::Plain(d) => Some(Given { d1: d, ..g }),
        Operand::Based(d, b) => Some(Given { d1: d, b1: b, ..g }),
        Operand::Named(name, plus) => {
            let to = reference(Goes::First, name, plus);
            Some(Given { to, ..g })
        }
        Operand::Negative(_) | Operand::Indexed(_, _, _) | Operand::Bad => None,
    }
}

fn at_second(g: Given, operand: Operand) -> Option<Given>
    ensures { result ≡ second g operand }
{
    match operand {
        Operand::Plain(d) => Some(Given { d2: d, ..g }),
        Operand::Based(d, b) => Some(Given { d2: d, b2: b, ..g }),
        Operand::Named(name, plus) => {
            let to = reference(Goes::Second, name, plus);
            Some(Given { to, ..g })
        }
        Operand::Negative(_) | Operand::Indexed(_, _, _) | Operand::Bad => None,
    }
}

fn at_index(g: Given, operand: Operand) -> Option<Given>
    ensures { result ≡ index g operand }
{
    match operand {
        Operand::Indexed(d, x, b) => Some(Given {
            d2: d,
            r2: x,
            b2: b,
            ..g
        }),
        Operand::Plain(_) | Operand::Based(_, _) | Operand::Named(_, _) => at_second(g, operand),
        Operand::Negative(_) | Operand::Bad => None,
    }
}

fn at_half(g: Given, operand: Operand) -> Option<Given>
    ensures { result ≡ signed_half g operand }
{
    match operand {
        Operand::Plain(n) => Some(Given {
            imm: half_of(n),
            ..g
        }),
        Operand::Negative(n) => Some(Given {
            imm: minus_half_of(n),
            ..g
        }),
        Operand::Based(_, _) | Operand::Indexed(_, _, _) | Operand::Named(_, _) | Operand::Bad =>
            None,
    }
}

fn at_target(g: Given, operand: Operand) -> Option<Given>
    ensures { result ≡ target g operand }
{
    match operand {
        Operand::Named(name, plus) => {
            let to = reference(Goes::Half, name, plus);
            Some(Given { to, ..g })
        }
        Operand::Plain(_) | Operand::Negative(_) => at_half(g, operand),
        Operand::Based(_, _) | Operand::Indexed(_, _, _) | Operand::Bad => None,
    }
}

// The fields with those of one operand in its slot.
#[tactic(auto, unfolding(asm_model::specs::Slots::filled))]
fn fill(slot: Slot, g: Given, operand: Operand) -> Option<Given>
    ensures { result ≡ filled slot g operand }
{
    match (slot, operand) {
        (Slot::Reg1, Operand::Plain(n)) => Some(Given { r1: n, ..g }),
        (Slot::Reg2, Operand::Plain(n)) => Some(Given { r2: n, ..g }),
        (Slot::Both, Operand::Plain(n)) => Some(Given {
            r1: n / 16,
            r2: n % 16,
            ..g
        }),
        (Slot::Byte, Operand::Plain(n)) => Some(Given {
            imm: byte_of(n),
            ..g
        }),
        (Slot::Half, Operand::Plain(n)) => Some(Given { imm: n, ..g }),
        (Slot::Long, Operand::Indexed(d, bytes, b)) => Some(Given {
            d1: d,
            len: code_of(bytes),
            b1: b,
            ..g
        }),
        (Slot::Sized1, Operand::Indexed(d, bytes, b)) => Some(Given {
            d1: d,
            r1: code_of(bytes),
            b1: b,
            ..g
        }),
        (Slot::Sized2, Operand::Indexed(d, bytes, b)) => Some(Given {
            d2: d,
            r2: code_of(bytes),
            b2: b,
            ..g
        }),
        (Slot::SignedHalf, _) => at_half(g, operand),
        (Slot::Target, _) => at_target(g, operand),
        (Slot::Address1, _) => at_first(g, operand),
        (Slot::Address2, _) => at_second(g, operand),
        (Slot::Index2, _) => at_index(g, operand),
        (_, _) => None,
    }
}

// Each slot with its operand, of those that are still to be read; None where they are not as many.
fn given(slots: &[Slot], rest: Rest<'_>, g: Given) -> Option<Given>
    ensures { result ≡ given_by slots.now (rest_operands rest.entry) g }
{
    let mut held = g;
    let mut left = rest;
    for slot in slots {
        let text = match left {
            Rest::More(text) => text,
            Rest::Nothing => return None,
        };
        let (piece, after) = next_piece(text);
        held = fill(*slot, held, operand_of(piece))?;
        left = after;
    }
    match left {
        Rest::Nothing => Some(held),
        Rest::More(_) => None,
    }
}

// Nothing is read of a text without bytes.
#[tactic(auto, unfolding(asm_model::specs::Pieces::operands))]
fn all_of(text: &[u8]) -> Rest<'_>
    ensures { rest_operands result ≡ operands text.now }
{
    if text.len() == 0 {
        return Rest::Nothing;
    }
    Rest::More(text)
}

fn no_fields(row: u16) -> Given
    ensures { result ≡ nothing_given row }
{
    Given {
        row,
        r1: 0,
        r2: 0,
        b1: 0,
        d1: 0,
        b2: 0,
        d2: 0,
        imm: 0,
        len: 0,
        to: None,
    }
}

/// The fields of the instruction of a row, by the text of its operands; None exactly where they are
/// not those of the row. One that is outside its range is any number above it.
#[tactic(auto, unfolding(asm_model::specs::Slots::instruction))]
pub fn instruction(row: u16, text: &[u8]) -> Option<Given>
    ensures { result ≡ instruction_of row (operands text.now) }
{
    let named = row_or_none(row);
    let slots = slots_of(named.form, named.opcode);
    given(&slots, all_of(text), no_fields(row))
}
