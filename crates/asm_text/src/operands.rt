// The operands of an instruction.
#![tactic(auto)]

ghost use Rattle.std.specs.Prelude.{◌≡◌, ◌≤◌};
ghost use Rattle.esa_model.specs.declared.instructions.Form.TheVariants as forms;
ghost use Rattle.asm_text.specs.declared.operands.Operand.TheVariants as kinds;
ghost use Rattle.asm_text.specs.Operands.{half_of, operands_of, registers, signed, sized};
ghost use Rattle.asm_text.specs.Operands.{whole_width};

use esa_model::instructions::{Decoded, Form};

/// An operand as it is written.
#[derive(Clone, Copy, Debug, PartialEq, Eq)]
pub enum Operand {
    /// A number.
    Number(u16),
    /// A number below zero, by its distance from zero: `-n`.
    Minus(u16),
    /// An address `d(b)`: displacement and base.
    Based(u16, u8),
    /// An address `d(x,b)`: an index, or a number of bytes, stands before the base.
    Indexed(u16, u16, u8),
}

/// The operands of an instruction, in the order in which they are written.
#[derive(Clone, Copy, Debug, PartialEq, Eq)]
pub enum Operands {
    One(Operand),
    Two(Operand, Operand),
    Three(Operand, Operand, Operand),
}

/// A register, a mask or a digit.
fn small(n: u8) -> Operand
    ensures { result ≡ kinds.Number n }
{
    Operand::Number(u16::from(n))
}

/// A halfword of two's complement as a number with its sign.
fn signed_half(half: u16) -> Operand
    ensures { result ≡ signed half }
{
    if half < 0x8000 {
        Operand::Number(half)
    } else {
        Operand::Minus((0x1_0000 - u32::from(half)) as u16)
    }
}

/// The immediate halfword of form RI: the mask of TMH and TML has no sign.
fn immediate(opcode: u16, half: u16) -> Operand
    ensures { result ≡ half_of opcode half }
{
    if opcode <= 0xA71 {
        Operand::Number(half)
    } else {
        signed_half(half)
    }
}

/// A field in storage, whose number of bytes is one more than its length code.
fn field(d: u16, code: u8, b: u8) -> Operand
    ensures { result ≡ sized d code b }
{
    Operand::Indexed(d, u16::from(code) + 1, b)
}

fn two_registers(d: &Decoded) -> Operands
    ensures { result ≡ registers d.now }
{
    Operands::Two(small(d.r1), small(d.r2))
}

/// The operands of form RR: SPM has one register, SVC the byte behind its opcode.
#[tactic(auto, unfolding(crate::specs::Operands::operands_of))]
fn of_rr(opcode: u16, d: &Decoded) -> Operands
    ensures { result ≡ operands_of forms.Rr opcode d.now }
{
    match opcode {
        0x04 => Operands::One(small(d.r1)),
        0x0A => Operands::One(Operand::Number(u16::from(d.r1) * 16 + u16::from(d.r2))),
        _ => two_registers(d),
    }
}

/// The operands of form RS: a shift has one register.
#[tactic(auto, unfolding(crate::specs::Operands::operands_of))]
fn of_rs(opcode: u16, d: &Decoded) -> Operands
    ensures { result ≡ operands_of forms.Rs opcode d.now }
{
    let address = Operand::Based(d.d2, d.b2);
    if 0x88 <= opcode && opcode <= 0x8F {
        Operands::Two(small(d.r1), address)
    } else {
        Operands::Three(small(d.r1), small(d.r2), address)
    }
}

/// The operands of form SS2: SRP has its rounding digit in the place of the second length code.
#[tactic(auto, unfolding(crate::specs::Operands::operands_of))]
fn of_ss2(opcode: u16, d: &Decoded) -> Operands
    ensures { result ≡ operands_of forms.Ss2 opcode d.now }
{
    let first = field(d.d1, d.r1, d.b1);
    if opcode == 0xF0 {
        Operands::Three(first, Operand::Based(d.d2, d.b2), small(d.r2))
    } else {
        Operands::Two(first, field(d.d2, d.r2, d.b2))
    }
}

/// The operands of an instruction, by the form and the opcode of its row.
#[tactic(auto, unfolding(crate::specs::Operands::operands_of))]
pub fn operands_by(form: Form, opcode: u16, d: &Decoded) -> Operands
    ensures are { result ≡ operands_of form opcode d.now }
    ensures width { whole_width result ≤ 33 }
{
    match form {
        Form::Rr => of_rr(opcode, d),
        Form::Rx => Operands::Two(small(d.r1), Operand::Indexed(d.d2, u16::from(d.r2), d.b2)),
        Form::Rs => of_rs(opcode, d),
        Form::Si => Operands::Two(Operand::Based(d.d1, d.b1), Operand::Number(d.imm)),
        Form::S => Operands::One(Operand::Based(d.d2, d.b2)),
        Form::Ri => Operands::Two(small(d.r1), immediate(opcode, d.imm)),
        Form::Rsi => Operands::Three(small(d.r1), small(d.r2), signed_half(d.imm)),
        Form::Rre => {
            if opcode == 0xB222 {
                Operands::One(small(d.r1))
            } else {
                two_registers(d)
            }
        }
        Form::Ss1 => Operands::Two(field(d.d1, d.len, d.b1), Operand::Based(d.d2, d.b2)),
        Form::Ss2 => of_ss2(opcode, d),
    }
}
