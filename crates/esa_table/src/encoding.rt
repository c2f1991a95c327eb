//! The bytes of an instruction.

ghost use Rattle.std.specs.Prelude.{◌≡◌, ◌/◌, ◌%◌, ◌<◌, [], ◌∷◌, length, slice_index, IsTrue, Some};
ghost use Rattle.esa_model.specs.Table.{decoded, length_of};
ghost use Rattle.esa_table.specs.Encoding.{encoded, instruction_bytes, filled, fits, halves};
ghost use Rattle.esa_table.specs.Encoding.{HasOnly, IsInRange, IsInstruction};

use crate::table::numbered_row;
use arrayvec::ArrayVec;
use esa_model::instructions::{Decoded, Form};

fn joined(left: u8, right: u8) -> u8
    requires left { left < 16 }
    requires right { right < 16 }
    ensures { result ≡ halves left right }
{
    left * 16 + right
}

/// The first byte of a base and its displacement.
fn base_byte(base: u8, displacement: u16) -> u8
    requires base { base < 16 }
    requires displacement { displacement < 4096 }
    ensures { result ≡ halves base (displacement / 256) }
{
    base * 16 + (displacement / 256) as u8
}

fn high_byte(n: u16) -> u8
    ensures { result ≡ n / 256 }
{
    (n / 256) as u8
}

fn low_byte(n: u16) -> u8
    ensures { result ≡ n % 256 }
{
    (n % 256) as u8
}

fn two(a: u8, b: u8) -> ArrayVec<u8, 6>
    ensures { result.items ≡ a ∷ b ∷ [] }
{
    let mut bytes = ArrayVec::new();
    bytes.push(a);
    bytes.push(b);
    bytes
}

fn four(a: u8, b: u8, c: u8, d: u8) -> ArrayVec<u8, 6>
    ensures { result.items ≡ a ∷ b ∷ c ∷ d ∷ [] }
{
    let mut bytes = two(a, b);
    bytes.push(c);
    bytes.push(d);
    bytes
}

fn six(a: u8, b: u8, c: u8, d: u8, e: u8, f: u8) -> ArrayVec<u8, 6>
    ensures { result.items ≡ a ∷ b ∷ c ∷ d ∷ e ∷ f ∷ [] }
{
    let mut bytes = four(a, b, c, d);
    bytes.push(e);
    bytes.push(f);
    bytes
}

/// The bytes of a form with an opcode and fields.
fn bytes_by(form: Form, opcode: u16, d: &Decoded) -> ArrayVec<u8, 6>
    requires opcode { IsTrue (fits form opcode) }
    requires range { IsInRange d.now }
    requires form { HasOnly form d.now }
    ensures { result.items ≡ encoded form opcode d.now }
{
    match form {
        Form::Rr => two(opcode as u8, joined(d.r1, d.r2)),
        Form::Rx | Form::Rs => four(
            opcode as u8,
            joined(d.r1, d.r2),
            base_byte(d.b2, d.d2),
            low_byte(d.d2),
        ),
        Form::Si => four(
            opcode as u8,
            d.imm as u8,
            base_byte(d.b1, d.d1),
            low_byte(d.d1),
        ),
        Form::S => {
            if opcode < 256 {
                four(opcode as u8, 0, base_byte(d.b2, d.d2), low_byte(d.d2))
            } else {
                four(
                    high_byte(opcode),
                    low_byte(opcode),
                    base_byte(d.b2, d.d2),
                    low_byte(d.d2),
                )
            }
        }
        Form::Ri => four(
            (opcode / 16) as u8,
            joined(d.r1, (opcode % 16) as u8),
            high_byte(d.imm),
            low_byte(d.imm),
        ),
        Form::Rsi => four(
            opcode as u8,
            joined(d.r1, d.r2),
            high_byte(d.imm),
            low_byte(d.imm),
        ),
        Form::Rre => four(high_byte(opcode), low_byte(opcode), 0, joined(d.r1, d.r2)),
        Form::Ss1 => six(
            opcode as u8,
            d.len,
            base_byte(d.b1, d.d1),
            low_byte(d.d1),
            base_byte(d.b2, d.d2),
            low_byte(d.d2),
        ),
        Form::Ss2 => six(
            opcode as u8,
            joined(d.r1, d.r2),
            base_byte(d.b1, d.d1),
            low_byte(d.d1),
            base_byte(d.b2, d.d2),
            low_byte(d.d2),
        ),
    }
}

/// The bytes of an instruction, in its length; the bits that its form ignores are zeros.
#[tactic(auto, using(crate::proofs::Round::round, crate::proofs::Round::length_encoded))]
pub fn encode(d: &Decoded) -> ArrayVec<u8, 6>
    requires { IsInstruction d.now }
    ensures is { result.items ≡ instruction_bytes d.now }
    ensures length { length result.items ≡ length_of (slice_index result.items 0) }
    ensures decodes { decoded (filled result.items) ≡ Some d.now }
{
    let row = numbered_row(d.row);
    bytes_by(row.form, row.opcode, d)
}
