//! The fields of an instruction's bytes.

ghost use Rattle.std.specs.Prelude.{◌≡◌, ◌+◌, ◌<◌};
ghost use Rattle.esa_model.specs.Table.{opcode_of, left, right, low12, halfword, fields, fields_of};

use esa_model::instructions::{Decoded, Form};

/// The number of the opcode: two bytes after X'B2', one and the right half of the next after X'A7',
/// else one.
pub(crate) fn opcode_by(bytes: &[u8; 6]) -> u16
    ensures { result ≡ opcode_of bytes.now }
{
    let first = u16::from(bytes[0]);
    let second = u16::from(bytes[1]);
    if first == 0xB2 {
        first * 256 + second
    } else if first == 0xA7 {
        first * 16 + second % 16
    } else {
        first
    }
}

fn left_half(bytes: &[u8; 6], at: usize) -> u8
    requires { at < 6 }
    ensures { result ≡ left bytes.now at }
{
    bytes[at] / 16
}

fn right_half(bytes: &[u8; 6], at: usize) -> u8
    requires { at < 6 }
    ensures { result ≡ right bytes.now at }
{
    bytes[at] % 16
}

fn displacement(bytes: &[u8; 6], at: usize) -> u16
    requires { at < 5 }
    ensures { result ≡ low12 bytes.now at }
{
    u16::from(bytes[at] % 16) * 256 + u16::from(bytes[at + 1])
}

fn immediate(bytes: &[u8; 6]) -> u16
    ensures { result ≡ halfword bytes.now }
{
    u16::from(bytes[2]) * 256 + u16::from(bytes[3])
}

/// No field but the number of the row.
fn blank(row: u16) -> Decoded
    ensures { result ≡ fields row 0 0 0 0 0 0 0 0 }
{
    Decoded {
        row,
        r1: 0,
        r2: 0,
        b1: 0,
        d1: 0,
        b2: 0,
        d2: 0,
        imm: 0,
        len: 0,
    }
}

/// The fields of a form, with the number of the row.
pub(crate) fn fields_by(form: Form, row: u16, bytes: &[u8; 6]) -> Decoded
    ensures { result ≡ fields_of form row bytes.now }
{
    match form {
        Form::Rr => Decoded {
            r1: left_half(bytes, 1),
            r2: right_half(bytes, 1),
            ..blank(row)
        },
        Form::Rx | Form::Rs => Decoded {
            r1: left_half(bytes, 1),
            r2: right_half(bytes, 1),
            b2: left_half(bytes, 2),
            d2: displacement(bytes, 2),
            ..blank(row)
        },
        Form::Si => Decoded {
            b1: left_half(bytes, 2),
            d1: displacement(bytes, 2),
            imm: u16::from(bytes[1]),
            ..blank(row)
        },
        Form::S => Decoded {
            b2: left_half(bytes, 2),
            d2: displacement(bytes, 2),
            ..blank(row)
        },
        Form::Ri => Decoded {
            r1: left_half(bytes, 1),
            imm: immediate(bytes),
            ..blank(row)
        },
        Form::Rsi => Decoded {
            r1: left_half(bytes, 1),
            r2: right_half(bytes, 1),
            imm: immediate(bytes),
            ..blank(row)
        },
        Form::Rre => Decoded {
            r1: left_half(bytes, 3),
            r2: right_half(bytes, 3),
            ..blank(row)
        },
        Form::Ss1 => Decoded {
            b1: left_half(bytes, 2),
            d1: displacement(bytes, 2),
            b2: left_half(bytes, 4),
            d2: displacement(bytes, 4),
            len: bytes[1],
            ..blank(row)
        },
        Form::Ss2 => Decoded {
            r1: left_half(bytes, 1),
            r2: right_half(bytes, 1),
            b1: left_half(bytes, 2),
            d1: displacement(bytes, 2),
            b2: left_half(bytes, 4),
            d2: displacement(bytes, 4),
            ..blank(row)
        },
    }
}
