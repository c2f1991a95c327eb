//! The text of an instruction of each row, alone in a section, assembles to its bytes.
ghost use Rattle.esa_table.specs.Encoding.{IsInstruction};

use crate::tests::has_text;
use crate::texts::text;
use arrayvec::ArrayVec;
use esa_model::instructions::Decoded;
use esa_table::{decode, encode, row};
use std::alloc::Global;

// Bytes with an opcode and small fields; those that a row ignores are zero.
fn sample(opcode: u16) -> [u8; 6] {
    let low = (opcode % 256) as u8;
    if opcode < 256 {
        [low, 0x10, 0x80, 0x0F, 0x0F, 0xFF]
    } else if opcode < 0x1000 {
        [0xA7, 0xF0 + low % 16, 0x80, 0x0F, 0, 0]
    } else {
        [0xB2, low, 0x80, 0xF0, 0, 0]
    }
}

fn source_of(d: &Decoded) -> ArrayVec<u8, 64>
    requires { IsInstruction d.now }
{
    let mut source = ArrayVec::new();
    let _ = source.try_extend_from_slice(b"A CSECT\n ");
    let _ = source.try_extend_from_slice(&text(d));
    let _ = source.try_extend_from_slice(b"\n END\n");
    source
}

fn comes_back(alloc: Global, d: &Decoded) -> bool
    requires { IsInstruction d.now }
{
    has_text(alloc, &source_of(d), &encode(d))
}

fn row_comes_back(alloc: Global, number: u16) -> bool {
    let Some(row) = row(number) else {
        return false;
    };
    match decode(&sample(row.opcode)) {
        Some(d) => d.row == number && comes_back(alloc, &d),
        None => false,
    }
}

#[test]
fn texts_of_all_rows(rt: HostRuntime) {
    for number in 0..134 {
        assert!(rt; row_comes_back(rt.alloc(), number));
    }
    assert!(rt; !row_comes_back(rt.alloc(), 134));
}
