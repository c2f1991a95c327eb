// All rows, by opcode.
ghost use Rattle.std.specs.Prelude.{◌≡◌, ◌≤◌, ◌<◌, length, true};
ghost use Rattle.esa_model.specs.ControlRows.{is_control, fetched_len, stored_len, row_done, controlled};

use crate::control_registers::{load_control, store_control};
use crate::masks::{load_psw, set_system_mask, store_then_and, store_then_or};
use crate::operands::is_aligned;
use crate::outcome::{Controlled, suppress};
use crate::prefixes::{set_prefix, store_number, store_prefix};
use crate::storage_key::{insert_key, reset_reference, set_key_from};
use esa_model::codes::SPECIFICATION;
use esa_model::instructions::Decoded;
use esa_model::machine::{CpuNo, Registers};

/// A row of an operand that is on its boundary.
#[tactic(auto, unfolding(esa_model::specs::ControlRows::fetched_len))]
fn carry_out_aligned(
    op: u16,
    cpu: CpuNo,
    size: u32,
    key: u8,
    r: &Registers,
    d: &Decoded,
    operand: &[u8],
) -> Controlled
    requires known { is_control op ≡ true }
    requires first { d.now.r1 < 16 }
    requires second { d.now.r2 < 16 }
    requires bytes { length operand.now ≡ fetched_len op d.now }
    ensures { result ≡ row_done op cpu.0 size key r.now d.now operand.now }
{
    match op {
        0x80 => set_system_mask(r, operand),
        0x82 => load_psw(r, operand),
        0xAC => store_then_and(r, d),
        0xAD => store_then_or(r, d),
        0xB6 => store_control(r, d),
        0xB7 => load_control(r, d, operand),
        0xB210 => set_prefix(r, size, operand),
        0xB211 => store_prefix(r),
        0xB212 => store_number(r, cpu),
        0xB229 => insert_key(r, key, d),
        0xB22A => reset_reference(r, key),
        0xB22B => set_key_from(r, d),
        _ => unreachable!(),
    }
}

#[tactic(auto, unfolding(esa_model::specs::ControlRows::controlled))]
fn carry_out(
    op: u16,
    cpu: CpuNo,
    size: u32,
    key: u8,
    r: &Registers,
    d: &Decoded,
    operand: &[u8],
) -> Controlled
    requires known { is_control op ≡ true }
    requires first { d.now.r1 < 16 }
    requires second { d.now.r2 < 16 }
    requires base { d.now.b2 < 16 }
    requires displacement { d.now.d2 < 4096 }
    requires bytes { length operand.now ≡ fetched_len op d.now }
    ensures { result ≡ controlled op cpu.0 size key r.now d.now operand.now }
{
    if is_aligned(op, r, d) {
        carry_out_aligned(op, cpu, size, key, r, d, operand)
    } else {
        suppress(r, SPECIFICATION)
    }
}

/// What a control instruction other than DIAGNOSE, SIGNAL PROCESSOR and the rows on clocks makes,
/// by its opcode: SSM X'80', LPSW X'82', STNSM X'AC', STOSM X'AD', STCTL X'B6', LCTL X'B7', SPX
/// X'B210', STPX X'B211', STAP X'B212', ISKE X'B229', RRBE X'B22A', SSKE X'B22B'.
///
/// `size` is the size of the storage in bytes, `operand` the bytes that the row fetches, and `key`
/// the key of the block that ISKE, RRBE or SSKE names. The fault is a specification exception where
/// the operand is not on its boundary, and an addressing exception where SPX names a page outside
/// the storage.
///
/// Source: Principles of Operation, control instructions.
pub fn control(
    op: u16,
    cpu: CpuNo,
    size: u32,
    key: u8,
    r: &Registers,
    d: &Decoded,
    operand: &[u8],
) -> Controlled
    requires known { is_control op ≡ true }
    requires first { d.now.r1 < 16 }
    requires second { d.now.r2 < 16 }
    requires base { d.now.b2 < 16 }
    requires displacement { d.now.d2 < 4096 }
    requires bytes { length operand.now ≡ fetched_len op d.now }
    ensures row { result ≡ controlled op cpu.0 size key r.now d.now operand.now }
    ensures stored { length result.stored ≤ stored_len op d.now }
{
    carry_out(op, cpu, size, key, r, d, operand)
}
