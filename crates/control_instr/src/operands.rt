// The operand at a row's second address: its boundary, and how many of its bytes a row fetches or
// stores.
ghost use Rattle.std.specs.Prelude.{◌≡◌, ◌≤◌, ◌<◌};
ghost use Rattle.esa_model.specs.ControlRows.{boundary, is_on_boundary, fetched_len, stored_len};

use crate::control_registers::register_count;
use esa_model::instructions::Decoded;
use esa_model::machine::Registers;
use operand_access::effective;

/// The number of bytes of which the address of a row's operand is to be a multiple.
/// Source: Principles of Operation, control instructions.
pub fn boundary_of(op: u16) -> u32
    ensures boundary { result ≡ boundary op }
    ensures some { 1 ≤ result }
{
    match op {
        0x82 => 8, // LPSW: a doubleword
        0xB6 | 0xB7 | 0xB210 | 0xB211 => 4, // STCTL LCTL SPX STPX: a word
        0xB212 => 2, // STAP: a halfword
        _ => 1,
    }
}

/// Whether the second address is on the boundary of the row; where it is not, a row that has an
/// operand there is a specification exception.
#[tactic(auto, unfolding(esa_model::specs::ControlRows::is_on_boundary))]
pub fn is_aligned(op: u16, r: &Registers, d: &Decoded) -> bool
    requires base { d.now.b2 < 16 }
    requires displacement { d.now.d2 < 4096 }
    ensures { result ≡ is_on_boundary op r.now d.now }
{
    effective(r, d.b2, 0, d.d2) % boundary_of(op) == 0
}

/// How many bytes a row fetches at its second address.
/// Source: Principles of Operation, control instructions.
#[tactic(auto, unfolding(esa_model::specs::ControlRows::fetched_len))]
pub fn fetched(op: u16, d: &Decoded) -> u32
    requires first { d.now.r1 < 16 }
    requires second { d.now.r2 < 16 }
    ensures bytes { result ≡ fetched_len op d.now }
    ensures most { result ≤ 64 }
{
    match op {
        0x80 => 1, // SSM
        0x82 => 8, // LPSW
        0xB7 => 4 * u32::from(register_count(d)), // LCTL
        0xB210 => 4, // SPX
        _ => 0,
    }
}

/// How many bytes a row stores: STNSM and STOSM at their first address, the others at their second.
/// Source: Principles of Operation, control instructions.
#[tactic(auto, unfolding(esa_model::specs::ControlRows::stored_len))]
pub fn stored(op: u16, d: &Decoded) -> u32
    requires first { d.now.r1 < 16 }
    requires second { d.now.r2 < 16 }
    ensures bytes { result ≡ stored_len op d.now }
    ensures most { result ≤ 64 }
{
    match op {
        0xAC | 0xAD => 1, // STNSM STOSM
        0xB6 => 4 * u32::from(register_count(d)), // STCTL
        0xB211 => 4, // STPX
        0xB212 => 2, // STAP
        _ => 0,
    }
}
