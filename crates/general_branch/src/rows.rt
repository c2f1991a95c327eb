//! The rows by opcode.

ghost use Rattle.std.specs.Prelude.{◌≡◌, ◌<◌, IsTrue};
ghost use Rattle.esa_model.specs.BranchRows.{branch_row, is_branch};

use crate::conditions::{
    branch_on_condition, branch_on_condition_register, branch_on_count, branch_on_count_register,
    branch_on_index_high, branch_on_index_low_or_equal,
};
use crate::links::{
    branch_and_link, branch_and_link_register, branch_and_save, branch_and_save_register,
};
use crate::masks::{insert_program_mask, set_program_mask};
use crate::modes::{branch_and_save_and_set_mode, branch_and_set_mode};
use esa_model::instructions::Decoded;
use esa_model::machine::Registers;

/// The registers and the PSW after a row that branches or links, or after SPM or IPM. `length` is
/// the length code of the instruction and `next` the address that follows it; `target` is the
/// branch address of a row of form RX, RS, RI or RSI and is not looked at by the others.
///
/// Source: Principles of Operation, chapter on general instructions.
#[tactic(auto, unfolding(esa_model::specs::BranchRows::branch_row, esa_model::specs::BranchRows::is_branch))]
pub fn branch(op: u16, length: u8, next: u32, target: u32, r: &Registers, d: &Decoded) -> Registers
    requires opcode { IsTrue (is_branch op) }
    requires first { d.now.r1 < 16 }
    requires second { d.now.r2 < 16 }
    ensures { result ≡ branch_row op length next target r.now d.now }
{
    match op {
        0x04 => set_program_mask(next, r, d),
        0x05 => branch_and_link_register(length, next, r, d),
        0x06 => branch_on_count_register(next, r, d),
        0x07 => branch_on_condition_register(next, r, d),
        0x0B => branch_and_set_mode(next, r, d),
        0x0C => branch_and_save_and_set_mode(next, r, d),
        0x0D => branch_and_save_register(next, r, d),
        0x45 => branch_and_link(length, next, target, r, d),
        0x46 | 0xA76 => branch_on_count(next, target, r, d),
        0x47 | 0xA74 => branch_on_condition(next, target, r, d),
        0x4D | 0xA75 => branch_and_save(next, target, r, d),
        0x84 | 0x86 => branch_on_index_high(next, target, r, d),
        0x85 | 0x87 => branch_on_index_low_or_equal(next, target, r, d),
        0xB222 => insert_program_mask(next, r, d),
        _ => unreachable!(),
    }
}
