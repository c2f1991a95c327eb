//! The instructions of two fields.

ghost use Rattle.std.specs.Prelude.{◌≡◌, ◌≤◌, IsTrue, length};
ghost use Rattle.esa_model.specs.DecimalRows.{Leaves, halves_row, is_halves, is_two, two_row};

use crate::endings::completed;
use crate::halves::move_halves;
use crate::products::{divide_decimal, multiply_decimal};
use crate::sums::{add_decimal, compare_decimal, subtract_decimal, zero_and_add};
use esa_model::machine::Value;

/// MVO, PACK and UNPK.
fn carry_halves(op: u8, first: &mut [u8], second: &[u8]) -> Value
    requires row { IsTrue (is_halves op) }
    requires some { 1 ≤ length first.old }
    requires few { length first.old ≤ 16 }
    ensures { Leaves (halves_row op first.old second.now) first.new result }
{
    move_halves(op, first, second);
    completed()
}

/// What an instruction of two fields of 1 to 16 bytes leaves of the first, by its opcode: MVO
/// X'F1', PACK X'F2', UNPK X'F3', ZAP X'F8', CP X'F9', AP X'FA', SP X'FB', MP X'FC', DP X'FD'. A
/// specification, data or decimal-divide exception leaves the first field; a decimal overflow comes
/// with the result (Principles of Operation, Decimal Instructions and General Instructions).
#[tactic(auto, unfolding(esa_model::specs::DecimalRows::two_row))]
pub fn two(op: u8, first: &mut [u8], second: &[u8]) -> Value
    requires row { IsTrue (is_two op) }
    requires some { 1 ≤ length first.old }
    requires few { length first.old ≤ 16 }
    requires second_some { 1 ≤ length second.now }
    requires second_few { length second.now ≤ 16 }
    ensures { Leaves (two_row op first.old second.now) first.new result }
{
    match op {
        0xF8 => zero_and_add(first, second),
        0xF9 => compare_decimal(first, second),
        0xFA => add_decimal(first, second),
        0xFB => subtract_decimal(first, second),
        0xFC => multiply_decimal(first, second),
        0xFD => divide_decimal(first, second),
        _ => carry_halves(op, first, second),
    }
}
