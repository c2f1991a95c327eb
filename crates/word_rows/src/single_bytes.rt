// The rows on one byte of the storage: TM, MVI, NI, OI, XI and CLI with the immediate byte, and TS.
// Source: Principles of Operation, chapter on general instructions.
ghost use Rattle.std.specs.Prelude.{◌≡◌, ◌+◌, ◌%◌, ◌^◌, ◌<◌, IsTrue, []};
ghost use Rattle.esa_model.specs.MaskRows.{test_under_mask_code};
ghost use Rattle.esa_model.specs.Moves.{is_move};
ghost use Rattle.esa_model.specs.WordRows.{bits_code};
ghost use Rattle.esa_model.specs.Rows.Stores.{combine_immediate as combine_line, combined_byte, compare_immediate as compare_line, first_byte, immediate, move_immediate as move_line, test_and_set as set_line, test_under_mask as test_line};
ghost use Rattle.row_frame.specs.Made.{inputs, IsInRange, IsPlain, Covers, IsQuiet};

use crate::lists::one_byte;
use crate::masks::order_of;
use abs_storage::View;
use esa_model::machine::Registers;
use general_move::combine;
use operand_access::byte_at;
use row_frame::{Effect, Instruction, after, after_coded, first_of, leave, second_of, store};

/// The immediate byte.
fn immediate_of(i: &Instruction) -> u8
    ensures { result ≡ i.now.decoded.imm % 2 ^ 8 }
{
    (i.decoded.imm % 0x100) as u8
}

/// The byte at the first address.
fn first_byte_of<V: View>(r: &Registers, view: &mut V, i: &Instruction) -> u8
    requires { IsInRange i.now.decoded }
    ensures byte { result ≡ first_byte (inputs r.now (V.bytes view.old) i.now) }
    ensures same { V.bytes view.new ≡ V.bytes view.old }
{
    byte_at(r, view, u64::from(first_of(r, &i.decoded)))
}

/// The condition code of TM.
#[tactic(auto, unfolding(esa_model::specs::MaskRows::test_under_mask_code))]
fn test_under_mask(byte: u8, mask: u8) -> u8
    ensures code { result ≡ test_under_mask_code byte mask }
    ensures small { result < 4 }
{
    let ones = byte & mask;
    if ones == 0 {
        0
    } else if ones == mask {
        3
    } else {
        1
    }
}

/// TEST UNDER MASK: the bits of a byte that the immediate byte selects.
pub(crate) fn test_mask<V: View>(r: &Registers, view: &mut V, i: &Instruction) -> Effect
    requires { IsInRange i.now.decoded }
    ensures effect { result ≡ test_line.effect (inputs r.now (V.bytes view.old) i.now) }
    ensures plain { IsPlain result }
    ensures quiet { IsQuiet result }
    ensures same { V.bytes view.new ≡ V.bytes view.old }
{
    let code = test_under_mask(first_byte_of(r, view, i), immediate_of(i));
    leave(after_coded(r, i.len, code))
}

/// MOVE IMMEDIATE: the immediate byte.
pub(crate) fn move_immediate(r: &Registers, i: &Instruction) -> Effect
    requires { IsInRange i.now.decoded }
    ensures effect { result ≡ move_line.effect (inputs r.now [] i.now) }
    ensures covers { Covers (move_line.operands (inputs r.now [] i.now)) result }
    ensures quiet { IsQuiet result }
{
    store(after(r, i.len), one_byte(immediate_of(i)))
}

/// The byte of NI, OI or XI.
#[tactic(auto, using(crate::proofs::Opcodes::move_byte))]
fn combined_of<V: View>(opcode: u16, r: &Registers, view: &mut V, i: &Instruction) -> u8
    requires fields { IsInRange i.now.decoded }
    requires known { IsTrue (is_move (opcode + 0x40)) }
    ensures byte { result ≡ combined_byte opcode (inputs r.now (V.bytes view.old) i.now) }
    ensures same { V.bytes view.new ≡ V.bytes view.old }
{
    let op = (opcode + 0x40) as u8;
    combine(op, first_byte_of(r, view, i), immediate_of(i))
}

/// The condition code of bits: whether one is one.
fn code_of_bits(bits: u8) -> u8
    ensures code { result ≡ bits_code bits }
    ensures small { result < 2 }
{
    if bits == 0 { 0 } else { 1 }
}

/// AND, OR and EXCLUSIVE OR with the immediate byte.
pub(crate) fn combine_immediate<V: View>(
    opcode: u16,
    r: &Registers,
    view: &mut V,
    i: &Instruction,
) -> Effect
    requires fields { IsInRange i.now.decoded }
    requires known { IsTrue (is_move (opcode + 0x40)) }
    ensures effect { result ≡ (combine_line opcode).effect (inputs r.now (V.bytes view.old) i.now) }
    ensures covers { Covers ((combine_line opcode).operands (inputs r.now [] i.now)) result }
    ensures quiet { IsQuiet result }
    ensures same { V.bytes view.new ≡ V.bytes view.old }
{
    let byte = combined_of(opcode, r, view, i);
    store(after_coded(r, i.len, code_of_bits(byte)), one_byte(byte))
}

/// COMPARE LOGICAL IMMEDIATE: a byte against the immediate one.
pub(crate) fn compare_immediate<V: View>(r: &Registers, view: &mut V, i: &Instruction) -> Effect
    requires { IsInRange i.now.decoded }
    ensures effect { result ≡ compare_line.effect (inputs r.now (V.bytes view.old) i.now) }
    ensures plain { IsPlain result }
    ensures quiet { IsQuiet result }
    ensures same { V.bytes view.new ≡ V.bytes view.old }
{
    let code = order_of(&[first_byte_of(r, view, i)], &[immediate_of(i)]);
    leave(after_coded(r, i.len, code))
}

/// TEST AND SET: the condition code is the byte's left bit, and all its bits become ones.
pub(crate) fn test_and_set<V: View>(r: &Registers, view: &mut V, i: &Instruction) -> Effect
    requires { IsInRange i.now.decoded }
    ensures effect { result ≡ set_line.effect (inputs r.now (V.bytes view.old) i.now) }
    ensures covers { Covers (set_line.operands (inputs r.now [] i.now)) result }
    ensures quiet { IsQuiet result }
    ensures same { V.bytes view.new ≡ V.bytes view.old }
{
    let byte = byte_at(r, view, u64::from(second_of(r, &i.decoded)));
    store(after_coded(r, i.len, byte / 128), one_byte(0xFF))
}
