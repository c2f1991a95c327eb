// CS and CDS: they store where the operand is the first register or pair, and fetch where it is
// not.
// Source: Principles of Operation, chapter on general instructions.
ghost use Rattle.std.specs.Prelude.{◌≡◌, ◌+◌, ◌≤◌, ◌<◌, [], length};
ghost use Rattle.esa_model.specs.Line.{with_pair, with_value};
ghost use Rattle.esa_model.specs.MaskRows.{compare_and_swap_row, compare_double_and_swap_row};
ghost use Rattle.esa_model.specs.Rows.Stores.{compare_and_swap as swap_line, compare_double_and_swap as pair_line, pair_swap_value, swap_value};
ghost use Rattle.row_frame.specs.Made.{inputs, IsInRange, Fits, IsQuiet};

use crate::lists::{pair_bytes, word_bytes};
use abs_storage::View;
use esa_model::instructions::Decoded;
use esa_model::machine::{Registers, Value};
use operand_access::{Operands, whole};
use row_frame::{
    Effect, Instruction, after_coded, general_of, leave, one, second_of, store, word_of,
};

/// The value of CS.
#[tactic(auto, unfolding(esa_model::specs::MaskRows::compare_and_swap_row))]
fn compared(a: u32, b: u32) -> Value
    ensures value { result ≡ compare_and_swap_row a b }
    ensures code { result.cc < 2 }
{
    Value {
        word: b,
        low: 0,
        cc: if a == b { 0 } else { 1 },
        fault: 0,
    }
}

/// The value of CDS.
#[tactic(auto, unfolding(esa_model::specs::MaskRows::compare_double_and_swap_row))]
fn pair_compared(a: u32, low: u32, b: u32, b_low: u32) -> Value
    ensures value { result ≡ compare_double_and_swap_row a low b b_low }
    ensures code { result.cc < 2 }
{
    Value {
        word: b,
        low: b_low,
        cc: if a == b && low == b_low { 0 } else { 1 },
        fault: 0,
    }
}

/// The value of CS over the storage.
fn swap_value_of<V: View>(r: &Registers, view: &mut V, i: &Instruction) -> Value
    requires { IsInRange i.now.decoded }
    ensures value { result ≡ swap_value (inputs r.now (V.bytes view.old) i.now) }
    ensures code { result.cc < 2 }
    ensures same { V.bytes view.new ≡ V.bytes view.old }
{
    let d = &i.decoded;
    let word = word_of(r, view, second_of(r, d));
    compared(general_of(r, d.r1), word)
}

/// The value of CDS over the storage.
fn pair_swap_value_of<V: View>(r: &Registers, view: &mut V, i: &Instruction) -> Value
    requires fields { IsInRange i.now.decoded }
    requires even { i.now.decoded.r1 + 1 < 16 }
    ensures value { result ≡ pair_swap_value (inputs r.now (V.bytes view.old) i.now) }
    ensures code { result.cc < 2 }
    ensures same { V.bytes view.new ≡ V.bytes view.old }
{
    let d = &i.decoded;
    let at = second_of(r, d);
    let word = word_of(r, view, at);
    let low = word_of(r, view, at + 4);
    pair_compared(general_of(r, d.r1), general_of(r, d.r1 + 1), word, low)
}

/// The registers with a value in R1, its condition code, and the address of the next instruction.
#[tactic(auto, unfolding(esa_model::specs::Line::with_value, esa_model::specs::Line::advanced))]
fn put_value(r: &Registers, d: &Decoded, len: u8, v: &Value) -> Registers
    requires target { d.now.r1 < 16 }
    requires code { v.now.cc < 2 }
    ensures { result ≡ with_value r.now d.now.r1 len v.now }
{
    let mut out = after_coded(r, len, v.cc);
    out.general[usize::from(d.r1)] = v.word;
    out
}

/// The same with a pair in R1 and its odd neighbour.
#[tactic(auto, unfolding(esa_model::specs::Line::with_pair, esa_model::specs::Line::advanced))]
fn put_pair(r: &Registers, d: &Decoded, len: u8, v: &Value) -> Registers
    requires target { d.now.r1 + 1 < 16 }
    requires code { v.now.cc < 2 }
    ensures { result ≡ with_pair r.now d.now.r1 len v.now }
{
    let mut out = after_coded(r, len, v.cc);
    out.general[usize::from(d.r1)] = v.word;
    out.general[usize::from(d.r1) + 1] = v.low;
    out
}

/// The operand of CS.
pub(crate) fn swap_operands<V: View>(r: &Registers, view: &mut V, i: &Instruction) -> Operands
    requires { IsInRange i.now.decoded }
    ensures operands { result ≡ swap_line.operands (inputs r.now (V.bytes view.old) i.now) }
    ensures fits { Fits result }
    ensures same { V.bytes view.new ≡ V.bytes view.old }
{
    let v = swap_value_of(r, view, i);
    one(whole(second_of(r, &i.decoded), 4, v.cc != 0, true))
}

/// The operand of CDS.
pub(crate) fn pair_swap_operands<V: View>(r: &Registers, view: &mut V, i: &Instruction) -> Operands
    requires fields { IsInRange i.now.decoded }
    requires even { i.now.decoded.r1 + 1 < 16 }
    ensures operands { result ≡ pair_line.operands (inputs r.now (V.bytes view.old) i.now) }
    ensures fits { Fits result }
    ensures same { V.bytes view.new ≡ V.bytes view.old }
{
    let v = pair_swap_value_of(r, view, i);
    one(whole(second_of(r, &i.decoded), 8, v.cc != 0, true))
}

/// COMPARE AND SWAP.
pub(crate) fn swap<V: View>(r: &Registers, view: &mut V, i: &Instruction) -> Effect
    requires { IsInRange i.now.decoded }
    ensures effect { result ≡ swap_line.effect (inputs r.now (V.bytes view.old) i.now) }
    ensures short { length result.stored ≤ 4 }
    ensures none { result.console_out ≡ [] }
    ensures quiet { IsQuiet result }
    ensures same { V.bytes view.new ≡ V.bytes view.old }
{
    let d = &i.decoded;
    let v = swap_value_of(r, view, i);
    let registers = put_value(r, d, i.len, &v);
    if v.cc == 0 {
        store(registers, word_bytes(general_of(r, d.r2)))
    } else {
        leave(registers)
    }
}

/// COMPARE DOUBLE AND SWAP.
pub(crate) fn pair_swap<V: View>(r: &Registers, view: &mut V, i: &Instruction) -> Effect
    requires fields { IsInRange i.now.decoded }
    requires even { i.now.decoded.r1 + 1 < 16 }
    requires second { i.now.decoded.r2 + 1 < 16 }
    ensures effect { result ≡ pair_line.effect (inputs r.now (V.bytes view.old) i.now) }
    ensures short { length result.stored ≤ 8 }
    ensures none { result.console_out ≡ [] }
    ensures quiet { IsQuiet result }
    ensures same { V.bytes view.new ≡ V.bytes view.old }
{
    let d = &i.decoded;
    let v = pair_swap_value_of(r, view, i);
    let registers = put_pair(r, d, i.len, &v);
    if v.cc == 0 {
        let bytes = pair_bytes(general_of(r, d.r2), general_of(r, d.r2 + 1));
        store(registers, bytes)
    } else {
        leave(registers)
    }
}
