// The decimal rows that change or compare a field of 1 to 16 bytes.
// Source: Principles of Operation, chapter on decimal instructions.
ghost use Rattle.std.specs.Prelude.{◌≡◌, ◌+◌, ◌≤◌, ◌<◌, [], true, IsTrue, length};
ghost use Rattle.esa_model.specs.DecimalRows.{Leaves, is_two, shift_row as shifted_row, two_row};
ghost use Rattle.esa_model.specs.Rows.Decimals.{shift_line};
ghost use Rattle.byte_rows.specs.Classes.{field_ending, two_field_effect, two_field_operands};
ghost use Rattle.row_frame.specs.Made.{inputs, IsInRange, Fits, Covers, IsQuiet};

use abs_storage::View;
use decimal_instr::{srp, two as two_value};
use esa_model::machine::{Registers, Value};
use operand_access::{Operands, gather, whole};
use row_frame::{
    Effect, Instruction, after_coded, bytes_of, end, first_of, interrupts, listed, one, second_of,
    two,
};

/// What a decimal row does that leaves this field and value, and stores the field or not.
fn end_with(r: &Registers, i: &Instruction, store: bool, field: &[u8], v: &Value) -> Effect
    requires code { v.now.cc < 5 }
    requires few { length field.now ≤ 256 }
    ensures effect { result ≡ field_ending r.now i.now store field.now v.now }
    ensures short { length result.stored ≤ length field.now }
    ensures console { result.console_out ≡ [] }
    ensures quiet { IsQuiet result }
{
    let registers = after_coded(r, i.len, v.cc);
    let mut effect = end(registers, interrupts(r.psw, v.fault), v.fault);
    if store {
        effect.stored = listed(field);
    }
    effect
}

/// What a row leaves of its first field.
#[tactic(auto, using(crate::proofs::Codes::two_byte))]
fn two_fields(op: u16, first: &mut [u8], second: &[u8]) -> Value
    requires row { IsTrue (is_two op) }
    requires some { 1 ≤ length first.old }
    requires few { length first.old ≤ 16 }
    requires second_some { 1 ≤ length second.now }
    requires second_few { length second.now ≤ 16 }
    ensures leaves { Leaves (two_row op first.old second.now) first.new result }
    ensures code { result.cc < 5 }
{
    two_value(op as u8, first, second)
}

/// What SRP leaves of its field.
fn shifted(first: &mut [u8], by: u8, round: u8) -> Value
    requires some { 1 ≤ length first.old }
    requires few { length first.old ≤ 16 }
    requires by { by < 64 }
    ensures leaves { Leaves (shifted_row first.old by round) first.new result }
    ensures code { result.cc < 5 }
{
    srp(first, by, round)
}

/// The operands of a row on two fields, the first of which is fetched, or stored, or both.
pub(crate) fn field_operands(fetch: bool, store: bool, r: &Registers, i: &Instruction) -> Operands
    requires fields { IsInRange i.now.decoded }
    ensures operands { result ≡ two_field_operands fetch store r.now i.now }
    ensures fits { Fits result }
{
    let d = &i.decoded;
    two(
        whole(first_of(r, d), u32::from(d.r1) + 1, fetch, store),
        whole(second_of(r, d), u32::from(d.r2) + 1, true, false),
    )
}

/// What a row on two fields does, which stores its first field or not.
pub(crate) fn field_effect<V: View>(
    op: u16,
    store: bool,
    r: &Registers,
    view: &mut V,
    i: &Instruction,
) -> Effect
    requires fields { IsInRange i.now.decoded }
    requires known { IsTrue (is_two op) }
    ensures effect { result ≡ two_field_effect op store r.now (V.bytes view.old) i.now }
    ensures covers { Covers (two_field_operands true store r.now i.now) result }
    ensures quiet { IsQuiet result }
    ensures same { V.bytes view.new ≡ V.bytes view.old }
{
    let d = &i.decoded;
    let second = bytes_of(r, view, second_of(r, d), u32::from(d.r2) + 1);
    let mut area = [0; 16];
    let field = &mut area[..usize::from(d.r1) + 1];
    gather(r, view, first_of(r, d), field);
    let v = two_fields(op, field, second.as_slice());
    end_with(r, i, store, field, &v)
}

/// The operand of SRP.
pub(crate) fn shift_operands(r: &Registers, i: &Instruction) -> Operands
    requires fields { IsInRange i.now.decoded }
    ensures operands { result ≡ shift_line.operands (inputs r.now [] i.now) }
    ensures fits { Fits result }
{
    let d = &i.decoded;
    one(whole(first_of(r, d), u32::from(d.r1) + 1, true, true))
}

/// What SRP does: it shifts by the low six bits of the second address.
pub(crate) fn shift_effect<V: View>(r: &Registers, view: &mut V, i: &Instruction) -> Effect
    requires fields { IsInRange i.now.decoded }
    ensures effect { result ≡ shift_line.effect (inputs r.now (V.bytes view.old) i.now) }
    ensures covers { Covers (shift_line.operands (inputs r.now [] i.now)) result }
    ensures quiet { IsQuiet result }
    ensures same { V.bytes view.new ≡ V.bytes view.old }
{
    let d = &i.decoded;
    let mut area = [0; 16];
    let field = &mut area[..usize::from(d.r1) + 1];
    gather(r, view, first_of(r, d), field);
    let v = shifted(field, (second_of(r, d) % 64) as u8, d.r2);
    end_with(r, i, true, field, &v)
}
