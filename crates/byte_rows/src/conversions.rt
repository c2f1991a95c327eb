// CONVERT TO BINARY and CONVERT TO DECIMAL.
// Source: Principles of Operation, chapter on general instructions.
ghost use Rattle.std.specs.Prelude.{◌≡◌, ◌<◌, []};
ghost use Rattle.esa_model.specs.DecimalRows.{to_binary};
ghost use Rattle.esa_model.specs.Rows.Decimals.{to_binary_line, to_decimal_line};
ghost use Rattle.row_frame.specs.Made.{inputs, IsInRange, IsPlain, Fits, Covers, IsQuiet};

use abs_storage::View;
use decimal_instr::{cvb, cvd};
use esa_model::machine::{Registers, Value};
use operand_access::{Operands, gather, whole};
use row_frame::{Effect, Instruction, after, general_of, indexed_of, listed, one, store, value};

/// The operand of CVB.
pub(crate) fn binary_operands(r: &Registers, i: &Instruction) -> Operands
    requires fields { IsInRange i.now.decoded }
    ensures operands { result ≡ to_binary_line.operands (inputs r.now [] i.now) }
    ensures fits { Fits result }
{
    one(whole(indexed_of(r, &i.decoded), 8, true, false))
}

/// The operand of CVD.
pub(crate) fn decimal_operands(r: &Registers, i: &Instruction) -> Operands
    requires fields { IsInRange i.now.decoded }
    ensures operands { result ≡ to_decimal_line.operands (inputs r.now [] i.now) }
    ensures fits { Fits result }
{
    one(whole(indexed_of(r, &i.decoded), 8, false, true))
}

/// The word of a field; the condition code stays.
fn word_of(field: &[u8; 8]) -> Value
    ensures value { result ≡ to_binary field.now }
    ensures code { result.cc < 5 }
{
    cvb(field)
}

/// What CVB does.
pub(crate) fn binary_effect<V: View>(r: &Registers, view: &mut V, i: &Instruction) -> Effect
    requires fields { IsInRange i.now.decoded }
    ensures effect { result ≡ to_binary_line.effect (inputs r.now (V.bytes view.old) i.now) }
    ensures plain { IsPlain result }
    ensures quiet { IsQuiet result }
    ensures same { V.bytes view.new ≡ V.bytes view.old }
{
    let d = &i.decoded;
    let mut field = [0; 8];
    gather(r, view, indexed_of(r, d), &mut field);
    value(r, d, i.len, &word_of(&field))
}

/// What CVD does.
pub(crate) fn decimal_effect(r: &Registers, i: &Instruction) -> Effect
    requires fields { IsInRange i.now.decoded }
    ensures effect { result ≡ to_decimal_line.effect (inputs r.now [] i.now) }
    ensures covers { Covers (to_decimal_line.operands (inputs r.now [] i.now)) result }
    ensures quiet { IsQuiet result }
{
    store(after(r, i.len), listed(&cvd(general_of(r, i.decoded.r1))))
}
