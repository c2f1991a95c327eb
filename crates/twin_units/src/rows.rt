// The rows of all classes: their tests, their operands and what they do.
ghost use Rattle.std.specs.Prelude.{◌≡◌, true, length};
ghost use Rattle.control_rows.specs.Orders.{Sends};
ghost use Rattle.row_frame.specs.Made.{Covers, Fits, IsInRange, ReadsConsole, SetsKey, situation};
ghost use Rattle.twin_units.specs.Units.{effect_by, is_in_order, operands_by, IsKnown};

use abs_storage::View;
use byte_rows::{bytes, decimals};
use esa_model::kinds::Kind;
use esa_model::machine::{CpuNo, Registers};
use operand_access::Operands;
use result_packet::Side;
use row_frame::{Effect, Instruction};
use word_rows::{branches, stores, words};

/// Whether register numbers, alignment and the like are in order.
#[tactic(auto, unfolding(esa_model::specs::Rows::All::line, esa_model::specs::Rows::All::is_of_kind))]
pub(crate) fn in_order<V: View>(
    kind: Kind,
    opcode: u16,
    r: &Registers,
    cpu: CpuNo,
    view: &V,
    side: &Side,
    i: &Instruction,
) -> bool
    requires fields { IsInRange i.now.decoded }
    requires known { IsKnown kind opcode }
    ensures { result ≡ is_in_order kind opcode (situation r.now cpu.0 (V.bytes view.now) side.now i.now) }
{
    match kind {
        Kind::Words(kind) => words::in_order(kind, opcode, r, view, i),
        Kind::Branches(kind) => branches::in_order(kind, opcode, r, view, i),
        Kind::Stores(kind) => stores::in_order(kind, opcode, r, view, i),
        Kind::Bytes(kind) => bytes::in_order(kind, opcode, r, view, i),
        Kind::Decimals(kind) => decimals::in_order(kind, opcode, r, view, i),
        Kind::Controls(kind) => control_rows::in_order(kind, opcode, r, cpu, view, side, i),
    }
}

/// The operands of a row. Those of some rows depend on bytes of the storage, so that it is read.
#[tactic(auto, unfolding(esa_model::specs::Rows::All::line, esa_model::specs::Rows::All::is_of_kind))]
pub(crate) fn operands<V: View>(
    kind: Kind,
    opcode: u16,
    r: &Registers,
    cpu: CpuNo,
    view: &mut V,
    side: &Side,
    i: &Instruction,
) -> Operands
    requires fields { IsInRange i.now.decoded }
    requires known { IsKnown kind opcode }
    requires order { is_in_order kind opcode (situation r.now cpu.0 (V.bytes view.old) side.now i.now) ≡ true }
    ensures operands { result ≡ operands_by kind opcode (situation r.now cpu.0 (V.bytes view.old) side.now i.now) }
    ensures fits { Fits result }
    ensures same { V.bytes view.new ≡ V.bytes view.old }
{
    match kind {
        Kind::Words(kind) => words::operands(kind, opcode, r, view, i),
        Kind::Branches(kind) => branches::operands(kind, opcode, r, view, i),
        Kind::Stores(kind) => stores::operands(kind, opcode, r, view, i),
        Kind::Bytes(kind) => bytes::operands(kind, opcode, r, view, i),
        Kind::Decimals(kind) => decimals::operands(kind, opcode, r, view, i),
        Kind::Controls(kind) => control_rows::operands(kind, opcode, r, cpu, view, side, i),
    }
}

/// What a row does.
#[tactic(auto, using(crate::proofs::Quiet::reads_nothing, crate::proofs::Quiet::sends_nothing, crate::proofs::Quiet::sets_nothing), unfolding(esa_model::specs::Rows::All::line, esa_model::specs::Rows::All::is_of_kind))]
pub(crate) fn effect_of<V: View>(
    kind: Kind,
    opcode: u16,
    r: &Registers,
    cpu: CpuNo,
    view: &mut V,
    side: &Side,
    i: &Instruction,
) -> Effect
    requires fields { IsInRange i.now.decoded }
    requires known { IsKnown kind opcode }
    requires order { is_in_order kind opcode (situation r.now cpu.0 (V.bytes view.old) side.now i.now) ≡ true }
    ensures effect { result ≡ effect_by kind opcode (situation r.now cpu.0 (V.bytes view.old) side.now i.now) }
    ensures covers { Covers (operands_by kind opcode (situation r.now cpu.0 (V.bytes view.old) side.now i.now)) result }
    ensures reads { ReadsConsole result.console_in (length side.now.console) result.console_out }
    ensures sends { Sends side.now.bus result.sent }
    ensures sets { SetsKey result.set_key }
    ensures same { V.bytes view.new ≡ V.bytes view.old }
{
    match kind {
        Kind::Words(kind) => words::effect_of(kind, opcode, r, view, i),
        Kind::Branches(kind) => branches::effect_of(kind, opcode, r, view, i),
        Kind::Stores(kind) => stores::effect_of(kind, opcode, r, view, i),
        Kind::Bytes(kind) => bytes::effect_of(kind, opcode, r, view, i),
        Kind::Decimals(kind) => decimals::effect_of(kind, opcode, r, view, i),
        Kind::Controls(kind) => control_rows::effect_of(kind, opcode, r, cpu, view, side, i),
    }
}
