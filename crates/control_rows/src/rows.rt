// The tests of control rows, their operands and what they do.
ghost use Rattle.std.specs.Prelude.{◌≡◌, IsTrue, length};
ghost use Rattle.esa_model.specs.Rows.Controls.{controls_line, has_control};
ghost use Rattle.control_rows.specs.Orders.{Sends};
ghost use Rattle.row_frame.specs.Made.{situation, Covers, Fits, IsInRange, ReadsConsole, SetsKey};

use crate::clocks::{clock_effect, sets_clock_effect, stores_clock_effect};
use crate::control::{fetching_effect, storing_effect};
use crate::diagnose::{diagnose_effect, function_called, text_of};
use crate::keys::key_effect;
use crate::signal::signal_effect;
use abs_storage::View;
use control_instr::{fetched, is_aligned, stored};
use esa_model::kinds::ControlKind;
use esa_model::machine::{CpuNo, Registers};
use operand_access::{Operands, whole};
use result_packet::Side;
use row_frame::{Effect, Instruction, first_of, general_of, no_operands, one, second_of};

/// Whether alignment, and the function and the count of DIAGNOSE, are in order.
#[tactic(auto, unfolding(esa_model::specs::Rows::Controls::controls_line))]
pub fn in_order<V: View>(
    kind: ControlKind,
    opcode: u16,
    r: &Registers,
    cpu: CpuNo,
    view: &V,
    side: &Side,
    i: &Instruction,
) -> bool
    requires fields { IsInRange i.now.decoded }
    ensures { result ≡ (controls_line kind opcode).in_order
        (situation r.now cpu.0 (V.bytes view.now) side.now i.now) }
{
    let d = &i.decoded;
    match kind {
        ControlKind::Fetching | ControlKind::Storing => is_aligned(opcode, r, d),
        ControlKind::Diagnose => function_called(r, d).is_some(),
        ControlKind::SetsClock | ControlKind::StoresClock => second_of(r, d) % 8 == 0,
        ControlKind::Masks | ControlKind::Keys | ControlKind::Signal | ControlKind::Clock => true,
    }
}

/// The operands of a row.
#[tactic(auto, unfolding(esa_model::specs::Rows::Controls::controls_line))]
pub fn operands<V: View>(
    kind: ControlKind,
    opcode: u16,
    r: &Registers,
    cpu: CpuNo,
    view: &V,
    side: &Side,
    i: &Instruction,
) -> Operands
    requires fields { IsInRange i.now.decoded }
    ensures operands { result ≡ (controls_line kind opcode).operands
        (situation r.now cpu.0 (V.bytes view.now) side.now i.now) }
    ensures fits { Fits result }
{
    let d = &i.decoded;
    match kind {
        ControlKind::Fetching => one(whole(second_of(r, d), fetched(opcode, d), true, false)),
        ControlKind::Storing => one(whole(second_of(r, d), stored(opcode, d), false, true)),
        ControlKind::Masks => one(whole(first_of(r, d), 1, false, true)),
        ControlKind::SetsClock => one(whole(second_of(r, d), 8, true, false)),
        ControlKind::Clock | ControlKind::StoresClock => {
            one(whole(second_of(r, d), 8, false, true))
        }
        ControlKind::Diagnose => match function_called(r, d) {
            Some(reads) => one(whole(text_of(r, d), general_of(r, d.r2), !reads, reads)),
            None => no_operands(),
        },
        ControlKind::Keys | ControlKind::Signal => no_operands(),
    }
}

/// What a row does. A key that it sets is that of a block inside the storage, and an order that it
/// sends is one that the bus accepts.
#[tactic(auto, using(crate::proofs::Quiet::nothing), unfolding(esa_model::specs::Rows::Controls::controls_line, esa_model::specs::Rows::Controls::has_control, esa_model::specs::ControlRows::stored_len))]
pub fn effect_of<V: View>(
    kind: ControlKind,
    opcode: u16,
    r: &Registers,
    cpu: CpuNo,
    view: &mut V,
    side: &Side,
    i: &Instruction,
) -> Effect
    requires fields { IsInRange i.now.decoded }
    requires known { IsTrue (has_control kind opcode) }
    ensures effect { result ≡ (controls_line kind opcode).effect
        (situation r.now cpu.0 (V.bytes view.old) side.now i.now) }
    ensures covers { Covers ((controls_line kind opcode).operands
        (situation r.now cpu.0 (V.bytes view.old) side.now i.now)) result }
    ensures reads { ReadsConsole result.console_in (length side.now.console) result.console_out }
    ensures sends { Sends side.now.bus result.sent }
    ensures sets { SetsKey result.set_key }
    ensures same { V.bytes view.new ≡ V.bytes view.old }
{
    match kind {
        ControlKind::Fetching => fetching_effect(opcode, r, cpu, view, side, i),
        ControlKind::Storing => storing_effect(opcode, r, cpu, view.size(), i),
        ControlKind::Masks => storing_effect(opcode, r, cpu, view.size(), i),
        ControlKind::Keys => key_effect(opcode, r, cpu, view, side, i),
        ControlKind::Diagnose => diagnose_effect(r, cpu, view, side, i),
        ControlKind::Signal => signal_effect(r, cpu, view, side, i),
        ControlKind::Clock => clock_effect(r, side.clock, i.len),
        ControlKind::SetsClock => sets_clock_effect(opcode, r, cpu, view, side, i),
        ControlKind::StoresClock => stores_clock_effect(opcode, r, side.clock, i.len),
    }
}
