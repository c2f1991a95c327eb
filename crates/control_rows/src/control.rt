// The rows that fetch, store or set the system mask.
ghost use Rattle.std.specs.Prelude.{◌≡◌, ◌≤◌, ◌<◌, ◌||◌, None, [], IsFalse, IsTrue, length};
ghost use Rattle.esa_model.specs.ControlRows.{controlled, is_control, is_fetching, is_mask, is_storing, stored_len};
ghost use Rattle.esa_model.specs.Line.{advanced};
ghost use Rattle.esa_model.specs.Rows.Controls.{control_effect, fetching_line, set_in};
ghost use Rattle.row_frame.specs.Made.{situation, IsInRange, IsPlain, SetsKey};

use abs_storage::View;
use control_instr::{Controlled, control, fetched};
use esa_model::events::KeySet;
use esa_model::instructions::Decoded;
use esa_model::machine::{CpuNo, Registers};
use result_packet::Side;
use row_frame::{Effect, Instruction, after, bytes_of, leave, listed, second_of};

/// The key that is set, of a block.
fn key_set(block: u16, key: Option<u8>) -> Option<KeySet>
    requires small { block < 65535 }
    ensures key { result ≡ set_in block key }
    ensures sets { SetsKey result }
{
    match key {
        Some(key) => Some(KeySet { block, key }),
        None => None,
    }
}

/// What a control row does whose key, where it sets one, is that of `block`.
pub fn effect_for_block(block: u16, c: &Controlled) -> Effect
    requires small { block < 65535 }
    ensures effect { result ≡ control_effect block c.now }
    ensures bytes { result.stored ≡ c.now.stored }
    ensures console_out { result.console_out ≡ [] }
    ensures console_in { result.console_in ≡ None }
    ensures sent { result.sent ≡ None }
    ensures sets { SetsKey result.set_key }
{
    let mut e = leave(c.registers);
    e.stored = listed(c.stored.as_slice());
    e.set_key = key_set(block, c.set_key);
    e.fault = c.fault;
    e
}

/// A row that fetches.
#[tactic(auto, unfolding(esa_model::specs::ControlRows::stored_len))]
pub fn fetching_effect<V: View>(
    opcode: u16,
    r: &Registers,
    cpu: CpuNo,
    view: &mut V,
    side: &Side,
    i: &Instruction,
) -> Effect
    requires fields { IsInRange i.now.decoded }
    requires known { IsTrue (is_fetching opcode) }
    ensures effect { result ≡ (fetching_line opcode).effect
        (situation r.now cpu.0 (V.bytes view.old) side.now i.now) }
    ensures plain { IsPlain result }
    ensures console_in { result.console_in ≡ None }
    ensures sent { result.sent ≡ None }
    ensures sets { SetsKey result.set_key }
    ensures same { V.bytes view.new ≡ V.bytes view.old }
{
    let d = &i.decoded;
    let operand = bytes_of(r, view, second_of(r, d), fetched(opcode, d));
    let next = after(r, i.len);
    let c = control(opcode, cpu, view.size(), 0, &next, d, operand.as_slice());
    effect_for_block(0, &c)
}

/// What a row makes that fetches nothing.
#[tactic(auto, unfolding(esa_model::specs::ControlRows::fetched_len))]
pub fn control_without_operand(
    opcode: u16,
    cpu: CpuNo,
    size: u32,
    key: u8,
    r: &Registers,
    d: &Decoded,
) -> Controlled
    requires fields { IsInRange d.now }
    requires known { IsTrue (is_control opcode) }
    requires none { IsFalse (is_fetching opcode) }
    ensures row { result ≡ controlled opcode cpu.0 size key r.now d.now [] }
    ensures bytes { length result.stored ≤ stored_len opcode d.now }
{
    control(opcode, cpu, size, key, r, d, &[])
}

/// A row that stores its operand or the system mask.
pub fn storing_effect(opcode: u16, r: &Registers, cpu: CpuNo, size: u32, i: &Instruction) -> Effect
    requires fields { IsInRange i.now.decoded }
    requires known { IsTrue (is_storing opcode || is_mask opcode) }
    ensures effect { result ≡ control_effect 0
        (controlled opcode cpu.0 size 0 (advanced r.now i.now.len) i.now.decoded []) }
    ensures bytes { length result.stored ≤ stored_len opcode i.now.decoded }
    ensures console_out { result.console_out ≡ [] }
    ensures console_in { result.console_in ≡ None }
    ensures sent { result.sent ≡ None }
    ensures sets { SetsKey result.set_key }
{
    let next = after(r, i.len);
    effect_for_block(
        0,
        &control_without_operand(opcode, cpu, size, 0, &next, &i.decoded),
    )
}
