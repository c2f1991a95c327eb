// ISKE, RRBE and SSKE.
ghost use Rattle.std.specs.Prelude.{◌≡◌, None, IsTrue};
ghost use Rattle.esa_model.specs.ControlRows.{is_key};
ghost use Rattle.esa_model.specs.Rows.Controls.{keys_line};
ghost use Rattle.row_frame.specs.Made.{situation, IsInRange, IsPlain, SetsKey};

use crate::control::{control_without_operand, effect_for_block};
use abs_storage::View;
use esa_model::codes::ADDRESSING;
use esa_model::machine::{CpuNo, Registers};
use operand_access::place_of;
use result_packet::Side;
use row_frame::{Effect, Instruction, after, general_of, refuse};

/// A row for the key of the block of the real page of the address in R2.
#[tactic(auto, using(crate::proofs::Quiet::sets_nothing), unfolding(esa_model::specs::ControlRows::stored_len))]
pub fn key_effect<V: View>(
    opcode: u16,
    r: &Registers,
    cpu: CpuNo,
    view: &V,
    side: &Side,
    i: &Instruction,
) -> Effect
    requires fields { IsInRange i.now.decoded }
    requires known { IsTrue (is_key opcode) }
    ensures effect { result ≡ (keys_line opcode).effect
        (situation r.now cpu.0 (V.bytes view.now) side.now i.now) }
    ensures plain { IsPlain result }
    ensures console_in { result.console_in ≡ None }
    ensures sent { result.sent ≡ None }
    ensures sets { SetsKey result.set_key }
{
    let d = &i.decoded;
    let size = view.size();
    let at = place_of(r, u64::from(general_of(r, d.r2)));
    if size <= at {
        return refuse(*r, ADDRESSING);
    }
    let block = (at / 4096) as u16;
    let key = side.keys.get(block).unwrap_or(0);
    effect_for_block(
        block,
        &control_without_operand(opcode, cpu, size, key, &after(r, i.len), d),
    )
}
