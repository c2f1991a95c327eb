//! The rows on bytes in storage, and the units of the long ones: MVN, MVC, MVZ, NC, OC, XC, CLC,
//! TR, TRT, MVCIN, MVCL and CLCL.
//! Source: Principles of Operation, chapter on general instructions.
ghost use Rattle.std.specs.Prelude.{◌≡◌, true, IsTrue};
ghost use Rattle.esa_model.specs.Rows.Bytes.{has_bytes};
ghost use Rattle.byte_rows.specs.Classes.{bytes_effect, bytes_operands, bytes_order};
ghost use Rattle.row_frame.specs.Made.{IsInRange, Fits, Covers, IsQuiet};

use crate::{long, moves, strings, table_tests};
use abs_storage::View;
use esa_model::kinds::ByteKind;
use esa_model::machine::Registers;
use operand_access::Operands;
use row_frame::{Effect, Instruction};

/// Whether the register numbers of a long row are even.
#[tactic(auto, unfolding(esa_model::specs::Rows::Bytes::bytes_line))]
pub fn in_order<V: View>(
    kind: ByteKind,
    opcode: u16,
    r: &Registers,
    view: &V,
    i: &Instruction,
) -> bool
    requires fields { IsInRange i.now.decoded }
    requires known { IsTrue (has_bytes kind opcode) }
    ensures { result ≡ bytes_order kind opcode r.now (V.bytes view.now) i.now }
{
    match kind {
        ByteKind::MoveLong | ByteKind::CompareLong => {
            i.decoded.r1 % 2 == 0 && i.decoded.r2 % 2 == 0
        }
        ByteKind::Move
        | ByteKind::Combine
        | ByteKind::Compare
        | ByteKind::Translate
        | ByteKind::TranslateAndTest
        | ByteKind::MoveInverse => true,
    }
}

/// The operands of a row. Those of TR and TRT depend on bytes of the storage, so that it is read;
/// what it shows stays the same.
#[tactic(auto, unfolding(esa_model::specs::Rows::Bytes::bytes_line))]
pub fn operands<V: View>(
    kind: ByteKind,
    opcode: u16,
    r: &Registers,
    view: &mut V,
    i: &Instruction,
) -> Operands
    requires fields { IsInRange i.now.decoded }
    requires known { IsTrue (has_bytes kind opcode) }
    requires order { bytes_order kind opcode r.now (V.bytes view.old) i.now ≡ true }
    ensures operands { result ≡ bytes_operands kind opcode r.now (V.bytes view.old) i.now }
    ensures fits { Fits result }
    ensures same { V.bytes view.new ≡ V.bytes view.old }
{
    match kind {
        ByteKind::Move => moves::move_operands(false, r, i),
        ByteKind::Combine => moves::move_operands(true, r, i),
        ByteKind::Compare => strings::compare_operands(r, i),
        ByteKind::Translate => moves::translate_operands(r, view, i),
        ByteKind::TranslateAndTest => table_tests::test_operands(r, view, i),
        ByteKind::MoveInverse => strings::inverse_operands(r, i),
        ByteKind::MoveLong => long::move_operands(r, i),
        ByteKind::CompareLong => long::compare_operands(r, i),
    }
}

/// What a row does.
#[tactic(auto, unfolding(esa_model::specs::Rows::Bytes::bytes_line, esa_model::specs::Rows::Bytes::has_bytes))]
pub fn effect_of<V: View>(
    kind: ByteKind,
    opcode: u16,
    r: &Registers,
    view: &mut V,
    i: &Instruction,
) -> Effect
    requires fields { IsInRange i.now.decoded }
    requires known { IsTrue (has_bytes kind opcode) }
    requires order { bytes_order kind opcode r.now (V.bytes view.old) i.now ≡ true }
    ensures effect { result ≡ bytes_effect kind opcode r.now (V.bytes view.old) i.now }
    ensures covers { Covers (bytes_operands kind opcode r.now (V.bytes view.old) i.now) result }
    ensures quiet { IsQuiet result }
    ensures same { V.bytes view.new ≡ V.bytes view.old }
{
    match kind {
        ByteKind::Move | ByteKind::Combine => moves::move_effect(opcode, r, view, i),
        ByteKind::Compare => strings::compare_effect(r, view, i),
        ByteKind::Translate => moves::translate_effect(r, view, i),
        ByteKind::TranslateAndTest => table_tests::test_effect(r, view, i),
        ByteKind::MoveInverse => strings::inverse_effect(r, view, i),
        ByteKind::MoveLong => long::move_effect(r, view, i),
        ByteKind::CompareLong => long::compare_effect(r, view, i),
    }
}
