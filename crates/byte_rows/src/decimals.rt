//! The decimal rows and the conversions: MVO, PACK, UNPK, ZAP, CP, AP, SP, MP, DP, ED, EDMK, SRP,
//! CVB and CVD.
//! Source: Principles of Operation, chapter on decimal instructions.
ghost use Rattle.std.specs.Prelude.{◌≡◌, true, IsTrue};
ghost use Rattle.esa_model.specs.Rows.Decimals.{has_decimal};
ghost use Rattle.byte_rows.specs.Classes.{decimals_effect, decimals_operands, decimals_order};
ghost use Rattle.row_frame.specs.Made.{IsInRange, Fits, Covers, IsQuiet};

use crate::conversions::{binary_effect, binary_operands, decimal_effect, decimal_operands};
use crate::edits::{edit_effect, edit_operands};
use crate::fields::{field_effect, field_operands, shift_effect, shift_operands};
use abs_storage::View;
use esa_model::kinds::DecimalKind;
use esa_model::machine::Registers;
use operand_access::Operands;
use row_frame::{Effect, Instruction};

/// Whether the length codes are in order: those of MP and DP are tested.
#[tactic(auto, unfolding(esa_model::specs::Rows::Decimals::decimals_line))]
pub fn in_order<V: View>(
    kind: DecimalKind,
    opcode: u16,
    r: &Registers,
    view: &V,
    i: &Instruction,
) -> bool
    requires fields { IsInRange i.now.decoded }
    requires known { IsTrue (has_decimal kind opcode) }
    ensures { result ≡ decimals_order kind opcode r.now (V.bytes view.now) i.now }
{
    match kind {
        DecimalKind::Products => i.decoded.r2 <= 7 && i.decoded.r2 < i.decoded.r1,
        DecimalKind::Fields
        | DecimalKind::Replaced
        | DecimalKind::Compared
        | DecimalKind::Shifted
        | DecimalKind::Edited
        | DecimalKind::EditedAndMarked
        | DecimalKind::ToBinary
        | DecimalKind::ToDecimal => true,
    }
}

/// The operands of a row. Of the source of an edit only the bytes that are used are an operand, so
/// that the storage is read; what it shows stays the same.
#[tactic(auto, unfolding(esa_model::specs::Rows::Decimals::decimals_line))]
pub fn operands<V: View>(
    kind: DecimalKind,
    opcode: u16,
    r: &Registers,
    view: &mut V,
    i: &Instruction,
) -> Operands
    requires fields { IsInRange i.now.decoded }
    requires known { IsTrue (has_decimal kind opcode) }
    requires order { decimals_order kind opcode r.now (V.bytes view.old) i.now ≡ true }
    ensures operands { result ≡ decimals_operands kind opcode r.now (V.bytes view.old) i.now }
    ensures fits { Fits result }
    ensures same { V.bytes view.new ≡ V.bytes view.old }
{
    match kind {
        DecimalKind::Fields | DecimalKind::Products => field_operands(true, true, r, i),
        DecimalKind::Replaced => field_operands(false, true, r, i),
        DecimalKind::Compared => field_operands(true, false, r, i),
        DecimalKind::Shifted => shift_operands(r, i),
        DecimalKind::Edited => edit_operands(false, r, view, i),
        DecimalKind::EditedAndMarked => edit_operands(true, r, view, i),
        DecimalKind::ToBinary => binary_operands(r, i),
        DecimalKind::ToDecimal => decimal_operands(r, i),
    }
}

/// What a row does.
#[tactic(auto, unfolding(esa_model::specs::Rows::Decimals::decimals_line, esa_model::specs::Rows::Decimals::has_decimal))]
pub fn effect_of<V: View>(
    kind: DecimalKind,
    opcode: u16,
    r: &Registers,
    view: &mut V,
    i: &Instruction,
) -> Effect
    requires fields { IsInRange i.now.decoded }
    requires known { IsTrue (has_decimal kind opcode) }
    requires order { decimals_order kind opcode r.now (V.bytes view.old) i.now ≡ true }
    ensures effect { result ≡ decimals_effect kind opcode r.now (V.bytes view.old) i.now }
    ensures covers { Covers (decimals_operands kind opcode r.now (V.bytes view.old) i.now) result }
    ensures quiet { IsQuiet result }
    ensures same { V.bytes view.new ≡ V.bytes view.old }
{
    match kind {
        DecimalKind::Fields | DecimalKind::Products => field_effect(opcode, true, r, view, i),
        DecimalKind::Replaced => field_effect(opcode, true, r, view, i),
        DecimalKind::Compared => field_effect(opcode, false, r, view, i),
        DecimalKind::Shifted => shift_effect(r, view, i),
        DecimalKind::Edited => edit_effect(false, r, view, i),
        DecimalKind::EditedAndMarked => edit_effect(true, r, view, i),
        DecimalKind::ToBinary => binary_effect(r, view, i),
        DecimalKind::ToDecimal => decimal_effect(r, i),
    }
}
