// The rows of one operand in storage: stores, multiple loads, bytes under a mask, immediate bytes,
// compare and swap.
// Source: Principles of Operation, chapter on general instructions.
ghost use Rattle.std.specs.Prelude.{◌≡◌, ◌≤◌, true, IsTrue, []};
ghost use Rattle.esa_model.specs.Access.{whole as whole_of};
ghost use Rattle.esa_model.specs.Line.{one as one_of};
ghost use Rattle.esa_model.specs.Rows.Stores.{has_store, store_line, stores_line};
ghost use Rattle.word_rows.specs.Classes.{stores_effect, stores_operands, stores_order};
ghost use Rattle.row_frame.specs.Made.{inputs, IsInRange, Fits, Covers, IsQuiet};

use crate::characters::{compare_masked, insert_character, insert_masked, store_masked};
use crate::lists::{half_bytes, one_byte, word_bytes};
use crate::masks::{masked_count, selected_count};
use crate::multiple::{count_of, load_multiple, store_multiple};
use crate::single_bytes::{
    combine_immediate, compare_immediate, move_immediate, test_and_set, test_mask,
};
use crate::swaps::{pair_swap, pair_swap_operands, swap, swap_operands};
use abs_storage::View;
use esa_model::kinds::StoreKind;
use esa_model::machine::Registers;
use operand_access::{Operands, whole};
use row_frame::{
    Effect, Instruction, after, first_of, general_of, indexed_of, one, second_of, store,
};

/// STORE CHARACTER: the last byte of R1.
fn store_character(r: &Registers, i: &Instruction) -> Effect
    requires { IsInRange i.now.decoded }
    ensures effect { result ≡ (store_line 1).effect (inputs r.now [] i.now) }
    ensures covers { Covers ((store_line 1).operands (inputs r.now [] i.now)) result }
    ensures quiet { IsQuiet result }
{
    let byte = (general_of(r, i.decoded.r1) % 0x100) as u8;
    store(after(r, i.len), one_byte(byte))
}

/// STORE HALFWORD: the right half of R1.
fn store_halfword(r: &Registers, i: &Instruction) -> Effect
    requires { IsInRange i.now.decoded }
    ensures effect { result ≡ (store_line 2).effect (inputs r.now [] i.now) }
    ensures covers { Covers ((store_line 2).operands (inputs r.now [] i.now)) result }
    ensures quiet { IsQuiet result }
{
    let half = (general_of(r, i.decoded.r1) % 0x1_0000) as u16;
    store(after(r, i.len), half_bytes(half))
}

/// STORE: R1.
fn store_word(r: &Registers, i: &Instruction) -> Effect
    requires { IsInRange i.now.decoded }
    ensures effect { result ≡ (store_line 4).effect (inputs r.now [] i.now) }
    ensures covers { Covers ((store_line 4).operands (inputs r.now [] i.now)) result }
    ensures quiet { IsQuiet result }
{
    store(after(r, i.len), word_bytes(general_of(r, i.decoded.r1)))
}

/// Whether the alignment and the register numbers of a row are in order.
#[tactic(auto, unfolding(esa_model::specs::Rows::Stores::stores_line))]
pub fn in_order<V: View>(
    kind: StoreKind,
    opcode: u16,
    r: &Registers,
    view: &V,
    i: &Instruction,
) -> bool
    requires fields { IsInRange i.now.decoded }
    requires known { IsTrue (has_store kind opcode) }
    ensures { result ≡ stores_order kind opcode r.now (V.bytes view.now) i.now }
{
    let d = &i.decoded;
    match kind {
        StoreKind::CompareAndSwap => second_of(r, d) % 4 == 0,
        StoreKind::CompareDoubleAndSwap => d.r1 % 2 == 0
            && (d.r2 % 2 == 0 && second_of(r, d) % 8 == 0),
        StoreKind::Character
        | StoreKind::Halfword
        | StoreKind::Word
        | StoreKind::StoreMultiple
        | StoreKind::LoadMultiple
        | StoreKind::InsertCharacter
        | StoreKind::InsertUnderMask
        | StoreKind::CompareUnderMask
        | StoreKind::StoreUnderMask
        | StoreKind::TestUnderMask
        | StoreKind::MoveImmediate
        | StoreKind::CombineImmediate
        | StoreKind::CompareImmediate
        | StoreKind::TestAndSet => true,
    }
}

/// One operand.
fn operand(at: u32, len: u32, fetch: bool, store: bool) -> Operands
    requires { len ≤ 256 }
    ensures operands { result ≡ one_of (whole_of at len fetch store) }
    ensures fits { Fits result }
{
    one(whole(at, len, fetch, store))
}

/// The operands of a row. The storage is read where an operand is fetched as the data has it.
#[tactic(auto, unfolding(esa_model::specs::Rows::Stores::stores_line))]
pub fn operands<V: View>(
    kind: StoreKind,
    opcode: u16,
    r: &Registers,
    view: &mut V,
    i: &Instruction,
) -> Operands
    requires fields { IsInRange i.now.decoded }
    requires known { IsTrue (has_store kind opcode) }
    requires order { stores_order kind opcode r.now (V.bytes view.old) i.now ≡ true }
    ensures operands { result ≡ stores_operands kind opcode r.now (V.bytes view.old) i.now }
    ensures fits { Fits result }
    ensures same { V.bytes view.new ≡ V.bytes view.old }
{
    let d = &i.decoded;
    match kind {
        StoreKind::Character => operand(indexed_of(r, d), 1, false, true),
        StoreKind::Halfword => operand(indexed_of(r, d), 2, false, true),
        StoreKind::Word => operand(indexed_of(r, d), 4, false, true),
        StoreKind::StoreMultiple => operand(
            second_of(r, d),
            4 * u32::from(count_of(d)),
            false,
            true,
        ),
        StoreKind::LoadMultiple => operand(
            second_of(r, d),
            4 * u32::from(count_of(d)),
            true,
            false,
        ),
        StoreKind::InsertCharacter => operand(indexed_of(r, d), 1, true, false),
        StoreKind::InsertUnderMask | StoreKind::CompareUnderMask => {
            operand(second_of(r, d), masked_count(d.r2), true, false)
        }
        StoreKind::StoreUnderMask => operand(second_of(r, d), selected_count(d.r2), false, true),
        StoreKind::TestUnderMask | StoreKind::CompareImmediate => operand(
            first_of(r, d),
            1,
            true,
            false,
        ),
        StoreKind::MoveImmediate => operand(first_of(r, d), 1, false, true),
        StoreKind::CombineImmediate => operand(first_of(r, d), 1, true, true),
        StoreKind::TestAndSet => operand(second_of(r, d), 1, true, true),
        StoreKind::CompareAndSwap => swap_operands(r, view, i),
        StoreKind::CompareDoubleAndSwap => pair_swap_operands(r, view, i),
    }
}

/// What a row does.
#[tactic(auto, unfolding(esa_model::specs::Rows::Stores::stores_line, esa_model::specs::Rows::Stores::has_store))]
pub fn effect_of<V: View>(
    kind: StoreKind,
    opcode: u16,
    r: &Registers,
    view: &mut V,
    i: &Instruction,
) -> Effect
    requires fields { IsInRange i.now.decoded }
    requires known { IsTrue (has_store kind opcode) }
    requires order { stores_order kind opcode r.now (V.bytes view.old) i.now ≡ true }
    ensures effect { result ≡ stores_effect kind opcode r.now (V.bytes view.old) i.now }
    ensures covers { Covers (stores_operands kind opcode r.now (V.bytes view.old) i.now) result }
    ensures quiet { IsQuiet result }
    ensures same { V.bytes view.new ≡ V.bytes view.old }
{
    match kind {
        StoreKind::Character => store_character(r, i),
        StoreKind::Halfword => store_halfword(r, i),
        StoreKind::Word => store_word(r, i),
        StoreKind::StoreMultiple => store_multiple(r, i),
        StoreKind::LoadMultiple => load_multiple(r, view, i),
        StoreKind::InsertCharacter => insert_character(r, view, i),
        StoreKind::InsertUnderMask => insert_masked(r, view, i),
        StoreKind::CompareUnderMask => compare_masked(r, view, i),
        StoreKind::StoreUnderMask => store_masked(r, i),
        StoreKind::TestUnderMask => test_mask(r, view, i),
        StoreKind::MoveImmediate => move_immediate(r, i),
        StoreKind::CombineImmediate => combine_immediate(opcode, r, view, i),
        StoreKind::CompareImmediate => compare_immediate(r, view, i),
        StoreKind::TestAndSet => test_and_set(r, view, i),
        StoreKind::CompareAndSwap => swap(r, view, i),
        StoreKind::CompareDoubleAndSwap => pair_swap(r, view, i),
    }
}
