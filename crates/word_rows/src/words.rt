// The rows that put a value of words into a register or a pair.
// Source: Principles of Operation, chapter on general instructions.
ghost use Rattle.std.specs.Prelude.{◌≡◌, ◌+◌, ◌%◌, ◌<◌, true, IsTrue, []};
ghost use Rattle.esa_model.specs.WordRows.{is_half, is_rr, is_shift};
ghost use Rattle.esa_model.specs.Rows.Words.{by_address, by_halves_at, by_immediates, by_pair_shifts, by_pairs, by_pairs_at, by_shifts, by_words, by_words_at, has_words, immediate_row, places, word_row, words_line};
ghost use Rattle.word_rows.specs.Classes.{words_effect, words_operands, words_order};
ghost use Rattle.row_frame.specs.Made.{inputs, IsInRange, IsPlain, Fits, Covers, IsQuiet};

use crate::values::{half_value, plain_value, rr_value, shift_value};
use abs_storage::View;
use esa_model::kinds::WordKind;
use esa_model::machine::Registers;
use operand_access::{Operands, whole};
use row_frame::{
    Effect, Instruction, general_of, half_of, indexed_of, no_operands, one, pair_value, second_of,
    value, word_of,
};

// ---- a row of each kind

/// The opcode by which the values of words have a row on two registers: MSR has that of MS.
fn opcode_of_words(opcode: u16) -> u16
    ensures { result ≡ word_row opcode }
{
    if opcode == 0xB252 { 0x71 } else { opcode }
}

/// The opcode by which they have a row on an immediate halfword: that of the row on a halfword of
/// the storage, and X'A0' and X'A1' for TMH and TML.
fn opcode_of_halves(opcode: u16) -> u16
    ensures { result ≡ immediate_row opcode }
{
    match opcode {
        0xA70 => 0xA0,
        0xA71 => 0xA1,
        0xA78 => 0x48,
        0xA7A => 0x4A,
        0xA7C => 0x4C,
        _ => 0x49,
    }
}

/// A row on two registers.
fn on_registers(opcode: u16, r: &Registers, i: &Instruction) -> Effect
    requires fields { IsInRange i.now.decoded }
    requires known { IsTrue (is_rr (word_row opcode)) }
    ensures effect { result ≡ (by_words opcode).effect (inputs r.now [] i.now) }
    ensures plain { IsPlain result }
    ensures quiet { IsQuiet result }
{
    let d = &i.decoded;
    let op = opcode_of_words(opcode);
    let v = rr_value(op, general_of(r, d.r1), 0, general_of(r, d.r2));
    value(r, d, i.len, &v)
}

/// A row on a pair and a register.
fn on_pairs(opcode: u16, r: &Registers, i: &Instruction) -> Effect
    requires fields { IsInRange i.now.decoded }
    requires known { IsTrue (is_rr opcode) }
    requires even { i.now.decoded.r1 + 1 < 16 }
    ensures effect { result ≡ (by_pairs opcode).effect (inputs r.now [] i.now) }
    ensures plain { IsPlain result }
    ensures quiet { IsQuiet result }
{
    let d = &i.decoded;
    let low = general_of(r, d.r1 + 1);
    let v = rr_value(opcode, general_of(r, d.r1), low, general_of(r, d.r2));
    pair_value(r, d, i.len, &v)
}

/// A row on a register and a word of the storage.
fn on_storage<V: View>(opcode: u16, r: &Registers, view: &mut V, i: &Instruction) -> Effect
    requires fields { IsInRange i.now.decoded }
    requires known { IsTrue (is_rr opcode) }
    ensures effect { result ≡ (by_words_at opcode).effect (inputs r.now (V.bytes view.old) i.now) }
    ensures plain { IsPlain result }
    ensures quiet { IsQuiet result }
    ensures same { V.bytes view.new ≡ V.bytes view.old }
{
    let d = &i.decoded;
    let word = word_of(r, view, indexed_of(r, d));
    let v = rr_value(opcode, general_of(r, d.r1), 0, word);
    value(r, d, i.len, &v)
}

/// A row on a pair and a word of the storage.
fn on_pair_storage<V: View>(opcode: u16, r: &Registers, view: &mut V, i: &Instruction) -> Effect
    requires fields { IsInRange i.now.decoded }
    requires known { IsTrue (is_rr opcode) }
    requires even { i.now.decoded.r1 + 1 < 16 }
    ensures effect { result ≡ (by_pairs_at opcode).effect (inputs r.now (V.bytes view.old) i.now) }
    ensures plain { IsPlain result }
    ensures quiet { IsQuiet result }
    ensures same { V.bytes view.new ≡ V.bytes view.old }
{
    let d = &i.decoded;
    let word = word_of(r, view, indexed_of(r, d));
    let low = general_of(r, d.r1 + 1);
    let v = rr_value(opcode, general_of(r, d.r1), low, word);
    pair_value(r, d, i.len, &v)
}

/// A row on a register and a halfword of the storage.
fn on_halfwords<V: View>(opcode: u16, r: &Registers, view: &mut V, i: &Instruction) -> Effect
    requires fields { IsInRange i.now.decoded }
    requires known { IsTrue (is_half opcode) }
    ensures effect { result ≡ (by_halves_at opcode).effect (inputs r.now (V.bytes view.old) i.now) }
    ensures plain { IsPlain result }
    ensures quiet { IsQuiet result }
    ensures same { V.bytes view.new ≡ V.bytes view.old }
{
    let d = &i.decoded;
    let half = half_of(r, view, indexed_of(r, d));
    let v = half_value(opcode, general_of(r, d.r1), half);
    value(r, d, i.len, &v)
}

/// A row on a register and an immediate halfword.
fn on_immediates(opcode: u16, r: &Registers, i: &Instruction) -> Effect
    requires fields { IsInRange i.now.decoded }
    requires known { IsTrue (is_half (immediate_row opcode)) }
    ensures effect { result ≡ (by_immediates opcode).effect (inputs r.now [] i.now) }
    ensures plain { IsPlain result }
    ensures quiet { IsQuiet result }
{
    let d = &i.decoded;
    let v = half_value(opcode_of_halves(opcode), general_of(r, d.r1), d.imm);
    value(r, d, i.len, &v)
}

/// The number of places of a shift: the low six bits of the second address.
fn places_of(r: &Registers, i: &Instruction) -> u8
    requires { IsInRange i.now.decoded }
    ensures places { result ≡ places (inputs r.now [] i.now) }
    ensures few { result < 64 }
{
    (second_of(r, &i.decoded) % 64) as u8
}

/// A shift of a word.
fn shift_word(opcode: u16, r: &Registers, i: &Instruction) -> Effect
    requires fields { IsInRange i.now.decoded }
    requires known { IsTrue (is_shift opcode) }
    ensures effect { result ≡ (by_shifts opcode).effect (inputs r.now [] i.now) }
    ensures plain { IsPlain result }
    ensures quiet { IsQuiet result }
{
    let d = &i.decoded;
    let v = shift_value(opcode, general_of(r, d.r1), 0, places_of(r, i));
    value(r, d, i.len, &v)
}

/// A shift of a pair.
fn shift_pair(opcode: u16, r: &Registers, i: &Instruction) -> Effect
    requires fields { IsInRange i.now.decoded }
    requires known { IsTrue (is_shift opcode) }
    requires even { i.now.decoded.r1 + 1 < 16 }
    ensures effect { result ≡ (by_pair_shifts opcode).effect (inputs r.now [] i.now) }
    ensures plain { IsPlain result }
    ensures quiet { IsQuiet result }
{
    let d = &i.decoded;
    let low = general_of(r, d.r1 + 1);
    let v = shift_value(opcode, general_of(r, d.r1), low, places_of(r, i));
    pair_value(r, d, i.len, &v)
}

/// LOAD ADDRESS.
fn load_address(r: &Registers, i: &Instruction) -> Effect
    requires fields { IsInRange i.now.decoded }
    ensures effect { result ≡ by_address.effect (inputs r.now [] i.now) }
    ensures plain { IsPlain result }
    ensures quiet { IsQuiet result }
{
    let d = &i.decoded;
    value(r, d, i.len, &plain_value(indexed_of(r, d)))
}

// ---- the class

/// Whether the register numbers of a row are in order.
#[tactic(auto, unfolding(esa_model::specs::Rows::Words::words_line))]
pub fn in_order<V: View>(
    kind: WordKind,
    opcode: u16,
    r: &Registers,
    view: &V,
    i: &Instruction,
) -> bool
    requires fields { IsInRange i.now.decoded }
    requires known { IsTrue (has_words kind opcode) }
    ensures { result ≡ words_order kind opcode r.now (V.bytes view.now) i.now }
{
    match kind {
        WordKind::Pairs | WordKind::PairStorage | WordKind::PairShifts => i.decoded.r1 % 2 == 0,
        WordKind::Registers
        | WordKind::Storage
        | WordKind::Halfwords
        | WordKind::Immediates
        | WordKind::Shifts
        | WordKind::Address => true,
    }
}

/// The operands of a row.
#[tactic(auto, unfolding(esa_model::specs::Rows::Words::words_line))]
pub fn operands<V: View>(
    kind: WordKind,
    opcode: u16,
    r: &Registers,
    view: &V,
    i: &Instruction,
) -> Operands
    requires fields { IsInRange i.now.decoded }
    requires known { IsTrue (has_words kind opcode) }
    requires order { words_order kind opcode r.now (V.bytes view.now) i.now ≡ true }
    ensures operands { result ≡ words_operands kind opcode r.now (V.bytes view.now) i.now }
    ensures fits { Fits result }
{
    let at = indexed_of(r, &i.decoded);
    match kind {
        WordKind::Storage | WordKind::PairStorage => one(whole(at, 4, true, false)),
        WordKind::Halfwords => one(whole(at, 2, true, false)),
        WordKind::Registers
        | WordKind::Pairs
        | WordKind::Immediates
        | WordKind::Shifts
        | WordKind::PairShifts
        | WordKind::Address => no_operands(),
    }
}

/// What a row does.
#[tactic(auto, unfolding(esa_model::specs::Rows::Words::words_line, esa_model::specs::Rows::Words::has_words))]
pub fn effect_of<V: View>(
    kind: WordKind,
    opcode: u16,
    r: &Registers,
    view: &mut V,
    i: &Instruction,
) -> Effect
    requires fields { IsInRange i.now.decoded }
    requires known { IsTrue (has_words kind opcode) }
    requires order { words_order kind opcode r.now (V.bytes view.old) i.now ≡ true }
    ensures effect { result ≡ words_effect kind opcode r.now (V.bytes view.old) i.now }
    ensures covers { Covers (words_operands kind opcode r.now (V.bytes view.old) i.now) result }
    ensures quiet { IsQuiet result }
    ensures same { V.bytes view.new ≡ V.bytes view.old }
{
    match kind {
        WordKind::Registers => on_registers(opcode, r, i),
        WordKind::Pairs => on_pairs(opcode, r, i),
        WordKind::Storage => on_storage(opcode, r, view, i),
        WordKind::PairStorage => on_pair_storage(opcode, r, view, i),
        WordKind::Halfwords => on_halfwords(opcode, r, view, i),
        WordKind::Immediates => on_immediates(opcode, r, i),
        WordKind::Shifts => shift_word(opcode, r, i),
        WordKind::PairShifts => shift_pair(opcode, r, i),
        WordKind::Address => load_address(r, i),
    }
}
