// The rows that store byte by byte from the left, each byte made of the storage as the bytes before
// it left it: MVN, MVC, MVZ, NC, OC and XC, and TR.
// Source: Principles of Operation, chapter on general instructions.
ghost use Rattle.std.specs.Prelude.{◌≡◌, ◌≤◌, ◌<◌, ◌+◌, ◌^◌, [], true, IsTrue, length};
ghost use Rattle.esa_model.specs.Access.{byte, written};
ghost use Rattle.esa_model.specs.Moves.{is_move};
ghost use Rattle.esa_model.specs.Rows.Bytes.{move_line, moved, moved_byte, translate_line, translated, used_of};
ghost use Rattle.row_frame.specs.Made.{inputs, IsInRange, Fits, Covers, IsQuiet};

use crate::registers::stored;
use abs_storage::View;
use arrayvec::ArrayVec;
use esa_model::machine::Registers;
use general_move::{code_of, combine};
use operand_access::{Operand, Operands, byte_after, byte_at, whole};
use row_frame::{Effect, Instruction, after, after_coded, bytes_of, first_of, second_of, two};

/// The byte that place `n` gets after these bytes were stored.
fn byte_moved<V: View>(
    op: u8,
    r: &Registers,
    view: &mut V,
    to: u32,
    from: u32,
    n: u32,
    before: &[u8],
) -> u8
    requires row { IsTrue (is_move op) }
    requires to { to < 2 ^ 31 }
    requires few { length before.now ≤ 256 }
    ensures byte { result ≡ moved_byte op r.now to from n (written r.now to before.now (V.bytes view.old)) }
    ensures same { V.bytes view.new ≡ V.bytes view.old }
{
    let a = byte_after(r, view, to, before, u64::from(to) + u64::from(n));
    let b = byte_after(r, view, to, before, u64::from(from) + u64::from(n));
    combine(op, a, b)
}

/// The bytes that a move stores.
#[tactic(auto, using(crate::proofs::Moved::moved_more, crate::proofs::Moved::moved_none))]
fn bytes_moved<V: View>(
    op: u8,
    r: &Registers,
    view: &mut V,
    to: u32,
    from: u32,
    len: u32,
) -> ArrayVec<u8, 256>
    requires row { IsTrue (is_move op) }
    requires to { to < 2 ^ 31 }
    requires few { len ≤ 256 }
    ensures bytes { result.items ≡ moved op r.now (V.bytes view.old) to from len }
    ensures len { length result.items ≡ len }
    ensures same { V.bytes view.new ≡ V.bytes view.old }
{
    let mut out = ArrayVec::new();
    for k in 0..len {
        let byte = byte_moved(op, r, view, to, from, k, out.as_slice());
        out.push(byte);
    }
    out
}

/// The operands of a move; the first is fetched or not.
pub(crate) fn move_operands(fetch: bool, r: &Registers, i: &Instruction) -> Operands
    requires fields { IsInRange i.now.decoded }
    ensures operands { result ≡ (move_line 0 fetch).operands (inputs r.now [] i.now) }
    ensures fits { Fits result }
{
    let d = &i.decoded;
    let len = u32::from(d.len) + 1;
    two(
        whole(first_of(r, d), len, fetch, true),
        whole(second_of(r, d), len, true, false),
    )
}

/// What a move does.
#[tactic(auto, using(crate::proofs::Codes::move_byte))]
pub(crate) fn move_effect<V: View>(op: u16, r: &Registers, view: &mut V, i: &Instruction) -> Effect
    requires fields { IsInRange i.now.decoded }
    requires known { IsTrue (is_move op) }
    ensures effect { result ≡ (move_line op true).effect (inputs r.now (V.bytes view.old) i.now) }
    ensures covers { Covers ((move_line op true).operands (inputs r.now [] i.now)) result }
    ensures quiet { IsQuiet result }
    ensures same { V.bytes view.new ≡ V.bytes view.old }
{
    let d = &i.decoded;
    let (to, from) = (first_of(r, d), second_of(r, d));
    let out = bytes_moved(op as u8, r, view, to, from, u32::from(d.len) + 1);
    let code = code_of(op as u8, out.as_slice());
    stored(after_coded(r, i.len, code), out)
}

/// The byte of the table that place `n` gets after these bytes were stored.
fn byte_translated<V: View>(
    r: &Registers,
    view: &mut V,
    to: u32,
    table: u32,
    argument: u8,
    before: &[u8],
) -> u8
    requires to { to < 2 ^ 31 }
    requires few { length before.now ≤ 256 }
    ensures byte { result ≡ byte r.now (written r.now to before.now (V.bytes view.old)) (table + argument) }
    ensures same { V.bytes view.new ≡ V.bytes view.old }
{
    byte_after(r, view, to, before, u64::from(table) + u64::from(argument))
}

/// The bytes that TR stores.
#[tactic(auto, using(crate::proofs::Moved::translated_more, crate::proofs::Moved::translated_none))]
fn bytes_translated<V: View>(
    r: &Registers,
    view: &mut V,
    to: u32,
    table: u32,
    len: u32,
) -> ArrayVec<u8, 256>
    requires to { to < 2 ^ 31 }
    requires few { len ≤ 256 }
    ensures bytes { result.items ≡ translated r.now (V.bytes view.old) to table len }
    ensures len { length result.items ≡ len }
    ensures same { V.bytes view.new ≡ V.bytes view.old }
{
    let mut out = ArrayVec::new();
    for k in 0..len {
        let argument = byte_at(r, view, u64::from(to) + u64::from(k));
        let byte = byte_translated(r, view, to, table, argument, out.as_slice());
        out.push(byte);
    }
    out
}

/// The bytes of a table that arguments name.
pub(crate) fn used_at(at: u32, offsets: ArrayVec<u8, 256>) -> Operand
    ensures { result ≡ used_of at offsets.items }
{
    Operand {
        at,
        offsets,
        fetch: true,
        store: false,
    }
}

/// The operands of TR.
pub(crate) fn translate_operands<V: View>(r: &Registers, view: &mut V, i: &Instruction) -> Operands
    requires fields { IsInRange i.now.decoded }
    ensures operands { result ≡ translate_line.operands (inputs r.now (V.bytes view.old) i.now) }
    ensures fits { Fits result }
    ensures same { V.bytes view.new ≡ V.bytes view.old }
{
    let d = &i.decoded;
    let len = u32::from(d.len) + 1;
    let arguments = bytes_of(r, view, first_of(r, d), len);
    two(
        whole(first_of(r, d), len, true, true),
        used_at(second_of(r, d), arguments),
    )
}

/// What TR does.
pub(crate) fn translate_effect<V: View>(r: &Registers, view: &mut V, i: &Instruction) -> Effect
    requires fields { IsInRange i.now.decoded }
    ensures effect { result ≡ translate_line.effect (inputs r.now (V.bytes view.old) i.now) }
    ensures covers { Covers (translate_line.operands (inputs r.now (V.bytes view.old) i.now)) result }
    ensures quiet { IsQuiet result }
    ensures same { V.bytes view.new ≡ V.bytes view.old }
{
    let d = &i.decoded;
    let (to, table) = (first_of(r, d), second_of(r, d));
    let out = bytes_translated(r, view, to, table, u32::from(d.len) + 1);
    stored(after(r, i.len), out)
}
