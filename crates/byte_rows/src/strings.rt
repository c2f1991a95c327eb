// CLC and MVCIN.
// Source: Principles of Operation, chapter on general instructions.
ghost use Rattle.std.specs.Prelude.{◌≡◌, ◌≤◌, ◌<◌, [], length};
ghost use Rattle.esa_model.specs.Access.{bytes as bytes_at};
ghost use Rattle.esa_model.specs.Moves.{inverted};
ghost use Rattle.esa_model.specs.Rows.Bytes.{compare_line, leftmost, move_inverse_line as inverse_line};
ghost use Rattle.row_frame.specs.Made.{inputs, IsInRange, IsPlain, Fits, Covers, IsQuiet};

use crate::registers::stored;
use abs_storage::View;
use arrayvec::ArrayVec;
use esa_model::machine::Registers;
use general_move::compare_bytes;
use operand_access::{Operands, gather, whole};
use row_frame::{
    Effect, Instruction, after, after_coded, bytes_of, first_of, leave, listed, second_of, two,
};

/// The operands of CLC.
pub(crate) fn compare_operands(r: &Registers, i: &Instruction) -> Operands
    requires fields { IsInRange i.now.decoded }
    ensures operands { result ≡ compare_line.operands (inputs r.now [] i.now) }
    ensures fits { Fits result }
{
    let d = &i.decoded;
    let len = u32::from(d.len) + 1;
    two(
        whole(first_of(r, d), len, true, false),
        whole(second_of(r, d), len, true, false),
    )
}

/// What CLC does.
#[tactic(auto, using(crate::proofs::Codes::order_of_bytes_small))]
pub(crate) fn compare_effect<V: View>(r: &Registers, view: &mut V, i: &Instruction) -> Effect
    requires fields { IsInRange i.now.decoded }
    ensures effect { result ≡ compare_line.effect (inputs r.now (V.bytes view.old) i.now) }
    ensures plain { IsPlain result }
    ensures quiet { IsQuiet result }
    ensures same { V.bytes view.new ≡ V.bytes view.old }
{
    let d = &i.decoded;
    let len = u32::from(d.len) + 1;
    let first = bytes_of(r, view, first_of(r, d), len);
    let second = bytes_of(r, view, second_of(r, d), len);
    let code = compare_bytes(first.as_slice(), second.as_slice());
    leave(after_coded(r, i.len, code))
}

/// The address of the leftmost byte, from that of the rightmost.
fn leftmost_of(r: &Registers, i: &Instruction) -> u32
    requires { IsInRange i.now.decoded }
    ensures { result ≡ leftmost (inputs r.now [] i.now) }
{
    let d = &i.decoded;
    r.psw.wrapped(u64::from(second_of(r, d)) + 0x8000_0000 - u64::from(d.len))
}

/// The operands of MVCIN.
pub(crate) fn inverse_operands(r: &Registers, i: &Instruction) -> Operands
    requires fields { IsInRange i.now.decoded }
    ensures operands { result ≡ inverse_line.operands (inputs r.now [] i.now) }
    ensures fits { Fits result }
{
    let d = &i.decoded;
    let len = u32::from(d.len) + 1;
    two(
        whole(first_of(r, d), len, false, true),
        whole(leftmost_of(r, i), len, true, false),
    )
}

/// Bytes of the storage in inverse order.
fn inverted_of<V: View>(r: &Registers, view: &mut V, at: u32, len: u32) -> ArrayVec<u8, 256>
    requires { len ≤ 256 }
    ensures bytes { result.items ≡ inverted (bytes_at r.now (V.bytes view.old) at len) }
    ensures len { length result.items ≡ len }
    ensures same { V.bytes view.new ≡ V.bytes view.old }
{
    let mut area = [0; 256];
    let part = &mut area[..len as usize];
    gather(r, view, at, part);
    part.reverse();
    listed(part)
}

/// What MVCIN does.
pub(crate) fn inverse_effect<V: View>(r: &Registers, view: &mut V, i: &Instruction) -> Effect
    requires fields { IsInRange i.now.decoded }
    ensures effect { result ≡ inverse_line.effect (inputs r.now (V.bytes view.old) i.now) }
    ensures covers { Covers (inverse_line.operands (inputs r.now [] i.now)) result }
    ensures quiet { IsQuiet result }
    ensures same { V.bytes view.new ≡ V.bytes view.old }
{
    let len = u32::from(i.decoded.len) + 1;
    let out = inverted_of(r, view, leftmost_of(r, i), len);
    stored(after(r, i.len), out)
}
