// TRANSLATE AND TEST, whose operands are used byte and byte in turn.
// Source: Principles of Operation, chapter on general instructions.
ghost use Rattle.std.specs.Prelude.{◌≡◌, ◌≤◌, ◌<◌, IfSome, true, length, take};
ghost use Rattle.esa_model.specs.Moves.{hit_code, hit_of};
ghost use Rattle.esa_model.specs.Rows.Bytes.{hit, hit_registers, size, translate_and_test_line as test_line, used_by};
ghost use Rattle.row_frame.specs.Made.{inputs, IsInRange, IsPlain, Fits, IsQuiet};

use crate::moves::used_at;
use crate::registers::address_marked;
use abs_storage::View;
use arrayvec::ArrayVec;
use esa_model::machine::Registers;
use general_move::{Hit, translate_test};
use operand_access::{Operand, Operands, gather, whole};
use row_frame::{
    Effect, Instruction, after, bytes_of, first_of, leave, listed, second_of, with_code,
};

/// The first byte whose function byte is not zero.
fn tested(first: &[u8], functions: &[u8; 256]) -> Option<Hit>
    requires some { 1 ≤ length first.now }
    requires few { length first.now ≤ 256 }
    ensures hit { result ≡ hit_of first.now functions.now }
    ensures within { IfSome result (λ h. h.at < length first.now) }
{
    translate_test(first, functions)
}

/// How many of `len` bytes are used.
fn used_until(len: u32, hit: Option<Hit>) -> u32
    requires few { len ≤ 256 }
    requires within { IfSome hit (λ h. h.at < len) }
    ensures used { result ≡ used_by len hit }
    ensures few { result ≤ len }
{
    match hit {
        Some(h) => u32::from(h.at) + 1,
        None => len,
    }
}

/// The condition code.
fn code_of(len: u32, hit: Option<Hit>) -> u8
    requires few { len ≤ 256 }
    ensures code { result ≡ hit_code len hit }
    ensures small { result < 5 }
{
    match hit {
        Some(h) => { if u32::from(h.at) + 1 == len { 2 } else { 1 } }
        None => 0,
    }
}

/// The hit of the operands.
fn find_hit<V: View>(r: &Registers, view: &mut V, i: &Instruction) -> Option<Hit>
    requires { IsInRange i.now.decoded }
    ensures hit { result ≡ hit (inputs r.now (V.bytes view.old) i.now) }
    ensures within { IfSome result (λ h. h.at < size (inputs r.now (V.bytes view.old) i.now)) }
    ensures same { V.bytes view.new ≡ V.bytes view.old }
{
    let d = &i.decoded;
    let first = bytes_of(r, view, first_of(r, d), u32::from(d.len) + 1);
    let mut functions = [0; 256];
    gather(r, view, second_of(r, d), &mut functions);
    tested(first.as_slice(), &functions)
}

/// The first bytes of a list.
fn front_of(bytes: &[u8], n: u32) -> ArrayVec<u8, 256>
    requires few { length bytes.now ≤ 256 }
    requires within { n ≤ length bytes.now }
    ensures bytes { result.items ≡ take n bytes.now }
    ensures len { length result.items ≡ n }
{
    listed(&bytes[..n as usize])
}

/// Two operands used byte and byte in turn.
fn paired(first: Operand, second: Operand) -> Operands
    ensures { result ≡ record { first = first; second = second; paired = true } }
{
    Operands {
        first,
        second,
        paired: true,
    }
}

/// The operands of TRT.
pub(crate) fn test_operands<V: View>(r: &Registers, view: &mut V, i: &Instruction) -> Operands
    requires fields { IsInRange i.now.decoded }
    ensures operands { result ≡ test_line.operands (inputs r.now (V.bytes view.old) i.now) }
    ensures fits { Fits result }
    ensures same { V.bytes view.new ≡ V.bytes view.old }
{
    let d = &i.decoded;
    let len = u32::from(d.len) + 1;
    let used = used_until(len, find_hit(r, view, i));
    let first = bytes_of(r, view, first_of(r, d), len);
    paired(
        whole(first_of(r, d), used, true, false),
        used_at(second_of(r, d), front_of(first.as_slice(), used)),
    )
}

/// The registers with the hit in registers 1 and 2.
fn with_hit(r: &Registers, at: u32, hit: Option<Hit>) -> Registers
    ensures { result ≡ hit_registers r.now at hit }
{
    let mut out = *r;
    if let Some(h) = hit {
        out.general[1] = address_marked(r, u64::from(at) + u64::from(h.at));
        out.general[2] = r.general[2] / 256 * 256 + u32::from(h.function);
    }
    out
}

/// What TRT does.
pub(crate) fn test_effect<V: View>(r: &Registers, view: &mut V, i: &Instruction) -> Effect
    requires fields { IsInRange i.now.decoded }
    ensures effect { result ≡ test_line.effect (inputs r.now (V.bytes view.old) i.now) }
    ensures plain { IsPlain result }
    ensures quiet { IsQuiet result }
    ensures same { V.bytes view.new ≡ V.bytes view.old }
{
    let d = &i.decoded;
    let hit = find_hit(r, view, i);
    let registers = with_hit(&after(r, i.len), first_of(r, d), hit);
    leave(with_code(registers, code_of(u32::from(d.len) + 1, hit)))
}
