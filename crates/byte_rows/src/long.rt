// The units of MVCL and CLCL.
// Source: Principles of Operation, chapter on general instructions.
ghost use Rattle.std.specs.Prelude.{◌≡◌, ◌≤◌, ◌<◌, ◌+◌, ◌^◌, ◌++◌, IfSome, [], length, min, replicate};
ghost use Rattle.esa_model.specs.LongMoves.{compare_row, move_row};
ghost use Rattle.esa_model.specs.Rows.Bytes.{compare_long_line as compare_line, compare_long_registers, ended_by, first_len, long_of, move_long_line as move_line, move_long_registers, second_len};
ghost use Rattle.esa_model.specs.Psw.{wrapped};
ghost use Rattle.esa_model.specs.Line.{general};
ghost use Rattle.byte_rows.specs.Classes.{passed};
ghost use Rattle.row_frame.specs.Made.{inputs, IsInRange, IsPlain, Fits, Covers, IsQuiet};

use crate::registers::stored;
use abs_storage::View;
use arrayvec::ArrayVec;
use esa_model::instructions::Decoded;
use esa_model::machine::Registers;
use general_move::{CompareUnit, LongOperands, MoveUnit, compare_unit, move_unit};
use operand_access::{Operands, whole};
use row_frame::{Effect, Instruction, after_coded, bytes_of, general_of, leave, two};

/// What the registers of a long operation say.
#[tactic(auto, unfolding(esa_model::specs::LongMoves::long_operands))]
fn operands_of(r: &Registers, i: &Instruction) -> LongOperands
    requires first { i.now.decoded.r1 + 1 < 16 }
    requires second { i.now.decoded.r2 + 1 < 16 }
    ensures { result ≡ long_of (inputs r.now [] i.now) }
{
    let d = &i.decoded;
    let last = r.general[usize::from(d.r2) + 1];
    LongOperands {
        to: r.general[usize::from(d.r1)],
        to_len: r.general[usize::from(d.r1) + 1] % 0x100_0000,
        from: r.general[usize::from(d.r2)],
        from_len: last % 0x100_0000,
        pad: (last / 0x100_0000) as u8,
        wide: r.psw.is_wide(),
    }
}

/// The address in a register.
fn address_in(r: &Registers, n: u8) -> u32
    requires { n < 16 }
    ensures address { result ≡ wrapped r.now.psw (general r.now n) }
    ensures small { result < 2 ^ 31 }
{
    r.psw.wrapped(u64::from(general_of(r, n)))
}

/// The registers after a unit that takes so many bytes of both operands.
#[tactic(auto, using(crate::proofs::Units::wraps_by_mode), unfolding(esa_model::specs::LongMoves::after_unit))]
fn registers_after(r: &Registers, d: &Decoded, first: u32, second: u32) -> Registers
    requires first_pair { d.now.r1 + 1 < 16 }
    requires second_pair { d.now.r2 + 1 < 16 }
    ensures { result ≡ passed r.now d.now first second }
{
    let to = usize::from(d.r1);
    let from = usize::from(d.r2);
    let mut out = *r;
    out.general[to] = r.psw.wrapped(u64::from(r.general[to]) + u64::from(first));
    out.general[to + 1] = r.general[to + 1].saturating_sub(first);
    out.general[from] = r
        .psw
        .wrapped(u64::from(r.general[from]) + u64::from(second));
    out.general[from + 1] = r.general[from + 1].saturating_sub(second);
    out
}

/// The registers, after the last unit with its condition code and the address of the next
/// instruction.
fn end_by(r: &Registers, len: u8, code: Option<u8>) -> Registers
    requires { IfSome code (λ x. x < 5) }
    ensures { result ≡ ended_by r.now len code }
{
    match code {
        Some(code) => after_coded(r, len, code),
        None => *r,
    }
}

/// One unit of MVCL.
fn unit_moved(m: &LongOperands) -> MoveUnit
    ensures unit { result ≡ move_row m.now }
    ensures few { result.copied + result.padded ≤ 256 }
    ensures code { IfSome result.cc (λ x. x < 5) }
{
    move_unit(m)
}

/// One unit of CLCL.
fn unit_compared(first: &[u8], second: &[u8], c: &LongOperands) -> CompareUnit
    requires first { min 256 c.now.to_len ≤ length first.now }
    requires second { min 256 c.now.from_len ≤ length second.now }
    ensures unit { result ≡ compare_row first.now second.now c.now }
    ensures code { IfSome result.cc (λ x. x < 5) }
{
    compare_unit(first, second, c)
}

/// Bytes, and then so many pad bytes.
fn padded(bytes: ArrayVec<u8, 256>, count: u32, pad: u8) -> ArrayVec<u8, 256>
    requires { length bytes.items + count ≤ 256 }
    ensures bytes { result.items ≡ bytes.items ++ replicate count pad }
    ensures len { length result.items ≡ length bytes.items + count }
{
    let mut list = bytes;
    for k in 0..count {
        list.push(pad);
    }
    list
}

/// The operands of MVCL.
pub(crate) fn move_operands(r: &Registers, i: &Instruction) -> Operands
    requires first { i.now.decoded.r1 + 1 < 16 }
    requires second { i.now.decoded.r2 + 1 < 16 }
    ensures operands { result ≡ move_line.operands (inputs r.now [] i.now) }
    ensures fits { Fits result }
{
    let d = &i.decoded;
    let u = unit_moved(&operands_of(r, i));
    let copied = u32::from(u.copied);
    let len = copied + u32::from(u.padded);
    two(
        whole(address_in(r, d.r1), len, false, true),
        whole(address_in(r, d.r2), copied, true, false),
    )
}

/// The registers after a unit of MVCL.
fn registers_moved(r: &Registers, i: &Instruction, u: &MoveUnit) -> Registers
    requires first { i.now.decoded.r1 + 1 < 16 }
    requires second { i.now.decoded.r2 + 1 < 16 }
    requires few { u.now.copied + u.now.padded ≤ 256 }
    requires code { IfSome u.now.cc (λ x. x < 5) }
    ensures { result ≡ move_long_registers (inputs r.now [] i.now) u.now }
{
    if u.destructive {
        return end_by(r, i.len, u.cc);
    }
    let copied = u32::from(u.copied);
    let moved = registers_after(r, &i.decoded, copied + u32::from(u.padded), copied);
    end_by(&moved, i.len, u.cc)
}

/// What MVCL does.
pub(crate) fn move_effect<V: View>(r: &Registers, view: &mut V, i: &Instruction) -> Effect
    requires first { i.now.decoded.r1 + 1 < 16 }
    requires second { i.now.decoded.r2 + 1 < 16 }
    ensures effect { result ≡ move_line.effect (inputs r.now (V.bytes view.old) i.now) }
    ensures covers { Covers (move_line.operands (inputs r.now [] i.now)) result }
    ensures quiet { IsQuiet result }
    ensures same { V.bytes view.new ≡ V.bytes view.old }
{
    let m = operands_of(r, i);
    let u = unit_moved(&m);
    let from = address_in(r, i.decoded.r2);
    let copied = bytes_of(r, view, from, u32::from(u.copied));
    let out = padded(copied, u32::from(u.padded), m.pad);
    stored(registers_moved(r, i, &u), out)
}

/// How many bytes of the first operand a unit of CLCL takes.
fn first_len_of(c: &LongOperands) -> u32
    ensures len { result ≡ first_len c.now }
    ensures few { result ≤ 256 }
    ensures enough { min 256 c.now.to_len ≤ result }
{
    256.min(c.to_len.max(c.from_len)).min(c.to_len)
}

/// How many bytes of the second operand a unit of CLCL takes.
fn second_len_of(c: &LongOperands) -> u32
    ensures len { result ≡ second_len c.now }
    ensures few { result ≤ 256 }
    ensures enough { min 256 c.now.from_len ≤ result }
{
    256.min(c.to_len.max(c.from_len)).min(c.from_len)
}

/// The operands of CLCL.
pub(crate) fn compare_operands(r: &Registers, i: &Instruction) -> Operands
    requires first { i.now.decoded.r1 + 1 < 16 }
    requires second { i.now.decoded.r2 + 1 < 16 }
    ensures operands { result ≡ compare_line.operands (inputs r.now [] i.now) }
    ensures fits { Fits result }
{
    let d = &i.decoded;
    let c = operands_of(r, i);
    two(
        whole(address_in(r, d.r1), first_len_of(&c), true, false),
        whole(address_in(r, d.r2), second_len_of(&c), true, false),
    )
}

/// The registers after a unit of CLCL.
fn registers_compared(
    r: &Registers,
    i: &Instruction,
    c: &LongOperands,
    u: &CompareUnit,
) -> Registers
    requires first { i.now.decoded.r1 + 1 < 16 }
    requires second { i.now.decoded.r2 + 1 < 16 }
    requires code { IfSome u.now.cc (λ x. x < 5) }
    requires operands { c.now ≡ long_of (inputs r.now [] i.now) }
    ensures { result ≡ compare_long_registers (inputs r.now [] i.now) u.now }
{
    let equal = u32::from(u.equal);
    let passed = registers_after(r, &i.decoded, equal.min(c.to_len), equal.min(c.from_len));
    end_by(&passed, i.len, u.cc)
}

/// What CLCL does.
pub(crate) fn compare_effect<V: View>(r: &Registers, view: &mut V, i: &Instruction) -> Effect
    requires first { i.now.decoded.r1 + 1 < 16 }
    requires second { i.now.decoded.r2 + 1 < 16 }
    ensures effect { result ≡ compare_line.effect (inputs r.now (V.bytes view.old) i.now) }
    ensures plain { IsPlain result }
    ensures quiet { IsQuiet result }
    ensures same { V.bytes view.new ≡ V.bytes view.old }
{
    let d = &i.decoded;
    let c = operands_of(r, i);
    let first = bytes_of(r, view, address_in(r, d.r1), first_len_of(&c));
    let second = bytes_of(r, view, address_in(r, d.r2), second_len_of(&c));
    let u = unit_compared(first.as_slice(), second.as_slice(), &c);
    leave(registers_compared(r, i, &c, &u))
}
