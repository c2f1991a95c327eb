ghost use Rattle.std.specs.Prelude.{◌≡◌, ◌≤◌, ◌<◌, not, length, slice_get};
ghost use Rattle.std.specs.Option.{unwrap_or};
ghost use Rattle.esa_model.specs.Word.{first_code};
ghost use Rattle.esa_model.specs.Access.{codes, refused as refusal, whole as whole_of};
ghost use Rattle.operand_access.specs.Seen.{memory, permit_in, codes_in, operand_codes_in};
ghost use Rattle.operand_access.specs.Seen.{turn_code, turn_code_in};
ghost use Rattle.operand_access.specs.Seen.{IsInside, IsRefusal, AreInside, AreEven};

use crate::{Operand, Operands, View, place_of, whole};
use esa_model::codes::{ADDRESSING, PROTECTION};
use esa_model::machine::Registers;
use esa_model::words::bits;
use storage_keys::{Keys, allows_access};

/// The key of a block, zero where it has none.
fn key_at(keys: &Keys, block: u32) -> u8
    ensures { result ≡ unwrap_or (slice_get keys.now block) 0 }
{
    if block < keys.len() as u32 {
        keys.get(block as u16).unwrap_or(0)
    } else {
        0
    }
}

/// Whether one byte may be accessed: an addressing exception outside the storage, a protection
/// exception, or 0.
#[tactic(auto, unfolding(crate::specs::Seen::permit_in))]
fn permit_of(r: &Registers, keys: &Keys, size: u32, store: bool, n: u64) -> u8
    ensures { result ≡ permit_in r.now size keys.now store n }
{
    let a = place_of(r, n);
    let is_low = r.psw.wrapped(n) < 512;
    if size <= a {
        ADDRESSING
    } else if store && bits(r.control[0], 3, 3) == 1 && is_low {
        PROTECTION
    } else if allows_access(store, r.psw.key(), key_at(keys, a / 4096)) {
        0
    } else {
        PROTECTION
    }
}

/// The first code over the bytes at some offsets.
fn first_code_of(r: &Registers, keys: &Keys, size: u32, store: bool, at: u32, offsets: &[u8]) -> u8
    ensures { result ≡ first_code (codes_in r.now size keys.now store at offsets.now) }
{
    for k in offsets {
        let code = permit_of(r, keys, size, store, at as u64 + *k as u64);
        if code != 0 {
            return code;
        }
    }
    0
}

/// The first code over the bytes of an operand in a storage of so many bytes.
fn code_within(r: &Registers, keys: &Keys, size: u32, o: &Operand) -> u8
    ensures { result ≡ first_code (operand_codes_in r.now size keys.now o.now) }
{
    first_code_of(r, keys, size, o.store, o.at, o.offsets.as_slice())
}

/// The first program code, addressing outside the storage or protection, over the `len` bytes from
/// an effective address on, in their order, in a storage of `size` bytes; or 0. Source: Principles
/// of Operation, chapter on storage (protection, addressing).
pub fn refused(r: &Registers, keys: &Keys, size: u32, at: u32, len: u16, store: bool) -> u8
    requires some { 0 < len }
    requires most { len ≤ 256 }
    ensures { IsRefusal r.now size keys.now (whole_of at len (not store) store) result }
{
    code_within(r, keys, size, &whole(at, len as u32, !store, store))
}

/// The first code over the bytes of an operand.
pub fn operand_code<V: View>(r: &Registers, keys: &Keys, view: &V, o: &Operand) -> u8
    ensures code { result ≡ first_code (codes r.now (memory (V.bytes view.now) keys.now) o.now) }
    ensures inside { result ≡ 0 → IsInside r.now (length (V.bytes view.now)) o.now }
{
    code_within(r, keys, view.size(), o)
}

/// The first code over the bytes of two operands in turn, in a storage of so many bytes.
#[tactic(auto, using(crate::proofs::Turn::turn_more, crate::proofs::Turn::turn_end, crate::proofs::Turn::turn_first, crate::proofs::Turn::turn_second))]
fn code_in_turn_within(r: &Registers, keys: &Keys, size: u32, a: &Operand, b: &Operand) -> u8
    requires { length a.now.offsets ≡ length b.now.offsets }
    ensures { result ≡ turn_code_in r.now size keys.now a.now b.now }
{
    for k in 0..a.offsets.len() {
        let one = permit_of(r, keys, size, a.store, a.at as u64 + a.offsets[k] as u64);
        if one != 0 {
            return one;
        }
        let other = permit_of(r, keys, size, b.store, b.at as u64 + b.offsets[k] as u64);
        if other != 0 {
            return other;
        }
    }
    0
}

/// The first code over the bytes of two operands in turn.
fn code_in_turn<V: View>(r: &Registers, keys: &Keys, view: &V, a: &Operand, b: &Operand) -> u8
    requires { length a.now.offsets ≡ length b.now.offsets }
    ensures code { result ≡ turn_code r.now (memory (V.bytes view.now) keys.now) a.now b.now }
    ensures first { result ≡ 0 → IsInside r.now (length (V.bytes view.now)) a.now }
    ensures second { result ≡ 0 → IsInside r.now (length (V.bytes view.now)) b.now }
{
    code_in_turn_within(r, keys, view.size(), a, b)
}

/// The first code over the bytes of two operands: those of the first and then those of the second,
/// or in turn where they are paired.
#[tactic(auto, unfolding(esa_model::specs::Access::refused))]
pub fn refused_of<V: View>(r: &Registers, keys: &Keys, view: &V, os: &Operands) -> u8
    requires { AreEven os.now }
    ensures code { result ≡ refusal r.now (memory (V.bytes view.now) keys.now) os.now }
    ensures inside { result ≡ 0 → AreInside r.now (length (V.bytes view.now)) os.now }
{
    if os.paired {
        return code_in_turn(r, keys, view, &os.first, &os.second);
    }
    let first = operand_code(r, keys, view, &os.first);
    if first != 0 {
        first
    } else {
        operand_code(r, keys, view, &os.second)
    }
}
