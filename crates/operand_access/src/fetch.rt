ghost use Rattle.std.specs.Prelude.{◌≡◌, ◌≤◌, ◌<◌, ◌==◌, if◌then◌else◌, length, true, false};
ghost use Rattle.esa_model.specs.Word.{first_code};
ghost use Rattle.esa_model.specs.Access.{codes, byte, whole as whole_of};
ghost use Rattle.esa_model.specs.Table.{length_of};
ghost use Rattle.esa_model.specs.Unit.{start_code, fetch_len, fetch_code, fetched};
ghost use Rattle.operand_access.specs.Seen.{memory};
ghost use Rattle.operand_access.specs.Fetch.{length_known, known_bytes, counted_len, AreThere};
ghost use Rattle.operand_access.specs.Fetch.{front as front_of};

use crate::{View, byte_at, gather, operand_code, whole};
use esa_model::codes::SPECIFICATION;
use esa_model::machine::Registers;
use storage_keys::Keys;

/// An instruction as far as it was fetched: its bytes, zeros in place of those that were not; its
/// length in bytes by the first halfword, or 0 where that was refused; and the program code, or 0.
#[derive(Clone, Copy, Debug, PartialEq, Eq)]
pub struct Fetched {
    pub bytes: [u8; 6],
    pub len: u8,
    pub fault: u8,
}

/// The length of an instruction by its first byte.
fn length_by(first: u8) -> u8
    ensures len { result ≡ length_of first }
    ensures short { result ≤ 6 }
    ensures some { 0 < result }
{
    if first < 64 {
        2
    } else if first < 192 {
        4
    } else {
        6
    }
}

/// Why the first halfword is refused, or 0.
#[tactic(auto, unfolding(esa_model::specs::Unit::start_code))]
fn start_code_of<V: View>(r: &Registers, keys: &Keys, view: &V, at: u32) -> u8
    ensures { result ≡ start_code r.now (memory (V.bytes view.now) keys.now) at }
{
    if at % 2 == 1 {
        SPECIFICATION
    } else {
        operand_code(r, keys, view, &whole(at, 2, true, false))
    }
}

/// The length of an instruction whose first halfword is not refused.
#[tactic(auto, unfolding(esa_model::specs::Unit::fetch_len))]
fn fetch_len_of<V: View>(r: &Registers, keys: &Keys, view: &mut V, at: u32) -> u8
    requires { start_code r.now (memory (V.bytes view.old) keys.now) at ≡ 0 }
    ensures len { result ≡ fetch_len r.now (memory (V.bytes view.old) keys.now) at }
    ensures short { result ≤ 6 }
    ensures some { 0 < result }
    ensures same { V.bytes view.new ≡ V.bytes view.old }
{
    length_by(byte_at(r, view, at as u64))
}

/// Why an instruction whose first halfword is not refused is refused, or 0.
#[tactic(auto, unfolding(esa_model::specs::Unit::fetch_code))]
fn fetch_code_of<V: View>(r: &Registers, keys: &Keys, view: &V, at: u32, len: u8) -> u8
    requires start { start_code r.now (memory (V.bytes view.now) keys.now) at ≡ 0 }
    requires len { len ≡ fetch_len r.now (memory (V.bytes view.now) keys.now) at }
    requires short { len ≤ 6 }
    ensures code { result ≡ fetch_code r.now (memory (V.bytes view.now) keys.now) at }
    ensures inside { result ≡ 0 → AreThere r.now (V.bytes view.now) at len }
{
    operand_code(r, keys, view, &whole(at, len as u32, true, false))
}

/// So many bytes from an address on, and zeros.
#[tactic(auto, unfolding(crate::specs::Fetch::front))]
fn front<V: View>(r: &Registers, view: &mut V, at: u32, count: u8) -> [u8; 6]
    requires { count ≤ 6 }
    ensures bytes { result ≡ front_of r.now (V.bytes view.old) at count }
    ensures same { V.bytes view.new ≡ V.bytes view.old }
{
    let mut bytes = [0; 6];
    gather(r, view, at, &mut bytes[..count as usize]);
    bytes
}

/// How many bytes of an instruction are fetched.
fn count_of(fault: u8, len: u8) -> u8
    ensures count { result ≡ (if fault == 0 then len else 2) }
    ensures short { len ≤ 6 → result ≤ 6 }
{
    if fault == 0 { len } else { 2 }
}

/// The instruction at an effective address, fetched: an odd address is a specification exception, a
/// byte outside the storage an addressing and one that is protected a protection exception, first
/// of the first halfword and then of the rest. Source: Principles of Operation, chapter on program
/// execution.
#[tactic(auto, unfolding(esa_model::specs::Unit::fetch_code, esa_model::specs::Unit::fetch_len, esa_model::specs::Unit::fetched, crate::specs::Fetch::front, crate::specs::Fetch::length_known, crate::specs::Fetch::fetched_count))]
pub fn instruction<V: View>(r: &Registers, keys: &Keys, view: &mut V, at: u32) -> Fetched
    ensures fault { result.fault ≡ fetch_code r.now (memory (V.bytes view.old) keys.now) at }
    ensures len { result.len ≡ length_known r.now (memory (V.bytes view.old) keys.now) at }
    ensures bytes { result.bytes ≡ known_bytes r.now (memory (V.bytes view.old) keys.now) at }
    ensures short { result.len ≤ 6 }
    ensures inside { result.fault ≡ 0 → AreThere r.now (V.bytes view.old) at result.len }
    ensures refused { counted_len result.len
        ≡ fetch_len r.now (memory (V.bytes view.old) keys.now) at }
    ensures whole { result.fault ≡ 0
        → result.bytes ≡ fetched r.now (memory (V.bytes view.old) keys.now) at }
    ensures known { result.fault ≡ 0
        → result.len ≡ fetch_len r.now (memory (V.bytes view.old) keys.now) at }
    ensures same { V.bytes view.new ≡ V.bytes view.old }
{
    let start = start_code_of(r, keys, view, at);
    if start != 0 {
        return Fetched {
            bytes: front(r, view, at, 0),
            len: 0,
            fault: start,
        };
    }
    let len = fetch_len_of(r, keys, view, at);
    let fault = fetch_code_of(r, keys, view, at, len);
    let bytes = front(r, view, at, count_of(fault, len));
    Fetched { bytes, len, fault }
}
