ghost use Rattle.std.specs.Prelude.{◌≡◌, ◌≤◌, ◌<◌, ◌+◌, ◌^◌, length, if◌then◌else◌};
ghost use Rattle.esa_model.specs.Access.{byte, bytes, written};
ghost use Rattle.operand_access.specs.Seen.{IsLeft};

use crate::{View, place_of};
use esa_model::machine::Registers;

/// The byte at an effective address, zero outside the storage.
#[tactic(auto, unfolding(esa_model::specs::Access::byte))]
pub fn byte_at<V: View>(r: &Registers, view: &mut V, n: u64) -> u8
    ensures byte { result ≡ byte r.now (V.bytes view.old) n }
    ensures same { V.bytes view.new ≡ V.bytes view.old }
{
    view.byte(place_of(r, n)).unwrap_or(0)
}

/// Fills a slice with the bytes from an effective address on, each address wrapped by itself; a
/// byte outside the storage is 0.
#[tactic(auto, unfolding(esa_model::specs::Access::bytes))]
pub fn gather<V: View>(r: &Registers, view: &mut V, at: u32, into: &mut [u8])
    requires { length into.old ≤ 256 }
    ensures bytes { into.new ≡ bytes r.now (V.bytes view.old) at (length into.old) }
    ensures same { V.bytes view.new ≡ V.bytes view.old }
{
    for k in 0..into.len() {
        into[k] = byte_at(r, view, at as u64 + k as u64);
    }
}

/// What an absolute address holds after stores, from what it held before.
pub fn overlaid(r: &Registers, at: u32, bytes: &[u8], a: u32, before: u8) -> u8
    requires { at + length bytes.now < 2 ^ 33 }
    ensures { IsLeft r.now at bytes.now a before result }
{
    let mut byte = before;
    for k in 0..bytes.len() {
        byte = chosen(place_of(r, at as u64 + k as u64) == a, bytes[k], byte);
    }
    byte
}

fn chosen(is_new: bool, new: u8, old: u8) -> u8
    ensures { result ≡ (if is_new then new else old) }
{
    if is_new { new } else { old }
}

/// The byte at an effective address as stores of successive bytes from `at` on leave it.
#[tactic(auto, using(crate::proofs::Over::outside_over, crate::proofs::Over::inside_over), unfolding(esa_model::specs::Access::byte))]
pub fn byte_after<V: View>(r: &Registers, view: &mut V, at: u32, bytes: &[u8], n: u64) -> u8
    requires { at + length bytes.now < 2 ^ 33 }
    ensures byte { result ≡ byte r.now (written r.now at bytes.now (V.bytes view.old)) n }
    ensures same { V.bytes view.new ≡ V.bytes view.old }
{
    let a = place_of(r, n);
    match view.byte(a) {
        None => 0,
        Some(before) => overlaid(r, at, bytes, a, before),
    }
}
