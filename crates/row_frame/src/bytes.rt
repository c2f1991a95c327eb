// Bytes and words of the storage.
ghost use Rattle.std.specs.Prelude.{◌≡◌, ◌≤◌, length};
ghost use Rattle.esa_model.specs.Access.{bytes};
ghost use Rattle.esa_model.specs.Line.{word_at, half_at};

use abs_storage::View;
use arrayvec::ArrayVec;
use byteorder::{BigEndian, ByteOrder};
use esa_model::machine::Registers;
use operand_access::gather;

/// The bytes as a list.
pub fn listed(bytes: &[u8]) -> ArrayVec<u8, 256>
    requires { length bytes.now ≤ 256 }
    ensures { result.items ≡ bytes.now }
{
    let mut list = ArrayVec::new();
    let _ = list.try_extend_from_slice(bytes);
    list
}

/// Bytes of the storage from an effective address on, as a list.
pub fn bytes_of<V: View>(r: &Registers, view: &mut V, at: u32, len: u32) -> ArrayVec<u8, 256>
    requires { len ≤ 256 }
    ensures bytes { result.items ≡ bytes r.now (V.bytes view.old) at len }
    ensures len { length result.items ≡ len }
    ensures same { V.bytes view.new ≡ V.bytes view.old }
{
    let mut area = [0; 256];
    let part = &mut area[..len as usize];
    gather(r, view, at, part);
    listed(part)
}

/// The word at an effective address.
#[tactic(auto, unfolding(esa_model::specs::Line::word_at))]
pub fn word_of<V: View>(r: &Registers, view: &mut V, at: u32) -> u32
    ensures word { result ≡ word_at r.now (V.bytes view.old) at }
    ensures same { V.bytes view.new ≡ V.bytes view.old }
{
    let mut bytes = [0; 4];
    gather(r, view, at, &mut bytes);
    BigEndian::read_u32(&bytes)
}

/// The halfword at an effective address.
#[tactic(auto, unfolding(esa_model::specs::Line::half_at))]
pub fn half_of<V: View>(r: &Registers, view: &mut V, at: u32) -> u16
    ensures half { result ≡ half_at r.now (V.bytes view.old) at }
    ensures same { V.bytes view.new ≡ V.bytes view.old }
{
    let mut bytes = [0; 2];
    gather(r, view, at, &mut bytes);
    BigEndian::read_u16(&bytes)
}
