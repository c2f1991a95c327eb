// Numbers in bytes, each with its most significant byte first. A call that takes a number or a
// list of numbers also says that they have their width.
ghost use Rattle.std.specs.Prelude.{◌≡◌, ◌≤◌, ◌<◌, ◌+◌, ◌*◌, ◌^◌, All, length};
ghost use Rattle.byteorder.specs.Endian.{big_bytes};
ghost use Rattle.esa_model.specs.Packet.{put, numbers};

use byteorder::{BigEndian, ByteOrder};

/// Puts bytes at a place.
#[tactic(auto, unfolding(esa_model::specs::Packet::put))]
pub fn put_slice(out: &mut [u8], at: usize, bytes: &[u8])
    requires { at + length bytes.now ≤ length out.old }
    ensures { out.new ≡ put at bytes.now out.old }
{
    out[at..at + bytes.len()].copy_from_slice(bytes);
}

#[tactic(auto, unfolding(esa_model::specs::Packet::put))]
pub fn put16(out: &mut [u8], at: usize, value: u16)
    requires { at + 2 ≤ length out.old }
    ensures bytes { out.new ≡ put at (big_bytes 2 value) out.old }
    ensures fits { value < 2 ^ 16 }
{
    BigEndian::write_u16(&mut out[at..at + 2], value);
}

#[tactic(auto, unfolding(esa_model::specs::Packet::put))]
pub fn put32(out: &mut [u8], at: usize, value: u32)
    requires { at + 4 ≤ length out.old }
    ensures bytes { out.new ≡ put at (big_bytes 4 value) out.old }
    ensures fits { value < 2 ^ 32 }
{
    BigEndian::write_u32(&mut out[at..at + 4], value);
}

#[tactic(auto, unfolding(esa_model::specs::Packet::put))]
pub fn put64(out: &mut [u8], at: usize, value: u64)
    requires { at + 8 ≤ length out.old }
    ensures bytes { out.new ≡ put at (big_bytes 8 value) out.old }
    ensures fits { value < 2 ^ 64 }
{
    BigEndian::write_u64(&mut out[at..at + 8], value);
}

/// Puts halfwords one after another.
pub fn put_halves(out: &mut [u8], at: usize, values: &[u16])
    requires { at + 2 * length values.now ≤ length out.old }
    ensures bytes { out.new ≡ put at (numbers 2 values.now) out.old }
    ensures fit { All (λ h. h < 2 ^ 16) values.now }
{
    for k in 0..values.len() {
        put16(out, at + 2 * k, values[k]);
    }
}

/// Puts words one after another.
pub fn put_words(out: &mut [u8], at: usize, values: &[u32])
    requires { at + 4 * length values.now ≤ length out.old }
    ensures bytes { out.new ≡ put at (numbers 4 values.now) out.old }
    ensures fit { All (λ w. w < 2 ^ 32) values.now }
{
    for k in 0..values.len() {
        put32(out, at + 4 * k, values[k]);
    }
}

/// Puts doublewords one after another.
pub fn put_doublewords(out: &mut [u8], at: usize, values: &[u64])
    requires { at + 8 * length values.now ≤ length out.old }
    ensures bytes { out.new ≡ put at (numbers 8 values.now) out.old }
    ensures fit { All (λ d. d < 2 ^ 64) values.now }
{
    for k in 0..values.len() {
        put64(out, at + 8 * k, values[k]);
    }
}
