//! The comparison of the packets of two units.
#![tactic(auto)]

ghost use Rattle.std.specs.Prelude.{◌≡◌, ◌↔◌, IsTrue};

use result_packet::Packet;

/// Whether two packets agree in each of their 512 bytes.
pub fn agree(a: &Packet, b: &Packet) -> bool
    ensures { IsTrue result ↔ (a.now ≡ b.now) }
{
    a.as_bytes() == b.as_bytes()
}

#[cfg(test)]
mod tests;
