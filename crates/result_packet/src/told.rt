// Parts of what a packet tells.
ghost use Rattle.std.specs.Prelude.{◌≡◌, take, drop};
ghost use Rattle.esa_model.specs.Packet.{read};
ghost use Rattle.esa_model.specs.PacketCodes.{interruption_of as numbered_interruption};
ghost use Rattle.esa_model.specs.Apply.{first_bytes, second_bytes};

use crate::Packet;
use crate::codes::interruption_of;
use esa_model::events::Interruption;

/// The first bytes, at most all.
fn front(bytes: &[u8], len: usize) -> &[u8]
    ensures front { result.now ≡ take len bytes.now }
{
    if len < bytes.len() {
        &bytes[..len]
    } else {
        bytes
    }
}

/// The bytes after the first ones.
fn rest(bytes: &[u8], len: usize) -> &[u8]
    ensures rest { result.now ≡ drop len bytes.now }
{
    if len < bytes.len() {
        &bytes[len..]
    } else {
        &bytes[bytes.len()..]
    }
}

/// The bytes of the first piece.
#[tactic(auto, unfolding(esa_model::specs::Packet::read))]
pub fn first_of(p: &Packet) -> &[u8]
    ensures bytes { result.now ≡ first_bytes (read p.now) }
{
    front(p.tail(), p.piece_len(0) as usize)
}

/// The bytes of the second piece.
#[tactic(auto, unfolding(esa_model::specs::Packet::read))]
pub fn second_of(p: &Packet) -> &[u8]
    ensures bytes { result.now ≡ second_bytes (read p.now) }
{
    front(
        rest(p.tail(), p.piece_len(0) as usize),
        p.piece_len(1) as usize,
    )
}

/// The interruption.
#[tactic(auto, unfolding(esa_model::specs::Packet::read))]
pub fn interruption_in(p: &Packet) -> Option<Interruption>
    ensures { result ≡ numbered_interruption (read p.now).kind }
{
    interruption_of(p.kind())
}
