ghost use Rattle.std.specs.Prelude.{◌≡◌};
ghost use Rattle.esa_model.specs.Packet.{packet_of, read};
ghost use Rattle.packet_law.specs.Fine.{IsFine};

use crate::reads_back;
use result_packet::{Fields, Packet, packed};

/// The packet that tells these fields: it reads as them, whatever they are.
pub fn told(f: &Fields) -> Packet
    ensures packet { result ≡ packet_of f.now }
    ensures fields { read result ≡ f.now }
    ensures fine { IsFine f.now }
{
    reads_back();
    packed(f)
}
