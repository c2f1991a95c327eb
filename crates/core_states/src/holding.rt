// The stores of a packet are held.
ghost use Rattle.std.specs.Prelude.{◌≡◌, ◌≤◌, ◌<◌, ◌+◌, [], ◌∷◌, ◌++◌, length};
ghost use Rattle.esa_model.specs.Packet.{read};
ghost use Rattle.result_packet.specs.Pieces.{stores_of, Holdable};

use abs_storage::View;
use result_packet::{Packet, Piece};
use store_buffer::Holder;

// One piece more.
fn hold_piece<V: Holder>(view: &mut V, piece: &Piece)
    requires few { length (V.held view.old) < 4 }
    requires some { 1 ≤ length piece.now.bytes }
    requires most { length piece.now.bytes ≤ 256 }
    requires inside { piece.now.at + length piece.now.bytes ≤ length (V.bytes view.old) }
    ensures held { V.held view.new ≡ V.held view.old ++ piece.now ∷ [] }
    ensures same { V.bytes view.new ≡ V.bytes view.old }
{
    view.hold(piece.at, piece.bytes.as_slice());
}

// Pieces where none is held.
fn hold_all<V: Holder>(view: &mut V, pieces: &[Piece])
    requires none { V.held view.old ≡ [] }
    requires few { length pieces.now ≤ 4 }
    requires holdable { Holdable (length (V.bytes view.old)) pieces.now }
    ensures held { V.held view.new ≡ pieces.now }
    ensures same { V.bytes view.new ≡ V.bytes view.old }
{
    for piece in pieces {
        hold_piece(view, piece);
    }
}

/// Drops what is held, and then holds the pieces that a packet stores, of a CPU with this prefix.
pub(crate) fn hold_stores<V: Holder>(view: &mut V, prefix: u32, packet: &Packet)
    ensures held { V.held view.new
        ≡ stores_of prefix (length (V.bytes view.old)) (read packet.now) }
    ensures same { V.bytes view.new ≡ V.bytes view.old }
{
    view.drop_held();
    let pieces = packet.stores(prefix, view.size());
    hold_all(view, pieces.as_slice());
}
