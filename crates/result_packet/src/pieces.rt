// The pieces that a packet stores.
ghost use Rattle.std.specs.Prelude.{◌≡◌, ◌≤◌, ◌<◌, ◌+◌, length};
ghost use Rattle.esa_model.specs.Packet.{read};
ghost use Rattle.result_packet.specs.Pieces.{added, stores_of, with_swap, Holdable};

use crate::Packet;
use crate::swap_bytes::{identification_bytes, old_psw_bytes};
use crate::told::{first_of, interruption_in, second_of};
use abs_storage::absolute;
use arrayvec::ArrayVec;
use esa_model::events::Interruption;
use psw_interrupts::places_of;
use std::marker::Model;

/// At most 256 bytes to be stored from an absolute address on.
#[derive(Default, Drop)]
pub struct Piece {
    pub at: u32,
    pub bytes: ArrayVec<u8, 256>,
}

impl Model for Piece {
    ghost use Rattle.esa_model.specs.Apply.{Piece as Stored};

    ghost Value = { Stored };

    ghost view = { λ p. record { at = p.at; bytes = p.bytes.items } };
}

/// Adds a piece that has a byte and is wholly inside a storage of so many bytes.
#[tactic(auto, using(crate::proofs::PiecesStored::holdable_added))]
fn add_piece(list: &mut ArrayVec<Piece, 4>, size: u32, at: u32, bytes: &[u8])
    requires room { length list.old.items < 4 }
    requires most { length bytes.now ≤ 256 }
    requires holdable { Holdable size list.old.items }
    ensures items { list.new.items ≡ added size at bytes.now list.old.items }
    ensures room { length list.new.items ≤ length list.old.items + 1 }
    ensures holdable { Holdable size list.new.items }
{
    if at as u64 + bytes.len() as u64 <= size as u64 && bytes.len() != 0 {
        let mut copy = ArrayVec::new();
        let _ = copy.try_extend_from_slice(bytes);
        list.push(Piece { at, bytes: copy });
    }
}

impl Packet {
    /// The pieces to store in a storage of so many bytes, in their order: the two of the operand,
    /// the old PSW and the identification of an interruption. The prefix is that before the
    /// event. A piece without a byte, and one that is not wholly inside, is left out.
    #[tactic(auto, unfolding(crate::specs::Pieces::stores_of, esa_model::specs::Packet::read))]
    pub fn stores(&self, prefix: u32, size: u32) -> ArrayVec<Piece, 4>
        ensures pieces { result.items ≡ stores_of prefix size (read self.now) }
        ensures few { length result.items ≤ 4 }
        ensures holdable { Holdable size result.items }
    {
        let mut list = ArrayVec::new();
        add_piece(&mut list, size, self.piece_at(0), first_of(self));
        add_piece(&mut list, size, self.piece_at(1), second_of(self));
        if let Some(kind) = interruption_in(self) {
            let places = places_of(kind);
            let old = old_psw_bytes(self.old_psw());
            let old_at = absolute(prefix, places.old_at as u32);
            add_piece(&mut list, size, old_at, old.as_slice());
            let own = identification_bytes(kind, self.identification());
            let own_at = absolute(prefix, places.identification as u32);
            add_piece(&mut list, size, own_at, own.as_slice());
        }
        list
    }
}
