// Applying a packet to a storage: all but the storing, and then the pieces.
ghost use Rattle.std.specs.Prelude.{◌≡◌, ◌≤◌, ◌+◌, ◌^◌, length};
ghost use Rattle.esa_model.specs.Packet.{read};
ghost use Rattle.esa_model.specs.Apply.{put_all, stored_all, applied_storage, console_out};
ghost use Rattle.esa_model.specs.Changes.{changed_bytes, stretches};
ghost use Rattle.result_packet.specs.Applied.{keys_left, bus_left, console_left};
ghost use Rattle.result_packet.specs.Pieces.{Holdable};

use crate::{Packet, Piece, Side, Written};
use abs_storage::AbsStorage;
use esa_model::machine::{CpuNo, Registers};

fn store_bytes(storage: &mut AbsStorage, at: u32, bytes: &[u8])
    requires inside { at + length bytes.now ≤ length storage.old }
    requires small { at + length bytes.now ≤ 2 ^ 24 }
    ensures storage { storage.new ≡ put_all at bytes.now storage.old }
    ensures size { length storage.new ≡ length storage.old }
{
    for k in 0..bytes.len() {
        let _ = storage.store(at + k as u32, bytes[k]);
    }
}

/// Stores a piece that lies inside.
fn store_piece(storage: &mut AbsStorage, p: &Piece)
    requires { p.now.at + length p.now.bytes ≤ length storage.old }
    ensures storage { storage.new ≡ put_all p.now.at p.now.bytes storage.old }
    ensures size { length storage.new ≡ length storage.old }
{
    if p.at as u64 + p.bytes.len() as u64 <= storage.size() as u64 {
        store_bytes(storage, p.at, p.bytes.as_slice());
    }
}

/// Stores pieces in their order.
fn store_all(storage: &mut AbsStorage, pieces: &[Piece])
    requires { Holdable (length storage.old) pieces.now }
    ensures { storage.new ≡ stored_all pieces.now storage.old }
{
    for p in pieces {
        store_piece(storage, p);
    }
}

impl Packet {
    /// Carries out what the packet says for a CPU: reference bits; the pieces with reference and
    /// change; old PSW and identification with reference and change of the block of real address
    /// 0; the key; the request; the order to another CPU; the console; the registers. What lies
    /// outside its range is ignored. The clock stays.
    #[tactic(auto, using(crate::proofs::PiecesStored::stores_applied))]
    pub fn apply(
        &self,
        cpu: CpuNo,
        r: &mut Registers,
        storage: &mut AbsStorage,
        side: &mut Side,
    ) -> Written
        ensures registers { r.new ≡ (read self.now).registers }
        ensures storage { storage.new ≡ applied_storage r.old (read self.now) storage.old }
        ensures keys { let size = length storage.old in
            side.new.keys ≡ keys_left r.old (read self.now) size side.old.keys }
        ensures bus { side.new.bus ≡ bus_left cpu.0 (read self.now) side.old.bus }
        ensures console { side.new.console ≡ console_left (read self.now) side.old.console }
        ensures clock { side.new.clock ≡ side.old.clock }
        ensures written { result.console.items ≡ console_out (read self.now) }
        ensures changed { result.changed.items ≡ changed_bytes storage.old storage.new }
        ensures stretches { length (stretches result.changed.items) ≤ 135 }
    {
        let pieces = self.stores(r.prefix, storage.size());
        let mut written = Written::new();
        self.apply_rest(cpu, r, storage, side, &mut written);
        store_all(storage, pieces.as_slice());
        written
    }
}
