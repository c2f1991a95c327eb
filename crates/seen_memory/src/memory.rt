// The storage with its caches, and the store buffers of eight CPUs, as one memory.
ghost use Rattle.std.specs.Prelude.{◌≡◌, ◌≤◌, ◌<◌, ◌+◌, ◌*◌, ◌%◌, ℕ, [], ◌∷◌, ◌++◌, length, slice_get, IfOk};
ghost use Rattle.esa_model.specs.Apply.{applied_storage, console_out, stored_all};
ghost use Rattle.esa_model.specs.Changes.{changed_bytes, stretches};
ghost use Rattle.esa_model.specs.Packet.{read};
ghost use Rattle.result_packet.specs.Applied.{keys_left, bus_left, console_left};
ghost use Rattle.result_packet.specs.Pieces.{stores_of};
ghost use Rattle.seen_memory.specs.Seen.{Kept, NoneFrom, Roomy, seen, held_at};

use crate::buffers::{commit_held, snoop_used};
use crate::reading::Reading;
use abs_storage::{AbsStorage, View};
use cached_storage::CachedStorage;
use esa_model::machine::{CpuNo, Registers};
use esa_model::memory::NoMemory;
use result_packet::{Packet, Side, Written};
use run_model::faults::CoreNo;
use std::alloc::Global;
use std::marker::Model;
use store_buffer::{Buffer, Holder};

/// The storage of a machine, as its CPUs see it: through the committed stores of all CPUs, which
/// reach the storage late, and then through the cache of the core. It is lent to one CPU and its core
/// at a time, and holds that CPU's stores until its event is committed.
#[derive(Drop)]
pub struct Memory {
    storage: CachedStorage,
    // one for each CPU; a machine of fewer CPUs leaves the others empty
    buffers: [Buffer; 8],
    // those from this number on were never lent to a CPU, so that a read need not ask them
    used: usize,
    lent_to: usize,
    core: CoreNo,
}

impl Model for Memory {
    ghost use Rattle.std.specs.Prelude.{◌≡◌, ◌≤◌, ◌<◌, length};
    ghost use Rattle.seen_memory.specs.Seen.{Shown, seen, held_at, Kept, NoneFrom, Roomy};

    ghost Value = { Shown };

    ghost view = { λ m. record {
      bytes = seen m.buffers m.storage;
      held = held_at m.buffers m.lent_to;
    } };

    ghost invariant = { λ m. Kept m.buffers m.storage × Roomy m.buffers
        × NoneFrom m.used m.buffers × (m.lent_to < m.used) × (m.used ≤ 8)
        × (m.core.0 < 16) × (length m.buffers ≡ 8) };
}

/// Holds bytes in a buffer.
#[tactic(auto, using(crate::proofs::Holding::hold_kept))]
fn hold_at(buffers: &mut [Buffer], storage: &CachedStorage, i: usize, at: u32, bytes: &[u8])
    requires i { i < length buffers.old }
    requires kept { Kept buffers.old storage.now }
    requires room { Roomy buffers.old }
    requires few { length (held_at buffers.old i) < 4 }
    requires some { 1 ≤ length bytes.now }
    requires most { length bytes.now ≤ 256 }
    requires inside { at + length bytes.now ≤ length storage.now }
    ensures kept { Kept buffers.new storage.now }
    ensures room { Roomy buffers.new }
    ensures seen { seen buffers.new storage.now ≡ seen buffers.old storage.now }
    ensures held { held_at buffers.new i
        ≡ held_at buffers.old i ++ record { at = at; bytes = bytes.now } ∷ [] }
    ensures unused { (n : ℕ) → NoneFrom n buffers.old → NoneFrom n buffers.new }
{
    // its size tells the proof that it has at most 2^24 bytes
    let _ = storage.size();
    buffers[i].hold(at, bytes);
}

/// Drops what a buffer holds.
fn drop_at(buffers: &mut [Buffer], storage: &CachedStorage, i: usize)
    requires i { i < length buffers.old }
    requires kept { Kept buffers.old storage.now }
    requires room { Roomy buffers.old }
    ensures kept { Kept buffers.new storage.now }
    ensures room { Roomy buffers.new }
    ensures seen { seen buffers.new storage.now ≡ seen buffers.old storage.now }
    ensures held { held_at buffers.new i ≡ [] }
    ensures unused { (n : ℕ) → NoneFrom n buffers.old → NoneFrom n buffers.new }
{
    buffers[i].drop_uncommitted();
}

/// The byte that is seen at an absolute address, `None` exactly outside. No cache is looked at.
#[tactic(auto, using(crate::proofs::Through::seen_hit, crate::proofs::Through::seen_miss, crate::proofs::Through::seen_past))]
fn byte_through(storage: &CachedStorage, buffers: &[Buffer], used: usize, at: u32) -> Option<u8>
    requires used { used ≤ length buffers.now }
    requires none { NoneFrom used buffers.now }
    ensures { result ≡ slice_get (seen buffers.now storage.now) at }
{
    if at >= storage.size() {
        return None;
    }
    match snoop_used(buffers, used, at) {
        Some(byte) => Some(byte),
        None => storage.fetch(at),
    }
}

/// The same through the cache of a core, where no buffer has the byte.
#[tactic(auto, using(crate::proofs::Through::seen_hit, crate::proofs::Through::seen_miss, crate::proofs::Through::seen_past))]
fn byte_by(
    storage: &mut CachedStorage,
    buffers: &[Buffer],
    used: usize,
    core: CoreNo,
    at: u32,
) -> Option<u8>
    requires used { used ≤ length buffers.now }
    requires none { NoneFrom used buffers.now }
    requires core { core.0 < 16 }
    ensures byte { result ≡ slice_get (seen buffers.now storage.old) at }
    ensures same { storage.new ≡ storage.old }
{
    if at >= storage.size() {
        return None;
    }
    if let Some(byte) = snoop_used(buffers, used, at) {
        return Some(byte);
    }
    storage.fetch_by(core, at)
}

impl Memory {
    /// The bytes of a storage, with nothing in the buffers and no line in a cache.
    ///
    /// # Errors
    /// `NoMemory` where the caches are not to be had.
    pub fn new(alloc: Global, storage: AbsStorage) -> Result<Memory, NoMemory>
        ensures { IfOk result (λ m. m ≡ record { bytes = storage; held = [] }) }
    {
        Ok(Memory {
            storage: CachedStorage::new(alloc, storage)?,
            buffers: [
                Buffer::new(),
                Buffer::new(),
                Buffer::new(),
                Buffer::new(),
                Buffer::new(),
                Buffer::new(),
                Buffer::new(),
                Buffer::new(),
            ],
            used: 1,
            lent_to: 0,
            core: CoreNo(0),
        })
    }

    /// From now on what is held is held for this CPU, and bytes are fetched through the cache of this
    /// core; nothing is held for the CPU yet.
    pub fn lend_to(&mut self, cpu: CpuNo, core: CoreNo)
        requires cpu { cpu.0 < 8 }
        requires core { core.0 < 16 }
        ensures bytes { self.new.bytes ≡ self.old.bytes }
        ensures held { self.new.held ≡ [] }
    {
        let cpu = cpu.0 as usize;
        self.used = self.used.max(cpu + 1);
        self.lent_to = cpu;
        self.core = core;
        drop_at(&mut self.buffers, &self.storage, cpu);
    }

    /// Empties the cache of the core that the memory is lent to.
    pub fn empty_cache(&mut self)
        ensures { self.new ≡ self.old }
    {
        self.storage.empty(self.core);
    }

    /// How often the cache of a core was filled with a line, up to the greatest number of 64 bits;
    /// 0 of a core above 15.
    pub fn fills(&self, core: CoreNo) -> u64 {
        self.storage.fills(core)
    }

    /// The number of bytes.
    #[tactic(auto, using(crate::proofs::Through::seen_length))]
    pub fn size(&self) -> u32
        ensures size { result ≡ length self.now.bytes }
        ensures pages { result % 4096 ≡ 0 }
        ensures most { result ≤ 4096 * 4096 }
    {
        self.storage.size()
    }

    /// The byte at an absolute address, `None` exactly outside. No cache is filled.
    pub fn read(&self, at: u32) -> Option<u8>
        ensures { result ≡ slice_get self.now.bytes at }
    {
        byte_through(&self.storage, &self.buffers, self.used, at)
    }

    /// Commits what is held: from now on every CPU sees it.
    pub fn commit(&mut self)
        ensures bytes { self.new.bytes ≡ stored_all self.old.held self.old.bytes }
        ensures held { self.new.held ≡ [] }
    {
        commit_held(&mut self.buffers, &mut self.storage, self.lent_to);
    }

    /// Carries out what a packet says for a CPU with these registers. Its stores are held, and are
    /// committed. The clock stays. What the event wrote is put in place of what `written` has.
    #[tactic(auto, using(result_packet::proofs::PiecesStored::stores_applied))]
    pub fn carry_out(
        &mut self,
        side: &mut Side,
        cpu: CpuNo,
        r: &mut Registers,
        packet: &Packet,
        written: &mut Written,
    )
        requires held { self.old.held
            ≡ stores_of r.old.prefix (length self.old.bytes) (read packet.now) }
        ensures registers { r.new ≡ (read packet.now).registers }
        ensures storage { self.new.bytes ≡ applied_storage r.old (read packet.now) self.old.bytes }
        ensures keys { let size = length self.old.bytes in
            side.new.keys ≡ keys_left r.old (read packet.now) size side.old.keys }
        ensures bus { side.new.bus ≡ bus_left cpu.0 (read packet.now) side.old.bus }
        ensures console { side.new.console ≡ console_left (read packet.now) side.old.console }
        ensures clock { side.new.clock ≡ side.old.clock }
        ensures written { written.new.console.items ≡ console_out (read packet.now) }
        ensures changed { written.new.changed.items ≡ changed_bytes self.old.bytes self.new.bytes }
        ensures stretches { length (stretches written.new.changed.items) ≤ 135 }
    {
        // the size tells the proof that the bytes are whole pages
        let _ = self.size();
        let mut reading = Reading { memory: self };
        packet.apply_rest(cpu, r, &mut reading, side, written);
        self.commit();
    }
}

impl View for Memory {
    ghost bytes = { λ m. m.bytes };

    fn size(&self) -> u32 {
        Memory::size(self)
    }

    fn byte(&mut self, at: u32) -> Option<u8> {
        byte_by(&mut self.storage, &self.buffers, self.used, self.core, at)
    }
}

impl Holder for Memory {
    ghost held = { λ m. m.held };

    #[tactic(auto, using(crate::proofs::Through::seen_length))]
    fn hold(&mut self, at: u32, bytes: &[u8]) {
        hold_at(&mut self.buffers, &self.storage, self.lent_to, at, bytes);
    }

    fn drop_held(&mut self) {
        drop_at(&mut self.buffers, &self.storage, self.lent_to);
    }
}
