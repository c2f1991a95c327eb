// The buffers of all CPUs over one storage: what is committed reaches it late.
ghost use Rattle.std.specs.Prelude.{◌≡◌, ◌≢◌, ◌≤◌, ◌<◌, ◌+◌, ◌↔◌, ℕ, List, [], ◌++◌, drop, length};
ghost use Rattle.std.specs.Prelude.{slice_get, slice_set, Some, IsTrue};
ghost use Rattle.esa_model.specs.Apply.{stored_all};
ghost use Rattle.store_buffer.specs.Waiting.{Waiting, clash};
ghost use Rattle.seen_memory.specs.Seen.{seen, committed_at, held_at, first_snooped, Kept, NoneFrom, Roomy};
ghost use Rattle.seen_memory.specs.Draining.{Drained, Settled};

use cached_storage::CachedStorage;
use store_buffer::Buffer;

/// Drains the oldest committed entry of a buffer; `false` exactly where there is none.
fn drain_one(buffers: &mut [Buffer], storage: &mut CachedStorage, k: usize) -> bool
    requires known { k < length buffers.old }
    requires kept { Kept buffers.old storage.old }
    ensures drained { Drained k buffers.old storage.old buffers.new storage.new }
    ensures own { committed_at buffers.new k ≡ drop 1 (committed_at buffers.old k) }
    ensures some { IsTrue result ↔ (0 < length (committed_at buffers.old k)) }
{
    storage.drain(&mut buffers[k])
}

/// Drains a buffer whole.
fn drain_whole(buffers: &mut [Buffer], storage: &mut CachedStorage, k: usize)
    requires known { k < length buffers.old }
    requires kept { Kept buffers.old storage.old }
    ensures drained { Drained k buffers.old storage.old buffers.new storage.new }
    ensures empty { committed_at buffers.new k ≡ [] }
{
    while drain_one(buffers, storage, k) {}
}

/// How many entries of a buffer are free.
fn free_at(buffers: &[Buffer], k: usize) -> u8
    requires { k < length buffers.now }
    ensures { result + length (committed_at buffers.now k) + length (held_at buffers.now k) ≡ 8 }
{
    buffers[k].free()
}

/// Drains a buffer that holds nothing, from its oldest entry on, until four entries are free.
fn make_room(buffers: &mut [Buffer], storage: &mut CachedStorage, k: usize)
    requires known { k < length buffers.old }
    requires kept { Kept buffers.old storage.old }
    requires none { held_at buffers.old k ≡ [] }
    ensures drained { Drained k buffers.old storage.old buffers.new storage.new }
    ensures room { length (committed_at buffers.new k) ≤ 4 }
{
    while free_at(buffers, k) < 4 {
        drain_one(buffers, storage, k);
    }
}

/// Whether buffer `k` has a committed entry with one of the bytes that buffer `i` holds.
fn meets_at(buffers: &[Buffer], k: usize, i: usize) -> bool
    requires k { k < length buffers.now }
    requires i { i < length buffers.now }
    ensures { result ≡ clash (committed_at buffers.now k) (held_at buffers.now i) }
{
    buffers[k].meets(&buffers[i])
}

/// Drains buffer `k` whole where it has a committed entry with one of the bytes that another
/// buffer `i` holds.
fn settle_one(buffers: &mut [Buffer], storage: &mut CachedStorage, i: usize, k: usize)
    requires k { k < length buffers.old }
    requires i { i < length buffers.old }
    requires kept { Kept buffers.old storage.old }
    ensures settled { (bs : List Waiting) → (s : List ℕ)
        → Settled i k bs s buffers.old storage.old
        → Settled i (k + 1) bs s buffers.new storage.new }
    ensures kept { Kept buffers.new storage.new }
{
    if k != i && meets_at(buffers, k, i) {
        drain_whole(buffers, storage, k);
    }
}

/// Drains whole each other buffer that has a committed entry with one of the bytes that buffer `i`
/// holds.
fn settle(buffers: &mut [Buffer], storage: &mut CachedStorage, i: usize)
    requires i { i < length buffers.old }
    requires kept { Kept buffers.old storage.old }
    ensures { Settled i (length buffers.old) buffers.old storage.old buffers.new storage.new }
{
    for k in 0..buffers.len() {
        settle_one(buffers, storage, i, k);
    }
}

/// Commits what a buffer holds.
fn release_at(buffers: &mut [Buffer], i: usize)
    requires { i < length buffers.old }
    ensures { (b : Waiting) → slice_get buffers.old i ≡ Some b → buffers.new
        ≡ slice_set buffers.old i (record { committed = b.committed ++ b.held; held = [] }) }
{
    buffers[i].release();
}

/// Commits what buffer `i` holds: the other buffers with such a byte are drained first, so that no
/// byte stands committed in two of them. Then four entries are made free again.
pub(crate) fn commit_held(buffers: &mut [Buffer], storage: &mut CachedStorage, i: usize)
    requires i { i < length buffers.old }
    requires kept { Kept buffers.old storage.old }
    requires room { Roomy buffers.old }
    ensures kept { Kept buffers.new storage.new }
    ensures room { Roomy buffers.new }
    ensures seen { seen buffers.new storage.new
        ≡ stored_all (held_at buffers.old i) (seen buffers.old storage.old) }
    ensures none { held_at buffers.new i ≡ [] }
    ensures size { length storage.new ≡ length storage.old }
    ensures unused { (n : ℕ) → i < n → NoneFrom n buffers.old → NoneFrom n buffers.new }
{
    settle(buffers, storage, i);
    release_at(buffers, i);
    make_room(buffers, storage, i);
}

// The committed byte of the first buffer by CPU number that has one at an absolute address.
fn snoop_all(buffers: &[Buffer], at: u32) -> Option<u8>
    ensures { result ≡ first_snooped buffers.now at }
{
    for buffer in buffers {
        if let Some(byte) = buffer.snoop(at) {
            return Some(byte);
        }
    }
    None
}

/// The same, where the buffers from number `used` on have no committed entry: those are not asked.
pub(crate) fn snoop_used(buffers: &[Buffer], used: usize, at: u32) -> Option<u8>
    requires used { used ≤ length buffers.now }
    requires none { NoneFrom used buffers.now }
    ensures { result ≡ first_snooped buffers.now at }
{
    snoop_all(&buffers[..used], at)
}
