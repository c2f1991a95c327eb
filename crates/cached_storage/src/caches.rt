// The caches of all cores.
ghost use Rattle.std.specs.Prelude.{◌≡◌, ◌<◌, ℕ, List, length, slice_get, IfOk};
ghost use Rattle.l1_cache.specs.Lines.{DiffersInLine, line_of};
ghost use Rattle.store_buffer.specs.Waiting.{oldest_of, stored_in};
ghost use Rattle.cached_storage.specs.Caches.{AllCoherent};

use abs_storage::AbsStorage;
use esa_model::memory::NoMemory;
use l1_cache::Cache;
use std::alloc::{AllocError, Global};
use store_buffer::Buffer;

/// The caches of 16 cores, without a line.
pub(crate) fn new_caches(alloc: Global) -> Result<Vec<Cache>, NoMemory>
    ensures cores { IfOk result (λ cs. length cs.items ≡ 16) }
    ensures coherent { IfOk result (λ cs. (s : List ℕ) → AllCoherent cs.items s) }
{
    let mut caches = Vec::new(alloc);
    for _core in 0..16usize {
        if let Err(e) = caches.push(Cache::new(alloc)?) {
            return Err(AllocError::from(e).into());
        }
    }
    Ok(caches)
}

// The line of an address is present in no cache then, and may be stored into.
fn invalidate_line(caches: &mut [Cache], at: u32)
    ensures { (s t : List ℕ) → DiffersInLine (line_of at) s t →
        AllCoherent caches.old s → AllCoherent caches.new t }
{
    for cache in caches.iter_mut() {
        cache.invalidate_line(at);
    }
}

/// The oldest committed entry of a buffer may be stored then: it lies in the lines of its first and
/// of its last byte.
pub(crate) fn invalidate_oldest(caches: &mut [Cache], buffer: &Buffer)
    ensures { (s : List ℕ) → AllCoherent caches.old s →
        AllCoherent caches.new (stored_in (oldest_of buffer.now.committed) s) }
{
    if let Some(span) = buffer.oldest() {
        invalidate_line(caches, span.at);
        invalidate_line(caches, span.at + span.len as u32 - 1);
    }
}

/// The byte at an absolute address, through the cache of a core.
pub(crate) fn fetch_by(
    caches: &mut [Cache],
    core: usize,
    at: u32,
    storage: &AbsStorage,
) -> Option<u8>
    requires core { core < length caches.old }
    requires coherent { AllCoherent caches.old storage.now }
    ensures byte { result ≡ slice_get storage.now at }
    ensures coherent { AllCoherent caches.new storage.now }
{
    caches[core].fetch(at, storage)
}

/// No line is present in the cache of a core then.
pub(crate) fn empty(caches: &mut [Cache], core: usize)
    requires { core < length caches.old }
    ensures { (s : List ℕ) → AllCoherent caches.old s → AllCoherent caches.new s }
{
    caches[core].invalidate_all();
}
