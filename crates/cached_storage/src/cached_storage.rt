ghost use Rattle.std.specs.Prelude.{◌≡◌, ◌≤◌, ◌<◌, ◌+◌, ◌*◌, ◌%◌, ◌↔◌, ℕ, drop, length};
ghost use Rattle.std.specs.Prelude.{slice_get, IfOk, IfSome, IsTrue};
ghost use Rattle.store_buffer.specs.Waiting.{oldest_of, oldest_span, shown, stored_in};

use crate::caches::{empty, fetch_by, invalidate_oldest, new_caches};
use abs_storage::AbsStorage;
use esa_model::memory::NoMemory;
use l1_cache::Cache;
use run_model::faults::CoreNo;
use std::alloc::Global;
use std::marker::Model;
use store_buffer::Buffer;

/// The storage, and a cache of it in each of 16 cores. What a cache has is what the storage has, so
/// it is seen as a storage: as its bytes.
#[derive(Drop)]
pub struct CachedStorage {
    storage: AbsStorage,
    // by the numbers of the cores
    caches: Vec<Cache>,
}

impl Model for CachedStorage {
    ghost use Rattle.std.specs.Prelude.{◌≡◌, ℕ, List, length};
    ghost use Rattle.cached_storage.specs.Caches.{AllCoherent};

    ghost Value = { List ℕ };

    ghost view = { λ c. c.storage };

    ghost invariant = { λ c. AllCoherent c.caches.items c.storage × (length c.caches.items ≡ 16) };
}

impl CachedStorage {
    /// A storage, and caches without a line.
    pub fn new(alloc: Global, storage: AbsStorage) -> Result<CachedStorage, NoMemory>
        ensures { IfOk result (λ c. c ≡ storage) }
    {
        let caches = new_caches(alloc)?;
        Ok(CachedStorage { storage, caches })
    }

    /// The number of bytes.
    pub fn size(&self) -> u32
        ensures size { result ≡ length self.now }
        ensures pages { result % 4096 ≡ 0 }
        ensures most { result ≤ 4096 * 4096 }
    {
        self.storage.size()
    }

    /// The byte at an absolute address, `None` exactly outside. No cache is looked at.
    pub fn fetch(&self, at: u32) -> Option<u8>
        ensures { result ≡ slice_get self.now at }
    {
        self.storage.fetch(at)
    }

    /// The same through the cache of a core, which fills the line where it has it not.
    pub fn fetch_by(&mut self, core: CoreNo, at: u32) -> Option<u8>
        requires { core.0 < 16 }
        ensures byte { result ≡ slice_get self.old at }
        ensures same { self.new ≡ self.old }
    {
        fetch_by(&mut self.caches, core.0 as usize, at, &self.storage)
    }

    /// Stores the oldest committed entry of a buffer, whose place is then free; `false` exactly
    /// where there is none. The lines in which it lies are then present in no cache. What the storage
    /// shows through the committed entries stays the same.
    pub fn drain(&mut self, buffer: &mut Buffer) -> bool
        requires { IfSome (oldest_span buffer.old.committed) (λ s. s.at + s.len ≤ length self.old) }
        ensures some { IsTrue result ↔ (0 < length buffer.old.committed) }
        ensures stored { self.new ≡ stored_in (oldest_of buffer.old.committed) self.old }
        ensures committed { buffer.new.committed ≡ drop 1 buffer.old.committed }
        ensures held { buffer.new.held ≡ buffer.old.held }
        ensures shown { (a : ℕ) →
            shown buffer.new.committed self.new a ≡ shown buffer.old.committed self.old a }
    {
        invalidate_oldest(&mut self.caches, buffer);
        buffer.drain(&mut self.storage)
    }

    /// Empties the cache of a core.
    pub fn empty(&mut self, core: CoreNo)
        requires { core.0 < 16 }
        ensures { self.new ≡ self.old }
    {
        empty(&mut self.caches, core.0 as usize);
    }

    /// How often the cache of a core was filled with a line, up to the greatest number of 64 bits;
    /// 0 of a core above 15. No clause says how often, since what is seen is the bytes alone;
    /// `Cache::fetch` says it of each fetch.
    pub fn fills(&self, core: CoreNo) -> u64 {
        match self.caches.get(core.0 as usize) {
            Some(cache) => cache.fills(),
            None => 0,
        }
    }
}
