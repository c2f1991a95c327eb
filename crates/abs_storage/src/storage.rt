ghost use Rattle.std.specs.Prelude.{◌≡◌, ◌≤◌, ◌<◌, ◌*◌, ◌%◌, ℕ, List, length, replicate, slice_get};
ghost use Rattle.std.specs.Prelude.{slice_set, IfOk, IsSome, ◌↔◌};

use crate::View;
use esa_model::memory::NoMemory;
use std::alloc::Global;
use std::marker::Model;

/// The storage: whole pages of 4,096 bytes, at most 4,096 of them.
#[derive(Drop)]
pub struct AbsStorage {
    bytes: Vec<u8>,
}

impl Model for AbsStorage {
    ghost use Rattle.std.specs.Prelude.{◌≡◌, ◌≤◌, ◌*◌, ◌%◌, ℕ, List, length};

    ghost Value = { List ℕ };

    ghost view = { λ s. s.bytes.items };

    ghost invariant = { λ s. (length s.bytes.items % 4096 ≡ 0) × (length s.bytes.items ≤ 4096 * 4096) };
}

impl AbsStorage {
    /// A storage of so many bytes, all zero.
    pub fn new(alloc: Global, bytes: u32) -> Result<AbsStorage, NoMemory>
        requires pages { bytes % 4096 ≡ 0 }
        requires most { bytes ≤ 4096 * 4096 }
        ensures { IfOk result (λ s. s ≡ replicate bytes 0) }
    {
        let bytes = vec![in alloc; 0; bytes as usize]?;
        Ok(AbsStorage { bytes })
    }

    /// The number of bytes.
    pub fn size(&self) -> u32
        ensures size { result ≡ length self.now }
        ensures pages { result % 4096 ≡ 0 }
        ensures most { result ≤ 4096 * 4096 }
    {
        self.bytes.len() as u32
    }

    /// All bytes, from absolute address 0 on.
    pub fn bytes(&self) -> &[u8]
        ensures { result.now ≡ self.now }
    {
        &self.bytes
    }

    /// The byte at an absolute address, `None` exactly outside.
    pub fn fetch(&self, at: u32) -> Option<u8>
        ensures { result ≡ slice_get self.now at }
    {
        self.bytes.get(at as usize).copied()
    }

    /// Stores a byte at an absolute address; `None` exactly outside, where nothing is stored.
    pub fn store(&mut self, at: u32, b: u8) -> Option<()>
        ensures stored { self.new ≡ slice_set self.old at b }
        ensures inside { IsSome result ↔ (at < length self.old) }
    {
        let byte = self.bytes.get_mut(at as usize)?;
        *byte = b;
        Some(())
    }
}

impl View for AbsStorage {
    ghost bytes = { λ s. s };

    fn size(&self) -> u32 {
        AbsStorage::size(self)
    }

    fn byte(&mut self, at: u32) -> Option<u8> {
        self.fetch(at)
    }
}
