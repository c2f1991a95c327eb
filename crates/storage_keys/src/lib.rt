//! The storage keys: a key byte for each block of 4,096 bytes.
#![tactic(auto)]

ghost use Rattle.std.specs.Prelude.{◌≡◌, ◌≤◌, ℕ, List, length, replicate, slice_get, slice_set};
ghost use Rattle.std.specs.Prelude.{true, false, IfOk};
ghost use Rattle.esa_model.specs.Access.{allows};
ghost use Rattle.storage_keys.specs.Bits.{allowed, touched, marked};

use esa_model::memory::NoMemory;
use std::alloc::Global;
use std::marker::Model;

/// The keys of at most 4,096 blocks: bits 0 to 3 of a key are the access key, bit 4 is fetch
/// protection, bit 5 reference, bit 6 change. Source: Principles of Operation, chapter on storage
/// (storage key).
#[derive(Drop)]
pub struct Keys {
    keys: Vec<u8>,
}

impl Model for Keys {
    ghost use Rattle.std.specs.Prelude.{◌≤◌, ℕ, List, length};

    ghost Value = { List ℕ };

    ghost view = { λ k. k.keys.items };

    ghost invariant = { λ k. length k.keys.items ≤ 4096 };
}

impl Keys {
    /// The keys of so many pages, all zero.
    pub fn new(alloc: Global, pages: u16) -> Result<Keys, NoMemory>
        requires { pages ≤ 4096 }
        ensures { IfOk result (λ k. k ≡ replicate pages 0) }
    {
        let keys = vec![in alloc; 0; pages as usize]?;
        Ok(Keys { keys })
    }

    /// The number of blocks.
    pub fn len(&self) -> u16
        ensures blocks { result ≡ length self.now }
        ensures most { result ≤ 4096 }
    {
        self.keys.len() as u16
    }

    /// Whether a PSW key may store into a block. False outside.
    pub fn may_store(&self, block: u16, key: u8) -> bool
        ensures { result ≡ allowed true key (slice_get self.now block) }
    {
        match self.get(block) {
            None => false,
            Some(own) => allows_access(true, key, own),
        }
    }

    /// Whether a PSW key may fetch from a block. False outside.
    pub fn may_fetch(&self, block: u16, key: u8) -> bool
        ensures { result ≡ allowed false key (slice_get self.now block) }
    {
        match self.get(block) {
            None => false,
            Some(own) => allows_access(false, key, own),
        }
    }

    /// The key of a block, `None` exactly outside.
    pub fn get(&self, block: u16) -> Option<u8>
        ensures { result ≡ slice_get self.now block }
    {
        self.keys.get(block as usize).copied()
    }

    /// Replaces the key of a block. Outside it changes nothing.
    pub fn set(&mut self, block: u16, key: u8)
        ensures { self.new ≡ slice_set self.old block key }
    {
        if let Some(own) = self.keys.get_mut(block as usize) {
            *own = key;
        }
    }

    /// Sets the reference bit of a block and, where asked, its change bit. Outside it changes
    /// nothing.
    pub fn touch(&mut self, block: u16, change: bool)
        ensures { self.new ≡ touched change block self.old }
    {
        let key = self.get(block).unwrap_or(0);
        self.set(block, with_bits(change, key));
    }
}

/// Whether a key allows an access to a PSW key: that is 0 or equal to the access key, or fetches
/// where the block is not fetch-protected. Source: Principles of Operation, chapter on storage
/// (protection).
pub fn allows_access(store: bool, psw_key: u8, key: u8) -> bool
    ensures { result ≡ allows store psw_key key }
{
    psw_key == 0 || key / 16 == psw_key || (!store && key / 8 % 2 == 0)
}

/// The key with its reference bit and, where asked, its change bit set.
fn with_bits(change: bool, key: u8) -> u8
    ensures { result ≡ marked change key }
{
    if change {
        key / 8 * 8 + 6 + key % 2
    } else {
        key / 8 * 8 + 4 + key % 4
    }
}

#[cfg(test)]
mod tests;
