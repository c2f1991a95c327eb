// One entry of a buffer: a piece.
ghost use Rattle.std.specs.Prelude.{◌≡◌, ◌≤◌, ◌+◌, ◌^◌, length};
ghost use Rattle.esa_model.specs.Apply.{put_all};
ghost use Rattle.store_buffer.specs.Waiting.{byte_of, span_of, meets as have_common};

use crate::Span;
use abs_storage::AbsStorage;
use arrayvec::ArrayVec;
use std::marker::Model;

/// 1 to 256 bytes to be stored from an absolute address on; they end at or below 2^24.
#[derive(Drop)]
pub struct Entry {
    at: u32,
    bytes: ArrayVec<u8, 256>,
}

impl Model for Entry {
    ghost use Rattle.std.specs.Prelude.{◌≤◌, ◌+◌, ◌^◌, length};
    ghost use Rattle.esa_model.specs.Apply.{Piece};

    ghost Value = { Piece };

    ghost view = { λ e. record { at = e.at; bytes = e.bytes.items } };

    ghost invariant = { λ e. (1 ≤ length e.bytes.items) × (e.at + length e.bytes.items ≤ 2 ^ 24) };
}

// What stands in the places of a buffer that are free.
impl Default for Entry {
    fn default() -> Entry {
        Entry::new(0, &[0])
    }
}

fn store_bytes(storage: &mut AbsStorage, at: u32, bytes: &[u8])
    requires inside { at + length bytes.now ≤ length storage.old }
    requires small { at + length bytes.now ≤ 2 ^ 24 }
    ensures { storage.new ≡ put_all at bytes.now storage.old }
{
    for k in 0..bytes.len() {
        let _ = storage.store(at + k as u32, bytes[k]);
    }
}

impl Entry {
    /// The entry of these bytes.
    pub fn new(at: u32, bytes: &[u8]) -> Entry
        requires some { 1 ≤ length bytes.now }
        requires most { length bytes.now ≤ 256 }
        requires small { at + length bytes.now ≤ 2 ^ 24 }
        ensures { result ≡ record { at = at; bytes = bytes.now } }
    {
        let mut copy = ArrayVec::new();
        let _ = copy.try_extend_from_slice(bytes);
        Entry { at, bytes: copy }
    }

    /// The byte at an absolute address, `None` exactly where the entry has none there.
    pub fn byte(&self, at: u32) -> Option<u8>
        ensures { result ≡ byte_of self.now at }
    {
        if at >= self.at {
            self.bytes.as_slice().get((at - self.at) as usize).copied()
        } else {
            None
        }
    }

    /// Stores the bytes in their order.
    pub fn store(&self, storage: &mut AbsStorage)
        requires { self.now.at + length self.now.bytes ≤ length storage.old }
        ensures { storage.new ≡ put_all self.now.at self.now.bytes storage.old }
    {
        store_bytes(storage, self.at, self.bytes.as_slice());
    }

    /// Whether two entries have an address in common.
    pub fn meets(&self, other: &Entry) -> bool
        ensures { result ≡ have_common self.now other.now }
    {
        let (own, far) = (self.span(), other.span());
        own.at < far.at + far.len as u32 && far.at < own.at + own.len as u32
    }

    /// Where the bytes lie.
    pub fn span(&self) -> Span
        ensures span { result ≡ span_of self.now }
        ensures some { 1 ≤ result.len }
        ensures most { result.len ≤ 256 }
        ensures small { result.at + result.len ≤ 2 ^ 24 }
    {
        Span {
            at: self.at,
            len: self.bytes.len() as u16,
        }
    }
}
