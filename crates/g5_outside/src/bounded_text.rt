// Bytes that are written up to a fixed room, and bytes that are read from a place on.
ghost use Rattle.std.specs.Prelude.{◌≡◌, ◌+◌, ◌-◌, ◌^◌, ◌<◌, ◌≤◌, ◌++◌, [], ℕ, length, take, drop, min, IfOk, vec_len};

use crate::NoMemory;
use std::alloc::Global;

/// Bytes for which all room was taken at the start.
#[derive(Drop)]
pub struct BoundedText {
    bytes: Vec<u8>,
    filled: usize,
    ghost in_range: { filled ≤ vec_len bytes },
}

impl BoundedText {
    ghost use Rattle.g5_outside.specs.BoundedTexts.{text_in, room_in};

    pub fn new(alloc: Global, room: usize) -> Result<BoundedText, NoMemory>
        ensures text { IfOk result (λ t. text_in t ≡ []) }
        ensures room { IfOk result (λ t. room_in t ≡ room) }
    {
        Ok(BoundedText {
            bytes: vec![in alloc; 0; room]?,
            filled: 0,
        })
    }

    /// Adds as many first bytes as there is room for, at most so many, and says how many.
    pub fn add(&mut self, more: &[u8], most: usize) -> usize
        ensures text { text_in self.new ≡ text_in self.old ++ take result more.now }
        ensures count { result ≡ min (min (room_in self.old - length (text_in self.old)) (length more.now)) most }
        ensures room { room_in self.new ≡ room_in self.old }
    {
        let start = self.filled;
        let count = more.len().min(self.bytes.len() - start).min(most);
        self.bytes[start..start + count].copy_from_slice(&more[..count]);
        self.filled = start + count;
        count
    }

    /// Drops what is there.
    pub fn clear(&mut self)
        ensures text { text_in self.new ≡ [] }
        ensures room { room_in self.new ≡ room_in self.old }
    {
        self.filled = 0;
    }

    pub fn room(&self) -> usize
        ensures { result ≡ room_in self.now }
    {
        self.bytes.len()
    }

    pub fn text(&self) -> &[u8]
        ensures { result.now ≡ text_in self.now }
    {
        &self.bytes[..self.filled]
    }
}

/// Moves some bytes from a place on to the front of the slice, at most so many, and says how many.
pub fn read_from(bytes: &[u8], at: usize, into: &mut [u8], most: usize) -> usize
    ensures count { result ≡ min (min (length (drop at bytes.now)) (length into.new)) most }
    ensures moved { drop at bytes.now ≡ take result into.new ++ drop (at + result) bytes.now }
    ensures fits { at + result < 2 ^ 64 }
{
    if at >= bytes.len() {
        return 0;
    }
    let count = into.len().min(bytes.len() - at).min(most);
    into[..count].copy_from_slice(&bytes[at..at + count]);
    count
}
