// The eight entries of a buffer.
ghost use Rattle.std.specs.Prelude.{◌≡◌, ◌≤◌, ◌<◌, ◌+◌, ◌^◌, ◌↔◌, ℕ, [], ◌∷◌, ◌++◌, drop, length, IfSome, IsTrue};
ghost use Rattle.store_buffer.specs.Waiting.{newest, oldest_of, oldest_span, shown, stored_in};
ghost use Rattle.store_buffer.specs.Waiting.{meets_any, clash};

use crate::Span;
use crate::entry::Entry;
use abs_storage::AbsStorage;
use arrayvec::ArrayVec;
use std::marker::Model;

/// The store buffer of a CPU: at most eight stores that wait. A store is held until the event that
/// makes it is committed; then it is released, and reaches the storage late, by a drain. Stores
/// reach it in the order in which they were held.
#[derive(Drop)]
pub struct Buffer {
    // oldest first: those that are committed, and then those that are held
    entries: ArrayVec<Entry, 8>,
    committed: usize,
}

impl Model for Buffer {
    ghost use Rattle.std.specs.Prelude.{◌≤◌, length, take, drop};
    ghost use Rattle.store_buffer.specs.Waiting.{Waiting};

    ghost Value = { Waiting };

    ghost view = { λ b. record {
      committed = take b.committed b.entries.items;
      held = drop b.committed b.entries.items;
    } };

    ghost invariant = { λ b. b.committed ≤ length b.entries.items };
}

// A younger entry hides what an older one has.
#[tactic(auto, using(crate::proofs::Newest::or_none, crate::proofs::Newest::or_assoc))]
fn newest_byte(entries: &[Entry], at: u32) -> Option<u8>
    ensures { result ≡ newest entries.now at }
{
    let mut found = None;
    for entry in entries {
        found = entry.byte(at).or(found);
    }
    found
}

// Whether an entry has an address in common with one of the others.
fn meets_one(entry: &Entry, others: &[Entry]) -> bool
    ensures { result ≡ meets_any entry.now others.now }
{
    for other in others {
        if entry.meets(other) {
            return true;
        }
    }
    false
}

// Whether one of the entries has an address in common with one of the others.
fn do_clash(entries: &[Entry], others: &[Entry]) -> bool
    ensures { result ≡ clash entries.now others.now }
{
    for entry in entries {
        if meets_one(entry, others) {
            return true;
        }
    }
    false
}

impl Buffer {
    /// A buffer of eight free entries.
    pub fn new() -> Buffer
        ensures { result ≡ record { committed = []; held = [] } }
    {
        Buffer {
            entries: ArrayVec::new(),
            committed: 0,
        }
    }

    /// How many entries are free.
    pub fn free(&self) -> u8
        ensures { result + length self.now.committed + length self.now.held ≡ 8 }
    {
        8 - self.entries.len() as u8
    }

    /// Holds 1 to 256 bytes, to be stored from an absolute address on.
    pub fn hold(&mut self, at: u32, bytes: &[u8])
        requires free { length self.old.committed + length self.old.held < 8 }
        requires some { 1 ≤ length bytes.now }
        requires most { length bytes.now ≤ 256 }
        requires small { at + length bytes.now ≤ 2 ^ 24 }
        ensures held { self.new.held ≡ self.old.held ++ record { at = at; bytes = bytes.now } ∷ [] }
        ensures committed { self.new.committed ≡ self.old.committed }
    {
        self.entries.push(Entry::new(at, bytes));
    }

    /// The held entries are committed, behind those that were committed before.
    pub fn release(&mut self)
        ensures committed { self.new.committed ≡ self.old.committed ++ self.old.held }
        ensures held { self.new.held ≡ [] }
    {
        self.committed = self.entries.len();
    }

    /// The held entries are dropped; those that are committed stay.
    pub fn drop_uncommitted(&mut self)
        ensures committed { self.new.committed ≡ self.old.committed }
        ensures held { self.new.held ≡ [] }
    {
        self.entries.truncate(self.committed);
    }

    // Takes the oldest committed entry out, whose place is then free.
    fn take_oldest(&mut self) -> Option<Entry>
        ensures oldest { result ≡ oldest_of self.old.committed }
        ensures committed { self.new.committed ≡ drop 1 self.old.committed }
        ensures held { self.new.held ≡ self.old.held }
    {
        if self.committed == 0 {
            return None;
        }
        let oldest = self.entries.remove(0);
        self.committed -= 1;
        Some(oldest)
    }

    /// Stores the oldest committed entry, whose place is then free; `false` exactly where there is
    /// none. What the storage shows through the committed entries stays the same.
    #[tactic(auto, using(crate::proofs::Shown::left_shown))]
    pub fn drain(&mut self, storage: &mut AbsStorage) -> bool
        requires { IfSome (oldest_span self.old.committed) (λ s. s.at + s.len ≤ length storage.old) }
        ensures some { IsTrue result ↔ (0 < length self.old.committed) }
        ensures stored { storage.new ≡ stored_in (oldest_of self.old.committed) storage.old }
        ensures committed { self.new.committed ≡ drop 1 self.old.committed }
        ensures held { self.new.held ≡ self.old.held }
        ensures shown { (a : ℕ) →
            shown self.new.committed storage.new a ≡ shown self.old.committed storage.old a }
    {
        let Some(oldest) = self.take_oldest() else {
            return false;
        };
        oldest.store(storage);
        true
    }

    /// The newest committed byte at an absolute address, `None` exactly where there is none.
    pub fn snoop(&self, at: u32) -> Option<u8>
        ensures { result ≡ newest self.now.committed at }
    {
        newest_byte(&self.entries.as_slice()[..self.committed], at)
    }

    /// Whether a committed entry has an address in common with one that the other buffer holds.
    pub fn meets(&self, other: &Buffer) -> bool
        ensures { result ≡ clash self.now.committed other.now.held }
    {
        do_clash(
            &self.entries.as_slice()[..self.committed],
            &other.entries.as_slice()[other.committed..],
        )
    }

    /// Where the oldest committed entry lies, `None` exactly where there is none.
    pub fn oldest(&self) -> Option<Span>
        ensures span { result ≡ oldest_span self.now.committed }
        ensures some { IfSome result (λ s. 1 ≤ s.len) }
        ensures most { IfSome result (λ s. s.len ≤ 256) }
        ensures small { IfSome result (λ s. s.at + s.len ≤ 2 ^ 24) }
    {
        if self.committed == 0 {
            None
        } else {
            Some(self.entries.as_slice()[0].span())
        }
    }
}
