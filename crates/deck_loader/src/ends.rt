//! Where the text of each section ends, in one pass over the texts.
ghost use Rattle.std.specs.Prelude.{◌≡◌, ◌≤◌, ◌<◌, ◌+◌, ℕ, length, max, IfOk, OnOk, if◌then◌else◌, ◌==◌};
ghost use Rattle.std.specs.BTreeMap.{get};
ghost use Rattle.std.specs.Ordering.{nat_cmp};
ghost use Rattle.deck_model.specs.Image.{or_zero};
ghost use Rattle.deck_loader.specs.Keys.{item_key};
ghost use Rattle.deck_loader.specs.Indexed.{KeepsEnds};

use crate::keys::key_of;
use deck_model::decks::Text;
use std::alloc::{AllocError, Global};
use std::collections::BTreeMap;

fn key_of_text(t: &Text) -> u64
    ensures key { result ≡ item_key t.now.owner t.now.id }
    ensures id { t.now.id < 4294967296 }
{
    key_of(t.owner, t.id)
}

// The address after a text.
fn end_of(t: &Text) -> u64
    ensures value { result ≡ t.now.address + length t.now.bytes.items }
    ensures low { result ≤ 8589934592 }
{
    u64::from(t.address) + t.bytes.len() as u64
}

/// The end that is kept under a key, or 0.
pub fn end_at(ends: &BTreeMap<u64, u64>, key: u64) -> u64
    ensures { result ≡ or_zero (get nat_cmp ends.now key) }
{
    match ends.get(&key).copied() {
        Some(end) => end,
        None => 0,
    }
}

// Keeps the greater of two ends under a key.
fn keep_end(ends: &mut BTreeMap<u64, u64>, key: u64, end: u64) -> Result<(), AllocError>
    ensures { OnOk result ((q : ℕ) → or_zero (get nat_cmp ends.new q)
        ≡ max (if key == q then end else 0) (or_zero (get nat_cmp ends.old q))) }
{
    let far = end_at(ends, key).max(end);
    ends.insert(key, far)?;
    Ok(())
}

/// The address after the farthest text byte of each ESDID.
pub fn text_ends(alloc: Global, texts: &[Text]) -> Result<BTreeMap<u64, u64>, AllocError>
    ensures { IfOk result (λ m. KeepsEnds texts.now m) }
{
    let mut ends = BTreeMap::new(alloc);
    for t in texts {
        keep_end(&mut ends, key_of_text(t), end_of(t))?;
    }
    Ok(ends)
}
