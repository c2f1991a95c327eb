//! Where keys stand first in a list.
ghost use Rattle.std.specs.Prelude.{◌≡◌, ℕ, ◌<◌, [], length, IfOk, OnOk, IfSome, Option, Some, None, if◌then◌else◌, ◌==◌};
ghost use Rattle.std.specs.Option.{is_some};
ghost use Rattle.std.specs.BTreeMap.{get};
ghost use Rattle.std.specs.Ordering.{nat_cmp};
ghost use Rattle.deck_loader.specs.Keys.{first_at, first_again, or_then, Places};

use std::alloc::{AllocError, Global};
use std::collections::BTreeMap;

/// The first place of each key, and the first place whose key stands earlier.
#[derive(Drop)]
pub struct Index {
    pub places: BTreeMap<u64, usize>,
    pub doubled: Option<usize>,
}

// Keeps the place of a key that the map has not. Whether it had it.
fn add_key(places: &mut BTreeMap<u64, usize>, key: u64, i: usize) -> Result<bool, AllocError>
    ensures had { IfOk result (λ had. had ≡ is_some (get nat_cmp places.old key)) }
    ensures adds { OnOk result ((q : ℕ) → get nat_cmp places.new q
        ≡ or_then (get nat_cmp places.old q) (if key == q then Some i else None)) }
{
    if places.contains_key(&key) {
        return Ok(true);
    }
    places.insert(key, i)?;
    Ok(false)
}

/// The index of a list of keys.
pub fn index_of(alloc: Global, keys: &[Option<u64>]) -> Result<Index, AllocError>
    ensures places { IfOk result (λ x. Places keys.now x.places) }
    ensures doubled { IfOk result (λ x. x.doubled ≡ first_again 0 [] keys.now) }
    ensures inside { IfOk result (λ x. IfSome x.doubled (λ i. i < length keys.now)) }
{
    let mut places = BTreeMap::new(alloc);
    let mut doubled = None;
    for (i, k) in keys.iter().enumerate() {
        let key = match k {
            Some(key) => *key,
            None => continue,
        };
        let had = add_key(&mut places, key, i)?;
        doubled = first_doubled(doubled, had, i);
    }
    Ok(Index { places, doubled })
}

fn first_doubled(doubled: Option<usize>, had: bool, i: usize) -> Option<usize>
    ensures { result ≡ or_then doubled (if had then Some i else None) }
{
    match doubled {
        Some(first) => Some(first),
        None if had => Some(i),
        None => None,
    }
}
