// Strikes of a word in a block of 16 attempts, counted in a map.
#![tactic(auto)]

ghost use Rattle.std.specs.Prelude.{◌≡◌, ℕ, ◌<◌, ◌≤◌, ◌↔◌, IsTrue, IfOk, IfSome, IfNone, false};
ghost use Rattle.std.specs.Prelude.{count_by};
ghost use Rattle.run_model.specs.Premise.{strikes_word};
ghost use Rattle.fault_script.specs.Places.{IsPlaceOf};

use run_model::faults::Strike;
use std::alloc::{AllocError, Global};
use std::collections::HashMap;

// One number for core, word and block.
fn place_of(s: &Strike) -> Option<u128>
    ensures some { IfSome result (λ p. IsPlaceOf s.now p) }
    ensures none { IfNone result ((c w k : ℕ) → c < 16 → w < 40
        → strikes_word c w k s.now ≡ false) }
{
    match *s {
        Strike::Word(core, first, word, _) => {
            if core.0 < 16 && word < 40 {
                Some((u128::from(first) / 16 * 256 + u128::from(word)) * 256 + u128::from(core.0))
            } else {
                None
            }
        }
        Strike::Packet(_, _, _, _, _) => None,
        Strike::Fetch(_, _, _) => None,
        Strike::Store(_, _, _) => None,
    }
}

pub fn all_good(alloc: Global, strikes: &[Strike]) -> Result<bool, AllocError>
    ensures { IfOk result (λ r. IsTrue r ↔ ((c w k : ℕ) → c < 16 → w < 40
        → count_by (strikes_word c w k) strikes.now ≤ 2)) }
{
    let mut counts: HashMap<u128, u8> = HashMap::new(alloc);
    for s in strikes {
        let p = match place_of(s) {
            Some(p) => p,
            None => continue,
        };
        let n = counts.get(&p).copied().unwrap_or(0);
        if n >= 2 {
            return Ok(false);
        }
        counts.insert(p, n + 1)?;
    }
    Ok(true)
}
