// Strikes sorted by core and first attempt, and those of one attempt found by halving.
#![tactic(auto)]

ghost use Rattle.std.specs.Prelude.{◌≡◌, ◌+◌, ◌*◌, ◌^◌, ◌≤◌, ◌++◌, length, IfOk, flat_map};
ghost use Rattle.std.specs.List.Sorted.{IsNonDecreasingBy};
ghost use Rattle.run_model.specs.Script.{AllInRange};
ghost use Rattle.fault_script.specs.Index.{key, key_of, is_one, is_brief, if_lasting, IsIndex};
ghost use Rattle.fault_script.specs.Index.{IsFirst, IsBucket};

use run_model::faults::{CoreNo, Strike};
use std::alloc::{AllocError, Global};

/// One number for a core and an attempt.
pub fn number(core: CoreNo, attempt: u64) -> u128
    ensures { result ≡ key core.0 attempt }
{
    u128::from(core.0) * 0x1_0000_0000_0000_0000 + u128::from(attempt)
}

/// That of a strike's core and first attempt.
pub fn key_of_strike(s: &Strike) -> u128
    ensures { result ≡ key_of s.now }
{
    match *s {
        Strike::Packet(core, first, _, _, _) => number(core, first),
        Strike::Fetch(core, first, _) => number(core, first),
        Strike::Store(core, first, _) => number(core, first),
        Strike::Word(core, first, _, _) => number(core, first),
    }
}

fn copied(alloc: Global, strikes: &[Strike]) -> Result<Vec<Strike>, AllocError>
    ensures { IfOk result (λ v. v.items ≡ strikes.now) }
{
    let mut copy = Vec::new(alloc);
    for s in strikes {
        copy.push(*s)?;
    }
    Ok(copy)
}

/// The strikes in the order of their cores and first attempts.
pub fn index_of(alloc: Global, strikes: &[Strike]) -> Result<Vec<Strike>, AllocError>
    requires { AllInRange strikes.now }
    ensures index { IfOk result (λ v. IsIndex strikes.now v.items) }
    ensures ranges { IfOk result (λ v. AllInRange v.items) }
{
    let mut sorted = copied(alloc, strikes)?;
    sorted.sort_by_key(|s| key_of_strike(s))?;
    Ok(sorted)
}

/// The place of the first strike whose key is not below `q`.
pub fn first_from(sorted: &[Strike], q: u128) -> usize
    requires { IsNonDecreasingBy key_of sorted.now }
    ensures first { IsFirst q sorted.now result result }
    ensures inside { result ≤ length sorted.now }
{
    let mut low = 0;
    let mut high = sorted.len();
    while low < high {
        let middle = low + (high - low) / 2;
        if key_of_strike(&sorted[middle]) < q {
            low = middle + 1;
        } else {
            high = middle;
        }
    }
    low
}

/// Those of one core whose first attempt is this one.
#[tactic(auto, using(crate::proofs::Buckets::bucket_between, crate::proofs::Forms::ranges_between))]
pub fn bucket(sorted: &[Strike], core: CoreNo, attempt: u64) -> &[Strike]
    requires { IsNonDecreasingBy key_of sorted.now }
    ensures bucket { IsBucket (key core.0 attempt) sorted.now result.now }
    ensures ranges { AllInRange sorted.now → AllInRange result.now }
{
    let q = number(core, attempt);
    let low = first_from(sorted, q);
    let high = first_from(sorted, q + 1);
    if low <= high {
        &sorted[low..high]
    } else {
        &sorted[low..low]
    }
}

fn counts_one(count: Option<u64>) -> bool
    ensures { result ≡ is_one count }
{
    match count {
        None => false,
        Some(count) => count == 1,
    }
}

/// Whether it strikes at its first attempt alone.
pub fn is_brief_strike(s: &Strike) -> bool
    ensures { result ≡ is_brief s.now }
{
    match *s {
        Strike::Packet(_, _, _, _, count) => counts_one(count),
        Strike::Fetch(_, _, _) => true,
        Strike::Store(_, _, _) => true,
        Strike::Word(_, _, _, _) => true,
    }
}

fn add_lasting(lasting: &mut Vec<Strike>, s: &Strike) -> Result<(), AllocError>
    ensures { IfOk result (λ _. lasting.new.items ≡ lasting.old.items ++ if_lasting s.now) }
{
    if !is_brief_strike(s) {
        lasting.push(*s)?;
    }
    Ok(())
}

/// The strikes that are not brief.
pub fn lasting_of(alloc: Global, strikes: &[Strike]) -> Result<Vec<Strike>, AllocError>
    requires { AllInRange strikes.now }
    ensures lines { IfOk result (λ v. v.items ≡ flat_map if_lasting strikes.now) }
    ensures ranges { IfOk result (λ v. AllInRange v.items) }
{
    let mut lasting = Vec::new(alloc);
    for s in strikes {
        add_lasting(&mut lasting, s)?;
    }
    Ok(lasting)
}
