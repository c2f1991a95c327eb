// The masks of the two packets: one sweep for each core over the sorted changes.
#![tactic(auto)]

ghost use Rattle.std.specs.Prelude.{◌≡◌, ℕ, ◌+◌, ◌<◌, ◌↔◌, ◌++◌, ◌==◌, ◌&&◌, IsTrue, IfOk, length};
ghost use Rattle.std.specs.Prelude.{IsPermutation, flat_map};
ghost use Rattle.std.specs.List.Sorted.{IsNonDecreasingBy};
ghost use Rattle.run_model.specs.Premise.{GoodMasks, same_unit};
ghost use Rattle.fault_script.specs.Changes.{changes_of, GoodChanges, at_of, Ends, NoneSet};

use crate::bits::Bits;
use run_model::faults::{Strike, Unit};
use std::alloc::{AllocError, Global};

// A bit of a packet begins or ceases to be flipped.
#[derive(Clone, Copy)]
pub struct Change {
    pub at: u128,
    pub core: u8,
    pub unit: Unit,
    pub bit: u16,
}

fn add_changes(changes: &mut Vec<Change>, s: &Strike) -> Result<(), AllocError>
    ensures { IfOk result (λ _. changes.new.items ≡ changes.old.items ++ changes_of s.now) }
{
    match *s {
        Strike::Packet(core, first, unit, bit, count) => {
            let at = u128::from(first);
            changes.push(Change {
                at,
                core: core.0,
                unit,
                bit,
            })?;
            match count {
                Some(count) => {
                    changes.push(Change {
                        at: at + u128::from(count),
                        core: core.0,
                        unit,
                        bit,
                    })?;
                    Ok(())
                }
                None => Ok(()),
            }
        }
        Strike::Fetch(_, _, _) => Ok(()),
        Strike::Store(_, _, _) => Ok(()),
        Strike::Word(_, _, _, _) => Ok(()),
    }
}

fn unsorted(alloc: Global, strikes: &[Strike]) -> Result<Vec<Change>, AllocError>
    ensures { IfOk result (λ v. v.items ≡ flat_map changes_of strikes.now) }
{
    let mut changes = Vec::new(alloc);
    for s in strikes {
        add_changes(&mut changes, s)?;
    }
    Ok(changes)
}

// The changes of all strikes, in the order of their attempts.
fn sorted(alloc: Global, strikes: &[Strike]) -> Result<Vec<Change>, AllocError>
    ensures same { IfOk result (λ v. IsPermutation (flat_map changes_of strikes.now) v.items) }
    ensures sorted { IfOk result (λ v. IsNonDecreasingBy at_of v.items) }
{
    let mut changes = unsorted(alloc, strikes)?;
    changes.sort_by_key(|x| x.at)?;
    Ok(changes)
}

// Whether no later change has the same attempt.
fn ends_attempt(changes: &[Change], i: usize) -> bool
    requires { i < length changes.now }
    ensures { IsTrue result ↔ Ends changes.now i }
{
    i + 1 == changes.len() || changes[i].at < changes[i + 1].at
}

fn is_same(a: Unit, b: Unit) -> bool
    ensures { result ≡ same_unit a b }
{
    match (a, b) {
        (Unit::A, Unit::A) => true,
        (Unit::A, Unit::B) => false,
        (Unit::B, Unit::A) => false,
        (Unit::B, Unit::B) => true,
    }
}

fn is_of(x: Change, core: u8, unit: Unit) -> bool
    ensures { result ≡ ((x.core == core) && same_unit x.unit unit) }
{
    let same = is_same(x.unit, unit);
    x.core == core && same
}

// Whether the masks that were swept may stand at an attempt.
fn may_stand(changes: &[Change], i: usize, struck: &Bits, unlike: &Bits) -> bool
    requires place { i < length changes.now }
    requires struck { length struck.now.odd.items ≡ 4096 }
    requires unlike { length unlike.now.odd.items ≡ 4096 }
    ensures { IsTrue result ↔ (Ends changes.now i
        → NoneSet unlike.now.odd.items → NoneSet struck.now.odd.items) }
{
    let ends = ends_attempt(changes, i);
    let alike = unlike.is_empty();
    let none = struck.is_empty();
    !(ends && alike) || none
}

// Whether the masks of one core are good at every attempt.
fn core_is_good(alloc: Global, changes: &[Change], core: u8) -> Result<bool, AllocError>
    requires { IsNonDecreasingBy at_of changes.now }
    ensures { IfOk result (λ r. IsTrue r ↔ ((n : ℕ) → GoodChanges changes.now core n)) }
{
    // the bits that are flipped in unit A, and those in which the units differ
    let mut struck = Bits::new(alloc)?;
    let mut unlike = Bits::new(alloc)?;
    for i in 0..changes.len() {
        let x = changes[i];
        struck.flip(is_of(x, core, Unit::A), usize::from(x.bit));
        unlike.flip(x.core == core, usize::from(x.bit));
        if !may_stand(changes, i, &struck, &unlike) {
            return Ok(false);
        }
    }
    Ok(true)
}

fn cores_are_good(alloc: Global, changes: &[Change]) -> Result<bool, AllocError>
    requires { IsNonDecreasingBy at_of changes.now }
    ensures { IfOk result (λ r. IsTrue r ↔ ((c n : ℕ) → c < 16 → GoodChanges changes.now c n)) }
{
    for core in 0..16 {
        if !core_is_good(alloc, changes, core)? {
            return Ok(false);
        }
    }
    Ok(true)
}

pub fn all_good(alloc: Global, strikes: &[Strike]) -> Result<bool, AllocError>
    ensures { IfOk result (λ r. IsTrue r ↔ ((c n : ℕ) → c < 16 → GoodMasks strikes.now c n)) }
{
    let changes = sorted(alloc, strikes)?;
    let good = cores_are_good(alloc, &changes)?;
    Ok(good)
}
