// The strikes of the lines so far, with a set of the latches that they hit.
#![tactic(auto)]

ghost use Rattle.std.specs.Prelude.{◌≡◌, ℕ, ◌≤◌, ◌||◌, [], ◌∷◌, ◌++◌, false, IfOk};
ghost use Rattle.std.specs.BTreeSet.{contains};
ghost use Rattle.std.specs.List.{list_any};
ghost use Rattle.std.specs.Ordering.{nat_cmp};
ghost use Rattle.run_model.specs.Script.{InRange, InForm, same_latch};
ghost use Rattle.fault_script.specs.Latches.{latch_number, latch_of, is_latch, is_noted};

use run_model::faults::{CoreNo, Strike};
use std::alloc::{AllocError, Global};
use std::collections::BTreeSet;
use std::marker::Model;

/// Strikes in form, in the order of their lines, as contracts see it.
#[derive(Drop)]
pub struct Gathered {
    strikes: Vec<Strike>,
    latches: BTreeSet<u128>,
}

impl Model for Gathered {
    ghost use Rattle.std.specs.Prelude.{List};
    ghost use Rattle.std.specs.Ordering.{nat_cmp};
    ghost use Rattle.std.specs.BTreeSet.{contains};
    ghost use Rattle.run_model.specs.declared.faults.Strike.{Strike as StrikeOfLine};
    ghost use Rattle.fault_script.specs.Latches.{IsGathered};

    ghost Value = { List StrikeOfLine };

    ghost view = { λ g. g.strikes.items };

    ghost invariant = { λ g. IsGathered g.strikes.items (contains nat_cmp g.latches) };
}

fn number(core: CoreNo, attempt: u64, latch: u8) -> u128
    requires { latch ≤ 1 }
    ensures { result ≡ latch_number core.0 attempt latch }
{
    (u128::from(attempt) * 256 + u128::from(core.0)) * 2 + u128::from(latch)
}

fn latch_of_strike(s: Strike) -> Option<u128>
    ensures { result ≡ latch_of s }
{
    match s {
        Strike::Packet(_, _, _, _, _) => None,
        Strike::Fetch(core, attempt, _) => Some(number(core, attempt, 0)),
        Strike::Store(core, attempt, _) => Some(number(core, attempt, 1)),
        Strike::Word(_, _, _, _) => None,
    }
}

fn is_noted_in(latches: &BTreeSet<u128>, latch: Option<u128>) -> bool
    ensures { result ≡ is_noted (contains nat_cmp latches.now) latch }
{
    match latch {
        None => false,
        Some(latch) => latches.contains(&latch),
    }
}

fn note(latches: &mut BTreeSet<u128>, latch: Option<u128>) -> Result<(), AllocError>
    ensures { IfOk result (λ _. (q : ℕ) → contains nat_cmp latches.new q
        ≡ (is_latch latch q || contains nat_cmp latches.old q)) }
{
    match latch {
        None => {}
        Some(latch) => {
            latches.insert(latch)?;
        }
    }
    Ok(())
}

impl Gathered {
    pub fn new(alloc: Global) -> Gathered
        ensures { result ≡ [] }
    {
        Gathered {
            strikes: Vec::new(alloc),
            latches: BTreeSet::new(alloc),
        }
    }

    /// Whether an earlier line hits the same latch at the same attempt.
    pub fn has_latch_of(&self, s: Strike) -> bool
        requires { InRange s }
        ensures { result ≡ list_any (same_latch s) self.now }
    {
        is_noted_in(&self.latches, latch_of_strike(s))
    }

    /// One strike more, which hits another latch than those so far.
    pub fn with(mut self, s: Strike) -> Result<Gathered, AllocError>
        requires range { InRange s }
        requires fresh { list_any (same_latch s) self ≡ false }
        ensures { IfOk result (λ g. g ≡ self ++ s ∷ []) }
    {
        note(&mut self.latches, latch_of_strike(s))?;
        self.strikes.push(s)?;
        Ok(self)
    }

    /// The strikes.
    pub fn strikes(self) -> Vec<Strike>
        ensures same { result.items ≡ self }
        ensures form { InForm self }
    {
        let Gathered {
            strikes,
            latches: _,
        } = self;
        strikes
    }
}
