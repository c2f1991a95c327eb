// Strikes in the orders in which the attempts of a core find them.
#![tactic(auto)]

ghost use Rattle.std.specs.Prelude.{◌≡◌, ℕ, ◌+◌, ◌-◌, ◌≤◌, length, take, drop, flat_map, IfOk};
ghost use Rattle.std.specs.List.Sorted.{IsNonDecreasingBy};
ghost use Rattle.run_model.specs.Script.{AllInRange, InForm};
ghost use Rattle.fault_script.specs.Index.{key_of, if_lasting};
ghost use Rattle.fault_script.specs.Totals.{IsPart, IsNextPart};
ghost use Rattle.fault_script.specs.Walk.{count_below, before};

use crate::Strike;
use crate::gathered::Gathered;
use crate::order::{bucket, first_from, index_of, key_of_strike, lasting_of};
use run_model::faults::CoreNo;
use std::alloc::{AllocError, Global};
use std::marker::Model;

/// The strikes of a script, in the order of their lines, as contracts see it.
#[derive(Drop)]
pub struct Ordered {
    strikes: Vec<Strike>,
    sorted: Vec<Strike>,
    lasting: Vec<Strike>,
    lasting_sorted: Vec<Strike>,
}

impl Model for Ordered {
    ghost use Rattle.std.specs.Prelude.{List};
    ghost use Rattle.run_model.specs.declared.faults.Strike.{Strike as StrikeOfLine};
    ghost use Rattle.fault_script.specs.Index.{IsIndexed};

    ghost Value = { List StrikeOfLine };

    ghost view = { λ o. o.strikes.items };

    ghost invariant = { λ o.
        IsIndexed o.strikes.items o.sorted.items o.lasting.items o.lasting_sorted.items };
}

/// The place past the strikes of key `q`, the first of which stands at `from`.
fn past(sorted: &[Strike], q: u128, from: usize) -> usize
    requires rises { IsNonDecreasingBy key_of sorted.now }
    requires first { from ≡ count_below q sorted.now }
    ensures past { result ≡ count_below (q + 1) sorted.now }
    ensures order { from ≤ result }
    ensures inside { result ≤ length sorted.now }
{
    for high in from..sorted.len() {
        if key_of_strike(&sorted[high]) != q {
            return high;
        }
    }
    sorted.len()
}

/// The strikes from one place to another.
#[tactic(auto, using(crate::proofs::Forms::ranges_between))]
fn between(sorted: &[Strike], low: usize, high: usize) -> &[Strike]
    requires order { low ≤ high }
    requires inside { high ≤ length sorted.now }
    ensures same { result.now ≡ take (high - low) (drop low sorted.now) }
    ensures ranges { AllInRange sorted.now → AllInRange result.now }
{
    &sorted[low..high]
}

impl Ordered {
    /// These strikes.
    pub fn of(alloc: Global, gathered: Gathered) -> Result<Ordered, AllocError>
        ensures { IfOk result (λ o. o ≡ gathered) }
    {
        let strikes = gathered.strikes();
        let sorted = index_of(alloc, &strikes)?;
        let lasting = lasting_of(alloc, &strikes)?;
        let lasting_sorted = index_of(alloc, &lasting)?;
        Ok(Ordered {
            strikes,
            sorted,
            lasting,
            lasting_sorted,
        })
    }

    /// The strikes. Each is in form.
    pub fn strikes(&self) -> &[Strike]
        ensures same { result.now ≡ self.now }
        ensures form { InForm self.now }
    {
        &self.strikes
    }

    /// The strikes of a core whose first attempt is this one.
    pub fn at(&self, core: CoreNo, attempt: u64) -> &[Strike]
        ensures ranges { AllInRange result.now }
        ensures part { IsPart self.now result.now core.0 attempt }
    {
        bucket(&self.sorted, core, attempt)
    }

    /// The strikes of packets that last more attempts than one.
    pub fn lasting(&self) -> &[Strike]
        ensures same { result.now ≡ flat_map if_lasting self.now }
        ensures ranges { AllInRange result.now }
    {
        &self.lasting
    }

    /// How many strikes have a key below `q`.
    pub fn first(&self, q: u128) -> usize
        ensures { result ≡ count_below q self.now }
    {
        first_from(&self.sorted, q)
    }

    /// How many of those that last have a key below `q`.
    pub fn first_lasting(&self, q: u128) -> usize
        ensures { result ≡ count_below q (flat_map if_lasting self.now) }
    {
        first_from(&self.lasting_sorted, q)
    }

    /// How many strikes have the key `q` or one below it, where `from` have one below it.
    pub fn past(&self, q: u128, from: usize) -> usize
        requires { from ≡ count_below q self.now }
        ensures { result ≡ count_below (q + 1) self.now }
    {
        past(&self.sorted, q, from)
    }

    /// The same of those that last.
    pub fn past_lasting(&self, q: u128, from: usize) -> usize
        requires { from ≡ count_below q (flat_map if_lasting self.now) }
        ensures { result ≡ count_below (q + 1) (flat_map if_lasting self.now) }
    {
        past(&self.lasting_sorted, q, from)
    }

    /// The strikes from one place of the order to another.
    pub fn between(&self, low: usize, high: usize) -> &[Strike]
        requires order { low ≤ high }
        requires inside { high ≤ length self.now }
        ensures ranges { AllInRange result.now }
        ensures part { (core n : ℕ) → low ≡ before self.now core n
            → high ≡ before self.now core (n + 1) → IsPart self.now result.now core n }
    {
        between(&self.sorted, low, high)
    }

    /// Those that last from one place of their order to another.
    pub fn lasting_between(&self, low: usize, high: usize) -> &[Strike]
        requires order { low ≤ high }
        requires inside { high ≤ length (flat_map if_lasting self.now) }
        ensures length { length result.now ≡ high - low }
        ensures ranges { AllInRange result.now }
        ensures part { (core n : ℕ) → low ≡ before (flat_map if_lasting self.now) core n
            → high ≡ before (flat_map if_lasting self.now) core (n + 1)
            → IsNextPart self.now result.now core n }
    {
        between(&self.lasting_sorted, low, high)
    }
}
