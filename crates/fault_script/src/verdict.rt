// A script with its verdict and its orders, which are found where there is memory to be had.
#![tactic(auto)]

ghost use Rattle.std.specs.Prelude.{◌≡◌, ℕ, ◌<◌, ◌↔◌, IsTrue, IfOk, flat_map};
ghost use Rattle.run_model.specs.Premise.{Within};
ghost use Rattle.run_model.specs.Script.{AllInRange, InForm};
ghost use Rattle.fault_script.specs.Index.{if_lasting};
ghost use Rattle.fault_script.specs.Totals.{IsPart};
ghost use Rattle.fault_script.specs.Walks.{IsOn};

use crate::core_walks::CoreWalk;
use crate::gathered::Gathered;
use crate::ordered::Ordered;
use crate::walking::{Walk, starts};
use crate::{Strike, masks, words};
use run_model::faults::CoreNo;
use std::alloc::{AllocError, Global};
use std::marker::Model;

/// The strikes of a script, in the order of their lines, as contracts see it.
#[derive(Drop)]
pub struct Script {
    ordered: Ordered,
    cores: Vec<CoreWalk>,
    is_within: bool,
}

impl Model for Script {
    ghost use Rattle.std.specs.Prelude.{List, IsTrue, ◌↔◌};
    ghost use Rattle.run_model.specs.Premise.{Within};
    ghost use Rattle.run_model.specs.declared.faults.Strike.{Strike as StrikeOfLine};
    ghost use Rattle.fault_script.specs.Walk.{AllStart};

    ghost Value = { List StrikeOfLine };

    ghost view = { λ s. s.ordered };

    ghost invariant = { λ s. record {
      verdict : IsTrue s.is_within ↔ Within s.ordered;
      start : AllStart s.ordered s.cores.items;
    } };
}

// Whether strikes are within the premise.
fn is_within(alloc: Global, strikes: &[Strike]) -> Result<bool, AllocError>
    ensures { IfOk result (λ r. IsTrue r ↔ Within strikes.now) }
{
    let masks = masks::all_good(alloc, strikes)?;
    let words = words::all_good(alloc, strikes)?;
    Ok(masks && words)
}

/// A script of these strikes.
pub fn script_of(alloc: Global, gathered: Gathered) -> Result<Script, AllocError>
    ensures { IfOk result (λ s. s ≡ gathered) }
{
    let ordered = Ordered::of(alloc, gathered)?;
    let is_within = is_within(alloc, ordered.strikes())?;
    let cores = starts(alloc, &ordered)?;
    Ok(Script {
        ordered,
        cores,
        is_within,
    })
}

impl Script {
    /// The strikes, one for each line that is not empty. Each is in form.
    pub fn strikes(&self) -> &[Strike]
        ensures same { result.now ≡ self.now }
        ensures form { InForm self.now }
    {
        self.ordered.strikes()
    }

    /// The strikes of a core whose first attempt is this one. They flip at it what all strikes
    /// flip, but that in packets the lasting ones come beside them.
    pub fn at(&self, core: CoreNo, attempt: u64) -> &[Strike]
        ensures ranges { AllInRange result.now }
        ensures part { IsPart self.now result.now core.0 attempt }
    {
        self.ordered.at(core, attempt)
    }

    /// The strikes of packets that last more attempts than one.
    pub fn lasting(&self) -> &[Strike]
        ensures same { result.now ≡ flat_map if_lasting self.now }
        ensures ranges { AllInRange result.now }
    {
        self.ordered.lasting()
    }

    /// Before the first attempt of each core. It takes no memory.
    pub fn walk(self) -> Walk
        ensures lines { result.ordered ≡ self }
        ensures form { InForm self }
        ensures start { (core : ℕ) → core < 16 → IsOn result core 0 }
    {
        let Script {
            ordered,
            cores,
            is_within: _,
        } = self;
        // its strikes are in form
        let _ = ordered.strikes();
        Walk { ordered, cores }
    }
}

/// Whether a script is within the premise: alike strikes of both units of a core at one attempt
/// are none, and no checkpoint word is struck more than twice in a block of 16 attempts.
pub fn within(script: &Script) -> bool
    ensures { IsTrue result ↔ Within script.now }
{
    script.is_within
}
