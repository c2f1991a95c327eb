// A script as its attempts are begun.
#![tactic(auto)]

ghost use Rattle.std.specs.Prelude.{◌≡◌, ◌≢◌, ℕ, ◌+◌, ◌<◌, IfOk, length};
ghost use Rattle.run_model.specs.Script.{AllInRange};
ghost use Rattle.fault_script.specs.Totals.{IsPart, IsLastingPart};
ghost use Rattle.fault_script.specs.Walk.{AllStart};
ghost use Rattle.fault_script.specs.Walks.{IsOn, IsBegun};

use crate::Strike;
use crate::core_walks::CoreWalk;
use crate::ordered::Ordered;
use run_model::faults::CoreNo;
use std::alloc::{AllocError, Global};

/// A script with where the attempts of each core stand in it. An attempt costs what strikes it.
#[derive(Drop)]
pub struct Walk {
    pub(crate) ordered: Ordered,
    pub(crate) cores: Vec<CoreWalk>,
}

/// Before the first attempt of each core.
pub fn starts(alloc: Global, ordered: &Ordered) -> Result<Vec<CoreWalk>, AllocError>
    ensures { IfOk result (λ v. AllStart ordered.now v.items) }
{
    let mut cores = Vec::new(alloc);
    for core in 0..16_u8 {
        cores.push(CoreWalk::start(alloc, ordered, CoreNo(core))?)?;
    }
    Ok(cores)
}

impl Walk {
    /// One attempt of a core more is begun, after so many.
    pub fn begin(&mut self, core: CoreNo, begun: u64)
        requires { IsOn self.old core.0 begun }
        ensures lines { self.new.ordered ≡ self.old.ordered }
        ensures on { IsOn self.new core.0 (begun + 1) }
        ensures others { (c n : ℕ) → c ≢ core.0 → IsOn self.old c n → IsOn self.new c n }
    {
        self.cores[core.0 as usize].begin(&self.ordered, core, begun);
    }

    /// The strikes of a core whose first attempt is the last one begun, as `Script::at` gives them.
    pub fn under(&self, core: CoreNo) -> &[Strike]
        requires { IsBegun self.now core.0 }
        ensures ranges { AllInRange result.now }
        ensures part { (n : ℕ) → IsOn self.now core.0 (n + 1)
            → IsPart self.now.ordered result.now core.0 n }
    {
        let at = &self.cores[core.0 as usize];
        self.ordered.between(at.low, at.high)
    }

    /// The strikes of packets of a core that last more attempts than one and strike at the last one
    /// begun: at it they flip what all that last flip.
    pub fn lasting_under(&self, core: CoreNo) -> &[Strike]
        requires { IsBegun self.now core.0 }
        ensures ranges { AllInRange result.now }
        ensures part { (n : ℕ) → IsOn self.now core.0 (n + 1)
            → IsLastingPart self.now.ordered result.now core.0 n }
    {
        &self.cores[core.0 as usize].live
    }
}
