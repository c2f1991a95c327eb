//! The program of a text, or its first refusal.
ghost use Rattle.std.specs.Prelude.{◌≡◌, None, IfOk, IfErr};
ghost use Rattle.asm_model.specs.Refused.{refusal_of};
ghost use Rattle.asm_model.specs.Program.{assembly};
ghost use Rattle.asm_places.specs.Fitting.{AreOfText};
ghost use Rattle.asm_places.specs.Found.{MayBe};

use crate::program::{Assembly, program};
use crate::refusals::accepted;
use asm_model::refusal::AsmRefusal;
use asm_model::statements::Source;
use std::alloc::Global;

/// The program of the statements of a text, or its first refusal.
#[tactic(auto, using(crate::proofs::Accepting::all_fit, crate::proofs::Accepting::few))]
pub fn assemble(alloc: Global, sources: &[Source]) -> Result<Assembly, AsmRefusal>
    requires { AreOfText sources.now }
    ensures assembly { IfOk result (λ a. a ≡ assembly sources.now) }
    ensures none { IfOk result (λ _. refusal_of sources.now ≡ None) }
    ensures refused { IfErr result (MayBe (refusal_of sources.now)) }
{
    let places = match accepted(alloc, sources) {
        Ok(places) => places,
        Err(refusal) => return Err(refusal),
    };
    match program(alloc, places, sources) {
        Ok(assembly) => Ok(assembly),
        Err(_) => Err(AsmRefusal::NoMemory),
    }
}
