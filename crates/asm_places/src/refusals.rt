//! The first refusal of a source.
ghost use Rattle.std.specs.Prelude.{◌≡◌, None, IfOk, IfErr};
ghost use Rattle.std.specs.List.{find};
ghost use Rattle.asm_model.specs.Places.{start, standings, last};
ghost use Rattle.asm_model.specs.Refused.{passes, refusal_of};
ghost use Rattle.asm_places.specs.Found.{MayBe, form_refusal, name_refusal};

use crate::fields::first_out;
use crate::forms::{first_bad, first_outside, first_unknown, has_end};
use crate::naming::Names;
use crate::places::{Places, places_of};
use crate::undefined::{first_baseless, first_undefined};
use asm_model::refusal::AsmRefusal;
use asm_model::statements::Source;
use std::alloc::Global;

// BadLine, UnknownOp, NoSection or NoEndStatement.
#[tactic(auto, using(crate::proofs::Chains::refused_by, crate::proofs::Chains::refused_on))]
fn form_refusal(sources: &[Source]) -> Option<AsmRefusal>
    ensures { result ≡ form_refusal sources.now }
{
    if let Some(number) = first_bad(sources) {
        return Some(AsmRefusal::BadLine(number));
    }
    if let Some(number) = first_unknown(sources) {
        return Some(AsmRefusal::UnknownOp(number));
    }
    if let Some(number) = first_outside(sources) {
        return Some(AsmRefusal::NoSection(number));
    }
    if has_end(sources) {
        None
    } else {
        Some(AsmRefusal::NoEndStatement)
    }
}

// Undefined, NoBase or OutOfRange.
#[tactic(auto, using(crate::proofs::Chains::refused_by, crate::proofs::Chains::refused_on))]
fn name_refusal(names: &Names, sources: &[Source]) -> Option<AsmRefusal>
    requires { find passes (standings start sources.now) ≡ None }
    ensures { result ≡ name_refusal names.now sources.now }
{
    if let Some(number) = first_undefined(names, sources) {
        return Some(AsmRefusal::Undefined(number));
    }
    if let Some(number) = first_baseless(names, sources) {
        return Some(AsmRefusal::NoBase(number));
    }
    match first_out(names, sources) {
        Some(number) => Some(AsmRefusal::OutOfRange(number)),
        None => None,
    }
}

/// What stands behind all lines of a source that is not refused, or its first refusal.
#[tactic(auto, using(crate::proofs::Chains::by_form, crate::proofs::Chains::by_place, crate::proofs::Chains::by_name, crate::proofs::Chains::by_none, crate::proofs::Chains::none_pass))]
pub fn accepted(alloc: Global, sources: &[Source]) -> Result<Places, AsmRefusal>
    ensures places { IfOk result (λ p. p ≡ last start sources.now) }
    ensures none { IfOk result (λ _. refusal_of sources.now ≡ None) }
    ensures refused { IfErr result (MayBe (refusal_of sources.now)) }
{
    if let Some(refusal) = form_refusal(sources) {
        return Err(refusal);
    }
    let places = match places_of(alloc, sources) {
        Ok(places) => places,
        Err(refusal) => return Err(refusal),
    };
    match name_refusal(places.names(), sources) {
        Some(refusal) => Err(refusal),
        None => Ok(places),
    }
}
