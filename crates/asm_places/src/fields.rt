//! The fields of an instruction with its name in place, and those outside their ranges.
ghost use Rattle.std.specs.Prelude.{◌≡◌, ◌+◌, ◌≤◌, ◌<◌, ◌^◌, ◌==◌, if◌then◌else◌, None};
ghost use Rattle.std.specs.List.{find};
ghost use Rattle.asm_model.specs.Slots.{half_of, minus_half};
ghost use Rattle.asm_model.specs.Places.{start, standings, standing_at};
ghost use Rattle.asm_model.specs.Refused.{over, halfwords, by_base, by_goes, by_reference, resolved, in_range, passes, is_out, is_out_by, said_by};
ghost use Rattle.asm_places.specs.Found.{first_line};
ghost use Rattle.asm_places.specs.Spots.{at, IsLow, referred};

use crate::naming::Names;
use crate::spots::{self, Spot};
use asm_model::operands::{Given, Goes, Reference};
use asm_model::program::Defined;
use asm_model::statements::{Line, Operation, Source};

// A halfword with sign, of a number.
fn half_of(n: u64) -> u64
    ensures { result ≡ half_of n }
{
    if n < 32_768 { n } else { 65_536 }
}

// The same of its negative.
fn minus_half(n: u64) -> u64
    ensures { result ≡ minus_half n }
{
    if n <= 32_768 {
        (65_536 - n) % 65_536
    } else {
        65_536
    }
}

// The distance from a base.
fn over(to: u64, from: u64) -> u64
    ensures { result ≡ over to from }
{
    if to < from { 65_536 } else { to - from }
}

// The distance in halfwords, with sign.
fn halfwords(to: u64, from: u64) -> u64
    ensures { result ≡ halfwords to from }
{
    if to < from {
        let back = from - to;
        if back % 2 == 0 {
            minus_half(back / 2)
        } else {
            65_536
        }
    } else {
        let on = to - from;
        if on % 2 == 0 { half_of(on / 2) } else { 65_536 }
    }
}

// A distance in halfwords lies in the section of its instruction.
fn half_to(place: Defined, spot: Spot, to: u64) -> u64
    ensures { result ≡ (if place.section == spot.section then halfwords to spot.offset else 65536) }
{
    if place.section == spot.section {
        halfwords(to, spot.offset)
    } else {
        65_536
    }
}

fn with_reference(names: &Names, spot: Spot, reference: Reference, given: Given) -> Given
    ensures { result ≡ by_reference names.now (at spot) (referred reference) given }
{
    let place = names.place_of(reference.name);
    let to = place.offset + u64::from(reference.plus);
    match (reference.goes, spot.base) {
        (Goes::First, Some(base)) => Given {
            b1: base.register,
            d1: over(to, names.place_of(base.name).offset),
            ..given
        },
        (Goes::Second, Some(base)) => Given {
            b2: base.register,
            d2: over(to, names.place_of(base.name).offset),
            ..given
        },
        (Goes::First | Goes::Second, None) => given,
        (Goes::Half, _) => Given {
            imm: half_to(place, spot, to),
            ..given
        },
    }
}

/// The fields of an instruction that stands there, with its name in place.
#[tactic(auto, unfolding(asm_model::specs::Refused::resolved))]
pub fn resolved(names: &Names, spot: Spot, given: &Given) -> Given
    ensures { result ≡ resolved names.now (at spot) given.now }
{
    match given.to {
        None => *given,
        Some(reference) => with_reference(names, spot, reference, *given),
    }
}

#[tactic(auto, unfolding(asm_model::specs::Refused::in_range))]
fn is_in_range(given: &Given) -> bool
    ensures { result ≡ in_range given.now }
{
    given.r1 < 16
        && given.r2 < 16
        && given.b1 < 16
        && given.d1 < 4096
        && given.b2 < 16
        && given.d2 < 4096
        && given.imm < 65_536
        && given.len < 256
}

fn is_out_operation(names: &Names, spot: Spot, operation: &Operation) -> bool
    requires { IsLow spot }
    ensures { result ≡ is_out_by names.now (at spot) operation.now }
{
    match operation {
        Operation::Using(_, register) => *register >= 16,
        Operation::Instruction(given) => {
            let there = spots::standing_at(spot, operation);
            let given = resolved(names, there, given);
            !is_in_range(&given)
        }
        _ => false,
    }
}

fn is_out_line(names: &Names, spot: Spot, line: &Line) -> bool
    requires { IsLow spot }
    ensures { result ≡ said_by (is_out_by names.now) (at spot) line.now }
{
    match line {
        Line::Broken | Line::Unknown => false,
        Line::Said(statement) => is_out_operation(names, spot, &statement.operation),
    }
}

/// The first line with a field or distance outside its range.
#[tactic(auto, using(crate::proofs::RangeSteps::ranging_first, crate::proofs::RangeSteps::ranging_on, crate::proofs::RangeSteps::ranging_stops, crate::proofs::RangeSteps::ranging_ends))]
pub fn first_out(names: &Names, sources: &[Source]) -> Option<u32>
    requires { find passes (standings start sources.now) ≡ None }
    ensures { result ≡ first_line (is_out names.now) sources.now }
{
    let mut spot = spots::start();
    let mut rest = sources;
    while let Some((first, after)) = rest.split_first() {
        if is_out_line(names, spot, &first.line) {
            return Some(first.number);
        }
        spot = spots::after(spot, &first.line);
        rest = after;
    }
    None
}
