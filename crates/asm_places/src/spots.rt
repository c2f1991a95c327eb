//! Where a statement stands: what a line finds before it, but for names.
ghost use Rattle.std.specs.Prelude.{◌≡◌, ◌+◌, ◌≤◌};
ghost use Rattle.asm_model.specs.Places.{start, done, standing_at, past, size, after};
ghost use Rattle.asm_places.specs.Spots.{at, spot_of, IsLow};

use crate::sizes::{alignment, raised, size};
use asm_model::program::Base;
use asm_model::statements::{Line, Operation};

/// Whether END came; how many sections have begun, the offset in the last and the bytes of those
/// before it; the base.
#[derive(Clone, Copy, Debug, PartialEq, Eq)]
pub struct Spot {
    pub ended: bool,
    pub section: u32,
    pub offset: u64,
    pub total: u64,
    pub base: Option<Base>,
}

/// Before all lines.
pub fn start() -> Spot
    ensures spot { at result ≡ start }
    ensures low { IsLow result }
{
    Spot {
        ended: false,
        section: 0,
        offset: 0,
        total: 0,
        base: None,
    }
}

// Past what an operation does beside its bytes.
fn done(spot: Spot, operation: &Operation) -> Spot
    requires { IsLow spot }
    ensures spot { result ≡ spot_of (done (at spot) operation.now) }
    ensures low { result.offset ≤ 1048576 }
{
    match operation {
        Operation::Section => Spot {
            section: spot.section + 1,
            offset: 0,
            total: spot.total + spot.offset,
            ..spot
        },
        Operation::Using(name, register) => Spot {
            base: Some(Base {
                name: *name,
                register: *register,
            }),
            ..spot
        },
        Operation::End(_) => Spot {
            ended: true,
            ..spot
        },
        _ => spot,
    }
}

/// Where an operation lies that finds this before it.
#[tactic(auto, using(crate::proofs::Walks::standing_is))]
pub fn standing_at(spot: Spot, operation: &Operation) -> Spot
    requires { IsLow spot }
    ensures spot { result ≡ spot_of (standing_at (at spot) operation.now) }
    ensures low { result.offset ≤ 1048583 }
{
    let after = done(spot, operation);
    Spot {
        offset: raised(alignment(operation), after.offset),
        ..after
    }
}

// Past the bytes of an operation that stands there.
pub fn past(spot: Spot, operation: &Operation) -> Spot
    requires { spot.offset ≤ 1048583 }
    ensures { result ≡ spot_of (past (size operation.now) (at spot)) }
{
    Spot {
        offset: spot.offset + size(operation),
        ..spot
    }
}

/// Past a line.
#[tactic(auto, using(crate::proofs::Walks::after_said))]
pub fn after(spot: Spot, line: &Line) -> Spot
    requires { IsLow spot }
    ensures { result ≡ spot_of (after (at spot) line.now) }
{
    match line {
        Line::Broken | Line::Unknown => spot,
        Line::Said(statement) => {
            let operation = &statement.operation;
            past(standing_at(spot, operation), operation)
        }
    }
}
