//! The refusals of names: those that no line defines, and addresses without a base.
ghost use Rattle.std.specs.Prelude.{◌≡◌, None};
ghost use Rattle.asm_model.specs.Places.{after};
ghost use Rattle.asm_model.specs.Refused.{is_missing, is_undefined, is_baseless, lacks_by, has_no_base, said_by, wanted, reference_of};
ghost use Rattle.asm_places.specs.Found.{first_line};
ghost use Rattle.asm_places.specs.Spots.{of_base};

use crate::kinds::{reference_of, wanted};
use crate::naming::Names;
use asm_model::operands::{Goes, Reference};
use asm_model::program::Base;
use asm_model::statements::{Line, Operation, Source};

// Whether no line defines the name that a line needs.
fn is_undefined(names: &Names, line: &Line) -> bool
    ensures { result ≡ said_by (λ t o. is_missing names.now (wanted o)) (of_base None) line.now }
{
    match line {
        Line::Broken | Line::Unknown => false,
        Line::Said(statement) => match wanted(&statement.operation) {
            None => false,
            Some(name) => !names.has(name),
        },
    }
}

/// The first line that needs a name which no line defines.
#[tactic(auto, using(crate::proofs::NameSteps::undefined_stops, crate::proofs::NameSteps::undefined_goes))]
pub fn first_undefined(names: &Names, sources: &[Source]) -> Option<u32>
    ensures { result ≡ first_line (is_undefined names.now) sources.now }
{
    let mut rest = sources;
    while let Some((first, after)) = rest.split_first() {
        if is_undefined(names, &first.line) {
            return Some(first.number);
        }
        rest = after;
    }
    None
}

// Whether the base is none, or lies in another section than the name.
fn is_baseless(names: &Names, name: u64, base: Option<Base>) -> bool
    ensures { result ≡ is_baseless names.now name base }
{
    match base {
        None => true,
        Some(base) => names.place_of(base.name).section != names.place_of(name).section,
    }
}

fn lacks_base(names: &Names, base: Option<Base>, reference: Option<Reference>) -> bool
    ensures { result ≡ lacks_by names.now (of_base base) reference }
{
    match reference {
        None => false,
        Some(reference) => match reference.goes {
            Goes::Half => false,
            Goes::First | Goes::Second => is_baseless(names, reference.name, base),
        },
    }
}

// Whether an address of a line is a name that has no base.
fn has_no_base(names: &Names, base: Option<Base>, line: &Line) -> bool
    ensures { result ≡ said_by (λ t o. lacks_by names.now t (reference_of o)) (of_base base) line.now }
{
    match line {
        Line::Broken | Line::Unknown => false,
        Line::Said(statement) => lacks_base(names, base, reference_of(&statement.operation)),
    }
}

fn base_after(base: Option<Base>, line: &Line) -> Option<Base>
    ensures { result ≡ (after (of_base base) line.now).base }
{
    match line {
        Line::Broken | Line::Unknown => base,
        Line::Said(statement) => match statement.operation {
            Operation::Using(name, register) => Some(Base { name, register }),
            _ => base,
        },
    }
}

/// The first line with an address that is a name and has no base in its section.
#[tactic(auto, using(crate::proofs::NameSteps::baseless_stops, crate::proofs::NameSteps::baseless_goes))]
pub fn first_baseless(names: &Names, sources: &[Source]) -> Option<u32>
    ensures { result ≡ first_line (has_no_base names.now) sources.now }
{
    let mut base = None;
    let mut rest = sources;
    while let Some((first, after)) = rest.split_first() {
        if has_no_base(names, base, &first.line) {
            return Some(first.number);
        }
        base = base_after(base, &first.line);
        rest = after;
    }
    None
}
