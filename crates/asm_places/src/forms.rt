//! The refusals that need no places: lines that are not of a form, unknown, before all sections, and
//! a source without END.
ghost use Rattle.std.specs.Prelude.{◌≡◌, ◌||◌};
ghost use Rattle.asm_model.specs.Places.{start, last};
ghost use Rattle.asm_model.specs.Refused.{is_bad, is_broken, is_unknown, has_no_section, said_by, is_outside};
ghost use Rattle.asm_places.specs.Found.{first_line};
ghost use Rattle.asm_places.specs.Kinds.{begins};
ghost use Rattle.asm_places.specs.Spots.{of_section};

use crate::kinds::{begins, ends, is_broken, is_unknown};
use asm_model::statements::{Line, Operation, Source};

// Whether a line is not of a form, or follows END.
fn is_bad(ended: bool, line: &Line) -> bool
    ensures { result ≡ (ended || is_broken line.now) }
{
    ended || is_broken(line)
}

/// The first line that is not of a form, or follows END.
#[tactic(auto, using(crate::proofs::FormSteps::bad_stops, crate::proofs::FormSteps::bad_goes))]
pub fn first_bad(sources: &[Source]) -> Option<u32>
    ensures { result ≡ first_line is_bad sources.now }
{
    let mut ended = false;
    let mut rest = sources;
    while let Some((first, after)) = rest.split_first() {
        if is_bad(ended, &first.line) {
            return Some(first.number);
        }
        ended = ends(&first.line);
        rest = after;
    }
    None
}

/// The first line whose operation is none of the language.
#[tactic(auto, using(crate::proofs::FormSteps::unknown_stops, crate::proofs::FormSteps::unknown_goes))]
pub fn first_unknown(sources: &[Source]) -> Option<u32>
    ensures { result ≡ first_line is_unknown sources.now }
{
    let mut rest = sources;
    while let Some((first, after)) = rest.split_first() {
        if is_unknown(&first.line) {
            return Some(first.number);
        }
        rest = after;
    }
    None
}

// Whether a line stands before all sections, and is a statement that does not.
fn is_outside(begun: bool, line: &Line) -> bool
    ensures { result ≡ said_by is_outside (of_section begun) line.now }
{
    match line {
        Line::Broken | Line::Unknown => false,
        Line::Said(statement) => match statement.operation {
            Operation::Section | Operation::End(_) => false,
            _ => !begun,
        },
    }
}

// Whether a section has begun past a line.
fn is_begun(begun: bool, line: &Line) -> bool
    ensures { result ≡ (begun || begins line.now) }
{
    begun || begins(line)
}

/// The first statement other than CSECT and END before all sections.
#[tactic(auto, using(crate::proofs::FormSteps::outside_stops, crate::proofs::FormSteps::outside_goes))]
pub fn first_outside(sources: &[Source]) -> Option<u32>
    ensures { result ≡ first_line has_no_section sources.now }
{
    let mut begun = false;
    let mut rest = sources;
    while let Some((first, after)) = rest.split_first() {
        if is_outside(begun, &first.line) {
            return Some(first.number);
        }
        begun = is_begun(begun, &first.line);
        rest = after;
    }
    None
}

/// Whether the source has END.
#[tactic(auto, using(crate::proofs::FormSteps::end_stops, crate::proofs::FormSteps::end_goes))]
pub fn has_end(sources: &[Source]) -> bool
    ensures { result ≡ (last start sources.now).ended }
{
    let mut rest = sources;
    while let Some((first, after)) = rest.split_first() {
        if ends(&first.line) {
            return true;
        }
        rest = after;
    }
    false
}
