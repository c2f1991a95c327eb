//! What a line is, without its place.
ghost use Rattle.std.specs.Prelude.{◌≡◌};
ghost use Rattle.asm_model.specs.Refused.{is_broken, is_unknown_line, wanted, reference_name, reference_of};
ghost use Rattle.asm_places.specs.Kinds.{ends, is_section, begins};

use asm_model::operands::Reference;
use asm_model::statements::{Line, Operation};

pub fn is_broken(line: &Line) -> bool
    ensures { result ≡ is_broken line.now }
{
    match line {
        Line::Broken => true,
        Line::Unknown | Line::Said(_) => false,
    }
}

pub fn is_unknown(line: &Line) -> bool
    ensures { result ≡ is_unknown_line line.now }
{
    match line {
        Line::Unknown => true,
        Line::Broken | Line::Said(_) => false,
    }
}

/// Whether a line is END.
pub fn ends(line: &Line) -> bool
    ensures { result ≡ ends line.now }
{
    match line {
        Line::Broken | Line::Unknown => false,
        Line::Said(statement) => match statement.operation {
            Operation::End(_) => true,
            _ => false,
        },
    }
}

/// Whether an operation is CSECT.
pub fn is_section(operation: &Operation) -> bool
    ensures { result ≡ is_section operation.now }
{
    match operation {
        Operation::Section => true,
        _ => false,
    }
}

/// Whether a line is CSECT.
pub fn begins(line: &Line) -> bool
    ensures { result ≡ begins line.now }
{
    match line {
        Line::Broken | Line::Unknown => false,
        Line::Said(statement) => is_section(&statement.operation),
    }
}

/// The name that an operation needs, and that is not external.
pub fn wanted(operation: &Operation) -> Option<u64>
    ensures { result ≡ wanted operation.now }
{
    match operation {
        Operation::Address(name, _) | Operation::Using(name, _) => Some(*name),
        Operation::End(entry) => *entry,
        Operation::Instruction(given) => match given.to {
            Some(reference) => Some(reference.name),
            None => None,
        },
        _ => None,
    }
}

/// The name among the operands of an instruction.
pub fn reference_of(operation: &Operation) -> Option<Reference>
    ensures { result ≡ reference_of operation.now }
{
    match operation {
        Operation::Instruction(given) => given.to,
        _ => None,
    }
}
