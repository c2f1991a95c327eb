//! The sections, address words and entry of a source that is not refused.
ghost use Rattle.std.specs.Prelude.{◌≡◌, ◌+◌, ◌≤◌, ◌++◌, length, IfOk};
ghost use Rattle.asm_model.specs.Places.{start, standings, standing_at, last};
ghost use Rattle.asm_model.specs.Program.{Program, placed_bytes, name_or_zero, line_before, entry_named, entry_in, program_of, assembly};
ghost use Rattle.asm_places.specs.Fitting.{FieldsFit, LineFits, AllFit};
ghost use Rattle.asm_places.specs.Spots.{at, spot_of, IsLow};
ghost use Rattle.asm_places.specs.WrittenLines.{words_of, opened, extended, section_named, joined, end_name, of_names};

use crate::emission::{push_placed, push_word};
use crate::kinds::is_section;
use crate::naming::Names;
use crate::places::Places;
use crate::spots::{self, Spot};
use asm_model::program::{Constant, Defined, Section};
use asm_model::statements::{Line, Operation, Source};
use std::alloc::{AllocError, Global};
use std::marker::Model;

/// A program: its sections with their bytes, its different external names in order of first use, the
/// address words that lie in the sections, and the entry of END.
#[derive(Drop)]
pub struct Assembly {
    pub sections: Vec<Section>,
    pub externals: Vec<u64>,
    pub constants: Vec<Constant>,
    pub entry: Option<Defined>,
}

impl Model for Assembly {
    ghost use Rattle.asm_model.specs.Program.{Assembly as AssemblyOfSource};

    ghost Value = { AssemblyOfSource };

    ghost view = { λ a. record {
      sections = a.sections.items;
      externals = a.externals.items;
      constants = a.constants.items;
      entry = a.entry;
    } };
}

// What is written of a program: the section that is open, the sections before it, and the address
// words.
#[derive(Drop)]
struct Written {
    held: Option<Section>,
    sections: Vec<Section>,
    constants: Vec<Constant>,
}

// The sections, with one that was open.
fn closed(mut sections: Vec<Section>, held: Option<Section>) -> Result<Vec<Section>, AllocError>
    ensures { IfOk result (λ v. v.items ≡ sections.items ++ opened held) }
{
    if let Some(section) = held {
        sections.push(section)?;
    }
    Ok(sections)
}

// With the bytes of an operation that begins no section, where one is open.
fn extended(
    held: Option<Section>,
    places: &Places,
    spot: Spot,
    operation: &Operation,
) -> Result<Option<Section>, AllocError>
    requires low { IsLow spot }
    requires fields { FieldsFit places.now.names (standing_at (at spot) operation.now) operation.now }
    ensures { IfOk result (λ o. o ≡ extended held (placed_bytes places.now (at spot) operation.now)) }
{
    let Some(section) = held else {
        return Ok(None);
    };
    let Section { name, mut bytes } = section;
    push_placed(&mut bytes, places, spot, operation)?;
    Ok(Some(Section { name, bytes }))
}

// With a section of this name begun.
fn begun(alloc: Global, written: Written, name: Option<u64>) -> Result<Written, AllocError>
    ensures held { IfOk result (λ w. w.held ≡ section_named name) }
    ensures sections { IfOk result (λ w.
        w.sections.items ≡ written.sections.items ++ opened written.held) }
    ensures constants { IfOk result (λ w. w.constants.items ≡ written.constants.items) }
{
    let Written {
        held,
        sections,
        constants,
    } = written;
    Ok(Written {
        held: Some(Section {
            name: name_or_zero(name),
            bytes: Vec::new(alloc),
        }),
        sections: closed(sections, held)?,
        constants,
    })
}

fn name_or_zero(name: Option<u64>) -> u64
    ensures { result ≡ name_or_zero name }
{
    match name {
        Some(name) => name,
        None => 0,
    }
}

// With an operation that begins no section.
fn continued(
    written: Written,
    places: &Places,
    spot: Spot,
    operation: &Operation,
) -> Result<Written, AllocError>
    requires low { IsLow spot }
    requires count { places.now.section + length places.now.externals ≤ 65535 }
    requires fields { FieldsFit places.now.names (standing_at (at spot) operation.now) operation.now }
    ensures held { IfOk result (λ w.
        w.held ≡ extended written.held (placed_bytes places.now (at spot) operation.now)) }
    ensures sections { IfOk result (λ w. w.sections.items ≡ written.sections.items) }
    ensures constants { IfOk result (λ w. w.constants.items
        ≡ written.constants.items ++ words_of places.now (at spot) operation.now) }
{
    let Written {
        held,
        sections,
        mut constants,
    } = written;
    push_word(&mut constants, places, spot, operation)?;
    Ok(Written {
        held: extended(held, places, spot, operation)?,
        sections,
        constants,
    })
}

// With a line.
#[tactic(auto, using(crate::proofs::ProgramSteps::section_line, crate::proofs::ProgramSteps::section_words, crate::proofs::ProgramSteps::plain_line, crate::proofs::ProgramSteps::plain_words))]
fn with_line(
    alloc: Global,
    written: Written,
    places: &Places,
    spot: Spot,
    line: &Line,
) -> Result<Written, AllocError>
    requires low { IsLow spot }
    requires count { places.now.section + length places.now.externals ≤ 65535 }
    requires fields { LineFits places.now.names (at spot) line.now }
    ensures sections { IfOk result (λ w. (p : Program)
        → w.sections.items ++ joined w.held p
        ≡ written.sections.items ++ joined written.held (line_before places.now (at spot) line.now p)) }
    ensures constants { IfOk result (λ w. (p : Program)
        → w.constants.items ++ p.constants
        ≡ written.constants.items ++ (line_before places.now (at spot) line.now p).constants) }
{
    match line {
        Line::Broken | Line::Unknown => Ok(written),
        Line::Said(statement) => {
            if is_section(&statement.operation) {
                begun(alloc, written, statement.name)
            } else {
                continued(written, places, spot, &statement.operation)
            }
        }
    }
}

// All lines.
#[tactic(auto, using(crate::proofs::ProgramSteps::left_first, crate::proofs::ProgramSteps::left_on, crate::proofs::ProgramSteps::left_sections, crate::proofs::ProgramSteps::left_constants))]
fn write_lines(alloc: Global, places: &Places, sources: &[Source]) -> Result<Written, AllocError>
    requires count { places.now.section + length places.now.externals ≤ 65535 }
    requires fits { AllFit places.now.names (spot_of start) sources.now }
    ensures sections { IfOk result (λ w. w.sections.items ++ opened w.held
        ≡ (program_of places.now (standings start sources.now)).sections) }
    ensures constants { IfOk result (λ w. w.constants.items
        ≡ (program_of places.now (standings start sources.now)).constants) }
{
    let mut written = Written {
        held: None,
        sections: Vec::new(alloc),
        constants: Vec::new(alloc),
    };
    let mut spot = spots::start();
    let mut rest = sources;
    while let Some((first, after)) = rest.split_first() {
        written = with_line(alloc, written, places, spot, &first.line)?;
        spot = spots::after(spot, &first.line);
        rest = after;
    }
    Ok(written)
}

// The name of END, and whether the line is one.
fn end_name(line: &Line) -> Option<Option<u64>>
    ensures { result ≡ end_name line.now }
{
    match line {
        Line::Broken | Line::Unknown => None,
        Line::Said(statement) => match statement.operation {
            Operation::End(name) => Some(name),
            _ => None,
        },
    }
}

fn entry_named(names: &Names, name: Option<u64>) -> Option<Defined>
    ensures { result ≡ entry_named (of_names names.now) name }
{
    match name {
        Some(name) => Some(names.place_of(name)),
        None => None,
    }
}

// The place that END names.
#[tactic(auto, using(crate::proofs::ProgramSteps::entry_stops, crate::proofs::ProgramSteps::entry_goes))]
fn entry_of(names: &Names, sources: &[Source]) -> Option<Defined>
    ensures { result ≡ entry_in (of_names names.now) (standings start sources.now) }
{
    let mut rest = sources;
    while let Some((first, after)) = rest.split_first() {
        if let Some(name) = end_name(&first.line) {
            return entry_named(names, name);
        }
        rest = after;
    }
    None
}

/// The program of a source that is not refused: `places` is what stands behind its lines.
#[tactic(auto, using(crate::proofs::ProgramSteps::assembly_is))]
pub fn program(alloc: Global, places: Places, sources: &[Source]) -> Result<Assembly, AllocError>
    requires places { places ≡ last start sources.now }
    requires count { places.section + length places.externals ≤ 65535 }
    requires fits { AllFit places.names (spot_of start) sources.now }
    ensures { IfOk result (λ a. a ≡ assembly sources.now) }
{
    let entry = entry_of(places.names(), sources);
    let Written {
        held,
        sections,
        constants,
    } = write_lines(alloc, &places, sources)?;
    Ok(Assembly {
        sections: closed(sections, held)?,
        externals: places.into_externals(),
        constants,
        entry,
    })
}
