//! What all lines leave behind: the place past them, their names and the external names.
ghost use Rattle.std.specs.Prelude.{◌≡◌, ◌+◌, ◌<◌, nat_lt, false, if◌then◌else◌, Some, None, IfOk, IfErr};
ghost use Rattle.asm_model.specs.Places.{start, done, after, last};
ghost use Rattle.asm_model.specs.Refused.{is_too_big, doubled_line};
ghost use Rattle.asm_places.specs.Found.{placing_refusal, MayBe};
ghost use Rattle.asm_places.specs.Named.{or_then};
ghost use Rattle.asm_places.specs.Spots.{with_named, of_externals, said};

use crate::externals::Externals;
use crate::naming::Names;
use crate::spots::{self, Spot};
use asm_model::program::Defined;
use asm_model::refusal::AsmRefusal;
use asm_model::statements::{Line, Operation, Source, Statement};
use std::alloc::{AllocError, Global};
use std::marker::Model;

/// What stands behind some lines.
#[derive(Drop)]
pub struct Places {
    spot: Spot,
    names: Names,
    externals: Externals,
}

impl Model for Places {
    ghost use Rattle.asm_model.specs.Places.{State};

    ghost Value = { State };

    ghost view = { λ p. record {
      ended = p.spot.ended;
      section = p.spot.section;
      offset = p.spot.offset;
      total = p.spot.total;
      base = p.spot.base;
      names = p.names;
      externals = p.externals;
    } };
}

// With the name of a statement that stands there.
fn with_named(names: Names, name: Option<u64>, spot: Spot) -> Result<Names, AllocError>
    requires { spot.offset < 4294967296 }
    ensures { IfOk result (λ n. n ≡ with_named names name spot) }
{
    match name {
        None => Ok(names),
        Some(name) => names.with(Defined {
            name,
            section: spot.section,
            offset: spot.offset,
        }),
    }
}

// With the external name of an operation.
fn with_external(externals: Externals, operation: &Operation) -> Result<Externals, AllocError>
    ensures { IfOk result (λ e. e ≡ (done (of_externals externals) operation.now).externals) }
{
    match operation {
        Operation::External(name) => externals.with_new(*name),
        _ => Ok(externals),
    }
}

fn are_too_many(sections: u32, externals: usize) -> bool
    ensures { result ≡ nat_lt 65535 (sections + externals) }
{
    65_535 < externals || 65_535 < u64::from(sections) + externals as u64
}

impl Places {
    /// Before all lines.
    pub fn new(alloc: Global) -> Places
        ensures { result ≡ start }
    {
        Places {
            spot: spots::start(),
            names: Names::new(alloc),
            externals: Externals::new(alloc),
        }
    }

    /// The names of the lines.
    pub fn names(&self) -> &Names
        ensures { result.now ≡ self.now.names }
    {
        &self.names
    }

    /// The different external names, in order of first use.
    pub fn externals(&self) -> &Externals
        ensures { result.now ≡ self.now.externals }
    {
        &self.externals
    }

    /// The same names.
    pub fn into_externals(self) -> Vec<u64>
        ensures { result.items ≡ self.externals }
    {
        let Places {
            spot: _,
            names: _,
            externals,
        } = self;
        externals.into_list()
    }

    /// How many sections have begun.
    pub fn section(&self) -> u32
        ensures { result ≡ self.now.section }
    {
        self.spot.section
    }

    // Whether a line has the name of an earlier one.
    fn has_name_of(&self, line: &Line) -> bool
        ensures { result ≡ doubled_line line.now self.now }
    {
        match line {
            Line::Broken | Line::Unknown => false,
            Line::Said(statement) => match statement.name {
                None => false,
                Some(name) => self.names.has(name),
            },
        }
    }

    // Whether a section, all of them together or their number is too large.
    fn is_too_big(&self) -> bool
        requires { self.now.total < 4294967296 }
        ensures { result ≡ is_too_big self.now }
    {
        let spot = self.spot;
        1_048_576 < spot.offset
            || 16_777_216 < spot.total + spot.offset
            || are_too_many(spot.section, self.externals.count())
    }

    // Past a statement.
    #[tactic(auto, using(crate::proofs::Viewed::low_view, crate::proofs::Viewed::after_view))]
    fn past(self, statement: &Statement) -> Result<Places, AllocError>
        requires { is_too_big self ≡ false }
        ensures { IfOk result (λ p. p ≡ after self (said statement.now)) }
    {
        let Places {
            spot,
            names,
            externals,
        } = self;
        let operation = &statement.operation;
        let there = spots::standing_at(spot, operation);
        Ok(Places {
            spot: spots::past(there, operation),
            names: with_named(names, statement.name, there)?,
            externals: with_external(externals, operation)?,
        })
    }

    // Past a line.
    #[tactic(auto, using(crate::proofs::Walks::total_low))]
    fn after(self, line: &Line) -> Result<Places, AllocError>
        requires { is_too_big self ≡ false }
        ensures after { IfOk result (λ p. p ≡ after self line.now) }
        ensures low { IfOk result (λ p. p.total < 4294967296) }
    {
        match line {
            Line::Broken | Line::Unknown => Ok(self),
            Line::Said(statement) => self.past(statement),
        }
    }
}

// The number that was found, else that of a line which is found here.
fn earlier(number: Option<u32>, found: bool, here: u32) -> Option<u32>
    ensures { result ≡ or_then number (if found then Some here else None) }
{
    match number {
        Some(number) => Some(number),
        None if found => Some(here),
        None => None,
    }
}

/// What stands behind all lines; or TooBig, else Doubled.
#[tactic(auto, using(crate::proofs::PlaceSteps::going_first, crate::proofs::PlaceSteps::going_on, crate::proofs::PlaceSteps::too_big, crate::proofs::PlaceSteps::doubled_there, crate::proofs::PlaceSteps::doubled_none, crate::proofs::PlaceSteps::end_there))]
pub fn places_of(alloc: Global, sources: &[Source]) -> Result<Places, AsmRefusal>
    ensures places { IfOk result (λ p. p ≡ last start sources.now) }
    ensures none { IfOk result (λ _. placing_refusal sources.now ≡ None) }
    ensures refused { IfErr result (MayBe (placing_refusal sources.now)) }
{
    let mut places = Places::new(alloc);
    let mut doubled = None;
    let mut rest = sources;
    while let Some((first, after)) = rest.split_first() {
        doubled = earlier(doubled, places.has_name_of(&first.line), first.number);
        places = match places.after(&first.line) {
            Ok(places) => places,
            Err(_) => return Err(AsmRefusal::NoMemory),
        };
        if places.is_too_big() {
            return Err(AsmRefusal::TooBig(first.number));
        }
        rest = after;
    }
    match doubled {
        Some(number) => Err(AsmRefusal::Doubled(number)),
        None => Ok(places),
    }
}
