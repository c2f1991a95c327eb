// Head and tail of a log, of version 1 and of version 2.
#![tactic(auto)]

ghost use Rattle.std.specs.Prelude.{◌≡◌, [], ◌∷◌, IfSome};
ghost use Rattle.run_model.specs.Script.{fields};
ghost use Rattle.run_model.specs.LogReading.{are_head_words, heading_in, head_of, old_head_in, old_tail_in, tail_of};
ghost use Rattle.run_model.specs.LogReading.{old_tail_of as old_tail_of_fields};
ghost use Rattle.service_log.specs.Headings.{IsOfMachine, end_numbers, head_of_line, numbers, tail_of_line};
ghost use Rattle.service_log.specs.Parts.{AreHeadFields, AreTailFields};

use crate::fields::{Parts, cut_field, is_word, parted};
use crate::reading::{content, long_of};
use esa_words::read_decimal;

/// The numbers of a head: 1 to 8 CPUs, up to 8 spares, a threshold up to 15.
#[derive(Clone, Copy, Debug, PartialEq, Eq)]
pub struct Heading {
    pub cpus: u8,
    pub spares: u8,
    pub threshold: u8,
}

/// The numbers of a tail: the turns that were made, and the cores that were returned.
#[derive(Clone, Copy, Debug, PartialEq, Eq)]
pub struct Ending {
    pub turns: u64,
    pub returned: u64,
}

#[derive(Clone, Copy)]
struct HeadFields<'a> {
    name: &'a [u8],
    version: &'a [u8],
    cpus_word: &'a [u8],
    cpus: &'a [u8],
    spares_word: &'a [u8],
    spares: &'a [u8],
    threshold_word: &'a [u8],
    threshold: &'a [u8],
}

#[derive(Clone, Copy)]
struct TailFields<'a> {
    name: &'a [u8],
    turns: &'a [u8],
}

fn head_fields(line: &[u8]) -> Option<HeadFields<'_>>
    ensures { AreHeadFields (fields line.now) result }
{
    let (name, rest) = cut_field(line);
    let (version, rest) = cut_field(rest?);
    let (cpus_word, rest) = cut_field(rest?);
    let (cpus, rest) = cut_field(rest?);
    let (spares_word, rest) = cut_field(rest?);
    let (spares, rest) = cut_field(rest?);
    let (threshold_word, rest) = cut_field(rest?);
    let (threshold, rest) = cut_field(rest?);
    if rest.is_some() {
        return None;
    }
    Some(HeadFields {
        name,
        version,
        cpus_word,
        cpus,
        spares_word,
        spares,
        threshold_word,
        threshold,
    })
}

fn tail_fields(line: &[u8]) -> Option<TailFields<'_>>
    ensures { AreTailFields (fields line.now) result }
{
    let (name, rest) = cut_field(line);
    let (turns, rest) = cut_field(rest?);
    if rest.is_some() {
        return None;
    }
    Some(TailFields { name, turns })
}

// One to eight CPUs, up to eight spares, a threshold up to fifteen.
fn heading_of(cpus: &[u8], spares: &[u8], threshold: &[u8]) -> Option<Heading>
    ensures value { numbers result ≡ heading_in cpus.now spares.now threshold.now }
    ensures ranges { IfSome result IsOfMachine }
{
    let cpus = read_decimal(cpus, 8)?;
    if cpus == 0 {
        return None;
    }
    let spares = read_decimal(spares, 8)?;
    let threshold = read_decimal(threshold, 15)?;
    Some(Heading {
        cpus: cpus as u8,
        spares: spares as u8,
        threshold: threshold as u8,
    })
}

fn has_head_words(h: &HeadFields<'_>, version: &[u8]) -> bool
    ensures { result ≡ are_head_words version.now h.now.name.now h.now.version.now
        h.now.cpus_word.now h.now.spares_word.now h.now.threshold_word.now }
{
    is_word(h.name, b"G5LOG")
        && is_word(h.version, version)
        && is_word(h.cpus_word, b"CPUS")
        && is_word(h.spares_word, b"SPARES")
        && is_word(h.threshold_word, b"THRESHOLD")
}

// The numbers of a line that is a head of this version.
fn head_of_fields(line: &[u8], version: &[u8]) -> Option<Heading>
    ensures value { numbers result ≡ head_of version.now (fields line.now) }
    ensures ranges { IfSome result IsOfMachine }
{
    let h = head_fields(line)?;
    if !has_head_words(&h, version) {
        return None;
    }
    heading_of(h.cpus, h.spares, h.threshold)
}

/// The numbers of a text, where it is a head of version 1 without its line feed.
#[tactic(auto, unfolding(run_model::specs::LogReading::old_head_in))]
pub fn old_head_of(text: &[u8]) -> Option<Heading>
    ensures { numbers result ≡ old_head_in text.now }
{
    head_of_fields(text, b"1")
}

/// The numbers of a line that is a head of version 2; None exactly where it is no such head.
#[tactic(auto, unfolding(crate::specs::Headings::head_of_line, run_model::specs::LogReading::head_in))]
pub fn read_head(line: &[u8]) -> Option<Heading>
    ensures value { numbers result ≡ head_of_line line.now }
    ensures ranges { IfSome result IsOfMachine }
{
    head_of_fields(content(line)?, b"2")
}

fn turns_of_fields(text: &[u8]) -> Option<u64>
    ensures { result ≡ old_tail_of_fields (fields text.now) }
{
    let t = tail_fields(text)?;
    if !is_word(t.name, b"END") {
        return None;
    }
    long_of(t.turns)
}

/// The turns of a text, where it is a tail of version 1 without its line feed.
#[tactic(auto, unfolding(run_model::specs::LogReading::old_tail_in))]
pub fn old_tail_of(text: &[u8]) -> Option<u64>
    ensures { result ≡ old_tail_in text.now }
{
    turns_of_fields(text)
}

// The numbers of the fields of a tail.
fn ending_of(name: &[u8], turns: &[u8], word: &[u8], returned: &[u8]) -> Option<Ending>
    ensures { end_numbers result
        ≡ tail_of (name.now ∷ turns.now ∷ word.now ∷ returned.now ∷ []) }
{
    if !is_word(name, b"END") || !is_word(word, b"RETURNED") {
        return None;
    }
    let turns = long_of(turns)?;
    let returned = long_of(returned)?;
    Some(Ending { turns, returned })
}

fn ending_of_fields(text: &[u8]) -> Option<Ending>
    ensures { end_numbers result ≡ tail_of (fields text.now) }
{
    match parted(text) {
        Parts::Four(name, turns, word, returned) => ending_of(name, turns, word, returned),
        Parts::Five(_, _, _, _, _) => None,
        Parts::Six(_, _, _, _, _, _) => None,
        Parts::Other => None,
    }
}

/// The numbers of a line that is a tail of version 2; None exactly where it is no such tail.
#[tactic(auto, unfolding(crate::specs::Headings::tail_of_line, run_model::specs::LogReading::tail_in))]
pub fn read_tail(line: &[u8]) -> Option<Ending>
    ensures { end_numbers result ≡ tail_of_line line.now }
{
    ending_of_fields(content(line)?)
}
