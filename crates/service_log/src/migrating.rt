// A log of version 1 brought to version 2.
#![tactic(auto)]

ghost use Rattle.std.specs.Prelude.{◌≡◌, ◌+◌, ◌<◌, ◌^◌, ◌∷◌, ◌++◌, [], length, IfSome, IfNone, IfOk, IfErr};
ghost use Rattle.run_model.specs.LogReading.{has_line_feed};
ghost use Rattle.run_model.specs.Migrate.{Answers, last_tail_in, lines_from, migrated, old_entry_in};
ghost use Rattle.run_model.specs.Script.{lines};
ghost use Rattle.run_model.specs.declared.logs.MigrateRefusal.TheVariants.{NoMemory};
ghost use Rattle.service_log.specs.Migrating.{AnswersEnd, made};

use crate::ends::{old_head_of, old_tail_of};
use crate::fields::cut;
use crate::reading::entry_of;
use crate::writing::{head_of, tail, write};
use crate::{Entry, MigrateRefusal, What};
use std::alloc::Global;

/// The first line of a text without its line feed, and what follows it. Where no line feed ends it,
/// nothing follows. None exactly where the text has no byte.
pub fn next_line(text: &[u8]) -> Option<(&[u8], &[u8])>
    ensures some { IfSome result (λ p. lines text.now ≡ p.0.now ∷ lines p.1.now) }
    ensures shorter { IfSome result (λ p. length p.1.now < length text.now) }
    ensures none { IfNone result (lines text.now ≡ []) }
{
    if text.len() == 0 {
        return None;
    }
    let (line, after) = cut(text, b'\n');
    let Some(after) = after else {
        return Some((line, b""));
    };
    Some((line, after))
}

fn ends_line(text: &[u8]) -> bool
    ensures { result ≡ has_line_feed text.now }
{
    text.len() > 0 && text[text.len() - 1] == b'\n'
}

// The entry of a line of version 1.
#[tactic(auto, unfolding(run_model::specs::Migrate::old_entry_in))]
fn old_entry_of(line: &[u8]) -> Option<Entry>
    ensures { result ≡ old_entry_in line.now }
{
    let entry = entry_of(line)?;
    match entry.what {
        What::Returned => None,
        _ => Some(entry),
    }
}

// The turns of a tail, where there is no line behind it.
fn last_tail(line: &[u8], after: &[u8]) -> Option<u64>
    ensures { result ≡ last_tail_in line.now (lines after.now) }
{
    if next_line(after).is_some() {
        return None;
    }
    old_tail_of(line)
}

// Adds a line to a text.
fn with_line(mut text: Vec<u8>, line: &[u8]) -> Result<Vec<u8>, MigrateRefusal>
    ensures ok { IfOk result (λ v. v.items ≡ text.items ++ line.now) }
    ensures err { IfErr result (λ e. e ≡ NoMemory) }
{
    if text.extend_from_slice(line).is_err() {
        return Err(MigrateRefusal::NoMemory);
    }
    Ok(text)
}

// The text at a line that is no entry, and has the turns of a last tail or not.
fn ended(
    text: Vec<u8>,
    fed: bool,
    number: u32,
    turns: Option<u64>,
) -> Result<Vec<u8>, MigrateRefusal>
    ensures { AnswersEnd fed number text.items turns (made (λ v. v.items) result) }
{
    let Some(turns) = turns else {
        return Err(MigrateRefusal::BadLine(number));
    };
    if !fed {
        return Err(MigrateRefusal::NoTail);
    }
    with_line(text, &tail(turns, 0))
}

// The text with the lines from the second on.
fn with_lines(text: Vec<u8>, fed: bool, from: &[u8]) -> Result<Vec<u8>, MigrateRefusal>
    requires { length from.now + 1 < 2 ^ 32 }
    ensures { Answers (lines_from fed 2 text.items (lines from.now)) (made (λ v. v.items) result) }
{
    let mut text = text;
    let mut rest = from;
    let mut number: u32 = 1;
    while let Some((line, after)) = next_line(rest) {
        number += 1;
        let Some(entry) = old_entry_of(line) else {
            return ended(text, fed, number, last_tail(line, after));
        };
        text = with_line(text, &write(&entry))?;
        rest = after;
    }
    Err(MigrateRefusal::NoTail)
}

/// The text of version 2 that has the numbers and the entries of a log of version 1, and no core
/// returned. BadLine has the first line that has not the form of its place. NoTail says that there
/// is no line, or that none is bad and the last is no tail or lacks its line feed.
#[tactic(auto, unfolding(run_model::specs::Migrate::migrated))]
pub fn migrate(alloc: Global, log: &[u8]) -> Result<Vec<u8>, MigrateRefusal>
    requires { length log.now < 2 ^ 32 }
    ensures { Answers (migrated log.now) (made (λ v. v.items) result) }
{
    let Some((first, rest)) = next_line(log) else {
        return Err(MigrateRefusal::NoTail);
    };
    let Some(h) = old_head_of(first) else {
        return Err(MigrateRefusal::BadLine(1));
    };
    let text = with_line(Vec::new(alloc), &head_of(h.cpus, h.spares, h.threshold))?;
    with_lines(text, ends_line(log), rest)
}
