// The words of a schedule, one by one.
#![tactic(auto)]

ghost use Rattle.std.specs.Prelude.{◌≡◌, ◌<◌, ◌≤◌, ◌∷◌, [], length, min, None, IfSome, IfNone, MatchOption, option_map};
ghost use Rattle.std.specs.List.{position_or_len};
ghost use Rattle.run_model.specs.Numbers.{number_up_to};
ghost use Rattle.run_model.specs.Schedule.{words, run_of, count, is_separator, turns_of_digit, key_of_digit, return_of, Fits};
ghost use Rattle.turn_schedule.specs.Words.{IsNextWord};
ghost use Rattle.turn_schedule.specs.Clipped.{clipped, clipped_if};

use esa_model::machine::CpuNo;
use esa_words::{is_decimal, read_decimal};
use run_model::faults::CoreNo;
use run_model::schedules::{Run, RunKind};

// The turns that a count names, or 1,000,001 for any number above a million.
fn count_of(digits: &[u8]) -> Option<u32>
    ensures { result ≡ option_map clipped (count digits.now) }
{
    if !is_decimal(digits) {
        return None;
    }
    match read_decimal(digits, 1_000_000) {
        Some(0) => None,
        Some(n) => Some(n as u32),
        None => Some(1_000_001),
    }
}

// Turns of the CPU whose number is a digit.
fn turns(digit: u8, count: u32) -> Run
    requires { 48 ≤ digit }
    ensures { result ≡ turns_of_digit digit count }
{
    let cpu = CpuNo(digit - b'0');
    Run {
        what: RunKind::Turns(cpu),
        count,
    }
}

// The interrupt key of the CPU whose number is a digit.
fn key(digit: u8) -> Run
    requires { 48 ≤ digit }
    ensures { result ≡ key_of_digit digit }
{
    let cpu = CpuNo(digit - b'0');
    Run {
        what: RunKind::Key(cpu),
        count: 1,
    }
}

// The return of the core whose number is a decimal.
#[tactic(auto, unfolding(run_model::specs::Numbers::number_up_to))]
fn return_in(digits: &[u8]) -> Option<Run>
    ensures value { result ≡ option_map return_of (number_up_to 15 digits.now) }
    ensures fits { IfSome result (λ r. Fits 10 r.what) }
{
    let core = CoreNo(read_decimal(digits, 15)? as u8);
    Some(Run {
        what: RunKind::Return(core),
        count: 1,
    })
}

// Turns of the CPU whose number is a digit, as many as a decimal names.
fn turns_in(digit: u8, digits: &[u8]) -> Option<Run>
    requires { 48 ≤ digit }
    ensures { result ≡ clipped_if (option_map (turns_of_digit digit) (count digits.now)) }
{
    let count = count_of(digits)?;
    Some(turns(digit, count))
}

/// What one word says; a count above 1,000,000 is given as 1,000,001.
#[tactic(auto, unfolding(run_model::specs::Schedule::run_of))]
pub fn word_of(word: &[u8]) -> Option<Run>
    ensures value { result ≡ clipped_if (run_of word.now) }
    ensures fits { IfSome result (λ r. Fits 10 r.what) }
{
    if word.len() == 1 && word[0].is_ascii_digit() {
        return Some(turns(word[0], 1));
    }
    if word.len() == 2 && word[0] == b'K' && word[1].is_ascii_digit() {
        return Some(key(word[1]));
    }
    if word.len() > 1 && word[0] == b'R' {
        return return_in(&word[1..]);
    }
    if word.len() > 2 && word[0].is_ascii_digit() && word[1] == b'*' {
        return turns_in(word[0], &word[2..]);
    }
    None
}

// How many bytes stand before the first separator.
fn piece_len(text: &[u8]) -> usize
    ensures value { result ≡ position_or_len is_separator text.now }
    ensures within { result ≤ length text.now }
{
    for (i, b) in text.iter().enumerate() {
        if *b == b' ' || *b == b'\n' {
            return i;
        }
    }
    text.len()
}

/// The next word and what follows it.
pub fn next_word(text: &[u8]) -> Option<(&[u8], &[u8])>
    ensures some { IfSome result (λ p. IsNextWord text.now p.0.now p.1.now) }
    ensures none { IfNone result (words text.now ≡ []) }
{
    let mut rest = text;
    while rest.len() > 0 {
        let end = piece_len(rest);
        let (word, tail) = rest.split_at(end);
        if tail.len() == 0 {
            return Some((word, tail));
        }
        let (_separator, after) = tail.split_at(1);
        if end > 0 {
            return Some((word, after));
        }
        rest = after;
    }
    None
}
