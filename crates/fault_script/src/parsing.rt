// A whole script.
#![tactic(auto)]

ghost use Rattle.std.specs.Prelude.{◌≡◌, ◌<◌, ◌≤◌, ◌^◌, ◌∷◌, [], length, IfSome, IfNone};
ghost use Rattle.std.specs.Prelude.{MatchResult, Ok};
ghost use Rattle.std.specs.List.{position_or_len};
ghost use Rattle.run_model.specs.Script.{is_line_feed, lines, script, MayRefuse};

use crate::gathered::Gathered;
use crate::lines::read_line;
use crate::verdict::script_of;
use crate::{Script, ScriptRefusal};
use std::alloc::Global;

fn line_len(text: &[u8]) -> usize
    ensures value { result ≡ position_or_len is_line_feed text.now }
    ensures within { result ≤ length text.now }
{
    for (i, b) in text.iter().enumerate() {
        if *b == 10 {
            return i;
        }
    }
    text.len()
}

// The next line and what follows it.
fn next_line(text: &[u8]) -> Option<(&[u8], &[u8])>
    ensures some { IfSome result (λ p. (lines text.now ≡ p.0.now ∷ lines p.1.now)
        × (length p.1.now < length text.now)) }
    ensures none { IfNone result (lines text.now ≡ []) }
{
    if text.len() == 0 {
        return None;
    }
    let (line, tail) = text.split_at(line_len(text));
    if tail.len() == 0 {
        return Some((line, tail));
    }
    let (_feed, after) = tail.split_at(1);
    Some((line, after))
}

/// The strikes of a script, or its first refusal.
pub fn parse(alloc: Global, text: &[u8]) -> Result<Script, ScriptRefusal>
    requires { length text.now < 2 ^ 32 }
    ensures { MatchResult result (λ s. script text.now ≡ Ok s)
        (λ e. MayRefuse (script text.now) e) }
{
    let mut gathered = Gathered::new(alloc);
    let mut rest = text;
    let mut number: u32 = 0;
    while let Some((line, after)) = next_line(rest) {
        number += 1;
        if number > 10_000 {
            return Err(ScriptRefusal::TooMany(number));
        }
        rest = after;
        if line.len() == 0 {
            continue;
        }
        let strike = match read_line(number, line) {
            Ok(strike) => strike,
            Err(refusal) => return Err(refusal),
        };
        if gathered.has_latch_of(strike) {
            return Err(ScriptRefusal::TwoAtOneAttempt(number));
        }
        gathered = match gathered.with(strike) {
            Ok(more) => more,
            Err(_) => return Err(ScriptRefusal::NoMemory),
        };
    }
    match script_of(alloc, gathered) {
        Ok(script) => Ok(script),
        Err(_) => Err(ScriptRefusal::NoMemory),
    }
}
