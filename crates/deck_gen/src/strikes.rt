// The fault script: a strike for each 500 turns.
#![tactic(auto)]

ghost use Rattle.std.specs.Prelude.{◌≡◌, ◌+◌, ◌-◌, ◌*◌, ◌/◌, ◌%◌, ◌<◌, ◌≤◌, [], ◌∷◌, ◌++◌, codes, OnOk, IfOk};
ghost use Rattle.run_model.specs.Script.{core_no};
ghost use Rattle.program_model.specs.Draws.{draw, after};
ghost use Rattle.program_model.specs.Generator.{strike, draws_of_sort, strikes, strike_text, unit_text, attempts_text, and_number, script};
ghost use Rattle.deck_gen.specs.Parts.{next_strike, next_draws};

use crate::draws::Draws;
use crate::puts::put;
use esa_words::decimal;
use run_model::faults::{CoreNo, Strike, Unit};
use std::alloc::{AllocError, Global};

// The strike of a sort on a core at an attempt.
fn strike_of(sort: u32, core: CoreNo, attempt: u64, draws: &mut Draws) -> Strike
    requires { sort < 4 }
    ensures strike { result ≡ strike sort core attempt (draw 1 draws.old) (draw 2 draws.old) }
    ensures rest { draws.new ≡ after (draws_of_sort sort - 2) draws.old }
{
    match sort {
        0 => Strike::Packet(
            core,
            attempt,
            Unit::A,
            (draws.draw() % 4096) as u16,
            Some(1),
        ),
        1 => Strike::Fetch(core, attempt, (draws.draw() % 65) as u8),
        2 => Strike::Store(core, attempt, (draws.draw() % 4097) as u16),
        _ => {
            let (word, bit) = draws.two();
            Strike::Word(core, attempt, (word % 36) as u8, (bit % 39) as u8)
        }
    }
}

// The strike of line j, from 0.
fn next_strike(j: u32, draws: &mut Draws) -> Strike
    requires { j < 10000 }
    ensures strike { result ≡ next_strike j draws.old }
    ensures rest { draws.new ≡ after (next_draws draws.old) draws.old }
{
    let (attempt, sort) = draws.two();
    let core = CoreNo((j % 8) as u8);
    strike_of(
        sort % 4,
        core,
        u64::from(50 * (j / 8) + attempt % 32),
        draws,
    )
}

// Puts a blank and a number.
fn put_number(out: &mut Vec<u8>, n: u64) -> Result<(), AllocError>
    ensures { OnOk result (out.new.items ≡ out.old.items ++ and_number n) }
{
    put(out, b" ")?;
    put(out, &decimal(n))
}

fn unit_letter(unit: Unit) -> u8
    ensures { result ∷ [] ≡ unit_text unit }
{
    match unit {
        Unit::A => b'A',
        Unit::B => b'B',
    }
}

fn put_unit(out: &mut Vec<u8>, unit: Unit) -> Result<(), AllocError>
    ensures { OnOk result (out.new.items ≡ out.old.items ++ (codes " " ++ unit_text unit)) }
{
    put(out, b" ")?;
    put(out, &[unit_letter(unit)])
}

// Puts a blank, and how many attempts are struck.
fn put_attempts(out: &mut Vec<u8>, count: Option<u64>) -> Result<(), AllocError>
    ensures { OnOk result (out.new.items ≡ out.old.items ++ (codes " " ++ attempts_text count)) }
{
    match count {
        None => put(out, b" *"),
        Some(count) => put_number(out, count),
    }
}

// Puts a letter, the core and the first attempt.
fn put_head(out: &mut Vec<u8>, letter: u8, core: CoreNo, attempt: u64) -> Result<(), AllocError>
    ensures { OnOk result (out.new.items ≡ out.old.items ++ (letter ∷ and_number core.0 ++ and_number attempt)) }
{
    put(out, &[letter])?;
    put_number(out, u64::from(core.0))?;
    put_number(out, attempt)
}

fn put_strike(out: &mut Vec<u8>, strike: Strike) -> Result<(), AllocError>
    ensures { OnOk result (out.new.items ≡ out.old.items ++ strike_text strike) }
{
    match strike {
        Strike::Packet(core, attempt, unit, bit, count) => {
            put_head(out, b'U', core, attempt)?;
            put_unit(out, unit)?;
            put_number(out, u64::from(bit))?;
            put_attempts(out, count)
        }
        Strike::Fetch(core, attempt, bit) => {
            put_head(out, b'F', core, attempt)?;
            put_number(out, u64::from(bit))
        }
        Strike::Store(core, attempt, bit) => {
            put_head(out, b'S', core, attempt)?;
            put_number(out, u64::from(bit))
        }
        Strike::Word(core, attempt, word, bit) => {
            put_head(out, b'W', core, attempt)?;
            put_number(out, u64::from(word))?;
            put_number(out, u64::from(bit))
        }
    }
}

// Puts the line of a strike.
fn put_line(out: &mut Vec<u8>, strike: Strike) -> Result<(), AllocError>
    ensures { OnOk result (out.new.items ≡ out.old.items ++ (strike_text strike ++ 10 ∷ [])) }
{
    put_strike(out, strike)?;
    put(out, b"\n")
}

/// The script of so many strikes.
pub fn script_of(alloc: Global, count: u32, draws: &mut Draws) -> Result<Vec<u8>, AllocError>
    requires { count ≤ 10000 }
    ensures { IfOk result (λ s. s.items ≡ script (strikes count 0 draws.old)) }
{
    let mut out = Vec::new(alloc);
    for j in 0..count {
        let strike = next_strike(j, draws);
        put_line(&mut out, strike)?;
    }
    Ok(out)
}
