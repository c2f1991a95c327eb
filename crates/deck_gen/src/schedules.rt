// The schedule: turns of CPU 0, then turns of CPUs that are drawn.
#![tactic(auto)]

ghost use Rattle.std.specs.Prelude.{◌≡◌, ◌+◌, ◌-◌, ◌*◌, ◌%◌, ◌<◌, ◌≤◌, [], ◌∷◌, ◌++◌, codes, length, min, OnOk, IfOk};
ghost use Rattle.program_model.specs.Draws.{draw, after};
ghost use Rattle.program_model.specs.Generator.{turns_of, run_text, later_runs, schedule, schedule_draws};
ghost use Rattle.deck_gen.specs.Parts.{later_text};

use crate::draws::Draws;
use crate::puts::put;
use esa_words::decimal;
use std::alloc::{AllocError, Global};

// The CPU and the turns of the next word, where so many turns are left.
fn draw_run(left: u32, draws: &mut Draws) -> (u32, u32)
    ensures cpu { result.0 ≡ draw 1 draws.old % 8 }
    ensures count { result.1 ≡ min left (8 + draw 2 draws.old % 9) }
    ensures rest { draws.new ≡ after 2 draws.old }
{
    let (cpu, count) = draws.two();
    (cpu % 8, left.min(8 + count % 9))
}

// Puts the word of so many turns of a CPU.
fn put_run(out: &mut Vec<u8>, cpu: u32, count: u32) -> Result<(), AllocError>
    ensures { OnOk result (out.new.items ≡ out.old.items ++ run_text (turns_of cpu count)) }
{
    put(out, &decimal(u64::from(cpu)))?;
    put(out, b"*")?;
    put(out, &decimal(u64::from(count)))
}

// Puts a blank and such a word.
fn put_next_run(out: &mut Vec<u8>, cpu: u32, count: u32) -> Result<(), AllocError>
    ensures { OnOk result (out.new.items ≡ out.old.items ++ (codes " " ++ run_text (turns_of cpu count))) }
{
    put(out, b" ")?;
    put_run(out, cpu, count)
}

// Puts the words behind the first 32 turns.
fn put_later_runs(out: &mut Vec<u8>, turns: u32, draws: &mut Draws) -> Result<(), AllocError>
    ensures text { OnOk result (out.new.items ≡ out.old.items ++ later_text turns draws.old) }
    ensures rest { OnOk result (draws.new ≡ after (schedule_draws turns draws.old) draws.old) }
{
    let mut left = turns.saturating_sub(32);
    while left > 0 {
        let (cpu, count) = draw_run(left, draws);
        put_next_run(out, cpu, count)?;
        left -= count;
    }
    Ok(())
}

/// The schedule of so many turns.
#[tactic(auto, unfolding(program_model::specs::Generator::schedule))]
pub fn schedule_of(alloc: Global, turns: u32, draws: &mut Draws) -> Result<Vec<u8>, AllocError>
    ensures schedule { IfOk result (λ s. s.items ≡ schedule turns draws.old) }
    ensures rest { OnOk result (draws.new ≡ after (schedule_draws turns draws.old) draws.old) }
{
    let mut out = Vec::new(alloc);
    put_run(&mut out, 0, turns.min(32))?;
    put_later_runs(&mut out, turns, draws)?;
    Ok(out)
}
