// All three texts, drawn from one stream.
#![tactic(auto)]

ghost use Rattle.std.specs.Prelude.{◌≡◌, ◌≤◌, IfOk};
ghost use Rattle.program_model.specs.Generator.{generated};
ghost use Rattle.deck_gen.specs.Accepted.{AreInLimits, IsDeck, IsInput, IsSchedule, IsScript};

use crate::NoMemory;
use crate::cards::deck_of;
use crate::draws::Draws;
use crate::schedules::schedule_of;
use crate::strikes::script_of;
use std::alloc::Global;

/// An input of a run: the deck, the schedule and the fault script.
#[derive(Drop)]
pub struct Generated {
    pub deck: Vec<u8>,
    pub schedule: Vec<u8>,
    pub script: Vec<u8>,
}

// The texts of the definition.
#[tactic(auto, unfolding(program_model::specs::Generator::generated))]
fn draw_texts(alloc: Global, number: u32, turns: u32) -> Result<Generated, NoMemory>
    requires { turns ≤ 1000000 }
    ensures deck { IfOk result (λ g. g.deck.items ≡ (generated number turns).deck) }
    ensures schedule { IfOk result (λ g. g.schedule.items ≡ (generated number turns).schedule) }
    ensures script { IfOk result (λ g. g.script.items ≡ (generated number turns).script) }
{
    let mut draws = Draws::new(number);
    let deck = deck_of(alloc, &mut draws)?;
    let schedule = schedule_of(alloc, turns, &mut draws)?;
    let script = script_of(alloc, turns / 500, &mut draws)?;
    Ok(Generated {
        deck,
        schedule,
        script,
    })
}

/// What is drawn from a number, for 1 to 1,000,000 turns. The deck has an image in a storage of
/// 128 KiB and is entered at X'10000', the schedule is one of so many turns for 8 CPUs, and the
/// script is within the premise. Each text is within the limit of its input.
pub fn generate(alloc: Global, number: u32, turns: u32) -> Result<Generated, NoMemory>
    requires some { 1 ≤ turns }
    requires few { turns ≤ 1000000 }
    ensures deck { IfOk result (λ g. g.deck.items ≡ (generated number turns).deck) }
    ensures schedule { IfOk result (λ g. g.schedule.items ≡ (generated number turns).schedule) }
    ensures script { IfOk result (λ g. g.script.items ≡ (generated number turns).script) }
    ensures image { IfOk result (λ g. IsDeck g.deck.items) }
    ensures turns { IfOk result (λ g. IsSchedule number turns g.schedule.items) }
    ensures strikes { IfOk result (λ g. IsScript number turns g.script.items) }
    ensures limits { IfOk result (λ g. AreInLimits g.deck.items g.schedule.items g.script.items) }
    ensures input { IsInput number turns }
{
    let texts = draw_texts(alloc, number, turns)?;
    Ok(texts)
}
