// The run of a generated input.
ghost use Rattle.std.specs.Prelude.{◌≡◌, ◌≤◌, IfOk};
ghost use Rattle.silicon.specs.Chip.{Fresh};
ghost use Rattle.gen_runs.specs.Generated.{IsGeneratedRun};

use crate::counting::count_runs;
use crate::drawn::{config_of_runs, generated_inputs};
use crate::tallies::Tally;
use esa_model::memory::NoMemory;
use machine_runs::make_ready;
use silicon::Silicon;
use std::alloc::Global;

/// Generates the inputs of a number for 1 to 1,000,000 turns, makes all turns of their run on this silicon,
/// and answers what was counted of them. Nothing is written.
///
/// # Errors
///
/// `NoMemory` before the first turn.
pub fn run_generated<Z: Silicon>(
    alloc: Global,
    number: u32,
    turns: u32,
    silicon: &mut Z,
) -> Result<Tally, NoMemory>
    requires some { 1 ≤ turns }
    requires few { turns ≤ 1000000 }
    requires fresh { Fresh (Z.seen silicon.old) }
    ensures { IfOk result (λ t. IsGeneratedRun number turns t (Z.seen silicon.new)
        (Z.tape silicon.old) (Z.tape silicon.new)) }
{
    let accepted = generated_inputs(alloc, number, turns)?;
    let mut ready = make_ready(alloc, config_of_runs(), accepted, silicon)?;
    Ok(count_runs(&mut ready.machine, silicon, ready.schedule.runs()))
}
