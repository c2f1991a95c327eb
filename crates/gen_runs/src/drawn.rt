// The inputs that are drawn from a number.
ghost use Rattle.std.specs.Prelude.{◌≡◌, ◌≤◌, IfOk};
ghost use Rattle.job_inputs.specs.Accepts.{IsFit, job_of};
ghost use Rattle.program_model.specs.Generator.{generated_config};
ghost use Rattle.program_model.specs.declared.status.Status.TheVariants as status;
ghost use Rattle.gen_runs.specs.Inputs.{IsGeneratedJob};

use deck_gen::generate;
use esa_model::memory::NoMemory;
use job_inputs::{Accepted, InputBytes, accept};
use program_model::status::Status;
use run_model::logs::Config;
use std::alloc::Global;

/// 8 CPUs, 1 spare, 128 KiB, and the threshold 3.
pub fn config_of_runs() -> Config
    ensures { result ≡ generated_config }
{
    Config {
        cpus: 8,
        spares: 1,
        pages: 32,
        threshold: 3,
    }
}

// Generated inputs are refused for want of memory alone.
fn want_of_memory(_refusal: Status) -> NoMemory
    requires { _refusal ≡ status.NoMemory }
{
    NoMemory
}

/// The inputs that are drawn from a number, for so many turns, as what a machine starts from.
pub fn generated_inputs(alloc: Global, number: u32, turns: u32) -> Result<Accepted, NoMemory>
    requires some { 1 ≤ turns }
    requires few { turns ≤ 1000000 }
    ensures job { IfOk result (λ a. IsGeneratedJob number turns (job_of a)) }
    ensures fit { IfOk result (IsFit generated_config) }
{
    let texts = generate(alloc, number, turns)?;
    let inputs = InputBytes {
        deck: texts.deck,
        console: Vec::new(alloc),
        schedule: texts.schedule,
        script: texts.script,
    };
    match accept(alloc, config_of_runs(), inputs) {
        Ok(accepted) => Ok(accepted),
        Err(refusal) => Err(want_of_memory(refusal)),
    }
}
