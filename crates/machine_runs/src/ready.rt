// A job that is ready to run.
ghost use Rattle.std.specs.Prelude.{◌≡◌, IfOk};
ghost use Rattle.g5_machine.specs.Fits.{IsFitting};
ghost use Rattle.job_inputs.specs.Accepts.{IsFit, job_of};
ghost use Rattle.silicon.specs.Chip.{Fresh};
ghost use Rattle.machine_runs.specs.Jobs.{IsReadyJob};

use crate::twin_machine::TwinMachine;
use esa_model::memory::NoMemory;
use fault_script::within;
use g5_machine::Machine;
use job_inputs::Accepted;
use run_model::logs::Config;
use silicon::Silicon;
use std::alloc::Global;
use turn_schedule::Schedule;

/// A machine at its start, over a silicon that has its script; the schedule that it is to make, and
/// whether the script is within the premise.
#[derive(Drop)]
pub struct Ready {
    pub machine: TwinMachine,
    pub schedule: Schedule,
    pub within: bool,
}

/// Gives the script of accepted inputs to the silicon, and makes the machine.
///
/// # Errors
///
/// `NoMemory` where a list of the machine is not to be had.
pub fn make_ready<Z: Silicon>(
    alloc: Global,
    config: Config,
    accepted: Accepted,
    silicon: &mut Z,
) -> Result<Ready, NoMemory>
    requires config { IsFitting config config.cpus }
    requires fit { IsFit config accepted }
    requires fresh { Fresh (Z.seen silicon.old) }
    ensures ready { IfOk result (IsReadyJob config (job_of accepted) (Z.seen silicon.new)) }
    ensures tape { Z.tape silicon.new ≡ Z.tape silicon.old }
{
    let within = within(&accepted.script);
    silicon.arm(accepted.script);
    let machine = Machine::new(
        alloc,
        config,
        accepted.entry,
        accepted.storage,
        accepted.console,
        silicon,
    )?;
    Ok(Ready {
        machine: TwinMachine::new(machine),
        schedule: accepted.schedule,
        within,
    })
}
