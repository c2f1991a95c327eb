// All that is done before the first line of a session.
ghost use Rattle.std.specs.Prelude.{◌≡◌, IfErr, IfOk, OnOk, true};
ghost use Rattle.g5_reading.specs.Inputs.{OnlyReads};
ghost use Rattle.g5_reading.specs.Sources.{OnlyTakes};
ghost use Rattle.g5_words.specs.Asked.{session_names};
ghost use Rattle.g5_words.specs.Ranges.{IsInLimits};
ghost use Rattle.silicon.specs.Chip.{Fresh};
ghost use Rattle.debug_command.specs.Preparing.{IsPrepared, IsRefused};

use g5_outside::{Shelf, Source};
use g5_reading::read_keys;
use g5_words::SessionNames;
use job_inputs::{accept, read_inputs};
use machine_runs::{Ready, make_ready};
use program_model::status::Status;
use run_model::logs::Config;
use silicon::Silicon;
use std::alloc::Global;

/// A machine at its start, and the lines of the session.
#[derive(Drop)]
pub struct Prepared {
    pub ready: Ready,
    pub lines: Vec<u8>,
}

/// Reads the inputs and then the lines, gives the script to the silicon and makes the machine. A
/// refusal is the first in the order of the inputs, as they are read and then as they are tested.
#[tactic(auto, using(crate::proofs::Refusing::unread_refused, crate::proofs::Refusing::keys_refused, crate::proofs::Refusing::input_refused))]
pub fn prepare<F: Shelf, I: Source, Z: Silicon>(
    alloc: Global,
    names: &SessionNames<'_>,
    config: Config,
    shelf: &mut F,
    keys: &mut I,
    silicon: &mut Z,
) -> Result<Prepared, Status>
    requires limits { IsInLimits config }
    requires fresh { Fresh (Z.seen silicon.old) }
    ensures only { OnlyReads (F.seen shelf.old) (F.seen shelf.new) }
    ensures takes { OnlyTakes (I.seen keys.old) (I.seen keys.new) }
    ensures prepared { IfOk result (IsPrepared (session_names names.now) config (F.seen shelf.old)
        (I.seen keys.old) (Z.seen silicon.new)) }
    ensures refused { IfErr result (IsRefused (session_names names.now) config (F.seen shelf.old)
        (F.seen shelf.new) (I.seen keys.old) (I.seen keys.new)) }
    ensures found { OnOk result ((F.seen shelf.new).found ≡ true) }
    ensures tape { Z.tape silicon.new ≡ Z.tape silicon.old }
{
    let inputs = match read_inputs(alloc, shelf, names) {
        Ok(inputs) => inputs,
        Err(status) => return Err(status),
    };
    let lines = match read_keys(alloc, keys) {
        Ok(lines) => lines,
        Err(status) => return Err(status),
    };
    let accepted = match accept(alloc, config, inputs) {
        Ok(accepted) => accepted,
        Err(status) => return Err(status),
    };
    match make_ready(alloc, config, accepted, silicon) {
        Ok(ready) => Ok(Prepared { ready, lines }),
        Err(_) => Err(Status::NoMemory),
    }
}
