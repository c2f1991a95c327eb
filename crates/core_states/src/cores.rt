// The states of a core, in a file of their own: a struct with a ghost field imports what its file
// names.
ghost use Rattle.std.specs.Prelude.{ℕ, ◌<◌};

use esa_model::machine::Registers;
use result_packet::Packet;
use run_model::faults::{Cause, CoreNo};

/// A core that no CPU has, and that may be taken.
#[derive(Drop)]
pub struct SpareCore {
    pub(crate) core: CoreNo,
    ghost small: { core.0 < 16 },
}

/// A core that runs: the registers of its last commit, and the retries since then.
#[derive(Drop)]
pub struct RunningCore {
    pub(crate) core: CoreNo,
    pub(crate) registers: Registers,
    pub(crate) retries: u8,
    ghost small: { core.0 < 16 },
}

/// A core whose attempt failed. It has no registers but those that its stored words say.
#[derive(Drop)]
pub struct RecoveringCore {
    pub(crate) core: CoreNo,
    pub(crate) retries: u8,
    ghost small: { core.0 < 16 },
}

/// A core that was given up. No call runs it.
#[derive(Drop)]
pub struct FencedCore {
    pub(crate) core: CoreNo,
    ghost small: { core.0 < 16 },
}

/// What an attempt gives.
#[derive(Drop)]
pub enum Attempt {
    /// The packet that is to be carried out. The core has the registers of before.
    Committed(RunningCore, Packet),
    /// Why it failed, and its number.
    Failed(RecoveringCore, Cause, u64),
    /// The checkpoint word that is lost; the attempt was not begun.
    Lost(FencedCore, u8),
}

/// What a retry begins with.
#[derive(Drop)]
pub enum Recovered {
    /// The core, with the registers that its stored words say.
    Running(RunningCore),
    /// The checkpoint word that is lost.
    Lost(FencedCore, u8),
}

/// What a transfer to a spare gives.
#[derive(Drop)]
pub enum HandedOver {
    /// The spare, with the registers that the stored words of the other core say.
    Running(RunningCore, FencedCore),
    /// The spare is left; the checkpoint word of the other core that is lost.
    Lost(FencedCore, SpareCore, u8),
}
