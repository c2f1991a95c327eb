// The states of a run that is resumed: a core with what it had.
ghost use Rattle.std.specs.Prelude.{◌≡◌, ◌<◌};

use crate::cores::{FencedCore, RecoveringCore, RunningCore};
use esa_model::machine::Registers;
use run_model::faults::CoreNo;

impl RunningCore {
    /// A core that runs again, with the registers of its last commit and the retries since then. Its
    /// words are not written.
    pub fn resumed(core: CoreNo, retries: u8, r: Registers) -> RunningCore
        requires { core.0 < 16 }
        ensures core { result.core ≡ core }
        ensures registers { result.registers ≡ r }
        ensures retries { result.retries ≡ retries }
    {
        RunningCore {
            core,
            registers: r,
            retries,
        }
    }
}

impl RecoveringCore {
    /// A core whose attempt failed before, with its retries.
    pub fn resumed(core: CoreNo, retries: u8) -> RecoveringCore
        requires { core.0 < 16 }
        ensures core { result.core ≡ core }
        ensures retries { result.retries ≡ retries }
    {
        RecoveringCore { core, retries }
    }
}

impl FencedCore {
    /// A core that was given up before.
    pub fn resumed(core: CoreNo) -> FencedCore
        requires { core.0 < 16 }
        ensures { result.core ≡ core }
    {
        FencedCore { core }
    }
}
