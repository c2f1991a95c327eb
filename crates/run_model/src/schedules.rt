use crate::faults::CoreNo;
use esa_model::machine::CpuNo;
use thiserror::Error;

/// What kind of turn: one of a CPU, one that presses the interrupt key of a CPU, or one in which a
/// repaired core is returned.
#[derive(Clone, Copy, Debug, PartialEq, Eq)]
pub enum RunKind {
    Turns(CpuNo),
    Key(CpuNo),
    Return(CoreNo),
}

/// What one word of a schedule gives: so many turns of one kind.
#[derive(Clone, Copy, Debug, PartialEq, Eq)]
pub struct Run {
    pub what: RunKind,
    pub count: u32,
}

/// Why a schedule is refused: by its first word that is refused, numbered from 1.
#[derive(Clone, Copy, Debug, PartialEq, Eq, Error)]
pub enum ScheduleRefusal {
    /// The word has none of the forms.
    #[error("BadWord {0}")]
    BadWord(u32),
    /// The machine has no CPU of this number.
    #[error("BadCpu {0}")]
    BadCpu(u32),
    /// With this word the turns pass 1,000,000.
    #[error("TooLong {0}")]
    TooLong(u32),
    #[error("NoMemory")]
    NoMemory,
}
