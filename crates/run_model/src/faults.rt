ghost use Rattle.std.specs.Prelude.{◌≡◌, ℕ};

use esa_model::machine::CpuNo;
use thiserror::Error;

/// The number of a core: 0 to 7 those that begin with a CPU, 8 to 15 the spares.
#[derive(Clone, Copy, Debug, Default, PartialEq, Eq)]
pub struct CoreNo(pub u8);

/// What has the number of a core: a core that is a spare, or one that is fenced.
pub trait Numbered: Drop {
    ghost number_of: { Self → ℕ };

    /// The number of the core.
    fn number(&self) -> CoreNo
        ensures { result.0 ≡ number_of self.now };
}

/// One of the two units whose packets are compared.
#[derive(Clone, Copy, Debug, PartialEq, Eq)]
pub enum Unit {
    A,
    B,
}

/// What one line of a fault script flips. Each has the core and the number of its attempt first.
#[derive(Clone, Copy, Debug, PartialEq, Eq)]
pub enum Strike {
    /// A bit of the packet of a unit, at so many attempts from this one on, or at all of them.
    Packet(CoreNo, u64, Unit, u16, Option<u64>),
    /// A bit of the fetch latch.
    Fetch(CoreNo, u64, u8),
    /// A bit of the store latch.
    Store(CoreNo, u64, u16),
    /// A checkpoint word and the position of its bit, as the attempt begins.
    Word(CoreNo, u64, u8, u8),
}

/// The numbers of a script's line. A line that names no checkpoint word has the word 0.
#[derive(Clone, Copy, Debug, PartialEq, Eq)]
pub struct Spot {
    pub core: CoreNo,
    pub attempt: u64,
    pub word: u8,
    pub bit: u16,
}

/// Why a fault script is refused: by its first line that is refused, numbered from 1.
#[derive(Clone, Copy, Debug, PartialEq, Eq, Error)]
pub enum ScriptRefusal {
    /// The script has more than 10,000 lines.
    #[error("TooMany {0}")]
    TooMany(u32),
    /// The line has none of the forms, or its attempt or count is out of range.
    #[error("BadLine {0}")]
    BadLine(u32),
    /// The core is above 15.
    #[error("BadCore {0}")]
    BadCore(u32),
    /// The checkpoint word is above 39.
    #[error("BadWord {0}")]
    BadWord(u32),
    /// What is struck has no such bit.
    #[error("BadBit {0}")]
    BadBit(u32),
    /// An earlier line strikes the same latch of the same core at the same attempt.
    #[error("TwoAtOneAttempt {0}")]
    TwoAtOneAttempt(u32),
    #[error("NoMemory")]
    NoMemory,
}

/// What made an attempt fail.
#[derive(Clone, Copy, Debug, Default, PartialEq, Eq)]
pub enum Cause {
    /// The fetch latch had even parity.
    #[default]
    Fetch,
    /// The packets of the two units differed.
    Mismatch,
    /// The store latch had even parity.
    Store,
}

/// A position that was wrong in a checkpoint word, and was corrected.
#[derive(Clone, Copy, Debug, Default, PartialEq, Eq)]
pub struct Note {
    pub word: u8,
    pub bit: u8,
}

/// What a logical CPU's core does: it runs, it is to be recovered, or it was lost and the CPU is
/// check-stopped for good.
#[derive(Clone, Copy, Debug, PartialEq, Eq)]
pub enum Mode {
    Running,
    Recovering,
    Lost,
}
