use thiserror::Error;

/// Why a save is refused, in the order in which the refusals are tested. Want of memory comes at any
/// point.
#[derive(Clone, Copy, Debug, PartialEq, Eq, Error)]
pub enum SaveRefusal {
    /// The first 16 bytes are not there, or hold no head of a machine that there can be.
    #[error("BadHead")]
    BadHead,
    /// The length is not the one that the head tells.
    #[error("BadLength")]
    BadLength,
    /// The first field that is outside its values, by its first byte, from 0.
    #[error("BadField {0}")]
    BadField(u32),
    /// More turns were made than the schedule has.
    #[error("PastSchedule")]
    PastSchedule,
    /// More console bytes were read than there are.
    #[error("PastConsole")]
    PastConsole,
    #[error("NoMemory")]
    NoMemory,
}
