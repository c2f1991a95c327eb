use run_model::faults::{Cause, CoreNo};

/// What a turn of a CPU came to.
#[derive(Clone, Copy, Debug, PartialEq, Eq)]
pub enum Outcome {
    /// The event that was due is carried out.
    Committed,
    /// The CPU was idle, or is lost.
    Idle,
    /// The attempt failed, and the core is to be recovered.
    Failed(Cause),
    /// The core was recovered, for so many retries since the last commit or transfer.
    Retried(u8),
    /// The CPU goes on on this core.
    Spared(CoreNo),
    /// The CPU is check-stopped.
    Stopped,
}
