use crate::faults::{Cause, CoreNo};
use esa_model::machine::CpuNo;
use thiserror::Error;

/// How a machine is made: logical CPUs, spare cores, pages of storage, retries before a core is given
/// up.
#[derive(Clone, Copy, Debug, PartialEq, Eq)]
pub struct Config {
    pub cpus: u8,
    pub spares: u8,
    pub pages: u16,
    pub threshold: u8,
}

/// What an entry of the service log says.
#[derive(Clone, Copy, Debug, Default, PartialEq, Eq)]
pub enum What {
    /// An attempt failed: its cause and its number.
    Fail(Cause, u64),
    /// A retry begins: how many there are since the last commit or transfer.
    Retry(u8),
    /// A bit of a checkpoint word was wrong: the word and the position.
    Corrected(u8, u8),
    /// A checkpoint word is lost.
    Uncorrectable(u8),
    /// The core is given up.
    Fenced,
    /// The CPU goes on on this core.
    Spared(CoreNo),
    /// There was no spare.
    NoSpare,
    /// The CPU is check-stopped.
    #[default]
    Stop,
    /// The core was repaired and is a spare again. The CPU of this entry is 255.
    Returned,
}

/// An entry of the service log: the turn, the CPU that had it, and the core that was struck, read,
/// given up or returned.
#[derive(Clone, Copy, Debug, Default, PartialEq, Eq)]
pub struct Entry {
    pub turn: u64,
    pub cpu: CpuNo,
    pub core: CoreNo,
    pub what: What,
}

/// A line is no entry of the service log.
#[derive(Clone, Copy, Debug, PartialEq, Eq, Error)]
pub enum LogRefusal {
    #[error("BadLine")]
    BadLine,
}

/// Why a log of version 1 cannot be brought to version 2; lines are numbered from 1.
#[derive(Clone, Copy, Debug, PartialEq, Eq, Error)]
pub enum MigrateRefusal {
    /// The line has not the form of its place.
    #[error("BadLine {0}")]
    BadLine(u32),
    /// There is no line, or the last is no tail or lacks its line feed.
    #[error("NoTail")]
    NoTail,
    #[error("NoMemory")]
    NoMemory,
}
