//! What the program reads and writes, behind three traits: files by name, an input and an output.
#![tactic(auto)]

mod bounded_text;
mod created_files;
mod host;
mod memory_shelf;
mod memory_streams;
mod outside;
mod planned_calls;

pub use host::{HostShelf, HostSink, HostSource};
pub use memory_shelf::{MemoryShelf, NamedFile};
pub use memory_streams::{MemorySink, MemorySource};
pub use outside::{Failed, FileNo, NoMemory, Shelf, Sink, Source};

#[cfg(test)]
mod tests;
