//! The memory of a machine: the storage, seen through the store buffers of its CPUs and the caches of
//! its cores.
#![tactic(auto)]

mod buffers;
mod memory;
mod reading;

pub use memory::Memory;
pub use reading::Reading;

#[cfg(test)]
mod tests;
