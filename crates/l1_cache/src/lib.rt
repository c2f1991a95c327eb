//! The cache of a core: 64 lines of 256 bytes of the storage.
#![tactic(auto)]

mod cache;
mod filling;

pub use cache::Cache;

#[cfg(test)]
mod tests;
