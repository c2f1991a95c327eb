//! The storage with the caches of all cores, as one storage.
#![tactic(auto)]

mod cached_storage;
mod caches;

pub use cached_storage::CachedStorage;

#[cfg(test)]
mod tests;
