//! Commands on a log: one of version 1 brought to version 2, and one of version 2 judged.
#![tactic(auto)]

mod auditing;
mod migrating;
#[cfg(test)]
mod tests;

pub use auditing::audit_file;
pub use migrating::migrate_file;
