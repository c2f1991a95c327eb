//! The first turns of a run and the rest of it, which together are one run.
#![tactic(auto)]

mod counting_laws;
mod first;
mod laws;
mod part;
mod rest;
#[cfg(test)]
mod tests;

pub use counting_laws::{counts_are_few, counts_of_both_parts, texts_of_both_parts};
pub use first::make_first;
pub use laws::{first_then_rest, job_in_two_parts, rest_of_a_job, stands_again};
pub use rest::make_rest;
