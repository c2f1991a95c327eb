//! The store buffer of a CPU: stores that wait, first held and then committed, and what they show.
#![tactic(auto)]

mod buffer;
mod entry;
mod holder;
mod span;

pub use buffer::Buffer;
pub use holder::Holder;
pub use span::Span;

#[cfg(test)]
mod tests;
