//! The storage as a list of bytes, prefixing, and the pieces in which an operand lies there.
#![tactic(auto)]

mod pieces;
mod prefixing;
mod storage;
mod view;

pub use pieces::Pieces;
pub use prefixing::absolute;
pub use storage::AbsStorage;
pub use view::View;

#[cfg(test)]
mod tests;
