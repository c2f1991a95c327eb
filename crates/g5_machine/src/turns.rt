use core_turns::Outcome;
use esa_model::machine::Psw;

/// A turn: what it came to, and the PSW after it. Where nothing was committed the PSW has two zero
/// words.
#[derive(Drop)]
pub struct Turn {
    pub outcome: Outcome,
    pub psw: Psw,
}
