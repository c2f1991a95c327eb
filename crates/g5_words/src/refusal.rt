ghost use Rattle.std.specs.Prelude.{◌≡◌};
ghost use Rattle.g5_words.specs.declared.refusal.WordsRefused.TheVariants as words;

use std::alloc::AllocError;
use thiserror::Error;

/// Why no command was read from the words. Want of memory may come at any words.
#[derive(Clone, Copy, Debug, Error, PartialEq, Eq)]
pub enum WordsRefused {
    /// The words are not of a command's form.
    #[error("usage")]
    Usage,
    #[error("no memory")]
    NoMemory,
}

impl From<AllocError> for WordsRefused {
    ghost from_gives = { λ _ e. e ≡ words.NoMemory };

    fn from(_: AllocError) -> Self {
        WordsRefused::NoMemory
    }
}
