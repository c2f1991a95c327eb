/// A command of the program.
#[derive(Clone, Copy, Debug, PartialEq, Eq)]
pub enum Kind {
    /// Runs a deck.
    Run,
    /// Answers questions about a deck that runs.
    Debug,
    /// Runs a generated deck.
    Gen,
    /// Brings a log of version 1 to version 2.
    Migrate,
    /// Assembles a deck.
    Asm,
    /// Shows instructions of a deck.
    Dis,
    /// Links decks into one.
    Link,
    /// Runs a deck for some turns and saves the machine.
    Save,
    /// Goes on from a save.
    Resume,
    /// Judges a log.
    Audit,
}
