ghost use Rattle.std.specs.Prelude.{◌≡◌};
ghost use Rattle.program_model.specs.Inputs.{limit};

/// An input of the program.
#[derive(Clone, Copy, Debug, PartialEq, Eq)]
pub enum Input {
    Deck,
    Console,
    Schedule,
    Script,
    /// The commands of a debugger's session.
    Keys,
    Log,
    /// The source of a deck that is assembled.
    Program,
    /// A deck that is linked, by its number from 0.
    Part(u8),
    /// A saved machine.
    Saved,
}

impl Input {
    /// The greatest number of bytes; that of decks that are linked holds of all of them together.
    pub fn limit(self) -> usize
        ensures { result ≡ limit self }
    {
        match self {
            Input::Deck | Input::Part(_) => 16_000_000,
            Input::Console | Input::Schedule | Input::Script => 1_048_576,
            Input::Keys | Input::Program => 1_048_576,
            Input::Log => 64_000_000,
            Input::Saved => 16_794_584,
        }
    }
}
