use deck_model::decks::DeckRefusal;
use thiserror::Error;

/// Why a source makes no deck, in the order in which the refusals are tested; the number is that of
/// the line, from 1. Want of memory comes at any point.
#[derive(Clone, Copy, Debug, Error, PartialEq, Eq)]
pub enum AsmRefusal {
    /// The line has none of the forms, or follows END.
    #[error("BadLine {0}")]
    BadLine(u32),
    /// There is no such operation.
    #[error("UnknownOp {0}")]
    UnknownOp(u32),
    /// The statement stands before the first CSECT.
    #[error("NoSection {0}")]
    NoSection(u32),
    #[error("NoEndStatement")]
    NoEndStatement,
    /// With this line the deck has too many bytes, or too many sections and names.
    #[error("TooBig {0}")]
    TooBig(u32),
    /// An earlier line has the name.
    #[error("Doubled {0}")]
    Doubled(u32),
    /// No line defines a name of this one.
    #[error("Undefined {0}")]
    Undefined(u32),
    /// A name stands as an address without a base in its section.
    #[error("NoBase {0}")]
    NoBase(u32),
    /// A field or a distance is outside its range.
    #[error("OutOfRange {0}")]
    OutOfRange(u32),
    #[error("NoMemory")]
    NoMemory,
}

/// Why decks are not linked, in the order in which the refusals are tested; the number is that of
/// the card, from 1. Want of memory comes at any point.
#[derive(Clone, Copy, Debug, Error, PartialEq, Eq)]
pub enum LinkRefusal {
    /// The decks have no image.
    #[error("{0}")]
    Deck(DeckRefusal),
    /// A constant shares a byte with an earlier one, but not place and width.
    #[error("Clash {0}")]
    Clash(u32),
    /// A label is loaded where no item of the linked deck can say it.
    #[error("Label {0}")]
    Label(u32),
    /// The entry is one that no END card can name.
    #[error("BlankEntry")]
    BlankEntry,
    /// The linked deck has more than 16,000,000 bytes.
    #[error("TooLong")]
    TooLong,
    #[error("NoMemory")]
    NoMemory,
}

/// Why bytes are no save to go on from, in the order in which the refusals are tested. Want of
/// memory comes at any point.
#[derive(Clone, Copy, Debug, Error, PartialEq, Eq)]
pub enum SaveRefusal {
    /// The first 16 bytes are no head.
    #[error("BadHead")]
    BadHead,
    /// The length is not that of the configuration.
    #[error("BadLength")]
    BadLength,
    /// The field that begins with this byte is outside its values.
    #[error("BadField {0}")]
    BadField(u32),
    /// More turns were made than the schedule has.
    #[error("PastSchedule")]
    PastSchedule,
    /// More bytes were read than the console input has.
    #[error("PastConsole")]
    PastConsole,
    #[error("NoMemory")]
    NoMemory,
}

/// Why a log is not lawful: its first line that is none, else its first line that fails one of the
/// points, which are tested in this order; lines are numbered from 1.
#[derive(Clone, Copy, Debug, Error, PartialEq, Eq)]
pub enum AuditRefusal {
    /// The line has not the form of its place.
    #[error("BadLine {0}")]
    BadLine(u32),
    /// The turn is not one that may follow.
    #[error("Turn {0}")]
    Turn(u32),
    /// The CPU is not on that core.
    #[error("Core {0}")]
    Core(u32),
    /// No failure calls for this retry.
    #[error("Retry {0}")]
    Retry(u32),
    /// Nothing calls for giving the core up.
    #[error("Fenced {0}")]
    Fenced(u32),
    /// The spare is not the lowest on hand, or there is one.
    #[error("Spared {0}")]
    Spared(u32),
    /// Nothing calls for a check-stop.
    #[error("Stop {0}")]
    Stop(u32),
    /// The core is not fenced.
    #[error("Returned {0}")]
    Returned(u32),
    /// The tail has another number of returned cores.
    #[error("Tail")]
    Tail,
}
