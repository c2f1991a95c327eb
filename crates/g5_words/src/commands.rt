// The commands, with the names of files borrowed from the words.
use arrayvec::ArrayVec;
use run_model::logs::Config;

/// The files of a run.
#[derive(Clone, Copy, Debug, PartialEq, Eq)]
pub struct JobNames<'a> {
    pub deck: &'a str,
    pub console: &'a str,
    pub schedule: &'a str,
    pub script: &'a str,
    pub log: &'a str,
    pub trace: &'a str,
}

/// The files of a debugger's session.
#[derive(Clone, Copy, Debug, PartialEq, Eq)]
pub struct SessionNames<'a> {
    pub deck: &'a str,
    pub console: &'a str,
    pub schedule: &'a str,
    pub script: &'a str,
}

/// The files of a run that goes on from a save.
#[derive(Clone, Copy, Debug, PartialEq, Eq)]
pub struct ResumeNames<'a> {
    pub save: &'a str,
    pub console: &'a str,
    pub schedule: &'a str,
    pub script: &'a str,
    pub log: &'a str,
    pub trace: &'a str,
}

/// What the words ask for.
#[derive(Debug, Drop, PartialEq, Eq)]
pub enum Command<'a> {
    /// Runs a deck.
    Run {
        job: JobNames<'a>,
        config: Config,
    },
    /// Answers questions about a deck that runs.
    Debug {
        session: SessionNames<'a>,
        config: Config,
    },
    /// Runs the deck that a number generates, for 1 to 1,000,000 turns.
    Gen {
        number: u32,
        turns: u32,
    },
    /// Brings a log of version 1 to version 2.
    Migrate {
        old: &'a str,
        new: &'a str,
    },
    /// Assembles a deck.
    Asm {
        source: &'a str,
        deck: &'a str,
    },
    /// Shows 1 to 1,000 instructions of a deck, from an address of 24 bits on.
    Dis {
        deck: &'a str,
        address: u32,
        count: u32,
    },
    /// Links 1 to 16 decks into one.
    Link {
        out: &'a str,
        decks: ArrayVec<&'a str, 16>,
    },
    /// Runs a deck for 0 to 1,000,000 turns and saves the machine.
    Save {
        turns: u32,
        job: JobNames<'a>,
        save: &'a str,
        config: Config,
    },
    /// Goes on from a save.
    Resume(ResumeNames<'a>),
    /// Judges a log.
    Audit {
        log: &'a str,
    },
}
