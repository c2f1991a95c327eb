ghost use Rattle.std.specs.Prelude.{◌≡◌};
ghost use Rattle.program_model.specs.Statuses.{status_number};

use crate::inputs::Input;
use crate::refusals::{AsmRefusal, AuditRefusal, LinkRefusal, SaveRefusal};
use deck_model::decks::DeckRefusal;
use run_model::faults::ScriptRefusal;
use run_model::logs::MigrateRefusal;
use run_model::schedules::ScheduleRefusal;

/// How the program ended. No refusal in it is want of memory.
#[derive(Clone, Copy, Debug, PartialEq, Eq)]
pub enum Status {
    /// The command was carried out. `run`, `gen` and `resume` answer it where all turns were made
    /// and no CPU was check-stopped.
    Done,
    /// All turns were made and a CPU was check-stopped.
    CheckStopped,
    /// The words are not of a command's form.
    Usage,
    /// There is no file of that input's name.
    NoFile(Input),
    /// A find or a read failed.
    ReadFault,
    /// A create or a write failed, or a write took nothing.
    WriteFault,
    /// The deck has no image.
    DeckRefused(DeckRefusal),
    ScheduleRefused(ScheduleRefusal),
    ScriptRefused(ScriptRefusal),
    /// The input has more bytes than its limit.
    TooLarge(Input),
    /// Memory was wanted and not given, before anything was written.
    NoMemory,
    /// The log is none of version 1.
    LogRefused(MigrateRefusal),
    /// The source makes no deck.
    SourceRefused(AsmRefusal),
    /// The decks are not linked.
    LinkRefused(LinkRefusal),
    /// The machine cannot go on from the save.
    SaveRefused(SaveRefusal),
    /// The log is not lawful.
    AuditNo(AuditRefusal),
}

impl Status {
    /// The number that the program ends with.
    pub fn number(self) -> u8
        ensures { result ≡ status_number self }
    {
        match self {
            Status::Done => 0,
            Status::Usage => 2,
            Status::NoFile(_) => 3,
            Status::ReadFault => 4,
            Status::WriteFault => 5,
            Status::DeckRefused(_) => 6,
            Status::ScheduleRefused(_) => 7,
            Status::ScriptRefused(_) => 8,
            Status::TooLarge(_) => 9,
            Status::NoMemory => 10,
            Status::LogRefused(_) => 12,
            Status::SourceRefused(_) => 13,
            Status::LinkRefused(_) => 14,
            Status::SaveRefused(_) => 15,
            Status::AuditNo(_) => 16,
            Status::CheckStopped => 20,
        }
    }
}
