// The texts of refusals.
ghost use Rattle.std.specs.Prelude.{◌≡◌, ◌≤◌, length};
ghost use Rattle.run_model.specs.RefusalTexts.{numbered_text, schedule_refusal_text};
ghost use Rattle.run_model.specs.RefusalTexts.{script_refusal_text, log_refusal_text};
ghost use Rattle.program_model.specs.RefusalTexts.{deck_refusal_text, source_refusal_text};
ghost use Rattle.program_model.specs.RefusalTexts.{link_refusal_text, save_refusal_text};
ghost use Rattle.program_model.specs.RefusalTexts.{audit_refusal_text};

use crate::texts::put_text;
use arrayvec::ArrayVec;
use deck_model::decks::DeckRefusal;
use esa_words::decimal;
use program_model::refusals::{AsmRefusal, AuditRefusal, LinkRefusal, SaveRefusal};
use run_model::faults::ScriptRefusal;
use run_model::logs::MigrateRefusal;
use run_model::schedules::ScheduleRefusal;

// A refusal's name alone.
fn named(name: &[u8]) -> ArrayVec<u8, 40>
    requires { length name.now ≤ 16 }
    ensures { result.items ≡ name.now }
{
    let mut out = ArrayVec::new();
    put_text(&mut out, name);
    out
}

// A refusal's name, a blank and its number.
fn numbered(name: &[u8], number: u32) -> ArrayVec<u8, 40>
    requires { length name.now ≤ 16 }
    ensures { result.items ≡ numbered_text name.now number }
{
    let mut out = ArrayVec::new();
    put_text(&mut out, name);
    put_text(&mut out, b" ");
    put_text(&mut out, &decimal(u64::from(number)));
    out
}

/// The text of a deck's refusal.
pub fn deck_text(refusal: DeckRefusal) -> ArrayVec<u8, 40>
    ensures { result.items ≡ deck_refusal_text refusal }
{
    match refusal {
        DeckRefusal::NotCards => named(b"NotCards"),
        DeckRefusal::BadFirstByte(n) => numbered(b"BadFirstByte", n),
        DeckRefusal::UnknownCard(n) => numbered(b"UnknownCard", n),
        DeckRefusal::BadCount(n) => numbered(b"BadCount", n),
        DeckRefusal::Unsupported(n) => numbered(b"Unsupported", n),
        DeckRefusal::NoEnd => named(b"NoEnd"),
        DeckRefusal::DuplicateId(n) => numbered(b"DuplicateId", n),
        DeckRefusal::DuplicateName(n) => numbered(b"DuplicateName", n),
        DeckRefusal::UnknownId(n) => numbered(b"UnknownId", n),
        DeckRefusal::TextOutside(n) => numbered(b"TextOutside", n),
        DeckRefusal::RldOutside(n) => numbered(b"RldOutside", n),
        DeckRefusal::EntryOutside => named(b"EntryOutside"),
        DeckRefusal::Unresolved(n) => numbered(b"Unresolved", n),
        DeckRefusal::NoRoom => named(b"NoRoom"),
        DeckRefusal::NoMemory => named(b"NoMemory"),
    }
}

/// The text of a schedule's refusal.
pub fn schedule_text(refusal: ScheduleRefusal) -> ArrayVec<u8, 40>
    ensures { result.items ≡ schedule_refusal_text refusal }
{
    match refusal {
        ScheduleRefusal::BadWord(n) => numbered(b"BadWord", n),
        ScheduleRefusal::BadCpu(n) => numbered(b"BadCpu", n),
        ScheduleRefusal::TooLong(n) => numbered(b"TooLong", n),
        ScheduleRefusal::NoMemory => named(b"NoMemory"),
    }
}

/// The text of a script's refusal.
pub fn script_text(refusal: ScriptRefusal) -> ArrayVec<u8, 40>
    ensures { result.items ≡ script_refusal_text refusal }
{
    match refusal {
        ScriptRefusal::TooMany(n) => numbered(b"TooMany", n),
        ScriptRefusal::BadLine(n) => numbered(b"BadLine", n),
        ScriptRefusal::BadCore(n) => numbered(b"BadCore", n),
        ScriptRefusal::BadWord(n) => numbered(b"BadWord", n),
        ScriptRefusal::BadBit(n) => numbered(b"BadBit", n),
        ScriptRefusal::TwoAtOneAttempt(n) => numbered(b"TwoAtOneAttempt", n),
        ScriptRefusal::NoMemory => named(b"NoMemory"),
    }
}

/// The text of the refusal of a log of version 1.
pub fn log_text(refusal: MigrateRefusal) -> ArrayVec<u8, 40>
    ensures { result.items ≡ log_refusal_text refusal }
{
    match refusal {
        MigrateRefusal::BadLine(n) => numbered(b"BadLine", n),
        MigrateRefusal::NoTail => named(b"NoTail"),
        MigrateRefusal::NoMemory => named(b"NoMemory"),
    }
}

/// The text of a source's refusal.
pub fn source_text(refusal: AsmRefusal) -> ArrayVec<u8, 40>
    ensures { result.items ≡ source_refusal_text refusal }
{
    match refusal {
        AsmRefusal::BadLine(n) => numbered(b"BadLine", n),
        AsmRefusal::UnknownOp(n) => numbered(b"UnknownOp", n),
        AsmRefusal::NoSection(n) => numbered(b"NoSection", n),
        AsmRefusal::NoEndStatement => named(b"NoEndStatement"),
        AsmRefusal::TooBig(n) => numbered(b"TooBig", n),
        AsmRefusal::Doubled(n) => numbered(b"Doubled", n),
        AsmRefusal::Undefined(n) => numbered(b"Undefined", n),
        AsmRefusal::NoBase(n) => numbered(b"NoBase", n),
        AsmRefusal::OutOfRange(n) => numbered(b"OutOfRange", n),
        AsmRefusal::NoMemory => named(b"NoMemory"),
    }
}

/// The text of the refusal of decks that are linked.
pub fn link_text(refusal: LinkRefusal) -> ArrayVec<u8, 40>
    ensures { result.items ≡ link_refusal_text refusal }
{
    match refusal {
        LinkRefusal::Deck(refusal) => deck_text(refusal),
        LinkRefusal::Clash(n) => numbered(b"Clash", n),
        LinkRefusal::Label(n) => numbered(b"Label", n),
        LinkRefusal::BlankEntry => named(b"BlankEntry"),
        LinkRefusal::TooLong => named(b"TooLong"),
        LinkRefusal::NoMemory => named(b"NoMemory"),
    }
}

/// The text of a save's refusal.
pub fn save_text(refusal: SaveRefusal) -> ArrayVec<u8, 40>
    ensures { result.items ≡ save_refusal_text refusal }
{
    match refusal {
        SaveRefusal::BadHead => named(b"BadHead"),
        SaveRefusal::BadLength => named(b"BadLength"),
        SaveRefusal::BadField(at) => numbered(b"BadField", at),
        SaveRefusal::PastSchedule => named(b"PastSchedule"),
        SaveRefusal::PastConsole => named(b"PastConsole"),
        SaveRefusal::NoMemory => named(b"NoMemory"),
    }
}

/// The text of what makes a log not lawful.
pub fn audit_text(refusal: AuditRefusal) -> ArrayVec<u8, 40>
    ensures { result.items ≡ audit_refusal_text refusal }
{
    match refusal {
        AuditRefusal::BadLine(n) => numbered(b"BadLine", n),
        AuditRefusal::Turn(n) => numbered(b"Turn", n),
        AuditRefusal::Core(n) => numbered(b"Core", n),
        AuditRefusal::Retry(n) => numbered(b"Retry", n),
        AuditRefusal::Fenced(n) => numbered(b"Fenced", n),
        AuditRefusal::Spared(n) => numbered(b"Spared", n),
        AuditRefusal::Stop(n) => numbered(b"Stop", n),
        AuditRefusal::Returned(n) => numbered(b"Returned", n),
        AuditRefusal::Tail => named(b"Tail"),
    }
}
