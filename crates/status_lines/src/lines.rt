// What the program says of how it ended.
ghost use Rattle.std.specs.Prelude.{◌≡◌, ◌++◌, ◌∷◌, []};
ghost use Rattle.g5_writing.specs.Outputs.{AddsToSink};
ghost use Rattle.program_model.specs.Inputs.{input_name};
ghost use Rattle.program_model.specs.Statuses.{opening, line_of};
ghost use Rattle.g5_words.specs.Asked.{asked_by};
ghost use Rattle.status_lines.specs.Says.{Says};

use crate::names::name_of;
use crate::refusals::{
    deck_text, link_text, log_text, save_text, schedule_text, script_text, source_text,
};
use g5_outside::{Failed, Sink};
use g5_words::Command;
use g5_writing::add_to_sink;
use program_model::status::Status;

// Adds a text in two parts and a line feed.
fn add_parts<E: Sink>(err: &mut E, first: &[u8], second: &[u8]) -> Result<(), Failed>
    ensures { AddsToSink (first.now ++ (second.now ++ 10 ∷ []))
        (E.seen err.old) (E.seen err.new) result }
{
    add_to_sink(err, first)?;
    add_to_sink(err, second)?;
    add_to_sink(err, b"\n")
}

// What the line of a status begins with.
fn opening_of(status: Status) -> &'static [u8]
    ensures { result.now ≡ opening status }
{
    match status {
        Status::Done | Status::CheckStopped | Status::AuditNo(_) => b"",
        Status::Usage => b"usage",
        Status::NoFile(_) => b"no file: ",
        Status::ReadFault => b"read fault",
        Status::WriteFault => b"write fault",
        Status::DeckRefused(_) => b"deck refused: ",
        Status::ScheduleRefused(_) => b"schedule refused: ",
        Status::ScriptRefused(_) => b"script refused: ",
        Status::TooLarge(_) => b"too large: ",
        Status::NoMemory => b"no memory",
        Status::LogRefused(_) => b"log refused: ",
        Status::SourceRefused(_) => b"source refused: ",
        Status::LinkRefused(_) => b"link refused: ",
        Status::SaveRefused(_) => b"save refused: ",
    }
}

/// Writes a text. What `err` answers changes nothing else.
pub fn say<E: Sink>(err: &mut E, text: &[u8])
    ensures { Says text.now (E.seen err.old) (E.seen err.new) }
{
    let _ = add_to_sink(err, text);
}

// Writes a line in two parts.
fn add_line<E: Sink>(err: &mut E, first: &[u8], second: &[u8])
    ensures { Says (first.now ++ (second.now ++ 10 ∷ [])) (E.seen err.old) (E.seen err.new) }
{
    let _ = add_parts(err, first, second);
}

/// Writes the line of a status: what it is, and the name of the input or the refusal that it is
/// said of. What `err` answers changes nothing else.
#[tactic(auto, unfolding(program_model::specs::Statuses::line_of))]
pub fn say_line<E: Sink>(err: &mut E, command: &Command<'_>, status: Status)
    ensures { Says (line_of (input_name (asked_by command.now)) status)
        (E.seen err.old) (E.seen err.new) }
{
    let first = opening_of(status);
    match status {
        Status::NoFile(input) => add_line(err, first, name_of(command, input).as_bytes()),
        Status::TooLarge(input) => add_line(err, first, name_of(command, input).as_bytes()),
        Status::DeckRefused(refusal) => add_line(err, first, &deck_text(refusal)),
        Status::ScheduleRefused(refusal) => add_line(err, first, &schedule_text(refusal)),
        Status::ScriptRefused(refusal) => add_line(err, first, &script_text(refusal)),
        Status::LogRefused(refusal) => add_line(err, first, &log_text(refusal)),
        Status::SourceRefused(refusal) => add_line(err, first, &source_text(refusal)),
        Status::LinkRefused(refusal) => add_line(err, first, &link_text(refusal)),
        Status::SaveRefused(refusal) => add_line(err, first, &save_text(refusal)),
        _ => add_line(err, first, b""),
    }
}
