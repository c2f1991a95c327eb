// The answers as lines of an output.
ghost use Rattle.std.specs.Prelude.{◌≡◌, [], ◌∷◌, ◌++◌, Some, None, MatchOption};
ghost use Rattle.g5_writing.specs.Outputs.{AddsToSink};
ghost use Rattle.debug_runs.specs.CommandLines.{text_of};

use g5_debugger::Answer;
use g5_outside::{Failed, Sink};
use g5_writing::add_to_sink;

/// The text of an answer; None where the session ends.
pub fn answer_text(answer: &Answer) -> Option<&[u8]>
    ensures { MatchOption result (text_of answer.now ≡ None)
        (λ text. text_of answer.now ≡ Some text.now) }
{
    match answer {
        Answer::Text(text) => Some(text.as_slice()),
        Answer::Unknown => Some(b"unknown"),
        Answer::Quit => None,
    }
}

/// Writes a text and a line feed.
///
/// # Errors
///
/// `Failed` where the output did; it has then some first bytes of the line.
pub fn write_line<O: Sink>(out: &mut O, text: &[u8]) -> Result<(), Failed>
    ensures { AddsToSink (text.now ++ 10 ∷ []) (O.seen out.old) (O.seen out.new) result }
{
    match add_to_sink(out, text) {
        Ok(()) => add_to_sink(out, b"\n"),
        Err(failed) => Err(failed),
    }
}
