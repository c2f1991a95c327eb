//! The lines of a whole source.
ghost use Rattle.std.specs.Prelude.{◌≡◌, ◌<◌, ◌^◌, ◌∷◌, [], length, IfNone, IfOk, IfSome};
ghost use Rattle.run_model.specs.Script.{lines};
ghost use Rattle.asm_model.specs.Line.{is_passed as is_passed_text, sources as sources_of};

use crate::lines::{is_plain, line_of};
use asm_model::statements::Source;
use asm_words::cuts::{Rest, cut_at};
use std::alloc::{AllocError, Global};

// The first line of a text without its line feed, and what follows it; None exactly where the text
// has no byte.
fn next_line(text: &[u8]) -> Option<(&[u8], &[u8])>
    ensures some { IfSome result (λ p. lines text.now ≡ p.0.now ∷ lines p.1.now) }
    ensures shorter { IfSome result (λ p. length p.1.now < length text.now) }
    ensures none { IfNone result (lines text.now ≡ []) }
{
    if text.len() == 0 {
        return None;
    }
    let (line, rest) = cut_at(text, b'\n');
    match rest {
        Rest::Nothing => Some((line, b"")),
        Rest::More(after) => Some((line, after)),
    }
}

// Whether a line is passed over: it is empty, or a comment.
#[tactic(auto, unfolding(asm_model::specs::Line::is_passed))]
fn is_passed(text: &[u8]) -> bool
    ensures { result ≡ is_passed_text text.now }
{
    text.len() == 0 || (text[0] == b'*' && is_plain(text))
}

/// The lines of a source that are not passed over, with their numbers from 1, and what each says.
/// No line is refused here; the call fails only where memory runs out.
pub fn sources(alloc: Global, text: &[u8]) -> Result<Vec<Source>, AllocError>
    requires { length text.now < 2 ^ 32 }
    ensures { IfOk result (λ v. v.items ≡ sources_of text.now) }
{
    let mut sources = Vec::new(alloc);
    let mut number: u32 = 0;
    let mut rest = text;
    while let Some((line, after)) = next_line(rest) {
        number += 1;
        rest = after;
        if is_passed(line) {
            continue;
        }
        let line = line_of(line);
        sources.push(Source { number, line })?;
    }
    Ok(sources)
}
