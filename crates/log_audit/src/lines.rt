// The lines of a log, one by one.
#![tactic(auto)]

ghost use Rattle.std.specs.Prelude.{◌≡◌, ◌<◌, ◌==◌, [], ◌∷◌, length, position, IfSome, IfNone};
ghost use Rattle.log_audit.specs.Form.{entries_in, fed_lines};
ghost use Rattle.log_audit.specs.Next.{BeginsWithEntry};

use service_log::{Entry, read};

fn line_feed_of(text: &[u8]) -> Option<usize>
    ensures { result ≡ position (λ b. b == 10) text.now }
{
    text.iter().position(|b| *b == b'\n')
}

/// The next line with its line feed, and what follows it.
#[tactic(auto, using(crate::proofs::Cutting::no_feed, crate::proofs::Cutting::feed_at))]
pub fn next_line(text: &[u8]) -> Option<(&[u8], &[u8])>
    ensures some { IfSome result (λ p. fed_lines text.now ≡ p.0.now ∷ fed_lines p.1.now) }
    ensures shorter { IfSome result (λ p. length p.1.now < length text.now) }
    ensures none { IfNone result (fed_lines text.now ≡ []) }
{
    if text.len() == 0 {
        return None;
    }
    let Some(end) = line_feed_of(text) else {
        return Some((text, b""));
    };
    Some((&text[..end + 1], &text[end + 1..]))
}

/// The entry of the next line and what follows it; None where it is the last line or no entry.
pub fn next_entry(text: &[u8]) -> Option<(Entry, &[u8])>
    ensures some { IfSome result (λ p.
        BeginsWithEntry (fed_lines text.now) p.0 (fed_lines p.1.now)) }
    ensures shorter { IfSome result (λ p. length p.1.now < length text.now) }
    ensures none { IfNone result (entries_in (fed_lines text.now) ≡ []) }
{
    let (line, after) = next_line(text)?;
    if after.len() == 0 {
        return None;
    }
    match read(line) {
        Ok(entry) => Some((entry, after)),
        Err(_) => None,
    }
}
