//! The words of a line.
ghost use Rattle.std.specs.Prelude.{◌≡◌, ◌∷◌, [], IfNone, IfSome};
ghost use Rattle.run_model.specs.Script.{fields};
ghost use Rattle.asm_model.specs.Line.{head_by};
ghost use Rattle.asm_lines.specs.Reading.{first_or_nothing, head_in, words_behind};

use asm_words::cuts::{Rest, cut_at};

/// The words of a line. The label is empty where there is no name, and the operands where there is
/// no text behind the operation.
#[derive(Clone, Copy, Debug, PartialEq, Eq)]
pub struct Head<'a> {
    pub label: &'a [u8],
    pub operation: &'a [u8],
    pub operands: &'a [u8],
}

// The first word behind a blank, and what follows its blank.
#[tactic(auto, using(crate::proofs::Blanks::word_here, crate::proofs::Blanks::blank_here))]
fn next_word(rest: Rest<'_>) -> Option<(&[u8], Rest<'_>)>
    ensures some { IfSome result (λ p. words_behind rest.entry ≡ p.0.now ∷ words_behind p.1) }
    ensures none { IfNone result (words_behind rest.entry ≡ []) }
{
    let mut left = rest;
    while let Rest::More(text) = left {
        let (word, after) = cut_at(text, b' ');
        if word.len() > 0 {
            return Some((word, after));
        }
        left = after;
    }
    None
}

// The first word behind a blank; what follows it is a remark.
fn word_or_nothing(rest: Rest<'_>) -> &[u8]
    ensures { result.now ≡ first_or_nothing (words_behind rest.entry) }
{
    match next_word(rest) {
        Some((word, _remark)) => word,
        None => b"",
    }
}

/// The words of a line; None exactly where it has no operation.
#[tactic(auto, unfolding(run_model::specs::Script::fields))]
pub fn head_of(line: &[u8]) -> Option<Head<'_>>
    ensures { head_by (fields line.now) ≡ head_in result }
{
    let (label, rest) = cut_at(line, b' ');
    let (operation, rest) = next_word(rest)?;
    Some(Head {
        label,
        operation,
        operands: word_or_nothing(rest),
    })
}
