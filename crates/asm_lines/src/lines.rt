//! What a line of a source says.
ghost use Rattle.std.specs.Prelude.{◌≡◌, Some};
ghost use Rattle.std.specs.List.{list_all};
ghost use Rattle.asm_model.specs.Line.{said as said_by, by_mnemonic, by_head as head_said};
ghost use Rattle.asm_model.specs.Line.{is_ascii, is_plain as is_plain_text, line_of as line_text};
ghost use Rattle.asm_model.specs.Statement.{mnemonic_of as mnemonic_text};
ghost use Rattle.asm_lines.specs.Reading.{head_in};

use crate::heads::{Head, head_of};
use crate::mnemonics::mnemonic_of;
use crate::statements::operation_of;
use asm_model::statements::{Line, Operation, Statement};
use asm_words::names::name_of;

fn has_ascii_bytes(text: &[u8]) -> bool
    ensures { result ≡ list_all is_ascii text.now }
{
    text.iter().all(|b| *b < 128)
}

/// Whether a text is ASCII and has at most 120 bytes.
#[tactic(auto, unfolding(asm_model::specs::Line::is_plain))]
pub(crate) fn is_plain(text: &[u8]) -> bool
    ensures { result ≡ is_plain_text text.now }
{
    text.len() <= 120 && has_ascii_bytes(text)
}

fn said(name: Option<u64>, operation: Option<Operation>) -> Line
    ensures { result ≡ said_by name operation }
{
    match operation {
        Some(operation) => Line::Said(Statement { name, operation }),
        None => Line::Broken,
    }
}

// What a line with this name says; an unknown operation never breaks its line.
fn named_line(name: Option<u64>, operation: &[u8], operands: &[u8]) -> Line
    ensures { result ≡ by_mnemonic (mnemonic_text operation.now) name operands.now }
{
    match mnemonic_of(operation) {
        Some(mnemonic) => said(name, operation_of(mnemonic, name, operands)),
        None => Line::Unknown,
    }
}

// What a line of these words says.
fn headed_line(head: Head<'_>) -> Line
    ensures { result ≡ head_said (head_in (Some head.entry)) }
{
    if head.label.len() == 0 {
        return named_line(None, head.operation, head.operands);
    }
    match name_of(head.label) {
        Some(name) => named_line(Some(name), head.operation, head.operands),
        None => Line::Broken,
    }
}

/// What a line says that is not passed over.
#[tactic(auto, unfolding(asm_model::specs::Line::line_of))]
pub fn line_of(text: &[u8]) -> Line
    ensures { result ≡ line_text text.now }
{
    if !is_plain(text) {
        return Line::Broken;
    }
    match head_of(text) {
        Some(head) => headed_line(head),
        None => Line::Broken,
    }
}
