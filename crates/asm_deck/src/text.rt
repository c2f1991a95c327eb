//! The text of the sections.
ghost use Rattle.std.specs.Prelude.{◌≡◌, ℕ, ◌+◌, ◌<◌, ◌≤◌, ◌++◌, List, length, slice_index, IfOk};
ghost use Rattle.deck_model.specs.declared.cards.Card.{Card as SpecCard};
ghost use Rattle.deck_cards.specs.NumberedCards.{deck_bytes};
ghost use Rattle.deck_cards.specs.TextCards.{runs_of, text_cards};
ghost use Rattle.asm_deck.specs.AssembledCards.{everywhere, section_texts};
ghost use Rattle.asm_deck.specs.Accepted.{LengthsFit};
ghost use Rattle.asm_deck.specs.Writable.{total_length};

use asm_model::program::Section;
use deck_cards::push_texts;
use std::alloc::{AllocError, Global};

// Puts the text of one section, on all of which something stands.
fn push_section_text(
    alloc: Global,
    out: &mut Vec<u8>,
    number: u32,
    id: u16,
    bytes: &[u8],
) -> Result<u32, AllocError>
    requires low { length bytes.now < 16777216 }
    requires numbers { number < 2147483648 }
    ensures cards { IfOk result (λ r. (rest : List SpecCard)
        → out.new.items ++ deck_bytes r rest
        ≡ out.old.items
        ++ deck_bytes number
        (text_cards id (runs_of everywhere (slice_index bytes.now) (length bytes.now)) ++ rest)) }
    ensures numbers { IfOk result (λ r. r ≤ number + length bytes.now + 1) }
{
    let stands = vec![in alloc; true; bytes.len()]?;
    let next = push_texts(out, number, id, bytes, &stands)?;
    Ok(next)
}

/// Puts the text of each section, in pieces of 56 bytes, the first card with this number. ESDIDs count
/// from 1.
pub fn push_section_texts(
    alloc: Global,
    out: &mut Vec<u8>,
    number: u32,
    sections: &[Section],
) -> Result<u32, AllocError>
    requires count { length sections.now < 65536 }
    requires lengths { LengthsFit sections.now }
    requires numbers { number + total_length sections.now + length sections.now < 2147483648 }
    ensures cards { IfOk result (λ r. (rest : List SpecCard)
        → out.new.items ++ deck_bytes r rest
        ≡ out.old.items ++ deck_bytes number (section_texts 1 sections.now ++ rest)) }
    ensures numbers { IfOk result (λ r.
        r ≤ number + total_length sections.now + length sections.now) }
{
    let mut id: u32 = 1;
    let mut next = number;
    let mut rest = sections;
    while let Some((first, after)) = rest.split_first() {
        next = push_section_text(alloc, out, next, id as u16, &first.bytes)?;
        id += 1;
        rest = after;
    }
    Ok(next)
}
