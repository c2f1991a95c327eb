//! The deck of an assembled program.
ghost use Rattle.std.specs.Prelude.{◌≡◌, OnOk, IfOk};
ghost use Rattle.deck_cards.specs.NumberedCards.{deck_bytes};
ghost use Rattle.asm_deck.specs.AssembledCards.{assembled_cards};
ghost use Rattle.asm_deck.specs.Writable.{HasDeck};

use crate::cards::{push_constants, push_end, push_externals, push_sections};
use crate::text::push_section_texts;
use asm_model::program::{Constant, Defined, Section};
use std::alloc::{AllocError, Global};

/// The deck of a program, in cards of 80 bytes numbered from 1: its sections with their bytes, its
/// different external names in order of first use, the address constants that lie in the sections, and
/// the entry of END. Fails for want of memory alone.
pub fn deck_of(
    alloc: Global,
    sections: &[Section],
    externals: &[u64],
    constants: &[Constant],
    entry: Option<Defined>,
) -> Result<Vec<u8>, AllocError>
    requires { HasDeck sections.now externals.now constants.now entry }
    ensures { IfOk result (λ deck. deck.items
        ≡ deck_bytes 1 (assembled_cards sections.now externals.now constants.now entry)) }
{
    let mut deck = Vec::new(alloc);
    let mut next = push_sections(&mut deck, 1, sections)?;
    next = push_externals(&mut deck, next, externals)?;
    next = push_section_texts(alloc, &mut deck, next, sections)?;
    next = push_constants(&mut deck, next, constants)?;
    push_end(&mut deck, next, entry)?;
    Ok(deck)
}
