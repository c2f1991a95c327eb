//! The one section: its length, and the bytes on which text or a relocated constant stands.
ghost use Rattle.std.specs.Prelude.{◌≡◌, ℕ, ◌+◌, ◌≤◌, ◌||◌, false, get_or, length, max, IfOk};
ghost use Rattle.std.specs.List.{list_any};
ghost use Rattle.deck_model.specs.Image.{has_no_room};
ghost use Rattle.deck_cards.specs.TextCards.{reaches};
ghost use Rattle.deck_loader.specs.Accepted.{FitsInto};
ghost use Rattle.deck_loader.specs.Written.{AreInside};
ghost use Rattle.link_model.specs.Linked.{whole_length, text_reaches};
ghost use Rattle.deck_link.specs.Answers.{most_length};
ghost use Rattle.deck_link.specs.Constants.{ConstantsIn, reached};

use crate::constants::Constant;
use deck_loader::{Accepted, text_place};
use deck_model::decks::{Placed, Text};
use std::alloc::{AllocError, Global};

fn greater(a: u64, b: u64) -> u64
    ensures { result ≡ max a b }
{
    if a < b { b } else { a }
}

/// The farthest end of a section.
pub fn section_length(placed: &[Placed]) -> u64
    requires { list_any (has_no_room most_length) placed.now ≡ false }
    ensures value { result ≡ whole_length placed.now }
    ensures small { result ≤ most_length }
{
    let mut end = 0;
    let mut rest = placed;
    while let Some((first, after)) = rest.split_first() {
        end = greater(end, first.at + first.length);
        rest = after;
    }
    end
}

// Flags n bytes from a place on.
fn set_flags(on: &mut [bool], at: usize, n: usize)
    requires inside { at + n ≤ length on.old }
    ensures flags { (k : ℕ) → get_or on.new k false ≡ (reaches at n k || get_or on.old k false) }
    ensures long { length on.new ≡ length on.old }
{
    for i in 0..n {
        on[at + i] = true;
    }
}

fn flag_texts(on: &mut [bool], deck: &Accepted, texts: &[Text])
    requires fits { FitsInto most_length deck.now }
    requires inside { AreInside deck.now.placed.items (length on.old) texts.now }
    ensures flags { (k : ℕ) → get_or on.new k false
        ≡ (list_any (text_reaches deck.now.placed.items k) texts.now || get_or on.old k false) }
    ensures long { length on.new ≡ length on.old }
{
    let mut rest = texts;
    while let Some((first, after)) = rest.split_first() {
        let at = text_place(&deck.placed, &deck.sections, first);
        set_flags(on, at as usize, first.bytes.len());
        rest = after;
    }
}

fn flag_constants(on: &mut [bool], constants: &[Constant])
    requires inside { ConstantsIn (length on.old) constants.now }
    ensures flags { (k : ℕ) → get_or on.new k false
        ≡ (list_any (reached k) constants.now || get_or on.old k false) }
    ensures long { length on.new ≡ length on.old }
{
    let mut rest = constants;
    while let Some((first, after)) = rest.split_first() {
        set_flags(on, first.at as usize, usize::from(first.width));
        rest = after;
    }
}

/// Whether text or a constant stands on each of so many bytes.
pub fn standing(
    alloc: Global,
    deck: &Accepted,
    extent: usize,
    constants: &[Constant],
) -> Result<Vec<bool>, AllocError>
    requires fits { FitsInto most_length deck.now }
    requires texts { AreInside deck.now.placed.items extent deck.now.lists.texts.items }
    requires constants { ConstantsIn extent constants.now }
    ensures flags { IfOk result (λ v. (k : ℕ) → get_or v.items k false
        ≡ (list_any (text_reaches deck.now.placed.items k) deck.now.lists.texts.items
        || list_any (reached k) constants.now)) }
    ensures long { IfOk result (λ v. length v.items ≡ extent) }
{
    let mut on = vec![in alloc; false; extent]?;
    flag_texts(&mut on, deck, &deck.lists.texts);
    flag_constants(&mut on, constants);
    Ok(on)
}
