//! Decks linked into one.
ghost use Rattle.std.specs.Prelude.{◌≡◌, ◌<◌, ◌≤◌, ◌^◌, length, Ok, IfOk, IfErr};
ghost use Rattle.deck_loader.specs.Accepted.{AcceptedAs};
ghost use Rattle.deck_loader.specs.Listed.{listed};
ghost use Rattle.link_model.specs.Link.{link_listing, link_of};
ghost use Rattle.link_model.specs.Linked.{whole_length};
ghost use Rattle.link_model.specs.Loading.{LoadAlike};
ghost use Rattle.deck_link.specs.Answers.{most_length, loading_refusal, IsRead, Refused};
ghost use Rattle.deck_link.specs.Constants.{constants_for};
ghost use Rattle.deck_link.specs.Sound.{Sound};

use crate::cards::deck_of;
use crate::clashes::first_clash;
use crate::constants::{Constant, constants_of};
use crate::counting::card_count;
use crate::labels::first_far_label;
use crate::parts::parts_of;
use crate::section::section_length;
use deck_loader::{Accepted, DeckRefusal, Lists, accept_lists, read_deck};
use program_model::refusals::LinkRefusal;
use std::alloc::Global;

// The bytes behind X'10000' in the greatest storage: as many has the one section at most.
const MOST_LENGTH: u32 = 0xFF_0000;

// An entry that END leaves blank.
const BLANK_ENTRY: u64 = 0x40_4040;

// The cards of 16,000,000 bytes.
const MOST_CARDS: usize = 200_000;

fn loading_refused(r: DeckRefusal) -> LinkRefusal
    ensures { result ≡ loading_refusal r }
{
    match r {
        DeckRefusal::NoMemory => LinkRefusal::NoMemory,
        other => LinkRefusal::Deck(other),
    }
}

// The linked deck of a deck that nothing refuses but its length, with its constants and the farthest
// end of its sections.
fn link_sound(
    alloc: Global,
    deck: &Accepted,
    extent: usize,
    constants: &[Constant],
) -> Result<Vec<u8>, LinkRefusal>
    requires accepted { AcceptedAs 0 most_length (listed deck.now.lists) deck.now }
    requires sound { Sound (listed deck.now.lists) deck.now.entry }
    requires extent { extent ≡ whole_length deck.now.placed.items }
    requires constants { constants.now
        ≡ constants_for deck.now.lists.items.items deck.now.placed.items
        deck.now.lists.relocations.items }
    ensures linked { IfOk result (λ b. link_listing (Ok (listed deck.now.lists)) ≡ Ok b.items) }
    ensures refused { IfErr result (λ r. Refused (link_listing (Ok (listed deck.now.lists))) r) }
{
    let Ok(parts) = parts_of(alloc, deck, extent, constants) else {
        return Err(LinkRefusal::NoMemory);
    };
    if card_count(&parts) > MOST_CARDS {
        return Err(LinkRefusal::TooLong);
    }
    let Ok(linked) = deck_of(alloc, &parts) else {
        return Err(LinkRefusal::NoMemory);
    };
    Ok(linked)
}

// The linked deck of a deck without a violation, or the first refusal past that.
fn link_accepted(alloc: Global, deck: &Accepted) -> Result<Vec<u8>, LinkRefusal>
    requires read { IsRead (listed deck.now.lists) }
    requires accepted { AcceptedAs 0 most_length (listed deck.now.lists) deck.now }
    ensures linked { IfOk result (λ b. link_listing (Ok (listed deck.now.lists)) ≡ Ok b.items) }
    ensures refused { IfErr result (λ r. Refused (link_listing (Ok (listed deck.now.lists))) r) }
{
    let extent = section_length(&deck.placed) as usize;
    let Ok(constants) = constants_of(alloc, deck) else {
        return Err(LinkRefusal::NoMemory);
    };
    let Ok(clash) = first_clash(alloc, extent, &constants) else {
        return Err(LinkRefusal::NoMemory);
    };
    if let Some(number) = clash {
        return Err(LinkRefusal::Clash(number));
    }
    if let Some(number) = first_far_label(deck) {
        return Err(LinkRefusal::Label(number));
    }
    if deck.entry == BLANK_ENTRY {
        return Err(LinkRefusal::BlankEntry);
    }
    link_sound(alloc, deck, extent, &constants)
}

fn link_lists(alloc: Global, lists: Lists) -> Result<Vec<u8>, LinkRefusal>
    requires few { length lists.items.items ≤ 268435456 }
    requires read { IsRead (listed lists) }
    ensures linked { IfOk result (λ b. link_listing (Ok (listed lists)) ≡ Ok b.items) }
    ensures refused { IfErr result (λ r. Refused (link_listing (Ok (listed lists))) r) }
{
    match accept_lists(alloc, 0, MOST_LENGTH, lists) {
        Ok(deck) => link_accepted(alloc, &deck),
        Err(r) => Err(loading_refused(r)),
    }
}

/// The deck of one section that stands for decks that follow one another, or why there is none. It
/// is loaded as the decks are, from every origin. Memory may be wanting at any point.
pub fn link(alloc: Global, deck: &[u8]) -> Result<Vec<u8>, LinkRefusal>
    requires { length deck.now < 2 ^ 32 }
    ensures linked { IfOk result (λ b. link_of deck.now ≡ Ok b.items) }
    ensures refused { IfErr result (λ r. Refused (link_of deck.now) r) }
    ensures alike { IfOk result (λ b. LoadAlike b.items deck.now) }
{
    match read_deck(alloc, deck) {
        Ok(lists) => link_lists(alloc, lists),
        Err(r) => Err(loading_refused(r)),
    }
}
