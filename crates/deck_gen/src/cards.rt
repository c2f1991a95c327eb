// The cards of the deck.
#![tactic(auto)]

ghost use Rattle.std.specs.Prelude.{◌≡◌, ◌+◌, ◌*◌, ◌<◌, ◌≤◌, [], ◌∷◌, ◌++◌, length, replicate, flat_map, None, IsTrue, OnOk, IfOk};
ghost use Rattle.deck_model.specs.Card.{esd, txt, rld};
ghost use Rattle.deck_model.specs.CardWriting.{card_bytes, card_fits};
ghost use Rattle.program_model.specs.Draws.{after};
ghost use Rattle.program_model.specs.GeneratedDeck.{section, restart_address, text_cards, text, cards, deck, deck_draws};
ghost use Rattle.deck_gen.specs.Parts.{blank_sequence, bytes_of_cards};

use crate::code::text_of;
use crate::draws::Draws;
use crate::puts::put;
use arrayvec::ArrayVec;
use card_deck::{Card, EsdCard, EsdItem, RldCard, RldItem, Sort, TxtCard, write_card};
use std::alloc::{AllocError, Global};

// Puts a card whose columns 73 to 80 are blank.
fn put_card(deck: &mut Vec<u8>, card: &Card) -> Result<(), AllocError>
    requires { IsTrue (card_fits card.now) }
    ensures { OnOk result (deck.new.items ≡ deck.old.items ++ card_bytes card.now blank_sequence) }
{
    put(deck, &write_card(card, &[0x40; 8]))
}

// The ESD card: the section `GEN`.
fn section_card() -> Card
    ensures value { result ≡ esd 1 (section ∷ []) }
    ensures fits { IsTrue (card_fits result) }
{
    let section = EsdItem {
        name: [0xC7, 0xC5, 0xD5, 0x40, 0x40, 0x40, 0x40, 0x40],
        sort: Sort::Section,
        address: 0,
        extent: 0x268,
    };
    let mut items = ArrayVec::new();
    items.push(section);
    Card::Esd(EsdCard { first_id: 1, items })
}

// The RLD card: the address in the restart PSW.
fn restart_card() -> Card
    ensures value { result ≡ rld (restart_address ∷ []) }
    ensures fits { IsTrue (card_fits result) }
{
    let restart_address = RldItem {
        target: 1,
        place: 1,
        v_type: false,
        width: 3,
        minus: false,
        address: 0x205,
    };
    let mut items = ArrayVec::new();
    items.push(restart_address);
    Card::Rld(RldCard { items })
}

// A TXT card of 56 bytes from an address on.
fn text_card(address: u32, text: &[u8]) -> Card
    requires long { length text.now ≡ 56 }
    requires small { address < 10000 }
    ensures value { result ≡ txt 1 address text.now }
    ensures fits { IsTrue (card_fits result) }
{
    let mut bytes = ArrayVec::new();
    let _ = bytes.try_extend_from_slice(text);
    Card::Txt(TxtCard {
        id: 1,
        address,
        bytes,
    })
}

// Puts so many TXT cards, the first from address 0 on.
fn put_text_cards(deck: &mut Vec<u8>, count: u32, text: &[u8]) -> Result<(), AllocError>
    requires few { count ≤ 100 }
    requires long { length text.now ≡ 56 * count }
    ensures { OnOk result (deck.new.items
        ≡ deck.old.items ++ bytes_of_cards (text_cards count 0 text.now)) }
{
    let mut rest = text;
    for i in 0..count {
        let (bytes, after) = rest.split_at(56);
        put_card(deck, &text_card(56 * i, bytes))?;
        rest = after;
    }
    Ok(())
}

/// The deck, 14 cards.
pub fn deck_of(alloc: Global, draws: &mut Draws) -> Result<Vec<u8>, AllocError>
    ensures deck { IfOk result (λ d. d.items ≡ deck draws.old) }
    ensures rest { OnOk result (draws.new ≡ after deck_draws draws.old) }
{
    let text = text_of(alloc, draws)?;
    let mut deck = Vec::with_capacity(alloc, 14 * 80)?;
    put_card(&mut deck, &section_card())?;
    put_text_cards(&mut deck, 11, &text)?;
    put_card(&mut deck, &restart_card())?;
    put_card(&mut deck, &Card::End(None))?;
    Ok(deck)
}
