//! The cards of the linked deck.
ghost use Rattle.std.specs.Prelude.{◌≡◌, ◌≢◌, ℕ, ◌+◌, ◌<◌, ◌≤◌, ◌++◌, [], ◌∷◌, List, length, map, take, IsTrue, IfOk};
ghost use Rattle.deck_model.specs.Card.{esd};
ghost use Rattle.deck_model.specs.CardWriting.{card_fits};
ghost use Rattle.deck_model.specs.declared.cards.Card.{Card as SpecCard};
ghost use Rattle.deck_cards.specs.NumberedCards.{deck_bytes};
ghost use Rattle.deck_cards.specs.Writable.{AreWritable};
ghost use Rattle.link_model.specs.Linked.{one_section, label_card as label_card_of, end_card};
ghost use Rattle.deck_link.specs.Parts.{cards_of, PartsFit};

use crate::parts::Parts;
use arrayvec::ArrayVec;
use card_deck::{Card, EntryPoint, EsdCard, EsdItem, Sort};
use deck_cards::{push_card, push_relocations, push_texts};
use std::alloc::{AllocError, Global};

fn esd_card(id: u16, item: EsdItem) -> Card
    ensures { result ≡ esd id (item ∷ []) }
{
    let mut items = ArrayVec::new();
    items.push(item);
    Card::Esd(EsdCard {
        first_id: id,
        items,
    })
}

fn section_card(extent: u32) -> Card
    requires { extent < 16777216 }
    ensures card { result ≡ esd 1 (one_section extent ∷ []) }
    ensures fits { IsTrue (card_fits result) }
{
    esd_card(
        1,
        EsdItem {
            name: [0x40; 8],
            sort: Sort::Section,
            address: 0,
            extent,
        },
    )
}

fn last_card(entry: u32) -> Card
    requires low { entry < 16777216 }
    requires named { entry ≢ 0x404040 }
    ensures card { result ≡ end_card entry }
    ensures fits { IsTrue (card_fits result) }
{
    Card::End(Some(EntryPoint {
        address: entry,
        id: 1,
    }))
}

// Puts a card for each label, the first of them with this number.
fn push_labels(out: &mut Vec<u8>, number: u32, labels: &[EsdItem]) -> Result<u32, AllocError>
    requires numbers { number + length labels.now < 4294967296 }
    requires writable { AreWritable (map label_card_of labels.now) }
    ensures cards { IfOk result (λ r. (rest : List SpecCard)
        → out.new.items ++ deck_bytes r rest
        ≡ out.old.items ++ deck_bytes number (map label_card_of labels.now ++ rest)) }
    ensures number { IfOk result (λ r. r ≡ number + length labels.now) }
{
    let mut next = number;
    let mut rest = labels;
    while let Some((first, after)) = rest.split_first() {
        push_card(out, next, &esd_card(0, *first))?;
        next += 1;
        rest = after;
    }
    Ok(next)
}

// The text that stands, in the one section.
fn text_of(parts: &Parts) -> &[u8]
    requires { parts.now.extent ≤ length parts.now.storage }
    ensures { result.now ≡ take parts.now.extent parts.now.storage }
{
    &parts.storage.bytes()[..parts.extent]
}

/// The deck of the parts, in cards of 80 bytes numbered from 1.
pub fn deck_of(alloc: Global, parts: &Parts) -> Result<Vec<u8>, AllocError>
    requires fit { PartsFit parts.now }
    requires few { length (cards_of parts.now) ≤ 200000 }
    ensures { IfOk result (λ deck. deck.items ≡ deck_bytes 1 (cards_of parts.now)) }
{
    let mut deck = Vec::new(alloc);
    push_card(&mut deck, 1, &section_card(parts.extent as u32))?;
    let texts = push_labels(&mut deck, 2, &parts.labels)?;
    let relocations = push_texts(&mut deck, texts, 1, text_of(parts), &parts.stands)?;
    let last = push_relocations(&mut deck, relocations, 1, 1, &parts.items)?;
    push_card(&mut deck, last, &last_card(parts.entry))?;
    Ok(deck)
}
