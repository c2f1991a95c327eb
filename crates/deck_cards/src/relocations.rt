//! Relocations that share their pointers as cards.
ghost use Rattle.std.specs.Prelude.{◌≡◌, ℕ, ◌+◌, ◌<◌, ◌≤◌, ◌++◌, ◌∷◌, List, [], length, IsTrue, IfOk, true};
ghost use Rattle.deck_model.specs.declared.cards.Card.{Card as SpecCard};
ghost use Rattle.deck_model.specs.declared.cards.RldItem.{RldItem as SpecItem};
ghost use Rattle.deck_model.specs.Card.{rld};
ghost use Rattle.deck_model.specs.CardWriting.{card_fits, rld_item_fits};
ghost use Rattle.deck_cards.specs.RelocationCards.{rld_closed, rld_cards, SharePointers};
ghost use Rattle.deck_cards.specs.NumberedCards.{deck_bytes};

use crate::cards::push_card;
use arrayvec::ArrayVec;
use card_deck::{Card, RldCard, RldItem};
use std::alloc::AllocError;

// The items of the next card, with its number.
#[derive(Drop)]
struct Held {
    number: u32,
    items: ArrayVec<RldItem, 13>,
}

fn rld_card(target: u16, place: u16, items: ArrayVec<RldItem, 13>) -> Card
    requires some { 0 < length items.items }
    requires few { length items.items ≤ 13 }
    requires shared { SharePointers target place items.items }
    ensures card { result ≡ rld items.items }
    ensures fits { IsTrue (card_fits result) }
{
    Card::Rld(RldCard { items })
}

// Writes the items that are held, and gives the next card's number.
fn close(out: &mut Vec<u8>, target: u16, place: u16, held: Held) -> Result<u32, AllocError>
    requires few { length held.items.items ≤ 13 }
    requires shared { SharePointers target place held.items.items }
    requires numbers { held.number < 4294967295 }
    ensures cards { IfOk result (λ r. (more : List SpecCard)
        → out.new.items ++ deck_bytes r more
        ≡ out.old.items ++ deck_bytes held.number (rld_closed held.items.items more)) }
    ensures numbers { IfOk result (λ r. r ≤ held.number + 1) }
{
    let number = held.number;
    if held.items.len() == 0 {
        return Ok(number);
    }
    push_card(out, number, &rld_card(target, place, held.items))?;
    Ok(number + 1)
}

fn one_of(item: RldItem) -> ArrayVec<RldItem, 13>
    ensures { result.items ≡ item ∷ [] }
{
    let mut items = ArrayVec::new();
    items.push(item);
    items
}

// The items of the next card after one more.
fn add(
    out: &mut Vec<u8>,
    target: u16,
    place: u16,
    held: Held,
    item: RldItem,
) -> Result<Held, AllocError>
    requires few { length held.items.items ≤ 13 }
    requires shared { SharePointers target place held.items.items }
    requires numbers { held.number < 4294967295 }
    requires target { item.target ≡ target }
    requires place { item.place ≡ place }
    requires fits { rld_item_fits item ≡ true }
    ensures cards { IfOk result (λ r. (is : List SpecItem) (more : List SpecCard)
        → out.new.items ++ deck_bytes r.number (rld_cards more r.items.items is)
        ≡ out.old.items ++ deck_bytes held.number (rld_cards more held.items.items (item ∷ is))) }
    ensures few { IfOk result (λ r. length r.items.items ≤ 13) }
    ensures shared { IfOk result (λ r. SharePointers target place r.items.items) }
    ensures numbers { IfOk result (λ r. r.number ≤ held.number + 1) }
{
    if held.items.len() == 13 {
        let number = close(out, target, place, held)?;
        return Ok(Held {
            number,
            items: one_of(item),
        });
    }
    let number = held.number;
    let mut items = held.items;
    items.push(item);
    Ok(Held { number, items })
}

/// Puts relocations behind other cards, up to 13 on a card. All have the pointers `target` and
/// `place`. Gives the number of the next card; `number` is that of the first.
pub fn push_relocations(
    out: &mut Vec<u8>,
    number: u32,
    target: u16,
    place: u16,
    relocations: &[RldItem],
) -> Result<u32, AllocError>
    requires shared { SharePointers target place relocations.now }
    requires numbers { number + length relocations.now < 4294967295 }
    ensures cards { IfOk result (λ r. (more : List SpecCard)
        → out.new.items ++ deck_bytes r more
        ≡ out.old.items ++ deck_bytes number (rld_cards more [] relocations.now)) }
    ensures numbers { IfOk result (λ r. r ≤ number + length relocations.now + 1) }
{
    let mut held = Held {
        number,
        items: ArrayVec::new(),
    };
    let mut rest = relocations;
    while let Some((first, after)) = rest.split_first() {
        held = add(out, target, place, held, *first)?;
        rest = after;
    }
    let after = close(out, target, place, held)?;
    Ok(after)
}
