//! Sections at their places.
ghost use Rattle.std.specs.Prelude.{◌≡◌, ◌<◌, ◌≤◌, ◌^◌, length, All, IfOk};
ghost use Rattle.deck_model.specs.Deck.{is_section};
ghost use Rattle.deck_model.specs.Image.{length_of, place};
ghost use Rattle.deck_loader.specs.Indexed.{KeepsEnds};

use crate::ends::end_at;
use crate::keys::key_of;
use deck_model::cards::Sort;
use deck_model::decks::{Item, Placed, Text};
use std::alloc::{AllocError, Global};
use std::collections::BTreeMap;

pub fn is_section_sort(sort: Sort) -> bool
    ensures { result ≡ is_section sort }
{
    match sort {
        Sort::Section | Sort::Private => true,
        Sort::Label | Sort::External | Sort::Weak => false,
    }
}

fn length_for(s: &Item, texts: &[Text], ends: &BTreeMap<u64, u64>) -> u64
    requires { KeepsEnds texts.now ends.now }
    ensures value { result ≡ length_of texts.now s.now }
    ensures small { result ≤ 8589934592 }
{
    if s.item.extent != 0 {
        return u64::from(s.item.extent);
    }
    end_at(ends, key_of(s.owner, s.id)).saturating_sub(u64::from(s.item.address))
}

/// The sections at their places from an origin on, in the order of their items.
pub fn place_sections(
    alloc: Global,
    origin: u64,
    items: &[Item],
    texts: &[Text],
    ends: &BTreeMap<u64, u64>,
) -> Result<Vec<Placed>, AllocError>
    requires origin { origin < 4294967296 }
    requires few { length items.now ≤ 268435456 }
    requires ends { KeepsEnds texts.now ends.now }
    ensures places { IfOk result (λ v. v.items ≡ place origin texts.now items.now) }
    ensures low { IfOk result (λ v. All (λ p. p.at < 2 ^ 63) v.items) }
{
    let mut placed = Vec::new(alloc);
    let mut from = origin;
    let mut rest = items;
    while let Some((item, after)) = rest.split_first() {
        rest = after;
        if is_section_sort(item.item.sort) {
            let length = length_for(item, texts, ends);
            let at = (from + 7) / 8 * 8;
            placed.push(Placed {
                item: *item,
                length,
                at,
            })?;
            from = at + length;
        }
    }
    Ok(placed)
}
