//! The entry of a deck.
ghost use Rattle.std.specs.Prelude.{◌≡◌};
ghost use Rattle.std.specs.List.{find};
ghost use Rattle.deck_model.specs.Image.{entry, entry_of, default_entry, has_length};
ghost use Rattle.deck_loader.specs.Indexed.{IndexesSections};

use crate::lookup::section_by_id;
use deck_model::decks::{Entry, Placed};
use std::collections::BTreeMap;

fn default_entry_of(placed: &[Placed]) -> Option<u64>
    ensures { result ≡ default_entry (find has_length placed.now) }
{
    for p in placed {
        if p.length != 0 {
            return Some(p.at);
        }
    }
    None
}

fn entry_at(placed: &[Placed], sections: &BTreeMap<u64, usize>, e: &Entry) -> Option<u64>
    requires { IndexesSections placed.now sections.now }
    ensures { result ≡ entry_of placed.now e.now }
{
    let p = section_by_id(placed, sections, e.owner, e.id);
    if e.address < p.item.item.address {
        return None;
    }
    let offset = u64::from(e.address) - u64::from(p.item.item.address);
    if p.length <= offset {
        return None;
    }
    Some(p.at + offset)
}

/// The first entry that an END card names, else the first section that has a length; None exactly
/// outside.
pub fn entry_in(
    placed: &[Placed],
    sections: &BTreeMap<u64, usize>,
    entries: &[Entry],
) -> Option<u64>
    requires { IndexesSections placed.now sections.now }
    ensures { result ≡ entry placed.now entries.now }
{
    match entries.first() {
        Some(e) => entry_at(placed, sections, e),
        None => default_entry_of(placed),
    }
}
