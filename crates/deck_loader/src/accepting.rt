//! A deck without a violation, with its sections at their places.
ghost use Rattle.std.specs.Prelude.{◌≡◌, ◌<◌, ◌≤◌, length, IfOk, IfErr, Ok};
ghost use Rattle.deck_model.specs.Image.{image_of};
ghost use Rattle.deck_loader.specs.Accepted.{AcceptedAs};
ghost use Rattle.deck_loader.specs.Listed.{listed, Refuses, TextsAreUsed, WidthsFit};

use crate::checks::checked_entry;
use crate::ends::text_ends;
use crate::listing::Lists;
use crate::lookup::{index_ids, index_names, index_sections};
use crate::place::place_sections;
use deck_model::decks::{DeckRefusal, Placed};
use std::alloc::Global;
use std::collections::BTreeMap;

/// A deck without a violation: its lists, its sections from an origin on, where each section, ESDID
/// and name stands in its list, and the address of its entry.
#[derive(Drop)]
pub struct Accepted {
    pub lists: Lists,
    pub placed: Vec<Placed>,
    pub sections: BTreeMap<u64, usize>,
    pub ids: BTreeMap<u64, usize>,
    pub by_name: BTreeMap<u64, usize>,
    pub entry: u64,
}

/// The deck of the lists, from an origin on in a storage of so many bytes; or its first violation
/// past those that reading it gives. Memory may be wanting at any point.
pub fn accept_lists(
    alloc: Global,
    origin: u64,
    size: u32,
    lists: Lists,
) -> Result<Accepted, DeckRefusal>
    requires origin { origin < 4294967296 }
    requires few { length lists.items.items ≤ 268435456 }
    requires widths { WidthsFit lists.relocations.items }
    requires used { TextsAreUsed (listed lists) }
    ensures refused { IfErr result (λ r. Refuses (image_of origin size (Ok (listed lists))) r) }
    ensures accepted { IfOk result (λ a. AcceptedAs origin size (listed lists) a) }
{
    let ids = index_ids(alloc, &lists.items)?;
    let by_name = index_names(alloc, &lists.items)?;
    let ends = text_ends(alloc, &lists.texts)?;
    let placed = place_sections(alloc, origin, &lists.items, &lists.texts, &ends)?;
    let sections = index_sections(alloc, &placed)?;
    let entry = checked_entry(size, &lists, &placed, &sections, &ids, &by_name)?;
    Ok(Accepted {
        lists,
        placed,
        sections,
        ids,
        by_name,
        entry,
    })
}
