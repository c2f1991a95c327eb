//! Which cards can be written.
ghost use Rattle.std.specs.Prelude.{◌≡◌, ◌≤◌, length, false};
ghost use Rattle.std.specs.List.{list_all};
ghost use Rattle.deck_model.specs.CardWriting.{card_fits, fits_24, extents_fit, esd_item_fits, rld_item_fits, same_pointers, next_same, rld_size, entry_fits};

use deck_model::cards::{Card, EntryPoint, EsdItem, RldItem, Sort};

fn fits_in_24(n: u32) -> bool
    ensures { result ≡ fits_24 n }
{
    n < 0x100_0000
}

fn do_extents_fit(sort: Sort, address: u32, extent: u32) -> bool
    ensures { result ≡ extents_fit sort address extent }
{
    match sort {
        Sort::Section | Sort::Private => fits_in_24(address) && fits_in_24(extent),
        Sort::Label => fits_in_24(address) && extent < 0x1_0000,
        Sort::External | Sort::Weak => address == 0 && extent == 0,
    }
}

fn are_same_pointers(a: &RldItem, b: &RldItem) -> bool
    ensures { result ≡ same_pointers a.now b.now }
{
    b.target == a.target && b.place == a.place
}

// Whether the first of the items that follow has the same pointers.
pub fn is_next_same(item: &RldItem, after: &[RldItem]) -> bool
    ensures { result ≡ next_same item.now after.now }
{
    match after.first() {
        Some(next) => are_same_pointers(item, next),
        None => false,
    }
}

// The bytes that the items fill.
fn rld_size_of(items: &[RldItem]) -> usize
    requires { length items.now ≤ 13 }
    ensures { result ≡ rld_size false items.now }
{
    let mut size = 0;
    let mut omits = false;
    let mut rest = items;
    while let Some((item, after)) = rest.split_first() {
        size += if omits { 4 } else { 8 };
        omits = is_next_same(item, after);
        rest = after;
    }
    size
}

fn does_esd_item_fit(item: &EsdItem) -> bool
    ensures { result ≡ esd_item_fits item.now }
{
    do_extents_fit(item.sort, item.address, item.extent)
}

fn does_rld_item_fit(item: &RldItem) -> bool
    ensures { result ≡ rld_item_fits item.now }
{
    fits_in_24(item.address) && (1 <= item.width && item.width <= 4)
}

fn do_esd_items_fit(items: &[EsdItem]) -> bool
    ensures { result ≡ list_all esd_item_fits items.now }
{
    items.iter().all(|item| does_esd_item_fit(item))
}

fn do_rld_items_fit(items: &[RldItem]) -> bool
    ensures { result ≡ list_all rld_item_fits items.now }
{
    items.iter().all(|item| does_rld_item_fit(item))
}

fn does_entry_fit(entry: &Option<EntryPoint>) -> bool
    ensures { result ≡ entry_fits entry.now }
{
    match entry {
        Some(e) => fits_in_24(e.address) && e.address != 0x404040,
        None => true,
    }
}

/// Whether a card can be written: its counts are those of its type, its addresses and extents are
/// below 2^24, a label names an ESDID below 65,536, and an entry's address is not that of three
/// blanks.
pub fn fits(card: &Card) -> bool
    ensures { result ≡ card_fits card.now }
{
    match card {
        Card::Esd(c) => 0 < c.items.len() && do_esd_items_fit(&c.items),
        Card::Txt(c) => 0 < c.bytes.len() && fits_in_24(c.address),
        Card::Rld(c) => 0 < c.items.len()
            && (do_rld_items_fit(&c.items) && rld_size_of(&c.items) <= 56),
        Card::End(e) => does_entry_fit(e),
        Card::Sym => true,
    }
}
