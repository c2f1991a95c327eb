//! What a card adds to the lists of a deck.
ghost use Rattle.std.specs.Prelude.{◌≡◌, ◌+◌, ◌≤◌, ◌++◌, [], ◌∷◌, length, OnOk, IsTrue};
ghost use Rattle.std.specs.List.{list_all};
ghost use Rattle.deck_model.specs.CardWriting.{esd_item_fits, rld_item_fits};
ghost use Rattle.deck_model.specs.Deck.{esd_list, label_uses, rld_list, pointer_uses, is_label};
ghost use Rattle.deck_loader.specs.Listed.{ItemsTyped, WidthsFit};

use deck_model::cards::{EsdItem, RldItem, Sort};
use deck_model::decks::{Item, Relocation, Use};
use std::alloc::AllocError;

fn is_label_sort(sort: Sort) -> bool
    ensures { result ≡ is_label sort }
{
    match sort {
        Sort::Label => true,
        Sort::Section | Sort::Private | Sort::External | Sort::Weak => false,
    }
}

// An item of a card that fits.
fn item_of(number: u32, owner: u32, id: u32, item: &EsdItem) -> Item
    requires { IsTrue (esd_item_fits item.now) }
    ensures item { result ∷ [] ≡ esd_list number owner id (item.now ∷ []) }
    ensures named { length result.item.name ≡ 8 }
    ensures low { result.item.address ≤ 4294967296 }
{
    Item {
        number,
        owner,
        id,
        item: EsdItem {
            name: item.name,
            sort: item.sort,
            address: item.address,
            extent: item.extent,
        },
    }
}

pub fn push_items(
    items: &mut Vec<Item>,
    number: u32,
    owner: u32,
    first: u16,
    list: &[EsdItem],
) -> Result<(), AllocError>
    requires short { length list.now ≤ 3 }
    requires fit { IsTrue (list_all esd_item_fits list.now) }
    requires typed { ItemsTyped items.old.items }
    ensures items { OnOk result (items.new.items
        ≡ items.old.items ++ esd_list number owner first list.now) }
    ensures few { OnOk result (length items.new.items ≤ length items.old.items + 3) }
    ensures typed { OnOk result (ItemsTyped items.new.items) }
{
    let mut id = u32::from(first);
    let mut rest = list;
    while let Some((item, after)) = rest.split_first() {
        items.push(item_of(number, owner, id, item))?;
        id += if is_label_sort(item.sort) { 0 } else { 1 };
        rest = after;
    }
    Ok(())
}

pub fn push_label_uses(
    uses: &mut Vec<Use>,
    number: u32,
    owner: u32,
    list: &[EsdItem],
) -> Result<(), AllocError>
    ensures { OnOk result (uses.new.items ≡ uses.old.items ++ label_uses number owner list.now) }
{
    let mut rest = list;
    while let Some((item, after)) = rest.split_first() {
        rest = after;
        if is_label_sort(item.sort) {
            uses.push(Use {
                number,
                owner,
                id: item.extent,
                any: false,
            })?;
        }
    }
    Ok(())
}

pub fn push_relocations(
    relocations: &mut Vec<Relocation>,
    number: u32,
    owner: u32,
    list: &[RldItem],
) -> Result<(), AllocError>
    requires fit { IsTrue (list_all rld_item_fits list.now) }
    requires widths { WidthsFit relocations.old.items }
    ensures items { OnOk result (relocations.new.items
        ≡ relocations.old.items ++ rld_list number owner list.now) }
    ensures widths { OnOk result (WidthsFit relocations.new.items) }
{
    let mut rest = list;
    while let Some((item, after)) = rest.split_first() {
        rest = after;
        relocations.push(Relocation {
            number,
            owner,
            item: *item,
        })?;
    }
    Ok(())
}

pub fn push_pointer_uses(
    uses: &mut Vec<Use>,
    number: u32,
    owner: u32,
    list: &[RldItem],
) -> Result<(), AllocError>
    ensures { OnOk result (uses.new.items ≡ uses.old.items ++ pointer_uses number owner list.now) }
{
    let mut rest = list;
    while let Some((item, after)) = rest.split_first() {
        rest = after;
        uses.push(Use {
            number,
            owner,
            id: u32::from(item.place),
            any: false,
        })?;
        uses.push(Use {
            number,
            owner,
            id: u32::from(item.target),
            any: true,
        })?;
    }
    Ok(())
}
