//! A card written into its columns.
ghost use Rattle.std.specs.Prelude.{◌≡◌, ℕ, All, ◌+◌, ◌<◌, ◌≤◌, ◌∷◌, ◌++◌, length, IsTrue, true, false, if◌then◌else◌};
ghost use Rattle.std.specs.List.{flat_map, list_all};
ghost use Rattle.byteorder.specs.Endian.{big_bytes};
ghost use Rattle.deck_model.specs.Card.{sort_code, card_of, esd, txt, rld};
ghost use Rattle.deck_model.specs.CardWriting.{card_fits, fits_24, esd_item_fits, rld_item_fits, next_same, rld_size, entry_fits, blank_card, with_data, esd_item_bytes, flag_of, pointer_bytes, rld_bytes, esd_bytes, txt_bytes, rld_card_bytes, end_bytes, card_bytes};
ghost use Rattle.card_deck.specs.Results.{PointersFit};

use crate::columns::{put_at, three_bytes, two_bytes};
use crate::fitting::is_next_same;
use arrayvec::ArrayVec;
use deck_model::cards::{Card, EntryPoint, EsdItem, RldItem, Sort};

// A card of a type, blank but for its first four columns and its identification.
#[tactic(auto, unfolding(deck_model::specs::CardWriting::blank_card))]
fn blank_card_of(kind: u32, sequence: &[u8; 8]) -> [u8; 80]
    requires { IsTrue (fits_24 kind) }
    ensures { result ≡ blank_card kind sequence.now }
{
    let mut card = [0x40; 80];
    put_at(&mut card, 0, &[2]);
    put_at(&mut card, 1, &three_bytes(kind));
    put_at(&mut card, 72, sequence);
    card
}

#[tactic(auto, unfolding(deck_model::specs::CardWriting::with_data))]
fn add_data(card: &mut [u8; 80], bytes: &[u8])
    requires { length bytes.now ≤ 56 }
    ensures { card.new ≡ with_data bytes.now card.old }
{
    put_at(card, 10, &two_bytes(bytes.len() as u16));
    put_at(card, 16, bytes);
}

fn code_of(sort: Sort) -> u8
    ensures { result ≡ sort_code sort }
{
    match sort {
        Sort::Section => 0,
        Sort::Private => 4,
        Sort::Label => 1,
        Sort::External => 2,
        Sort::Weak => 10,
    }
}

#[tactic(auto, unfolding(deck_model::specs::CardWriting::esd_item_bytes))]
fn esd_item_bytes_of(item: &EsdItem) -> [u8; 16]
    requires address { IsTrue (fits_24 item.now.address) }
    requires extent { IsTrue (fits_24 item.now.extent) }
    ensures bytes { result ≡ esd_item_bytes item.now }
    ensures named { length item.now.name ≡ 8 }
{
    let mut bytes = [0x40; 16];
    put_at(&mut bytes, 0, &item.name);
    put_at(&mut bytes, 8, &[code_of(item.sort)]);
    put_at(&mut bytes, 9, &three_bytes(item.address));
    put_at(&mut bytes, 13, &three_bytes(item.extent));
    bytes
}

// Appends bytes.
fn push_all(bytes: &mut ArrayVec<u8, 56>, more: &[u8])
    requires { length bytes.old.items + length more.now ≤ 56 }
    ensures { bytes.new.items ≡ bytes.old.items ++ more.now }
{
    for b in more {
        bytes.push(*b);
    }
}

fn esd_data_of(items: &[EsdItem]) -> ArrayVec<u8, 56>
    requires few { length items.now ≤ 3 }
    requires fit { IsTrue (list_all esd_item_fits items.now) }
    ensures bytes { result.items ≡ flat_map esd_item_bytes items.now }
    ensures named { All (λ i. length i.name ≡ 8) items.now }
{
    let mut bytes = ArrayVec::new();
    for item in items {
        push_all(&mut bytes, &esd_item_bytes_of(item));
    }
    bytes
}

fn flag_byte(item: &RldItem, omits: bool) -> u8
    requires { IsTrue (rld_item_fits item.now) }
    ensures { result ≡ flag_of omits item.now }
{
    let sort: u8 = if item.v_type { 16 } else { 0 };
    let minus: u8 = if item.minus { 2 } else { 0 };
    let next: u8 = if omits { 1 } else { 0 };
    sort + ((item.width - 1) * 4 + (minus + next))
}

fn push_pointers(bytes: &mut ArrayVec<u8, 56>, omits: bool, item: &RldItem)
    requires { length bytes.old.items + 4 ≤ 56 }
    ensures { bytes.new.items ≡ bytes.old.items ++ pointer_bytes omits item.now }
{
    if !omits {
        push_all(bytes, &two_bytes(item.target));
        push_all(bytes, &two_bytes(item.place));
    }
}

fn push_rld_item(bytes: &mut ArrayVec<u8, 56>, omits: bool, next: bool, item: &RldItem)
    requires room { length bytes.old.items + (if omits then 4 else 8) ≤ 56 }
    requires fits { IsTrue (rld_item_fits item.now) }
    ensures bytes { bytes.new.items
        ≡ bytes.old.items
        ++ (pointer_bytes omits item.now
        ++ (flag_of next item.now ∷ big_bytes 3 item.now.address)) }
    ensures pointers { (item.now.target < 65536) × (item.now.place < 65536) }
{
    let _target = item.target;
    let _place = item.place;
    push_pointers(bytes, omits, item);
    bytes.push(flag_byte(item, next));
    push_all(bytes, &three_bytes(item.address));
}

fn rld_data_of(items: &[RldItem]) -> ArrayVec<u8, 56>
    requires size { rld_size false items.now ≤ 56 }
    requires fit { IsTrue (list_all rld_item_fits items.now) }
    ensures bytes { result.items ≡ rld_bytes false items.now }
    ensures pointers { PointersFit items.now }
{
    let mut bytes = ArrayVec::new();
    let mut omits = false;
    let mut rest = items;
    while let Some((item, after)) = rest.split_first() {
        let next = is_next_same(item, after);
        push_rld_item(&mut bytes, omits, next, item);
        omits = next;
        rest = after;
    }
    bytes
}

#[tactic(auto, unfolding(deck_model::specs::CardWriting::esd_bytes))]
fn esd_bytes_of(first_id: u16, items: &[EsdItem], sequence: &[u8; 8]) -> [u8; 80]
    requires some { 0 < length items.now }
    requires few { length items.now ≤ 3 }
    requires fit { IsTrue (list_all esd_item_fits items.now) }
    ensures bytes { result ≡ esd_bytes first_id items.now sequence.now }
    ensures named { All (λ i. length i.name ≡ 8) items.now }
{
    let mut card = blank_card_of(0xC5E2C4, sequence);
    put_at(&mut card, 14, &two_bytes(first_id));
    add_data(&mut card, &esd_data_of(items));
    card
}

#[tactic(auto, unfolding(deck_model::specs::CardWriting::txt_bytes))]
fn txt_bytes_of(id: u16, address: u32, bytes: &[u8], sequence: &[u8; 8]) -> [u8; 80]
    requires some { 0 < length bytes.now }
    requires few { length bytes.now ≤ 56 }
    requires fit { IsTrue (fits_24 address) }
    ensures { result ≡ txt_bytes id address bytes.now sequence.now }
{
    let mut card = blank_card_of(0xE3E7E3, sequence);
    put_at(&mut card, 5, &three_bytes(address));
    put_at(&mut card, 14, &two_bytes(id));
    add_data(&mut card, bytes);
    card
}

#[tactic(auto, unfolding(deck_model::specs::CardWriting::rld_card_bytes))]
fn rld_bytes_of(items: &[RldItem], sequence: &[u8; 8]) -> [u8; 80]
    requires some { 0 < length items.now }
    requires size { rld_size false items.now ≤ 56 }
    requires fit { IsTrue (list_all rld_item_fits items.now) }
    ensures bytes { result ≡ rld_card_bytes items.now sequence.now }
    ensures pointers { PointersFit items.now }
{
    let mut card = blank_card_of(0xD9D3C4, sequence);
    add_data(&mut card, &rld_data_of(items));
    card
}

#[tactic(auto, unfolding(deck_model::specs::CardWriting::end_bytes))]
fn entry_bytes_of(e: EntryPoint, sequence: &[u8; 8]) -> [u8; 80]
    requires { IsTrue (entry_fits (Some e)) }
    ensures bytes { result ≡ end_bytes (Some e) sequence.now }
    ensures id { e.id < 65536 }
{
    let mut card = blank_card_of(0xC5D5C4, sequence);
    put_at(&mut card, 5, &three_bytes(e.address));
    put_at(&mut card, 14, &two_bytes(e.id));
    card
}

#[tactic(auto, unfolding(deck_model::specs::CardWriting::end_bytes))]
fn no_entry_bytes_of(sequence: &[u8; 8]) -> [u8; 80]
    ensures { result ≡ end_bytes None sequence.now }
{
    blank_card_of(0xC5D5C4, sequence)
}

fn write_esd(first_id: u16, items: &[EsdItem], sequence: &[u8; 8]) -> [u8; 80]
    requires some { 0 < length items.now }
    requires few { length items.now ≤ 3 }
    requires fit { IsTrue (list_all esd_item_fits items.now) }
    ensures bytes { result ≡ esd_bytes first_id items.now sequence.now }
    ensures read { card_of result ≡ Ok (esd first_id items.now) }
{
    esd_bytes_of(first_id, items, sequence)
}

fn write_txt(id: u16, address: u32, bytes: &[u8], sequence: &[u8; 8]) -> [u8; 80]
    requires some { 0 < length bytes.now }
    requires few { length bytes.now ≤ 56 }
    requires fit { IsTrue (fits_24 address) }
    ensures bytes { result ≡ txt_bytes id address bytes.now sequence.now }
    ensures read { card_of result ≡ Ok (txt id address bytes.now) }
{
    txt_bytes_of(id, address, bytes, sequence)
}

fn write_rld(items: &[RldItem], sequence: &[u8; 8]) -> [u8; 80]
    requires some { 0 < length items.now }
    requires size { rld_size false items.now ≤ 56 }
    requires fit { IsTrue (list_all rld_item_fits items.now) }
    ensures bytes { result ≡ rld_card_bytes items.now sequence.now }
    ensures read { card_of result ≡ Ok (rld items.now) }
{
    rld_bytes_of(items, sequence)
}

fn write_entry(e: EntryPoint, sequence: &[u8; 8]) -> [u8; 80]
    requires { IsTrue (entry_fits (Some e)) }
    ensures bytes { result ≡ end_bytes (Some e) sequence.now }
    ensures read { card_of result ≡ Ok (Card.End (Some e)) }
{
    entry_bytes_of(e, sequence)
}

fn write_no_entry(sequence: &[u8; 8]) -> [u8; 80]
    ensures bytes { result ≡ end_bytes None sequence.now }
    ensures read { card_of result ≡ Ok (Card.End None) }
{
    no_entry_bytes_of(sequence)
}

fn write_end(entry: &Option<EntryPoint>, sequence: &[u8; 8]) -> [u8; 80]
    requires { IsTrue (entry_fits entry.now) }
    ensures bytes { result ≡ end_bytes entry.now sequence.now }
    ensures read { card_of result ≡ Ok (Card.End entry.now) }
{
    match entry {
        Some(e) => write_entry(*e, sequence),
        None => write_no_entry(sequence),
    }
}

fn write_sym(sequence: &[u8; 8]) -> [u8; 80]
    ensures bytes { result ≡ blank_card 0xE2E8D4 sequence.now }
    ensures read { card_of result ≡ Ok Card.Sym }
{
    blank_card_of(0xE2E8D4, sequence)
}

/// Writes a card that fits into its 80 columns, with its identification in columns 73-80. Reading
/// it gives the card. Columns that its type does not name are blank, and an item omits its pointers
/// exactly where they are those of the item before it.
pub fn write_card(card: &Card, sequence: &[u8; 8]) -> [u8; 80]
    requires { IsTrue (card_fits card.now) }
    ensures bytes { result ≡ card_bytes card.now sequence.now }
    ensures read { card_of result ≡ Ok card.now }
{
    match card {
        Card::Esd(c) => write_esd(c.first_id, &c.items, sequence),
        Card::Txt(c) => write_txt(c.id, c.address, &c.bytes, sequence),
        Card::Rld(c) => write_rld(&c.items, sequence),
        Card::End(e) => write_end(e, sequence),
        Card::Sym => write_sym(sequence),
    }
}
