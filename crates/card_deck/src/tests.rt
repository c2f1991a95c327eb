//! Cards worked by hand from their columns.
use crate::{
    Card, CardRefusal, EntryPoint, EsdCard, EsdItem, Kind, RldCard, RldItem, Sort, TxtCard, fits,
    read_card, write_card,
};
use arrayvec::ArrayVec;
use std::test::Fail;

const ESD: [u8; 3] = [0xC5, 0xE2, 0xC4];

const TXT: [u8; 3] = [0xE3, 0xE7, 0xE3];

const RLD: [u8; 3] = [0xD9, 0xD3, 0xC4];

const END: [u8; 3] = [0xC5, 0xD5, 0xC4];

const SYM: [u8; 3] = [0xE2, 0xE8, 0xD4];

const XSD: [u8; 3] = [0xE7, 0xE2, 0xC4];

// A blank card of a type, with bytes from columns on, counted from 0.
fn card_with(kind: [u8; 3], parts: &[(usize, &[u8])]) -> [u8; 80] {
    let mut card = [0x40; 80];
    card[0] = 2;
    card[1..4].copy_from_slice(&kind);
    for (at, bytes) in parts {
        for (byte, more) in card.iter_mut().skip(*at).zip(*bytes) {
            *byte = *more;
        }
    }
    card
}

fn written(card: &Card) -> Option<[u8; 80]> {
    if fits(card) {
        Some(write_card(card, b"00000001"))
    } else {
        None
    }
}

#[test]
fn refused_cards(rt: HostRuntime) {
    let mut no_first_byte = card_with(XSD, &[]);
    no_first_byte[0] = 0x40;
    let section = [0x40, 0x40, 0x40, 0x40, 0x40, 0x40, 0x40, 0x40, 5];
    for (card, refusal) in [
        (no_first_byte, CardRefusal::BadFirstByte),
        (card_with([0xE3, 0xE7, 0xE4], &[]), CardRefusal::UnknownCard),
        (
            card_with(ESD, &[(10, &[0, 17]), (16, &section)]),
            CardRefusal::BadCount,
        ),
        (card_with(TXT, &[(10, &[0, 0])]), CardRefusal::BadCount),
        (card_with(TXT, &[(10, &[0, 57])]), CardRefusal::BadCount),
        // the second item omits no pointers and wants 8 bytes
        (
            card_with(RLD, &[(10, &[0, 12]), (16, &[0, 1, 0, 1, 0x2C, 0, 0, 4])]),
            CardRefusal::BadCount,
        ),
        (
            card_with(ESD, &[(10, &[0, 16]), (16, &section)]),
            CardRefusal::Unsupported(Kind::EsdItem(5)),
        ),
        (
            card_with(RLD, &[(10, &[0, 8]), (16, &[0, 1, 0, 1, 0x2C, 0, 0, 4])]),
            CardRefusal::Unsupported(Kind::RldSort(2)),
        ),
        (card_with(XSD, &[]), CardRefusal::Unsupported(Kind::Xsd)),
    ] {
        assert_eq!(rt; read_card(&card), Err(refusal));
    }
}

#[test]
fn cards_by_columns(rt: HostRuntime) {
    let mut labels = ArrayVec::new();
    labels.push(EsdItem {
        name: [0xC1, 0x40, 0x40, 0x40, 0x40, 0x40, 0x40, 0x40],
        sort: Sort::Label,
        address: 0x10203,
        extent: 0x102,
    });
    let mut bytes = ArrayVec::new();
    bytes.push(0xC8);
    bytes.push(0xC9);
    let mut relocations = ArrayVec::new();
    relocations.push(RldItem {
        target: 1,
        place: 1,
        v_type: false,
        width: 4,
        minus: false,
        address: 4,
    });
    relocations.push(RldItem {
        target: 1,
        place: 1,
        v_type: false,
        width: 3,
        minus: true,
        address: 9,
    });
    for (card, columns) in [
        (
            Card::Esd(EsdCard {
                first_id: 7,
                items: labels,
            }),
            card_with(
                ESD,
                &[
                    (10, &[0, 16]),
                    (14, &[0, 7]),
                    (16, &[0xC1]),
                    (24, &[1, 1, 2, 3, 0x40, 0, 1, 2]),
                ],
            ),
        ),
        (
            Card::Txt(TxtCard {
                id: 0x102,
                address: 0x10203,
                bytes,
            }),
            card_with(
                TXT,
                &[
                    (5, &[1, 2, 3]),
                    (10, &[0, 2]),
                    (14, &[1, 2]),
                    (16, &[0xC8, 0xC9]),
                ],
            ),
        ),
        (
            Card::Rld(RldCard { items: relocations }),
            card_with(
                RLD,
                &[
                    (10, &[0, 12]),
                    (16, &[0, 1, 0, 1, 0x0D, 0, 0, 4, 0x0A, 0, 0, 9]),
                ],
            ),
        ),
        (
            Card::End(Some(EntryPoint { address: 4, id: 1 })),
            card_with(END, &[(5, &[0, 0, 4]), (14, &[0, 1])]),
        ),
        (Card::End(None), card_with(END, &[])),
        (Card::Sym, card_with(SYM, &[])),
    ] {
        let mut numbered = columns;
        numbered[72..].copy_from_slice(b"00000001");
        assert_eq!(rt; written(&card), Some(numbered));
        assert_eq!(rt; read_card(&columns), Ok(card));
    }
}

#[test]
fn misfits(rt: HostRuntime) {
    for card in [
        Card::Esd(EsdCard {
            first_id: 1,
            items: ArrayVec::new(),
        }),
        Card::End(Some(EntryPoint {
            address: 0x404040,
            id: 1,
        })),
    ] {
        assert_eq!(rt; written(&card), None);
    }
}
