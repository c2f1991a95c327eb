use arrayvec::ArrayVec;
use thiserror::Error;

/// What one card of a deck says.
#[derive(Debug, Drop, PartialEq)]
pub enum Card {
    Esd(EsdCard),
    Txt(TxtCard),
    Rld(RldCard),
    End(Option<EntryPoint>),
    Sym,
}

/// The sort of an ESD item: SD, PC, LD, ER and WX.
#[derive(Clone, Copy, Debug, Default, PartialEq, Eq)]
pub enum Sort {
    #[default]
    Section,
    Private,
    Label,
    External,
    Weak,
}

/// An ESD item. A label's extent is the ESDID of its section; address and extent of an external or
/// weak name are 0. A section's extent is its length in bytes.
#[derive(Clone, Copy, Debug, Default, PartialEq, Eq)]
pub struct EsdItem {
    pub name: [u8; 8],
    pub sort: Sort,
    pub address: u32,
    pub extent: u32,
}

#[derive(Debug, Drop, PartialEq)]
pub struct EsdCard {
    pub first_id: u16,
    pub items: ArrayVec<EsdItem, 3>,
}

#[derive(Debug, Drop, PartialEq)]
pub struct TxtCard {
    pub id: u16,
    pub address: u32,
    pub bytes: ArrayVec<u8, 56>,
}

/// A relocation: `target` is the R pointer, `place` the P pointer, `width` the constant's bytes.
#[derive(Clone, Copy, Debug, Default, PartialEq, Eq)]
pub struct RldItem {
    pub target: u16,
    pub place: u16,
    pub v_type: bool,
    pub width: u8,
    pub minus: bool,
    pub address: u32,
}

#[derive(Debug, Drop, PartialEq)]
pub struct RldCard {
    pub items: ArrayVec<RldItem, 13>,
}

/// The entry that an END card names.
#[derive(Clone, Copy, Debug, PartialEq, Eq)]
pub struct EntryPoint {
    pub address: u32,
    pub id: u16,
}

/// Why a card is none of this project's, tested in this order.
#[derive(Clone, Copy, Debug, Error, PartialEq, Eq)]
pub enum CardRefusal {
    #[error("a card that does not begin with X'02'")]
    BadFirstByte,
    #[error("a card of an unknown type")]
    UnknownCard,
    #[error("a card with a count that its type has not")]
    BadCount,
    #[error("a card that is not supported")]
    Unsupported(Kind),
}

/// What is not supported: an XSD card, an ESD sort, or the sort of an RLD item.
#[derive(Clone, Copy, Debug, PartialEq, Eq)]
pub enum Kind {
    Xsd,
    EsdItem(u8),
    RldSort(u8),
}

/// An item of an RLD card as it stands: its pointers, its flag and its address.
#[derive(Clone, Copy, Debug, Default, PartialEq, Eq)]
pub struct RawItem {
    pub target: u16,
    pub place: u16,
    pub flag: u8,
    pub address: u32,
}
