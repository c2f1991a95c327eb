/// What the registers of a long move or a long comparison say. The addresses are those of the
/// registers, the lengths are below 2^24; `wide` is the 31-bit mode.
#[derive(Clone, Copy, Debug, PartialEq, Eq)]
pub struct LongOperands {
    pub to: u32,
    pub to_len: u32,
    pub from: u32,
    pub from_len: u32,
    pub pad: u8,
    pub wide: bool,
}

/// One unit of a long move: the bytes that are copied, the pad bytes that follow them, and the
/// condition code, which is none where a further unit follows. A destructive move stores nothing.
#[derive(Clone, Copy, Debug, PartialEq, Eq)]
pub struct MoveUnit {
    pub copied: u16,
    pub padded: u16,
    pub cc: Option<u8>,
    pub destructive: bool,
}

/// One unit of a long comparison: the equal places before the first unequal one, or of all places
/// of the unit, and the condition code, which is none where a further unit follows.
#[derive(Clone, Copy, Debug, PartialEq, Eq)]
pub struct CompareUnit {
    pub equal: u16,
    pub cc: Option<u8>,
}

/// The first byte whose function byte is not zero: its place, counted from 0, and that function byte.
#[derive(Clone, Copy, Debug, PartialEq, Eq)]
pub struct Hit {
    pub at: u16,
    pub function: u8,
}
