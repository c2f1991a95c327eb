/// The form of an instruction: which fields it has, and where.
#[derive(Clone, Copy, Debug, PartialEq, Eq)]
pub enum Form {
    Rr,
    Rx,
    Rs,
    Si,
    S,
    Ri,
    Rsi,
    Rre,
    Ss1,
    Ss2,
}

/// A row of the opcode table. An opcode of one byte is that byte; one of two bytes is both; one of
/// twelve bits (X'A7') is the first byte and then the low half of the second.
#[derive(Clone, Copy, Debug, PartialEq, Eq)]
pub struct Row {
    pub opcode: u16,
    pub form: Form,
    pub name: [u8; 6],
    pub privileged: bool,
}

/// The fields of an instruction; each that its form has not is zero. `row` is the number of its row.
/// `len` is the length code of SS1, `r1` and `r2` are the two length codes of SS2 (or the second is I3).
#[derive(Clone, Copy, Debug, PartialEq, Eq)]
pub struct Decoded {
    pub row: u16,
    pub r1: u8,
    pub r2: u8,
    pub b1: u8,
    pub d1: u16,
    pub b2: u8,
    pub d2: u16,
    pub imm: u16,
    pub len: u8,
}
