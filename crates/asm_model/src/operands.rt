/// One operand as it stands, without the statement that it belongs to. A number above 4,294,967,295
/// is 4,294,967,296, which no field and no range has. A name is the number of its eight EBCDIC bytes.
#[derive(Clone, Copy, Debug, Default, PartialEq, Eq)]
pub enum Operand {
    /// `n`.
    Plain(u64),
    /// `-n`.
    Negative(u64),
    /// `d(b)`.
    Based(u64, u64),
    /// `d(x,b)` and `d(l,b)`.
    Indexed(u64, u64, u64),
    /// `name` and `name+n`.
    Named(u64, u32),
    /// None of these.
    #[default]
    Bad,
}

/// What an operand of a machine instruction gives.
#[derive(Clone, Copy, Debug, Default, PartialEq, Eq)]
pub enum Slot {
    /// The first register, or the mask in its place.
    #[default]
    Reg1,
    /// The second or third register, the mask in its place, or the rounding digit.
    Reg2,
    /// The byte of both registers.
    Both,
    /// Base and displacement of the first address.
    Address1,
    /// The same of the second.
    Address2,
    /// The second address, which may have an index.
    Index2,
    /// The first address, with the number of bytes of both operands.
    Long,
    /// The first address with its number of bytes.
    Sized1,
    /// The second address with its number of bytes.
    Sized2,
    /// An immediate byte.
    Byte,
    /// An immediate halfword without sign.
    Half,
    /// An immediate halfword with sign.
    SignedHalf,
    /// A distance in halfwords, or a name.
    Target,
}

/// The field that a name fills: the first address, the second, or the distance in halfwords.
#[derive(Clone, Copy, Debug, PartialEq, Eq)]
pub enum Goes {
    First,
    Second,
    Half,
}

/// A name among the operands of an instruction, and what is added to it.
#[derive(Clone, Copy, Debug, PartialEq, Eq)]
pub struct Reference {
    pub goes: Goes,
    pub name: u64,
    pub plus: u32,
}

/// The fields of an instruction as its operands give them; `row` is the number of its row in the
/// opcode table. One that is outside its range is any number above it. An instruction has one name
/// at most.
#[derive(Clone, Copy, Debug, PartialEq, Eq)]
pub struct Given {
    pub row: u16,
    pub r1: u64,
    pub r2: u64,
    pub b1: u64,
    pub d1: u64,
    pub b2: u64,
    pub d2: u64,
    pub imm: u64,
    pub len: u64,
    pub to: Option<Reference>,
}
