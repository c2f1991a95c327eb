/// How a row of the opcode table is carried out: its class, and which of its class.
#[derive(Clone, Copy, Debug, PartialEq, Eq)]
pub enum Kind {
    Words(WordKind),
    Branches(BranchKind),
    Stores(StoreKind),
    Bytes(ByteKind),
    Decimals(DecimalKind),
    Controls(ControlKind),
}

/// Rows that put a value of words into a register or a pair of registers.
#[derive(Clone, Copy, Debug, PartialEq, Eq)]
pub enum WordKind {
    /// Of two registers.
    Registers,
    /// Of a pair and a register.
    Pairs,
    /// Of a register and a word of the storage.
    Storage,
    /// Of a pair and a word of the storage.
    PairStorage,
    /// Of a register and a halfword of the storage.
    Halfwords,
    /// Of a register and the halfword of the instruction.
    Immediates,
    /// Of a register, shifted.
    Shifts,
    /// Of a pair, shifted.
    PairShifts,
    /// The effective address.
    Address,
}

/// Rows that branch, link, set or take the program mask, call or execute.
#[derive(Clone, Copy, Debug, PartialEq, Eq)]
pub enum BranchKind {
    /// To the address in R2, or nowhere.
    ByRegister,
    /// To an address by base and index.
    ByIndex,
    /// To an address by base.
    ByBase,
    /// To an address by its distance.
    ByDistance,
    /// SUPERVISOR CALL.
    Call,
    /// EXECUTE.
    Execute,
}

/// Rows of one operand in storage that are neither strings of bytes nor decimals.
#[derive(Clone, Copy, Debug, PartialEq, Eq)]
pub enum StoreKind {
    Character,
    Halfword,
    Word,
    StoreMultiple,
    LoadMultiple,
    InsertCharacter,
    InsertUnderMask,
    CompareUnderMask,
    StoreUnderMask,
    TestUnderMask,
    MoveImmediate,
    CombineImmediate,
    CompareImmediate,
    TestAndSet,
    CompareAndSwap,
    CompareDoubleAndSwap,
}

/// Rows on strings of bytes, and the units of the long moves and comparisons.
#[derive(Clone, Copy, Debug, PartialEq, Eq)]
pub enum ByteKind {
    /// The second operand replaces the first.
    Move,
    /// Each byte of the first operand is combined with that of the second.
    Combine,
    Compare,
    Translate,
    TranslateAndTest,
    MoveInverse,
    MoveLong,
    CompareLong,
}

/// Decimal rows, and the conversions.
#[derive(Clone, Copy, Debug, PartialEq, Eq)]
pub enum DecimalKind {
    /// Two fields, the first of them fetched and stored.
    Fields,
    /// The same of MULTIPLY and DIVIDE, whose lengths are tested.
    Products,
    /// Two fields, the first of them stored alone.
    Replaced,
    /// Two fields that are compared.
    Compared,
    Shifted,
    Edited,
    EditedAndMarked,
    ToBinary,
    ToDecimal,
}

/// Control instructions, DIAGNOSE, SIGNAL PROCESSOR, and rows on clocks.
#[derive(Clone, Copy, Debug, PartialEq, Eq)]
pub enum ControlKind {
    /// Fetches its operand.
    Fetching,
    /// Stores its operand.
    Storing,
    /// Stores the system mask, and changes it.
    Masks,
    /// For the key of a block.
    Keys,
    Diagnose,
    Signal,
    /// STORE CLOCK.
    Clock,
    /// Sets the clock comparator or the CPU timer.
    SetsClock,
    /// Stores the clock comparator or the CPU timer.
    StoresClock,
}
