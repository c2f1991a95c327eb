/// What the bits of a stored checkpoint word say: a value, a value and the position that was wrong,
/// or nothing.
#[derive(Clone, Copy, Debug, PartialEq, Eq)]
pub enum Read {
    Clean(u128),
    Corrected(u128, u8),
    Uncorrectable,
}

/// How a checkpoint word reads: as it was written, with one wrong position, or not at all.
#[derive(Clone, Copy, Debug, PartialEq, Eq)]
pub enum Mark {
    Plain,
    Fixed(u8),
    Bad,
}
