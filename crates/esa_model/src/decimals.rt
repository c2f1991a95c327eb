/// What an edit gives: the number of source bytes that it used, the place in the pattern of the last result
/// digit before which the significance indicator was off, the condition code (4 where the edit is suppressed),
/// and the program code or 0.
#[derive(Clone, Copy, Debug, PartialEq, Eq)]
pub struct Edited {
    pub used: u16,
    pub mark: Option<u16>,
    pub cc: u8,
    pub fault: u8,
}

/// Where an edit stands: the pattern bytes that it passed and the source bytes that it used, whether the right
/// half of the last of these is the next digit, the significance indicator, whether the field so far has a
/// digit other than zero, the mark of `Edited`, and whether a bad digit ended the edit.
#[derive(Clone, Copy, Debug, PartialEq, Eq)]
pub struct Editing {
    pub at: u16,
    pub used: u16,
    pub halfway: bool,
    pub significant: bool,
    pub nonzero: bool,
    pub mark: Option<u16>,
    pub bad: bool,
}

/// A half-byte of an edit's source that is to be a digit, with the source bytes that are used once it was
/// taken, whether the right half of the last of these is the next digit, and whether a plus sign stands there.
#[derive(Clone, Copy, Debug, PartialEq, Eq)]
pub struct SourceDigit {
    pub value: u8,
    pub used: u16,
    pub halfway: bool,
    pub plus: bool,
}
