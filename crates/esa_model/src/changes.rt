/// A byte of absolute storage after an event that changed its value.
#[derive(Clone, Copy, Debug, Default, PartialEq, Eq)]
pub struct Changed {
    pub at: u32,
    pub byte: u8,
}
