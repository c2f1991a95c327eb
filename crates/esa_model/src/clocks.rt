/// What a row on the clock, the clock comparator or the CPU timer gives: the clock words after it, and
/// the eight bytes that it stores, as a number, if it stores any.
#[derive(Clone, Copy, Debug, PartialEq, Eq)]
pub struct ClockRow {
    pub words: [u64; 4],
    pub stored: Option<u64>,
}
