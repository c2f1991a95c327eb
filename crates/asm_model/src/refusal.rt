use thiserror::Error;

/// Why a source is refused, in the order in which the refusals are tested over the whole source;
/// the number is that of the first such line, from 1. Want of memory comes at any point.
#[derive(Clone, Copy, Debug, PartialEq, Eq, Error)]
pub enum AsmRefusal {
    /// The line is not of a form, or follows END.
    #[error("BadLine {0}")]
    BadLine(u32),
    /// The line's operation is none of the language.
    #[error("UnknownOp {0}")]
    UnknownOp(u32),
    /// A statement other than CSECT and END stands before the first CSECT.
    #[error("NoSection {0}")]
    NoSection(u32),
    #[error("NoEndStatement")]
    NoEndStatement,
    /// With this line a section, all sections together or their number is too large.
    #[error("TooBig {0}")]
    TooBig(u32),
    /// An earlier line has the name.
    #[error("Doubled {0}")]
    Doubled(u32),
    /// No line defines a name that the line needs.
    #[error("Undefined {0}")]
    Undefined(u32),
    /// An address is a name and has no base in its section.
    #[error("NoBase {0}")]
    NoBase(u32),
    /// A field or a distance is outside its range.
    #[error("OutOfRange {0}")]
    OutOfRange(u32),
    #[error("NoMemory")]
    NoMemory,
}
