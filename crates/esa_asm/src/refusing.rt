//! Refusals of the language, as the program says them.
ghost use Rattle.std.specs.Prelude.{◌≡◌};
ghost use Rattle.esa_asm.specs.AssembledSource.{source_refusal};

use asm_model::refusal::AsmRefusal as StatementRefusal;
use program_model::refusals::AsmRefusal;

/// A refusal as the program says it.
pub fn source_refusal(refusal: StatementRefusal) -> AsmRefusal
    ensures { result ≡ source_refusal refusal }
{
    match refusal {
        StatementRefusal::BadLine(number) => AsmRefusal::BadLine(number),
        StatementRefusal::UnknownOp(number) => AsmRefusal::UnknownOp(number),
        StatementRefusal::NoSection(number) => AsmRefusal::NoSection(number),
        StatementRefusal::NoEndStatement => AsmRefusal::NoEndStatement,
        StatementRefusal::TooBig(number) => AsmRefusal::TooBig(number),
        StatementRefusal::Doubled(number) => AsmRefusal::Doubled(number),
        StatementRefusal::Undefined(number) => AsmRefusal::Undefined(number),
        StatementRefusal::NoBase(number) => AsmRefusal::NoBase(number),
        StatementRefusal::OutOfRange(number) => AsmRefusal::OutOfRange(number),
        StatementRefusal::NoMemory => AsmRefusal::NoMemory,
    }
}
