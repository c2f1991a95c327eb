//! How many bytes an operation has, and on what multiple they begin.
ghost use Rattle.std.specs.Prelude.{◌≡◌, ◌+◌, ◌<◌, ◌≤◌, ◌^◌};
ghost use Rattle.esa_model.specs.Table.{row_numbered};
ghost use Rattle.asm_model.specs.Places.{form_length, alignment, size, raised};

use asm_model::statements::Operation;
use esa_table::{Form, row};

fn form_length(form: Form) -> u64
    ensures length { result ≡ form_length form }
    ensures low { result ≤ 6 }
{
    match form {
        Form::Rr => 2,
        Form::Rx | Form::Rs | Form::Si | Form::S | Form::Ri | Form::Rsi | Form::Rre => 4,
        Form::Ss1 | Form::Ss2 => 6,
    }
}

/// The form of a row; past the end of the table that of its last resort.
#[tactic(auto, using(crate::proofs::RowForms::found_form, crate::proofs::RowForms::missing_form))]
fn form_of(number: u16) -> Form
    ensures { result ≡ (row_numbered number).form }
{
    match row(number) {
        Some(row) => row.form,
        None => Form::Rr,
    }
}

/// How many bytes an operation has.
pub fn size(operation: &Operation) -> u64
    ensures size { result ≡ size operation.now }
    ensures low { result < 65536 }
{
    match operation {
        Operation::Bytes(bytes) => bytes.len() as u64,
        Operation::Word(_) | Operation::Address(_, _) | Operation::External(_) => 4,
        Operation::Space(count) => u64::from(*count),
        Operation::Instruction(given) => form_length(form_of(given.row)),
        Operation::Section
        | Operation::AlignWord
        | Operation::AlignDouble
        | Operation::Using(_, _)
        | Operation::End(_) => 0,
    }
}

/// On what multiple the bytes of an operation begin.
pub fn alignment(operation: &Operation) -> u64
    ensures alignment { result ≡ alignment operation.now }
    ensures some { 1 ≤ result }
    ensures low { result ≤ 8 }
{
    match operation {
        Operation::Word(_)
        | Operation::Address(_, _)
        | Operation::External(_)
        | Operation::AlignWord => 4,
        Operation::AlignDouble => 8,
        Operation::Instruction(_) => 2,
        Operation::Section
        | Operation::Bytes(_)
        | Operation::Space(_)
        | Operation::Using(_, _)
        | Operation::End(_) => 1,
    }
}

/// The multiple of a number at or above an offset.
pub fn raised(multiple: u64, offset: u64) -> u64
    requires some { 1 ≤ multiple }
    requires most { multiple ≤ 8 }
    requires low { offset ≤ 1048576 }
    ensures raised { result ≡ raised multiple offset }
    ensures low { result ≤ offset + 7 }
{
    (offset + multiple - 1) / multiple * multiple
}
