// An input of the program, read whole.
ghost use Rattle.std.specs.Prelude.{◌≡◌, OnOk, IfOk, IfErr, true};
ghost use Rattle.program_model.specs.Inputs.{limit};
ghost use Rattle.g5_reading.specs.Inputs.{IsIn, IsUnreadInput, OnlyReads};

use crate::reading::{ReadRefusal, read_whole};
use g5_outside::Shelf;
use program_model::inputs::Input;
use program_model::status::Status;
use std::alloc::Global;

/// The bytes of an input, which are no more than its limit.
///
/// # Errors
///
/// `NoFile` where there is no file of that name, `ReadFault` where a call of the shelf failed,
/// `TooLarge` where the file is longer than the limit, `NoMemory`.
#[tactic(auto, using(crate::proofs::Limits::limit_is_small))]
pub fn read_input<F: Shelf>(
    alloc: Global,
    shelf: &mut F,
    input: Input,
    name: &str,
) -> Result<Vec<u8>, Status>
    ensures only { OnlyReads (F.seen shelf.old) (F.seen shelf.new) }
    ensures bytes { IfOk result (λ bytes.
        IsIn name.now (limit input) (F.seen shelf.old) bytes.items) }
    ensures refusal { IfErr result
        (IsUnreadInput input name.now (F.seen shelf.old) (F.seen shelf.new)) }
    ensures found { OnOk result ((F.seen shelf.new).found ≡ true) }
{
    match read_whole(alloc, shelf, name, input.limit()) {
        Ok(bytes) => Ok(bytes),
        Err(ReadRefusal::NoFile) => Err(Status::NoFile(input)),
        Err(ReadRefusal::Fault) => Err(Status::ReadFault),
        Err(ReadRefusal::TooLarge) => Err(Status::TooLarge(input)),
        Err(ReadRefusal::NoMemory) => Err(Status::NoMemory),
    }
}
