// Decks that are linked, read in their order.
ghost use Rattle.std.specs.Prelude.{◌≡◌, ◌<◌, ◌≤◌, ◌-◌, ◌^◌, length, map, IfErr, IfOk, OnOk, true};
ghost use Rattle.program_model.specs.declared.inputs.Input.TheVariants.{Part};
ghost use Rattle.g5_reading.specs.Inputs.{IsIn, OnlyReads};
ghost use Rattle.source_commands.specs.Parts.{AddsPart, AreParts, IsUnread, IsUnreadPart, most_bytes};

use g5_outside::Shelf;
use g5_reading::{ReadRefusal, read_whole};
use program_model::inputs::Input;
use program_model::status::Status;
use std::alloc::Global;

// The bytes that all parts have at most together.
fn all_limit() -> usize
    ensures { result ≡ most_bytes }
{
    Input::Part(0).limit()
}

// The bytes of a part, which are no more than `most`.
fn read_part<F: Shelf>(
    alloc: Global,
    shelf: &mut F,
    part: u8,
    name: &str,
    most: usize,
) -> Result<Vec<u8>, Status>
    requires { most < 2 ^ 32 }
    ensures only { OnlyReads (F.seen shelf.old) (F.seen shelf.new) }
    ensures bytes { IfOk result (λ bytes. IsIn name.now most (F.seen shelf.old) bytes.items) }
    ensures refusal { IfErr result
        (IsUnreadPart part name.now most (F.seen shelf.old) (F.seen shelf.new)) }
    ensures found { OnOk result ((F.seen shelf.new).found ≡ true) }
{
    match read_whole(alloc, shelf, name, most) {
        Ok(bytes) => Ok(bytes),
        Err(ReadRefusal::NoFile) => Err(Status::NoFile(Input::Part(part))),
        Err(ReadRefusal::Fault) => Err(Status::ReadFault),
        Err(ReadRefusal::TooLarge) => Err(Status::TooLarge(Input::Part(part))),
        Err(ReadRefusal::NoMemory) => Err(Status::NoMemory),
    }
}

// Reads a part and puts its bytes behind those of the parts before it.
fn add_part<F: Shelf>(
    alloc: Global,
    shelf: &mut F,
    part: u8,
    name: &str,
    bytes: &mut Vec<u8>,
) -> Result<(), Status>
    requires { length bytes.old.items ≤ most_bytes }
    ensures only { OnlyReads (F.seen shelf.old) (F.seen shelf.new) }
    ensures added { OnOk result
        (AddsPart name.now (F.seen shelf.old) bytes.old.items bytes.new.items) }
    ensures refusal { IfErr result (IsUnreadPart part name.now
        (most_bytes - length bytes.old.items) (F.seen shelf.old) (F.seen shelf.new)) }
    ensures found { OnOk result ((F.seen shelf.new).found ≡ true) }
{
    let most = all_limit() - bytes.len();
    let more = match read_part(alloc, shelf, part, name, most) {
        Ok(more) => more,
        Err(status) => return Err(status),
    };
    match bytes.extend_from_slice(&more) {
        Ok(()) => Ok(()),
        Err(_) => Err(Status::NoMemory),
    }
}

/// The bytes of the files of these names, one after another: together they are no more than
/// 16,000,000. There are at most 16 names.
///
/// # Errors
///
/// `NoFile` and `TooLarge` name the first part that is not there, or with which the parts pass the
/// limit; `ReadFault` where a call of the shelf failed; `NoMemory`.
pub fn read_parts<F: Shelf>(alloc: Global, names: &[&str], shelf: &mut F) -> Result<Vec<u8>, Status>
    requires some { 1 ≤ length names.now }
    requires few { length names.now ≤ 16 }
    ensures only { OnlyReads (F.seen shelf.old) (F.seen shelf.new) }
    ensures read { IfOk result (λ bytes. AreParts (map (λ n. n.now) names.now)
        (F.seen shelf.old) bytes.items) }
    ensures refusal { IfErr result (IsUnread (map (λ n. n.now) names.now)
        (F.seen shelf.old) (F.seen shelf.new)) }
    ensures found { OnOk result ((F.seen shelf.new).found ≡ true) }
{
    let mut bytes = Vec::new(alloc);
    'parts: for (part, name) in names.iter().enumerate() {
        match add_part(alloc, shelf, part as u8, name, &mut bytes) {
            Ok(()) => {}
            Err(status) => return Err(status),
        }
    }
    Ok(bytes)
}
