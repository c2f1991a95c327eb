// The commands of a debugger's session, read whole.
ghost use Rattle.std.specs.Prelude.{◌≡◌, ◌<◌, ◌≤◌, ◌+◌, ◌++◌, [], vec_len, IfErr, IfOk, IsTrue};
ghost use Rattle.program_model.specs.Inputs.{limit};
ghost use Rattle.program_model.specs.declared.inputs.Input.TheVariants.{Keys};
ghost use Rattle.g5_reading.specs.Sources.{AreAllOf, IsUnreadSource, IsUntaken, OnlyTakes};

use g5_outside::Source;
use program_model::inputs::Input;
use program_model::status::Status;
use std::alloc::Global;

// The most bytes that one call asks for.
const CHUNK: usize = 4096;

/// Adds some next bytes of a source, at most so many, and answers how many: 0 only at its end.
fn take_some<I: Source>(source: &mut I, bytes: &mut Vec<u8>, most: usize) -> Result<usize, Status>
    requires some { 0 < most }
    ensures only { OnlyTakes (I.seen source.old) (I.seen source.new) }
    ensures length { IfOk result (λ n. vec_len bytes.new ≡ vec_len bytes.old + n) }
    ensures bound { IfOk result (λ n. n ≤ most) }
    ensures same { IsTrue (I.seen source.old).told → IfOk result (λ n.
        bytes.new.items ++ (I.seen source.new).left ≡ bytes.old.items ++ (I.seen source.old).left) }
    ensures end { IsTrue (I.seen source.old).told
        → IfOk result (λ n. n ≡ 0 → (I.seen source.old).left ≡ []) }
    ensures end_same { IfOk result (λ n. n ≡ 0 → bytes.new.items ≡ bytes.old.items) }
    ensures refusal { IfErr result (IsUntaken (I.seen source.old) (I.seen source.new)) }
{
    let mut chunk = [0u8; CHUNK];
    let room = most.min(CHUNK);
    let count = match source.read(&mut chunk[..room]) {
        Ok(count) => count,
        Err(_) => return Err(Status::ReadFault),
    };
    match bytes.extend_from_slice(&chunk[..count]) {
        Ok(()) => Ok(count),
        Err(_) => Err(Status::NoMemory),
    }
}

/// The command lines of a debugger's session: all that is left of a source, which is no more than the
/// limit of this input. No more than one byte past the limit is read.
///
/// # Errors
///
/// `ReadFault` where a call of the source failed, `TooLarge` where there are more bytes than the
/// limit, `NoMemory`.
pub fn read_keys<I: Source>(alloc: Global, keys: &mut I) -> Result<Vec<u8>, Status>
    ensures only { OnlyTakes (I.seen keys.old) (I.seen keys.new) }
    ensures bytes { IfOk result (λ bytes. AreAllOf (limit Keys) (I.seen keys.old) bytes.items) }
    ensures refusal { IfErr result (IsUnreadSource Keys (I.seen keys.old) (I.seen keys.new)) }
{
    let limit = Input::Keys.limit();
    let mut bytes = Vec::new(alloc);
    'reads: while bytes.len() <= limit {
        let most = limit + 1 - bytes.len();
        match take_some(keys, &mut bytes, most) {
            Err(status) => return Err(status),
            Ok(0) => return Ok(bytes),
            Ok(_) => {}
        }
    }
    Err(Status::TooLarge(Input::Keys))
}
