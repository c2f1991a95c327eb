// An input file, read whole up to a limit.
ghost use Rattle.std.specs.Prelude.{◌≡◌, ◌<◌, ◌≤◌, ◌+◌, ◌^◌, ◌++◌, ◌⊎◌, [], length, IfOk, OnErr, IsTrue, IsErrOf, MatchResult, Some, IfSome, false, vec_len};
ghost use Rattle.g5_outside.specs.Calls.{file_named};
ghost use Rattle.g5_outside.specs.Causes.{Rose};
ghost use Rattle.g5_reading.specs.Inputs.{OnlyReads, IsRefused, WasFound};

use g5_outside::Shelf;
use std::alloc::Global;
use thiserror::Error;

/// Why an input was not read.
#[derive(Clone, Copy, Debug, PartialEq, Eq, Error)]
pub enum ReadRefusal {
    #[error("no file")]
    NoFile,
    #[error("read fault")]
    Fault,
    #[error("too large")]
    TooLarge,
    #[error("no memory")]
    NoMemory,
}

// The most bytes that one call asks for.
const CHUNK: usize = 4096;

/// Adds some next bytes of the file that was found, at most so many, and answers how many: 0 only at its end.
pub fn read_some<F: Shelf>(
    shelf: &mut F,
    bytes: &mut Vec<u8>,
    most: usize,
) -> Result<usize, ReadRefusal>
    requires found { IsTrue (F.seen shelf.old).found }
    requires some { 0 < most }
    ensures only { OnlyReads (F.seen shelf.old) (F.seen shelf.new) }
    ensures found { (F.seen shelf.new).found ≡ (F.seen shelf.old).found }
    ensures length { IfOk result (λ n. vec_len bytes.new ≡ vec_len bytes.old + n) }
    ensures bound { IfOk result (λ n. n ≤ most) }
    ensures same { IsTrue (F.seen shelf.old).told → IfOk result (λ n. bytes.new.items ++ (F.seen shelf.new).left ≡ bytes.old.items ++ (F.seen shelf.old).left) }
    ensures end { IsTrue (F.seen shelf.old).told → IfOk result (λ n. n ≡ 0 → (F.seen shelf.old).left ≡ []) }
    ensures end_same { IfOk result (λ n. n ≡ 0 → bytes.new.items ≡ bytes.old.items) }
    ensures fault { IsErrOf result ReadRefusal.Fault → Rose (F.seen shelf.old).read_faults (F.seen shelf.new).read_faults }
    ensures other { OnErr result (IsErrOf result ReadRefusal.Fault ⊎ IsErrOf result ReadRefusal.NoMemory) }
{
    let mut chunk = [0u8; CHUNK];
    let room = most.min(CHUNK);
    let count = match shelf.read(&mut chunk[..room]) {
        Ok(count) => count,
        Err(_) => return Err(ReadRefusal::Fault),
    };
    match bytes.extend_from_slice(&chunk[..count]) {
        Ok(()) => Ok(count),
        Err(_) => Err(ReadRefusal::NoMemory),
    }
}

/// The bytes of a file of that name, if they are no more than the limit. No more than one byte past the
/// limit is read.
pub fn read_whole<F: Shelf>(
    alloc: Global,
    shelf: &mut F,
    name: &str,
    limit: usize,
) -> Result<Vec<u8>, ReadRefusal>
    requires { limit < 2 ^ 32 }
    ensures only { OnlyReads (F.seen shelf.old) (F.seen shelf.new) }
    ensures content { IsTrue (F.seen shelf.old).told → MatchResult result (λ bytes. file_named name.now (F.seen shelf.old).files ≡ Some bytes.items) (IsRefused name.now limit (F.seen shelf.old)) }
    ensures bound { IfOk result (λ bytes. vec_len bytes ≤ limit) }
    ensures taken { IsErrOf result ReadRefusal.TooLarge → IsTrue (F.seen shelf.old).told
        → IfSome (file_named name.now (F.seen shelf.old).files) (λ bytes. length bytes ≤ length (F.seen shelf.new).left + (limit + 1)) }
    ensures found { WasFound (F.seen shelf.new).found result }
    ensures fault { IsErrOf result ReadRefusal.Fault → Rose (F.seen shelf.old).read_faults (F.seen shelf.new).read_faults }
{
    match shelf.find(name) {
        Err(_) => Err(ReadRefusal::Fault),
        Ok(false) => Err(ReadRefusal::NoFile),
        Ok(true) => read_found(alloc, shelf, limit),
    }
}

// What is left of the file that was found, if it is no more than the limit.
fn read_found<F: Shelf>(alloc: Global, shelf: &mut F, limit: usize) -> Result<Vec<u8>, ReadRefusal>
    requires found { IsTrue (F.seen shelf.old).found }
    requires limit { limit < 2 ^ 32 }
    ensures only { OnlyReads (F.seen shelf.old) (F.seen shelf.new) }
    ensures all { IsTrue (F.seen shelf.old).told → IfOk result (λ bytes. bytes.items ≡ (F.seen shelf.old).left) }
    ensures bound { IfOk result (λ bytes. vec_len bytes ≤ limit) }
    ensures too_large { IsErrOf result ReadRefusal.TooLarge → IsTrue (F.seen shelf.old).told → limit < length (F.seen shelf.old).left }
    ensures taken { IsErrOf result ReadRefusal.TooLarge → IsTrue (F.seen shelf.old).told
        → length (F.seen shelf.old).left ≤ length (F.seen shelf.new).left + (limit + 1) }
    ensures no_file { IsErrOf result ReadRefusal.NoFile → ⊥ }
    ensures still_found { IsTrue (F.seen shelf.new).found }
    ensures fault { IsErrOf result ReadRefusal.Fault → Rose (F.seen shelf.old).read_faults (F.seen shelf.new).read_faults }
{
    let mut bytes = Vec::new(alloc);
    'reads: while bytes.len() <= limit {
        let most = limit + 1 - bytes.len();
        match read_some(shelf, &mut bytes, most) {
            Err(refusal) => return Err(refusal),
            Ok(0) => return Ok(bytes),
            Ok(_) => {}
        }
    }
    Err(ReadRefusal::TooLarge)
}
