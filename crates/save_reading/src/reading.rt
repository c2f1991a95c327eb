// A save is read, judged and answered.
ghost use Rattle.std.specs.Prelude.{◌≡◌, ◌+◌, ◌*◌, ◌≤◌, length, Ok, IfErr, IfOk};
ghost use Rattle.save_model.specs.Fields.{first_bad};
ghost use Rattle.save_model.specs.Save.{fields, judged, read_by, read_save, size_by};
ghost use Rattle.save_reading.specs.Refusing.{IsRefused};
ghost use Rattle.save_writing.specs.Written.{save_of};

use crate::head::read_head;
use crate::judge::Judge;
use crate::reader::Reader;
use save_model::parts::{SaveHead, SavedCore, SavedCpu, SavedNumbers};
use save_model::refusal::SaveRefusal;
use std::alloc::{AllocError, Global};

/// What a save holds. Keys and storage are lent from its bytes.
#[derive(Drop)]
pub struct SavedRun<'a> {
    pub head: SaveHead,
    pub numbers: SavedNumbers,
    pub cpus: Vec<SavedCpu>,
    pub cores: [SavedCore; 16],
    pub keys: &'a [u8],
    pub storage: &'a [u8],
}

fn size(head: &SaveHead) -> usize
    requires { head.now.pages ≤ 4096 }
    ensures { result ≡ size_by head.now }
{
    10_584 + 336 * usize::from(head.cpus) + 4_097 * head.pages as usize
}

// What stands behind the head, of a save of its length.
fn read_body(alloc: Global, head: SaveHead, bytes: &[u8]) -> Result<SavedRun<'_>, AllocError>
    requires pages { head.pages ≤ 4096 }
    requires long { length bytes.now + 16 ≡ size_by head }
    ensures read { IfOk result (λ s.
        save_of s.head s.numbers s.cpus.items s.cores s.keys.now s.storage.now
        ≡ read_by head bytes.now) }
    ensures head { IfOk result (λ s. s.head ≡ head) }
    ensures cpus { IfOk result (λ s. length s.cpus.items ≡ head.cpus) }
    ensures keys { IfOk result (λ s. length s.keys.now ≡ head.pages) }
{
    let mut reader = Reader { rest: bytes };
    let numbers = reader.numbers();
    let cpus = reader.cpus(alloc, head.cpus)?;
    let cores = reader.cores();
    let (keys, storage) = reader.rest.split_at(head.pages as usize);
    Ok(SavedRun {
        head,
        numbers,
        cpus,
        cores,
        keys,
        storage,
    })
}

// The first byte of the first field outside its values.
fn first_outside(s: &SavedRun) -> Option<u32>
    requires few { s.now.head.cpus ≤ 8 }
    requires cpus { length s.now.cpus.items ≤ 8 }
    requires keys { length s.now.keys.now ≤ 4096 }
    ensures { result ≡ first_bad 16 (fields (save_of s.now.head s.now.numbers s.now.cpus.items
        s.now.cores s.now.keys.now s.now.storage.now)) }
{
    let mut judge = Judge { at: 16, bad: None };
    judge.numbers(&s.numbers);
    judge.cpus(&s.head, &s.cpus);
    judge.cores(&s.head, &s.cpus, &s.cores);
    judge.keys(s.keys);
    judge.bad
}

fn decide(
    s: SavedRun<'_>,
    bad: Option<u32>,
    turns: u64,
    console: u64,
) -> Result<SavedRun<'_>, SaveRefusal>
    ensures ok { IfOk result (λ r. judged turns console (save_of s.entry.head s.entry.numbers
        s.entry.cpus.items s.entry.cores s.entry.keys.now s.entry.storage.now) bad
        ≡ Ok (save_of r.head r.numbers r.cpus.items r.cores r.keys.now r.storage.now)) }
    ensures refusal { IfErr result (λ e. IsRefused (judged turns console (save_of s.entry.head
        s.entry.numbers s.entry.cpus.items s.entry.cores s.entry.keys.now s.entry.storage.now)
        bad) e) }
{
    if let Some(at) = bad {
        return Err(SaveRefusal::BadField(at));
    }
    if turns < s.numbers.turns {
        return Err(SaveRefusal::PastSchedule);
    }
    if console < s.numbers.console_read {
        return Err(SaveRefusal::PastConsole);
    }
    Ok(s)
}

/// What a save holds, where the schedule has so many turns and the console input so many bytes.
///
/// # Errors
///
/// The first refusal that the format gives, or want of memory.
pub fn read_save(
    alloc: Global,
    bytes: &[u8],
    turns: u64,
    console: u64,
) -> Result<SavedRun<'_>, SaveRefusal>
    ensures ok { IfOk result (λ s. read_save turns console bytes.now
        ≡ Ok (save_of s.head s.numbers s.cpus.items s.cores s.keys.now s.storage.now)) }
    ensures refusal { IfErr result (λ e. IsRefused (read_save turns console bytes.now) e) }
{
    let head = match read_head(bytes) {
        None => return Err(SaveRefusal::BadHead),
        Some(head) => head,
    };
    if bytes.len() != size(&head) {
        return Err(SaveRefusal::BadLength);
    }
    let saved = match read_body(alloc, head, &bytes[16..]) {
        Err(_) => return Err(SaveRefusal::NoMemory),
        Ok(saved) => saved,
    };
    let bad = first_outside(&saved);
    decide(saved, bad, turns, console)
}
