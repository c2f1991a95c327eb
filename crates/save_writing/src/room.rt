// A save is written into the room that was taken for it.
ghost use Rattle.std.specs.Prelude.{◌≡◌, ◌+◌, ◌*◌, ◌++◌, ◌≤◌, [], ◌∷◌, length, IfOk};
ghost use Rattle.std.specs.Vec.{vec_capacity};
ghost use Rattle.save_model.specs.Save.{bytes_of, size_by};
ghost use Rattle.save_writing.specs.Written.{front_of, save_of};

use crate::numbers::{put_all, put_bytes};
use crate::parts::{put_cores, put_cpus, put_head, put_numbers};
use esa_model::memory::NoMemory;
use save_model::parts::{SaveHead, SavedCore, SavedCpu, SavedNumbers};
use std::alloc::Global;

/// The bytes of a save as far as they are written, with memory for all of them.
#[derive(Drop)]
pub struct SaveRoom {
    pub bytes: Vec<u8>,
}

impl SaveRoom {
    /// Takes the memory for a save with this head.
    ///
    /// # Errors
    ///
    /// Memory is wanting.
    pub fn reserve(alloc: Global, head: &SaveHead) -> Result<SaveRoom, NoMemory>
        requires { head.now.pages ≤ 4096 }
        ensures empty { IfOk result (λ r. r.bytes.items ≡ []) }
        ensures room { IfOk result (λ r. size_by head.now ≤ vec_capacity r.bytes) }
    {
        let size = 10_584 + 336 * usize::from(head.cpus) + 4_097 * head.pages as usize;
        let bytes = Vec::with_capacity(alloc, size)?;
        Ok(SaveRoom { bytes })
    }

    /// Writes all that stands before the keys.
    pub fn put_front(
        &mut self,
        head: &SaveHead,
        numbers: &SavedNumbers,
        cpus: &[SavedCpu],
        cores: &[SavedCore; 16],
    )
        requires { length self.old.bytes.items + 10584 + 336 * length cpus.now
            ≤ vec_capacity self.old.bytes }
        ensures items { self.new.bytes.items ≡ self.old.bytes.items
            ++ front_of head.now numbers.now cpus.now cores.now }
        ensures capacity { vec_capacity self.old.bytes ≤ vec_capacity self.new.bytes }
        ensures length { length self.new.bytes.items
            ≡ length self.old.bytes.items + 10584 + 336 * length cpus.now }
    {
        put_all(&mut self.bytes, b"G5SAVE1\n");
        put_head(&mut self.bytes, head);
        put_numbers(&mut self.bytes, numbers);
        put_cpus(&mut self.bytes, cpus);
        put_cores(&mut self.bytes, cores);
    }

    /// Writes a key, or a byte of the storage.
    pub fn put_byte(&mut self, byte: u8)
        requires { length self.old.bytes.items + 1 ≤ vec_capacity self.old.bytes }
        ensures items { self.new.bytes.items ≡ self.old.bytes.items ++ byte ∷ [] }
        ensures capacity { vec_capacity self.old.bytes ≤ vec_capacity self.new.bytes }
        ensures length { length self.new.bytes.items ≡ length self.old.bytes.items + 1 }
    {
        put_all(&mut self.bytes, &[byte]);
    }
}

/// The bytes of a save. It takes no memory.
pub fn write_save(
    room: SaveRoom,
    head: &SaveHead,
    numbers: &SavedNumbers,
    cpus: &[SavedCpu],
    cores: &[SavedCore; 16],
    keys: &[u8],
    storage: &[u8],
) -> Vec<u8>
    requires empty { room.bytes.items ≡ [] }
    requires room { size_by head.now ≤ vec_capacity room.bytes }
    requires cpus { length cpus.now ≡ head.now.cpus }
    requires keys { length keys.now ≡ head.now.pages }
    requires storage { length storage.now ≡ 4096 * head.now.pages }
    ensures { result.items
        ≡ bytes_of (save_of head.now numbers.now cpus.now cores.now keys.now storage.now) }
{
    let mut room = room;
    room.put_front(head, numbers, cpus, cores);
    put_bytes(&mut room.bytes, keys);
    put_all(&mut room.bytes, storage);
    room.bytes
}
