// A view of a memory that only reads.
use crate::memory::Memory;
use abs_storage::View;

/// The bytes of a memory, which is lent for reading alone: no byte, and nothing that is held, can
/// change behind it.
#[derive(Drop)]
pub struct Reading<'a> {
    pub memory: &'a Memory,
}

impl<'a> View for Reading<'a> {
    ghost bytes = { λ r. r.memory.now.bytes };

    fn size(&self) -> u32 {
        self.memory.size()
    }

    fn byte(&mut self, at: u32) -> Option<u8> {
        self.memory.read(at)
    }
}
