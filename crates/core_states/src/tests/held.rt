// What is held after an attempt.
ghost use Rattle.std.specs.Prelude.{◌≡◌, length};

use super::{armed, new_scene, plain};
use crate::{Attempt, Notes, SpareCore};
use abs_storage::{AbsStorage, View};
use arrayvec::ArrayVec;
use result_packet::Piece;
use run_model::faults::{Cause, CoreNo};
use std::test::Fail;
use store_buffer::Holder;

/// A storage, and what is held beside it.
#[derive(Drop)]
pub(super) struct Holding {
    storage: AbsStorage,
    held: ArrayVec<Piece, 4>,
}

impl Holding {
    pub(super) fn new(storage: AbsStorage) -> Holding {
        Holding {
            storage,
            held: ArrayVec::new(),
        }
    }

    fn store(&mut self, at: u32, bytes: &[u8]) {
        for k in 0..bytes.len().min(16) {
            if at < 0x100_0000 {
                let _ = self.storage.store(at + k as u32, bytes[k]);
            }
        }
    }

    fn is_held(&self, at: u32, bytes: &[u8]) -> bool {
        match self.held.as_slice() {
            [piece] => piece.at == at && piece.bytes.as_slice() == bytes,
            _ => false,
        }
    }
}

impl View for Holding {
    ghost bytes = { λ h. h.storage };

    fn size(&self) -> u32 {
        self.storage.size()
    }

    fn byte(&mut self, at: u32) -> Option<u8> {
        self.storage.fetch(at)
    }
}

impl Holder for Holding {
    ghost held = { λ h. h.held.items };

    fn hold(&mut self, at: u32, bytes: &[u8]) {
        let mut copy = ArrayVec::new();
        let _ = copy.try_extend_from_slice(bytes);
        self.held.push(Piece { at, bytes: copy });
    }

    fn drop_held(&mut self) {
        self.held.clear();
    }
}

/// `MVI 32,5` stores a 5 at real address X'20', which is absolute X'4020' here. It is held after an
/// attempt that is to be carried out, and nothing is held after one that failed.
#[test]
fn stores_are_held(rt: HostRuntime) -> Result<(), Fail> {
    for (line, wanted) in [
        (b"F 0 0 64".as_slice(), Some(Cause::Fetch)),
        (b"U 0 0 B 4095 1".as_slice(), Some(Cause::Mismatch)),
        (b"S 0 0 9".as_slice(), Some(Cause::Store)),
        (b"S 0 1 9".as_slice(), None),
    ] {
        let mut s = new_scene(rt.alloc())?;
        s.storage.store(0x1_0000, &[0x92, 5, 0, 0x20]);
        s.storage.drop_held();
        if s.storage.size() > 0x6000 {
            s.storage.hold(0x6000, &[7]);
        }
        let mut z = armed(rt.alloc(), line)?;
        let k = SpareCore::new(CoreNo(0)).wake(s.registers, &mut z);
        match plain(k, &mut s, &mut z, &mut Notes::new())? {
            Attempt::Committed(_, _) => {
                assert_eq!(rt; wanted, None);
                assert!(rt; s.storage.is_held(0x4020, &[5]));
            }
            Attempt::Failed(_, cause, _) => {
                assert_eq!(rt; wanted, Some(cause));
                assert_eq!(rt; s.storage.held.len(), 0);
            }
            Attempt::Lost(_, _) => assert!(rt; false),
        }
    }
    Ok(())
}
