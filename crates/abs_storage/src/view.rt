ghost use Rattle.std.specs.Prelude.{◌≡◌, ◌≤◌, ◌*◌, ◌%◌, ℕ, List, length, slice_get};

/// What shows the bytes of a storage: whole pages of 4,096 bytes, at most 4,096 of them.
pub trait View {
    /// The bytes, from absolute address 0 on.
    ghost bytes: { Self → List ℕ };

    /// The number of bytes.
    fn size(&self) -> u32
        ensures size { result ≡ length (bytes self.now) }
        ensures pages { result % 4096 ≡ 0 }
        ensures most { result ≤ 4096 * 4096 };

    /// The byte at an absolute address, `None` exactly outside. What is shown stays the same.
    fn byte(&mut self, at: u32) -> Option<u8>
        ensures byte { result ≡ slice_get (bytes self.old) at }
        ensures same { bytes self.new ≡ bytes self.old };
}
