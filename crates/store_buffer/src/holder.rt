// A view that also holds stores.
ghost use Rattle.std.specs.Prelude.{◌≡◌, ◌≤◌, ◌<◌, ◌+◌, [], ◌∷◌, ◌++◌, List, length};
ghost use Rattle.esa_model.specs.Apply.{Piece};

use abs_storage::View;

/// A view that holds the stores of an event until it is known whether the event is committed. What
/// it shows does not change by them.
pub trait Holder: View {
    /// The held pieces, oldest first.
    ghost held: { Self → List Piece };

    /// Holds 1 to 256 bytes, to be stored from an absolute address on. At most four are held.
    fn hold(&mut self, at: u32, bytes: &[u8])
        requires few { length (held self.old) < 4 }
        requires some { 1 ≤ length bytes.now }
        requires most { length bytes.now ≤ 256 }
        requires inside { at + length bytes.now ≤ length (Self.bytes self.old) }
        ensures held { held self.new ≡ held self.old ++ record { at = at; bytes = bytes.now } ∷ [] }
        ensures same { Self.bytes self.new ≡ Self.bytes self.old };

    /// The held pieces are dropped.
    fn drop_held(&mut self)
        ensures none { held self.new ≡ [] }
        ensures same { Self.bytes self.new ≡ Self.bytes self.old };
}
