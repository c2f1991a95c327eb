ghost use Rattle.std.specs.Prelude.{◌≡◌, ◌≤◌, ℕ, List, false, length};
ghost use Rattle.esa_model.specs.declared.instructions.Row.{Row};
ghost use Rattle.esa_model.specs.declared.instructions.Decoded.{Decoded};
ghost use Rattle.esa_model.specs.Apply.{apply};
ghost use Rattle.esa_model.specs.Line.{FullLine};
ghost use Rattle.esa_model.specs.Machine.{Machine, after, done_at, due_at, is_unit, next};
ghost use Rattle.esa_model.specs.Packet.{Fields, packet_of, read};
ghost use Rattle.esa_model.specs.Unit.{Done, performed};
ghost use Rattle.packet_law.specs.Fine.{IsFine};
ghost use Rattle.packet_law.specs.Rows.{TellsCompleted, inputs_at};
ghost use Rattle.packet_law.specs.Sound.{IsSound, fields_at, packet_at};
ghost use Rattle.packet_law.specs.Widths.{HasWidths};

/// A packet reads as the fields that it was made of, where each fits its place.
pub fn reads_back()
    ensures { (f : Fields) → IsFine f → read (packet_of f) ≡ f }
{}

/// The fields of a sound event of typed values fit their places.
pub fn fields_fit()
    ensures { (m : Machine) (i : ℕ) (d : Done)
        → IsSound m i d → HasWidths d m.storage → IsFine (fields_at m i d) }
{}

/// An event that is due and is no unit of operation is sound: idleness, an early exception, an
/// external interruption or a restart.
pub fn sound_interruptions()
    ensures { (m : Machine) (i : ℕ) → is_unit (due_at m i) ≡ false → IsSound m i (done_at m i) }
{}

/// A row is sound, be it suppressed or completed, where its operands and its effect, if it
/// completes, are as the frame wants them, and what they tell finds room.
pub fn sound_rows()
    ensures { (m : Machine) (i own len : ℕ) (d : Decoded) (row : Row) (l : FullLine)
        (blocks : List ℕ) → length blocks ≤ 8
        → TellsCompleted m i row l (inputs_at m i d own len) blocks
        → IsSound m i (performed row l (inputs_at m i d own len) blocks) }
{}

/// Applying the packet of an event of a CPU leaves the machine that the event leaves; that of the
/// event which is due leaves the machine of the next step. The event is sound, and its fields fit
/// their places, as they do where its values are typed.
pub fn applied_is_next()
    ensures event { (m : Machine) (i : ℕ) (d : Done) → IsSound m i d → IsFine (fields_at m i d)
        → apply m i (packet_at m i d) ≡ after m i d }
    ensures step { (m : Machine) (i : ℕ) → IsSound m i (done_at m i)
        → IsFine (fields_at m i (done_at m i))
        → apply m i (packet_at m i (done_at m i)) ≡ next m i }
    ensures typed { (m : Machine) (i : ℕ) → IsSound m i (done_at m i)
        → HasWidths (done_at m i) m.storage → apply m i (packet_at m i (done_at m i)) ≡ next m i }
{}
