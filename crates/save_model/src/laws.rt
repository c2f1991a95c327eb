//! Laws of saves, as clauses of functions that do nothing.
ghost use Rattle.std.specs.Prelude.{◌≡◌, ℕ, ◌+◌, ◌<◌, ◌≤◌, List, ◌∷◌, ◌++◌, true, false, Ok, Err, length};
ghost use Rattle.save_model.specs.declared.refusal.SaveRefusal.TheVariants.{BadField, PastSchedule, PastConsole};
ghost use Rattle.save_model.specs.Fields.{Field, AreBytes, all_good, size};
ghost use Rattle.save_model.specs.Parts.{head_fields};
ghost use Rattle.save_model.specs.Save.{Save, IsSave, IsShaped, bytes_of, fields, read_save, size_by};

/// A save that is written has the length that its head tells, and is read as what was written, where
/// the schedule has its turns and the console input its bytes.
pub fn written_saves_are_read()
    ensures length { (s : Save) → IsShaped s → length (bytes_of s) ≡ size_by s.head }
    ensures read { (s : Save) (turns console : ℕ) → IsSave s → s.numbers.turns ≤ turns
        → s.numbers.console_read ≤ console → read_save turns console (bytes_of s) ≡ Ok s }
    ensures past_schedule { (s : Save) (turns console : ℕ) → IsSave s → turns < s.numbers.turns
        → read_save turns console (bytes_of s) ≡ Err PastSchedule }
    ensures past_console { (s : Save) (turns console : ℕ) → IsSave s → s.numbers.turns ≤ turns
        → console < s.numbers.console_read
        → read_save turns console (bytes_of s) ≡ Err PastConsole }
{}

/// What is read of bytes is a save, whose turns the schedule has and whose console bytes the input
/// has; written again it is the bytes as they stood.
pub fn read_saves_are_written()
    ensures again { (turns console : ℕ) (bs : List ℕ) (s : Save) → AreBytes bs
        → read_save turns console bs ≡ Ok s → bytes_of s ≡ bs }
    ensures save { (turns console : ℕ) (bs : List ℕ) (s : Save) → AreBytes bs
        → read_save turns console bs ≡ Ok s → IsSave s }
    ensures in_schedule { (turns console : ℕ) (bs : List ℕ) (s : Save)
        → read_save turns console bs ≡ Ok s → s.numbers.turns ≤ turns }
    ensures in_console { (turns console : ℕ) (bs : List ℕ) (s : Save)
        → read_save turns console bs ≡ Ok s → s.numbers.console_read ≤ console }
{}

/// A field outside its values, with good ones before it, is what the save is refused for: by its first
/// byte.
pub fn bad_fields_are_refused()
    ensures { (s : Save) (turns console : ℕ) (fs gs : List Field) (f : Field) → IsShaped s
        → all_good (head_fields s.head) ≡ true → fields s ≡ fs ++ f ∷ gs → all_good fs ≡ true
        → f.good ≡ false → read_save turns console (bytes_of s) ≡ Err (BadField (16 + size fs)) }
{}
