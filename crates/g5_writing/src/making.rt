// One file, written whole.
ghost use Rattle.std.specs.Prelude.{◌≡◌, []};
ghost use Rattle.g5_writing.specs.Starts.{MakesFile};

use crate::outputs::add_to_file;
use g5_outside::{Failed, Shelf};

/// Makes a file of this name with this text.
///
/// # Errors
///
/// `Failed` where the file could not be created, or not be written to its end; it has then some first
/// bytes of the text.
pub fn write_file<F: Shelf>(shelf: &mut F, name: &str, text: &[u8]) -> Result<(), Failed>
    requires fresh { (F.seen shelf.old).numbers ≡ [] }
    ensures { MakesFile name.now text.now (F.seen shelf.old) (F.seen shelf.new) result }
{
    match shelf.create(name) {
        Ok(file) => add_to_file(shelf, file, text),
        Err(failed) => Err(failed),
    }
}
