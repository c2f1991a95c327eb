// The three outputs: two files of the shelf and the sink. Each piece goes to one of them.
ghost use Rattle.std.specs.Prelude.{◌≡◌, ◌<◌, ◌≤◌, [], ◌∷◌, length, IsTrue};
ghost use Rattle.g5_outside.specs.Views.{Gave};
ghost use Rattle.run_model.specs.Pieces.{Piece};
ghost use Rattle.g5_writing.specs.Lines.{line_pieces};
ghost use Rattle.g5_writing.specs.Outputs.{HasFiles, AddsToFile, AddsToSink, Puts};

use g5_outside::{Failed, FileNo, Shelf, Sink};
use run_model::outputs::Place;

/// The two files that a run writes.
#[derive(Clone, Copy, Debug, PartialEq, Eq)]
pub struct OutputFiles {
    pub log: FileNo,
    pub trace: FileNo,
}

/// Adds the bytes to a file, by as many calls as it takes. A call that takes none is a fault.
pub fn add_to_file<F: Shelf>(shelf: &mut F, file: FileNo, bytes: &[u8]) -> Result<(), Failed>
    requires { Gave (F.seen shelf.old).numbers file.0 }
    ensures { AddsToFile file.0 bytes.now (F.seen shelf.old) (F.seen shelf.new) result }
{
    let mut rest = bytes;
    'writes: while !rest.is_empty() {
        match shelf.write(file, rest) {
            Err(_) => return Err(Failed),
            Ok(0) => return Err(Failed),
            Ok(count) => rest = &rest[count..],
        }
    }
    Ok(())
}

/// Adds the bytes to the sink, by as many calls as it takes. A call that takes none is a fault.
pub fn add_to_sink<O: Sink>(out: &mut O, bytes: &[u8]) -> Result<(), Failed>
    ensures { AddsToSink bytes.now (O.seen out.old) (O.seen out.new) result }
{
    let mut rest = bytes;
    'writes: while !rest.is_empty() {
        match out.write(rest) {
            Err(_) => return Err(Failed),
            Ok(0) => return Err(Failed),
            Ok(count) => rest = &rest[count..],
        }
    }
    Ok(())
}

/// Writes one piece.
pub fn put<F: Shelf, O: Sink>(
    shelf: &mut F,
    out: &mut O,
    files: OutputFiles,
    place: Place,
    bytes: &[u8],
) -> Result<(), Failed>
    requires { HasFiles (F.seen shelf.old) files }
    ensures { Puts files (record { place = place; bytes = bytes.now } ∷ []) (F.seen shelf.old) (F.seen shelf.new) (O.seen out.old) (O.seen out.new) result }
{
    match place {
        Place::Log => add_to_file(shelf, files.log, bytes),
        Place::Trace => add_to_file(shelf, files.trace, bytes),
        Place::Out => add_to_sink(out, bytes),
    }
}

/// Writes lines to one place, each as a piece.
pub fn put_all<F: Shelf, O: Sink>(
    shelf: &mut F,
    out: &mut O,
    files: OutputFiles,
    place: Place,
    lines: &[&[u8]],
) -> Result<(), Failed>
    requires { HasFiles (F.seen shelf.old) files }
    ensures { Puts files (line_pieces place lines.now) (F.seen shelf.old) (F.seen shelf.new) (O.seen out.old) (O.seen out.new) result }
{
    'lines: for line in lines {
        match put(shelf, out, files, place, line) {
            Err(failed) => return Err(failed),
            Ok(()) => {}
        }
    }
    Ok(())
}
