//! What the deck of an assembled program holds when it is loaded, as clauses of functions that do
//! nothing.
ghost use Rattle.std.specs.Prelude.{◌≡◌, ℕ, List, Option, Some};
ghost use Rattle.deck_model.specs.Image.{bytes_from};
ghost use Rattle.esa_model.specs.declared.instructions.Decoded.{Decoded};
ghost use Rattle.esa_model.specs.Table.{row_numbered, decoded};
ghost use Rattle.esa_table.specs.Encoding.{encoded, IsInstruction};
ghost use Rattle.asm_model.specs.Section.{SectionBytes};
ghost use Rattle.asm_model.specs.declared.program.Constant.{Constant};
ghost use Rattle.asm_model.specs.declared.program.Defined.{Defined};
ghost use Rattle.asm_deck.specs.Accepted.{IsAccepted};
ghost use Rattle.asm_deck.specs.AssembledImage.{IsImage, BeginsWith};

/// The image of an assembled deck at any origin, in a storage of any size: the sections at their load
/// addresses, with each constant the load address that it names; or want of room.
pub fn assembled_decks_have_images()
    ensures { (origin size : ℕ) (ss : List SectionBytes) (ms : List ℕ) (cs : List Constant)
        (e : Option Defined)
        → IsAccepted ss ms cs e
        → (placed : ℕ → ℕ) × ((byte : ℕ → ℕ) × IsImage origin size ss ms cs e placed byte) }
{}

/// Where an instruction stands in a storage, it is decoded as its row and its fields, whatever follows
/// it.
pub fn instructions_are_decoded()
    ensures { (byte : ℕ → ℕ) (at : ℕ) (d : Decoded) → IsInstruction d
        → BeginsWith byte at (encoded (row_numbered d.row).form (row_numbered d.row).opcode d)
        → decoded (bytes_from byte at 6) ≡ Some d }
{}
