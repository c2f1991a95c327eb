//! The statement of an instruction.
ghost use Rattle.std.specs.Prelude.{◌≡◌, ℕ, List, Some, Ok};
ghost use Rattle.esa_table.specs.Encoding.{IsInstruction, instruction_bytes};
ghost use Rattle.asm_model.specs.Words.{name_of};
ghost use Rattle.asm_text.specs.Text.{text_of};
ghost use Rattle.text_law.specs.Between.{between, ignored, only_section};
ghost use Rattle.esa_asm.specs.AssembledSource.{assembled, deck_of_program};

use arrayvec::ArrayVec;
use asm_text::text as text_by_row;
use esa_model::instructions::Decoded;

/// The statement of an instruction: its name, a blank, and its operands with commas between them.
/// Where the bits that the instruction ignores are zeros, its statement behind one blank, between a
/// section of any name and the end, assembles to its bytes and no others.
#[tactic(auto, using(crate::proofs::TextAssembled::text_is_assembled))]
pub fn text(d: &Decoded) -> ArrayVec<u8, 40>
    requires { IsInstruction d.now }
    ensures text { result.items ≡ text_of d.now }
    ensures assembles { (name : List ℕ) (m : ℕ) → name_of name ≡ Some m → ignored d.now ≡ 0
        → assembled (between name d.now)
        ≡ Ok (deck_of_program (only_section m (instruction_bytes d.now))) }
{
    text_by_row(d)
}
