//! The law of the texts of instructions, as the clause of a function that does nothing.
ghost use Rattle.std.specs.Prelude.{◌≡◌, ℕ, List, Some, None};
ghost use Rattle.esa_model.specs.declared.instructions.Decoded.{Decoded};
ghost use Rattle.esa_table.specs.Encoding.{IsInstruction, instruction_bytes};
ghost use Rattle.asm_model.specs.Words.{name_of};
ghost use Rattle.asm_model.specs.Line.{sources};
ghost use Rattle.asm_model.specs.Program.{assembly};
ghost use Rattle.asm_model.specs.Refused.{refusal_of};
ghost use Rattle.text_law.specs.Between.{between, ignored, only_section};

/// The text of an instruction whose ignored bits are zeros, after one blank and between a CSECT of
/// any name and END, is a source without a refusal. Its program is one section of that name, whose
/// bytes are those of the instruction, without external names, address words and an entry.
pub fn texts_assemble()
    ensures { (name : List ℕ) (m : ℕ) (d : Decoded) → name_of name ≡ Some m → IsInstruction d
        → ignored d ≡ 0
        → (refusal_of (sources (between name d)) ≡ None)
        × (assembly (sources (between name d)) ≡ only_section m (instruction_bytes d)) }
{}
