//! Laws of accepted sources, as clauses of functions that do nothing.
ghost use Rattle.std.specs.Prelude.{◌≡◌, ℕ, List, None};
ghost use Rattle.asm_model.specs.Line.{sources};
ghost use Rattle.asm_model.specs.Places.{start, standings, last};
ghost use Rattle.asm_model.specs.Program.{assembly};
ghost use Rattle.asm_model.specs.Refused.{refusal_of};
ghost use Rattle.asm_deck.specs.AssembledImage.{IsImage};
ghost use Rattle.asm_deck.specs.Writable.{HasDeck};
ghost use Rattle.asm_laws.specs.AcceptedSource.{CanBeLoaded};
ghost use Rattle.asm_laws.specs.LoadedProgram.{StatementsLoaded};

/// The program of a source that has no refusal fits into the cards of a deck.
pub fn accepted_sources_have_decks()
    ensures { (text : List ℕ) → refusal_of (sources text) ≡ None
        → HasDeck (assembly (sources text)).sections (assembly (sources text)).externals
        (assembly (sources text)).constants (assembly (sources text)).entry }
{}

/// Where the external names of an accepted source are those of sections, some section is not empty and
/// the entry lies before the end of its section: at every origin and in every storage the image of its
/// deck is that of the program, or want of room, and each statement is loaded at the load address of
/// its section and its offset.
pub fn accepted_sources_are_loaded()
    ensures { (origin size : ℕ) (text : List ℕ) → refusal_of (sources text) ≡ None
        → CanBeLoaded (assembly (sources text))
        → (placed : ℕ → ℕ) × ((byte : ℕ → ℕ)
        × (IsImage origin size (assembly (sources text)).sections
        (assembly (sources text)).externals (assembly (sources text)).constants
        (assembly (sources text)).entry placed byte
        × StatementsLoaded byte origin (assembly (sources text)).sections
        (last start (sources text)).names (standings start (sources text)))) }
{}
