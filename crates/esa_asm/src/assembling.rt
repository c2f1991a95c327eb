//! The deck of a source.
ghost use Rattle.std.specs.Prelude.{◌≡◌, ◌⊎◌, ℕ, ◌<◌, ◌^◌, length, Ok, Err, IfOk, IfErr};
ghost use Rattle.program_model.specs.declared.refusals.AsmRefusal.TheVariants.{NoMemory};
ghost use Rattle.asm_model.specs.Line.{sources as sources_of};
ghost use Rattle.asm_model.specs.Program.{assembly};
ghost use Rattle.asm_laws.specs.AcceptedSource.{CanBeLoaded};
ghost use Rattle.esa_asm.specs.AssembledSource.{assembled};
ghost use Rattle.esa_asm.specs.LoadedDeck.{IsLoaded};

use crate::refusing::source_refusal;
use asm_deck::deck_of;
use asm_lines::sources::sources;
use asm_places::assembling::assemble as assemble_statements;
use program_model::refusals::AsmRefusal;
use std::alloc::Global;

/// The deck of a source, in cards of 80 bytes: an ESD card for each section and each different
/// external name, the text of each section, an RLD card for each address word, END. Or the first
/// refusal, in the order of `AsmRefusal`, each of which is tested over the whole source; memory may be
/// wanting at any point.
#[tactic(auto, using(crate::proofs::DeckOfSource::of_text, crate::proofs::DeckOfSource::deck_is, crate::proofs::DeckOfSource::may_refuse, crate::proofs::DeckOfSource::is_loaded))]
pub fn assemble(alloc: Global, source: &[u8]) -> Result<Vec<u8>, AsmRefusal>
    requires { length source.now < 2 ^ 32 }
    ensures deck { IfOk result (λ deck. assembled source.now ≡ Ok deck.items) }
    ensures refused { IfErr result (λ r. (r ≡ NoMemory) ⊎ (assembled source.now ≡ Err r)) }
    ensures loaded { IfOk result (λ deck. (origin size : ℕ)
        → CanBeLoaded (assembly (sources_of source.now))
        → IsLoaded origin size deck.items source.now (assembly (sources_of source.now))) }
{
    let statements = sources(alloc, source)?;
    let program = match assemble_statements(alloc, &statements) {
        Ok(program) => program,
        Err(refusal) => return Err(source_refusal(refusal)),
    };
    let deck = deck_of(
        alloc,
        &program.sections,
        &program.externals,
        &program.constants,
        program.entry,
    )?;
    Ok(deck)
}
