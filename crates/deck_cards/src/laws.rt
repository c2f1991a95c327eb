//! Laws of made decks, as clauses of functions that do nothing.
ghost use Rattle.std.specs.Prelude.{◌≡◌, ℕ, ◌+◌, ◌*◌, Bool, true, false, ◌&&◌, if◌then◌else◌, List, length, Ok};
ghost use Rattle.deck_model.specs.Deck.{ends, listing, listing_of};
ghost use Rattle.deck_model.specs.declared.cards.Card.{Card};
ghost use Rattle.deck_cards.specs.NumberedCards.{deck_bytes, numbered};
ghost use Rattle.deck_cards.specs.TextCards.{reaches, run_byte, runs_of};
ghost use Rattle.deck_cards.specs.Writable.{AreWritable};

/// A deck of cards that can be written, the last of which is an END card, is read as its cards. Each
/// has 80 bytes.
pub fn made_decks_are_read()
    ensures read { (cs : List Card) → AreWritable cs → ends false (numbered 1 0 cs) ≡ true
        → listing (deck_bytes 1 cs) ≡ Ok (listing_of (numbered 1 0 cs)) }
    ensures length { (cs : List Card) (n : ℕ) → AreWritable cs
        → length (deck_bytes n cs) ≡ 80 * length cs }
{}

/// The runs of a section hold exactly the bytes on which something stands.
#[tactic(auto, using(crate::proofs::RunBytes::runs_hold))]
pub fn runs_hold_what_stands()
    ensures { (stands : ℕ → Bool) (byte : ℕ → ℕ) (n a before : ℕ)
        → run_byte (runs_of stands byte n) a before
        ≡ (if reaches 0 n a && stands a then byte a else before) }
{}
