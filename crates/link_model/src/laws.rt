//! Laws of linked decks, as clauses of functions that do nothing.
ghost use Rattle.std.specs.Prelude.{◌≡◌, ℕ, List, Ok, Err};
ghost use Rattle.deck_model.specs.Image.{load_origin};
ghost use Rattle.deck_model.specs.Linking.{image_from};
ghost use Rattle.deck_model.specs.declared.decks.DeckRefusal.{DeckRefusal};
ghost use Rattle.program_model.specs.declared.refusals.LinkRefusal.TheVariants.{Deck};
ghost use Rattle.link_model.specs.Link.{link_of};
ghost use Rattle.link_model.specs.Loading.{LoadAlike, ReadTyped};

/// From every origin on, the linked deck has the bytes and the entry of the decks that it was linked
/// from, or neither has room; and every name is loaded at the same address.
pub fn linked_decks_load_alike()
    ensures { (deck linked : List ℕ) → ReadTyped deck → link_of deck ≡ Ok linked
        → LoadAlike linked deck }
{}

/// A deck that cannot be loaded cannot be linked, for the same reason.
pub fn violations_refuse()
    ensures { (deck : List ℕ) (r : DeckRefusal) → image_from load_origin deck ≡ Err r
        → link_of deck ≡ Err (Deck r) }
{}
