//! One card more, with its number.
ghost use Rattle.std.specs.Prelude.{◌≡◌, ◌++◌, IsTrue, OnOk};
ghost use Rattle.deck_model.specs.CardWriting.{card_fits, card_bytes};
ghost use Rattle.deck_cards.specs.NumberedCards.{sequence};

use card_deck::{Card, write_card};
use std::alloc::AllocError;

#[tactic(auto, unfolding(crate::specs::NumberedCards::sequence))]
fn sequence_of(n: u32) -> [u8; 8]
    ensures { result ≡ sequence n }
{
    [
        0xF0 + (n / 10_000_000 % 10) as u8,
        0xF0 + (n / 1_000_000 % 10) as u8,
        0xF0 + (n / 100_000 % 10) as u8,
        0xF0 + (n / 10_000 % 10) as u8,
        0xF0 + (n / 1_000 % 10) as u8,
        0xF0 + (n / 100 % 10) as u8,
        0xF0 + (n / 10 % 10) as u8,
        0xF0 + (n % 10) as u8,
    ]
}

/// Puts a card that fits into its 80 columns behind others, with its number in columns 73-80.
pub fn push_card(out: &mut Vec<u8>, number: u32, card: &Card) -> Result<(), AllocError>
    requires { IsTrue (card_fits card.now) }
    ensures { OnOk result (out.new.items
        ≡ out.old.items ++ card_bytes card.now (sequence number)) }
{
    let bytes = write_card(card, &sequence_of(number));
    out.extend_from_slice(&bytes)?;
    Ok(())
}
