//! The number of cards of the linked deck, counted before any is written.
ghost use Rattle.std.specs.Prelude.{◌≡◌, ℕ, suc, ◌+◌, ◌-◌, ◌/◌, ◌<◌, ◌≤◌, ◌^◌, Bool, false, get_or, length};
ghost use Rattle.deck_cards.specs.TextCards.{runs, runs_of};
ghost use Rattle.deck_link.specs.Parts.{cards_of, PartsFit, one_if};

use crate::parts::Parts;
use card_deck::{EsdItem, RldItem};

// How many runs are closed, and how many bytes the open one has.
#[derive(Clone, Copy)]
struct Counted {
    closed: usize,
    held: usize,
}

// How many runs there are where the open one is closed.
fn closed(c: Counted) -> usize
    requires { c.closed < 2 ^ 63 }
    ensures value { result ≡ c.closed + one_if c.held }
    ensures low { result ≤ c.closed + 1 }
{
    if c.held == 0 { c.closed } else { c.closed + 1 }
}

// The count after one more byte.
fn next(c: Counted, stands: bool) -> Counted
    requires few { c.held ≤ 56 }
    requires low { c.closed < 2 ^ 63 }
    ensures runs { (on : ℕ → Bool) (f : ℕ → ℕ) (at n : ℕ) → on (at + c.held) ≡ stands
        → result.closed + length (runs on f (at + c.held + 1 - result.held) result.held n)
        ≡ c.closed + length (runs on f at c.held (suc n)) }
    ensures few { result.held ≤ 56 }
    ensures long { result.held ≤ c.held + 1 }
    ensures low { result.closed ≤ c.closed + 1 }
{
    if !stands {
        return Counted {
            closed: closed(c),
            held: 0,
        };
    }
    if c.held == 56 {
        return Counted {
            closed: closed(c),
            held: 1,
        };
    }
    Counted {
        closed: c.closed,
        held: c.held + 1,
    }
}

fn run_count(stands: &[bool]) -> usize
    requires { length stands.now < 2 ^ 62 }
    ensures runs { (f : ℕ → ℕ) → result
        ≡ length (runs_of (λ k. get_or stands.now k false) f (length stands.now)) }
    ensures low { result ≤ length stands.now + 1 }
{
    let mut counted = Counted { closed: 0, held: 0 };
    for i in 0..stands.len() {
        counted = next(counted, stands[i]);
    }
    closed(counted)
}

// Each label has a card of its own.
fn label_cards(labels: &[EsdItem]) -> usize
    ensures value { result ≡ length labels.now }
    ensures low { result < 2 ^ 62 }
{
    labels.len()
}

// So many cards have the relocations.
fn relocation_cards(items: &[RldItem]) -> usize
    ensures value { result ≡ (length items.now + 12) / 13 }
    ensures low { result ≤ length items.now }
{
    (items.len() + 12) / 13
}

/// The number of cards of the linked deck.
pub fn card_count(parts: &Parts) -> usize
    requires { PartsFit parts.now }
    ensures { result ≡ length (cards_of parts.now) }
{
    2 + label_cards(&parts.labels) + run_count(&parts.stands) + relocation_cards(&parts.items)
}
