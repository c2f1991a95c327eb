//! The text of a section as cards.
ghost use Rattle.std.specs.Prelude.{◌≡◌, ℕ, suc, ◌+◌, ◌<◌, ◌≤◌, ◌++◌, Bool, List, length, slice_index, IsTrue, IfOk, OnOk, false, get_or};
ghost use Rattle.deck_model.specs.declared.cards.Card.{Card as SpecCard};
ghost use Rattle.deck_model.specs.Card.{txt};
ghost use Rattle.deck_model.specs.CardWriting.{card_fits, card_bytes};
ghost use Rattle.deck_model.specs.Image.{bytes_from};
ghost use Rattle.deck_cards.specs.TextCards.{Run, closed, runs, runs_of, text_cards};
ghost use Rattle.deck_cards.specs.NumberedCards.{sequence, deck_bytes};

use crate::cards::push_card;
use arrayvec::ArrayVec;
use card_deck::{Card, TxtCard};
use std::alloc::AllocError;

// The run that is open: the number of its card, its place, and how many bytes it has.
#[derive(Clone, Copy)]
struct Open {
    number: u32,
    at: usize,
    held: usize,
}

fn bytes_of(from: &[u8]) -> ArrayVec<u8, 56>
    requires { length from.now ≤ 56 }
    ensures { result.items ≡ from.now }
{
    let mut bytes = ArrayVec::new();
    for b in from {
        bytes.push(*b);
    }
    bytes
}

fn text_card(id: u16, at: u32, bytes: &[u8]) -> Card
    requires some { 0 < length bytes.now }
    requires few { length bytes.now ≤ 56 }
    requires low { at < 16777216 }
    ensures card { result ≡ txt id at bytes.now }
    ensures fits { IsTrue (card_fits result) }
{
    Card::Txt(TxtCard {
        id,
        address: at,
        bytes: bytes_of(bytes),
    })
}

fn run_of(bytes: &[u8], at: usize, held: usize) -> &[u8]
    requires { at + held ≤ length bytes.now }
    ensures bytes { result.now ≡ bytes_from (slice_index bytes.now) at held }
    ensures long { length result.now ≡ held }
{
    &bytes[at..at + held]
}

fn push_run(out: &mut Vec<u8>, id: u16, bytes: &[u8], o: Open) -> Result<(), AllocError>
    requires some { 0 < o.held }
    requires few { o.held ≤ 56 }
    requires inside { o.at + o.held ≤ length bytes.now }
    requires low { length bytes.now < 16777216 }
    ensures { OnOk result (out.new.items
        ≡ out.old.items
        ++ card_bytes (txt id o.at (bytes_from (slice_index bytes.now) o.at o.held)) (sequence o.number)) }
{
    let card = text_card(id, o.at as u32, run_of(bytes, o.at, o.held));
    push_card(out, o.number, &card)
}

// Writes the run that is open, and gives the next card's number.
fn close(out: &mut Vec<u8>, id: u16, bytes: &[u8], o: Open) -> Result<u32, AllocError>
    requires few { o.held ≤ 56 }
    requires inside { o.at + o.held ≤ length bytes.now }
    requires low { length bytes.now < 16777216 }
    requires numbers { o.number < 4294967295 }
    ensures cards { IfOk result (λ r. (more : List Run) (rest : List SpecCard)
        → out.new.items ++ deck_bytes r (text_cards id more ++ rest)
        ≡ out.old.items
        ++ deck_bytes o.number
        (text_cards id (closed (slice_index bytes.now) o.at o.held more) ++ rest)) }
    ensures few { IfOk result (λ r. r ≤ o.number + 1) }
{
    if o.held == 0 {
        return Ok(o.number);
    }
    push_run(out, id, bytes, o)?;
    Ok(o.number + 1)
}

// The run that is open after one more byte.
fn next(out: &mut Vec<u8>, id: u16, bytes: &[u8], stands: bool, o: Open) -> Result<Open, AllocError>
    requires few { o.held ≤ 56 }
    requires inside { o.at + o.held < length bytes.now }
    requires low { length bytes.now < 16777216 }
    requires numbers { o.number < 4294967295 }
    ensures cards { IfOk result (λ r. (f : ℕ → Bool) (n : ℕ) (rest : List SpecCard)
        → f (o.at + o.held) ≡ stands
        → out.new.items
        ++ deck_bytes r.number (text_cards id (runs f (slice_index bytes.now) r.at r.held n) ++ rest)
        ≡ out.old.items
        ++ deck_bytes o.number
        (text_cards id (runs f (slice_index bytes.now) o.at o.held (suc n)) ++ rest)) }
    ensures few { IfOk result (λ r. r.held ≤ 56) }
    ensures at { IfOk result (λ r. r.at + r.held ≡ o.at + o.held + 1) }
    ensures numbers { IfOk result (λ r. r.number ≤ o.number + 1) }
{
    if stands && o.held != 56 {
        return Ok(Open {
            number: o.number,
            at: o.at,
            held: o.held + 1,
        });
    }
    let number = close(out, id, bytes, o)?;
    if stands {
        Ok(Open {
            number,
            at: o.at + o.held,
            held: 1,
        })
    } else {
        Ok(Open {
            number,
            at: o.at + o.held + 1,
            held: 0,
        })
    }
}

/// Puts the text of a section behind other cards: TXT cards in the section of an ESDID, which has
/// ESD address 0, over each longest run of bytes on which something stands. Gives the number of the
/// next card; `number` is that of the first.
pub fn push_texts(
    out: &mut Vec<u8>,
    number: u32,
    id: u16,
    bytes: &[u8],
    stands: &[bool],
) -> Result<u32, AllocError>
    requires same { length stands.now ≡ length bytes.now }
    requires low { length bytes.now < 16777216 }
    requires numbers { number < 2147483648 }
    ensures cards { IfOk result (λ r. (rest : List SpecCard)
        → out.new.items ++ deck_bytes r rest
        ≡ out.old.items
        ++ deck_bytes number
        (text_cards id
        (runs_of (λ k. get_or stands.now k false) (slice_index bytes.now) (length bytes.now))
        ++ rest)) }
    ensures numbers { IfOk result (λ r. r ≤ number + length bytes.now + 1) }
{
    let mut o = Open {
        number,
        at: 0,
        held: 0,
    };
    for i in 0..bytes.len() {
        o = next(out, id, bytes, stands[i], o)?;
    }
    let after = close(out, id, bytes, o)?;
    Ok(after)
}
