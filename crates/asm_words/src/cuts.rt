//! Texts cut at a byte, and operands cut at their commas.
ghost use Rattle.std.specs.Prelude.{◌≡◌, ◌<◌, ◌≤◌, [], ◌∷◌, length};
ghost use Rattle.std.specs.List.{position_or_len, slice_split};
ghost use Rattle.asm_model.specs.Pieces.{pieces};
ghost use Rattle.asm_words.specs.Cuts.{is_byte, rest_split, rest_pieces, pieces_at};
ghost use Rattle.asm_words.specs.Cuts.{IsShorter, HasParts, AreParts};

/// What follows the byte at which a text was cut, if there is one.
#[derive(Clone, Copy, Debug, PartialEq, Eq)]
pub enum Rest<'a> {
    Nothing,
    More(&'a [u8]),
}

/// A text cut at each of some bytes.
#[derive(Clone, Copy, Debug, PartialEq, Eq)]
pub enum Parts<'a> {
    One(&'a [u8]),
    Two(&'a [u8], &'a [u8]),
    /// Three or more.
    Several,
}

fn part_len(text: &[u8], mark: u8) -> usize
    ensures value { result ≡ position_or_len (is_byte mark) text.now }
    ensures within { result ≤ length text.now }
{
    for (i, b) in text.iter().enumerate() {
        if *b == mark {
            return i;
        }
    }
    text.len()
}

/// The part of a text before the first such byte, and what follows that byte.
pub fn cut_at(text: &[u8], mark: u8) -> (&[u8], Rest<'_>)
    ensures parts { slice_split (is_byte mark) text.now
        ≡ result.0.now ∷ rest_split mark result.1 }
    ensures shorter { IsShorter result.1 (length text.now) }
    ensures more { HasParts mark result.1 }
{
    let (part, tail) = text.split_at(part_len(text, mark));
    if tail.len() == 0 {
        return (part, Rest::Nothing);
    }
    let (_mark, after) = tail.split_at(1);
    (part, Rest::More(after))
}

// The parts of a text of which the first is cut off.
fn parts_after<'a>(first: &'a [u8], rest: &'a [u8], mark: u8) -> Parts<'a>
    ensures { AreParts (first.now ∷ slice_split (is_byte mark) rest.now) result }
{
    let (second, after) = cut_at(rest, mark);
    match after {
        Rest::Nothing => Parts::Two(first, second),
        Rest::More(_) => Parts::Several,
    }
}

/// The parts of a text between such bytes.
pub fn parted(text: &[u8], mark: u8) -> Parts<'_>
    ensures { AreParts (slice_split (is_byte mark) text.now) result }
{
    let (first, after) = cut_at(text, mark);
    match after {
        Rest::Nothing => Parts::One(first),
        Rest::More(rest) => parts_after(first, rest, mark),
    }
}

// The number of bytes before the first comma outside parentheses.
#[tactic(auto, using(crate::proofs::Pieces::at_start, crate::proofs::Pieces::piece_ends, crate::proofs::Pieces::piece_goes, crate::proofs::Pieces::piece_whole))]
fn piece_len(text: &[u8]) -> usize
    ensures within { result ≤ length text.now }
    ensures cut { pieces [] text.now ≡ pieces_at text.now result }
{
    let mut left = false;
    let mut right = false;
    for i in 0..text.len() {
        let b = text[i];
        if b == b',' && !(left && !right) {
            return i;
        }
        left = left || b == b'(';
        right = right || b == b')';
    }
    text.len()
}

/// The first operand of a text, and what follows its comma.
pub fn next_piece(text: &[u8]) -> (&[u8], Rest<'_>)
    ensures { pieces [] text.now ≡ result.0.now ∷ rest_pieces result.1 }
{
    let (piece, tail) = text.split_at(piece_len(text));
    if tail.len() == 0 {
        return (piece, Rest::Nothing);
    }
    let (_comma, after) = tail.split_at(1);
    (piece, Rest::More(after))
}
