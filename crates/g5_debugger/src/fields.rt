// The fields of a line.
ghost use Rattle.std.specs.Prelude.{◌≡◌, ◌<◌, [], ◌∷◌, bytes_eq, length, position, IfSome, MatchOption};
ghost use Rattle.run_model.specs.Script.{fields, is_blank};
ghost use Rattle.g5_debugger.specs.Parts.{AreParts};

/// Whether a field is this word.
pub fn is_word(field: &[u8], word: &[u8]) -> bool
    ensures { result ≡ bytes_eq field.now word.now }
{
    field == word
}

fn first_blank(text: &[u8]) -> Option<usize>
    ensures { result ≡ position is_blank text.now }
{
    text.iter().position(|b| *b == b' ')
}

// The first field, and what stands behind its blank.
#[tactic(auto, using(crate::proofs::LineFields::some_field))]
fn cut(text: &[u8]) -> (&[u8], Option<&[u8]>)
    ensures parts { MatchOption result.1 (fields text.now ≡ result.0.now ∷ [])
        (λ rest. fields text.now ≡ result.0.now ∷ fields rest.now) }
    ensures more { IfSome result.1 (λ rest. 0 < length (fields rest.now)) }
{
    let Some(end) = first_blank(text) else {
        return (text, None);
    };
    (&text[..end], Some(&text[end + 1..]))
}

/// The fields of a line, where there are one, two or three.
pub enum Parts<'a> {
    One(&'a [u8]),
    Two(&'a [u8], &'a [u8]),
    Three(&'a [u8], &'a [u8], &'a [u8]),
    Other,
}

/// The parts of a line.
pub fn parted(line: &[u8]) -> Parts<'_>
    ensures { AreParts (fields line.now) result }
{
    let (a, after) = cut(line);
    let Some(rest) = after else {
        return Parts::One(a);
    };
    let (b, after) = cut(rest);
    let Some(rest) = after else {
        return Parts::Two(a, b);
    };
    let (c, after) = cut(rest);
    if after.is_some() {
        return Parts::Other;
    }
    Parts::Three(a, b, c)
}
