// The fields of a script's line.
#![tactic(auto)]

ghost use Rattle.std.specs.Prelude.{◌≡◌, ◌<◌, ◌≤◌, ◌∷◌, [], length, IfSome, MatchOption};
ghost use Rattle.std.specs.List.{position_or_len};
ghost use Rattle.run_model.specs.Script.{is_blank, fields};
ghost use Rattle.fault_script.specs.Parts.{AreParts};

fn piece_len(text: &[u8]) -> usize
    ensures value { result ≡ position_or_len is_blank text.now }
    ensures within { result ≤ length text.now }
{
    for (i, b) in text.iter().enumerate() {
        if *b == 32 {
            return i;
        }
    }
    text.len()
}

// The first field, and what follows its blank.
fn cut(text: &[u8]) -> (&[u8], Option<&[u8]>)
    ensures parts { MatchOption result.1 (fields text.now ≡ result.0.now ∷ [])
        (λ r. fields text.now ≡ result.0.now ∷ fields r.now) }
    ensures more { IfSome result.1 (λ r. 0 < length (fields r.now)) }
{
    let (field, tail) = text.split_at(piece_len(text));
    if tail.len() == 0 {
        return (field, None);
    }
    let (_blank, after) = tail.split_at(1);
    (field, Some(after))
}

/// The fields of a line, where there are four, five or six.
pub enum Parts<'a> {
    Four(&'a [u8], &'a [u8], &'a [u8], &'a [u8]),
    Five(&'a [u8], &'a [u8], &'a [u8], &'a [u8], &'a [u8]),
    Six(&'a [u8], &'a [u8], &'a [u8], &'a [u8], &'a [u8], &'a [u8]),
    Other,
}

/// The parts of a line.
pub fn parted(line: &[u8]) -> Parts<'_>
    ensures { AreParts (fields line.now) result }
{
    let (a, Some(rest)) = cut(line) else {
        return Parts::Other;
    };
    let (b, Some(rest)) = cut(rest) else {
        return Parts::Other;
    };
    let (c, Some(rest)) = cut(rest) else {
        return Parts::Other;
    };
    let (d, after) = cut(rest);
    let Some(rest) = after else {
        return Parts::Four(a, b, c, d);
    };
    let (e, after) = cut(rest);
    let Some(rest) = after else {
        return Parts::Five(a, b, c, d, e);
    };
    let (f, after) = cut(rest);
    if after.is_some() {
        return Parts::Other;
    }
    Parts::Six(a, b, c, d, e, f)
}
