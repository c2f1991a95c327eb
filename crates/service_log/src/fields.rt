// The fields of a line.
#![tactic(auto)]

ghost use Rattle.std.specs.Prelude.{◌≡◌, ◌<◌, ◌==◌, length, bytes_eq, position, IfSome};
ghost use Rattle.run_model.specs.Script.{fields};
ghost use Rattle.service_log.specs.Parts.{AreParts, IsCut, cut_at};

/// Whether a field is this word.
pub fn is_word(field: &[u8], word: &[u8]) -> bool
    ensures { result ≡ bytes_eq field.now word.now }
{
    field == word
}

fn position_of(text: &[u8], at: u8) -> Option<usize>
    ensures { result ≡ position (λ b. b == at) text.now }
{
    text.iter().position(|b| *b == at)
}

/// What stands before the first byte `at`, and what stands behind it.
pub fn cut(text: &[u8], at: u8) -> (&[u8], Option<&[u8]>)
    ensures parts { IsCut (cut_at at) text.now result.0.now result.1 }
    ensures shorter { IfSome result.1 (λ rest. length rest.now < length text.now) }
{
    let Some(end) = position_of(text, at) else {
        return (text, None);
    };
    (&text[..end], Some(&text[end + 1..]))
}

/// The first field, and what stands behind its blank.
#[tactic(auto, unfolding(run_model::specs::Script::fields))]
pub fn cut_field(text: &[u8]) -> (&[u8], Option<&[u8]>)
    ensures parts { IsCut fields text.now result.0.now result.1 }
    ensures more { IfSome result.1 (λ rest. 0 < length (fields rest.now)) }
{
    cut(text, b' ')
}

/// The fields of a line, where there are four, five or six.
pub enum Parts<'a> {
    Four(&'a [u8], &'a [u8], &'a [u8], &'a [u8]),
    Five(&'a [u8], &'a [u8], &'a [u8], &'a [u8], &'a [u8]),
    Six(&'a [u8], &'a [u8], &'a [u8], &'a [u8], &'a [u8], &'a [u8]),
    Other,
}

/// The parts of a line.
pub fn parted(line: &[u8]) -> Parts<'_>
    ensures { AreParts (fields line.now) result }
{
    let (a, Some(rest)) = cut_field(line) else {
        return Parts::Other;
    };
    let (b, Some(rest)) = cut_field(rest) else {
        return Parts::Other;
    };
    let (c, Some(rest)) = cut_field(rest) else {
        return Parts::Other;
    };
    let (d, after) = cut_field(rest);
    let Some(rest) = after else {
        return Parts::Four(a, b, c, d);
    };
    let (e, after) = cut_field(rest);
    let Some(rest) = after else {
        return Parts::Five(a, b, c, d, e);
    };
    let (f, after) = cut_field(rest);
    if after.is_some() {
        return Parts::Other;
    }
    Parts::Six(a, b, c, d, e, f)
}
