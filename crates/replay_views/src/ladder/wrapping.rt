//! Splits text into lines of a limited length.
ghost use Rattle.std.specs.Prelude.{◌≡◌, ◌<◌, ◌≤◌, length, slice_index};
ghost use Rattle.replay_views.specs.Wrapping.{Splits};

// Returns the place of the last blank before this place, but not at the beginning, or else this place.
fn cut_before(text: &[u8], place: usize) -> usize
    requires within { place < length text.now }
    requires some { 0 < place }
    ensures most { result ≤ place }
    ensures least { 0 < result }
{
    let mut cut = place;
    for i in 1..place {
        if text[i] == b' ' {
            cut = i;
        }
    }
    cut
}

// Returns a text's line up to a place, and the rest without its leading blank.
fn split_at_blank(text: &[u8], place: usize) -> (&[u8], &[u8])
    requires some { 0 < place }
    requires within { place ≤ length text.now }
    ensures whole { Splits text.now result.0.now result.1.now }
    ensures narrow { length result.0.now ≤ place }
    ensures shorter { length result.1.now < length text.now }
{
    let (line, rest) = text.split_at(place);
    match rest {
        [b' ', after @ ..] => (line, after),
        _ => (line, rest),
    }
}

/// Returns the first line of a text, of at most `width` octets, and the rest. A text that fits isn't split. Otherwise the
/// line ends at the last blank that lets it fit, which is left out, or is cut if there is none.
pub fn split_line(text: &[u8], width: usize) -> (&[u8], &[u8])
    requires { 0 < width }
    ensures whole { Splits text.now result.0.now result.1.now }
    ensures narrow { length result.0.now ≤ width }
    ensures shorter { 0 < length text.now → length result.1.now < length text.now }
{
    if text.len() <= width {
        return text.split_at(text.len());
    }
    if text[width] == b' ' {
        return split_at_blank(text, width);
    }
    split_at_blank(text, cut_before(text, width))
}
