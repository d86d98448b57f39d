ghost use Rattle.std.specs.Prelude.{◌≡◌, ◌≤◌, length};
ghost use Rattle.std.specs.Option.{option_map};
ghost use Rattle.sheet.specs.Parts.{before, first, rest};

// How many bytes of `text` stand before the first `mark`.
fn cut(text: &[u8], mark: u8) -> usize
    ensures { (result ≡ before mark text.now) × (result ≤ length text.now) }
{
    text.iter().position(|x| *x == mark).unwrap_or(text.len())
}

// The first part, and what follows the first mark, if there is one.
pub fn split_first(text: &[u8], mark: u8) -> (&[u8], Option<&[u8]>)
    ensures first { result.0.now ≡ first mark text.now }
    ensures more { option_map (λ x. x.now) result.1 ≡ rest mark text.now }
{
    let at = cut(text, mark);
    let first = &text[0..at];
    if at < text.len() {
        (first, Some(&text[at + 1..]))
    } else {
        (first, None)
    }
}
