// Texts that are cut at a mark.
ghost use Rattle.std.specs.Prelude.{◌≡◌, ◌==◌, ◌<◌, IfSome, length, position};
ghost use Rattle.http_text.specs.Inner.{IsCut};

// A text before and behind its first mark. None where it has no mark.
pub(crate) fn cut(text: &[u8], mark: u8) -> Option<(&[u8], &[u8])>
    ensures { IsCut mark text.now result }
{
    let at = first_place(text, mark)?;
    Some((&text[..at], &text[at + 1..]))
}

fn first_place(text: &[u8], mark: u8) -> Option<usize>
    ensures place { result ≡ position (λ c. c == mark) text.now }
    ensures within { IfSome result (λ at. at < length text.now) }
{
    text.iter().position(|b| *b == mark)
}
