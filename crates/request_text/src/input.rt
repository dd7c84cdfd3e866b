// The lines of an input.
ghost use Rattle.std.specs.Prelude.{◌≡◌};
ghost use Rattle.std.specs.Str.Lines.{strip_carriage_return};
ghost use Rattle.request_text.specs.Input.{IsNextLine};

use crate::line::cut;

/// The first line of an input, without its LF and one CR before it, and what stands behind it. A last line may lack its
/// LF. None exactly where the input is empty.
pub fn next_line(input: &[u8]) -> Option<(&[u8], &[u8])>
    ensures { IsNextLine input.now result }
{
    if input.is_empty() {
        return None;
    }
    match cut(input, b'\n') {
        Some((piece, rest)) => Some((without_return(piece), rest)),
        None => Some((without_return(input), &input[input.len()..])),
    }
}

fn without_return(piece: &[u8]) -> &[u8]
    ensures { result.now ≡ strip_carriage_return piece.now }
{
    match piece {
        [line @ .., b'\r'] => line,
        _ => piece,
    }
}
