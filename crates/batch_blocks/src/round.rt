// The lines of a round, and whose they are.
ghost use Rattle.std.specs.Prelude.{◌≡◌, ◌≤◌, ◌<◌, ◌+◌, ◌++◌, [], map, length, IfOk};
ghost use Rattle.request_text.specs.Input.{input_lines};
ghost use Rattle.batch_blocks.specs.Workers.{round_lines, worker_of as worker_of_line};

use request_text::next_line;
use std::alloc::{AllocError, Global};

/// The most lines of a round.
pub const ROUND_LINES: usize = 64;

/// The lines of the next round of an input, up to 64 of them, and what stands behind them. There are fewer only where
/// the input ends with them. An error is want of memory.
pub fn next_round(alloc: Global, input: &[u8]) -> Result<(Vec<&[u8]>, &[u8]), AllocError>
    ensures cut { IfOk result (λ cut. input_lines input.now
        ≡ map (λ line. line.now) cut.0.items ++ input_lines cut.1.now) }
    ensures few { IfOk result (λ cut. length cut.0.items ≤ round_lines) }
    ensures last { IfOk result (λ cut. length cut.0.items < round_lines → input_lines cut.1.now ≡ []) }
    ensures shorter { IfOk result (λ cut. length cut.1.now + length cut.0.items ≤ length input.now) }
{
    let mut lines = Vec::new(alloc);
    let mut rest = input;
    for _place in 0..ROUND_LINES {
        let Some((line, behind)) = next_line(rest) else {
            return Ok((lines, rest));
        };
        lines.push(line)?;
        rest = behind;
    }
    Ok((lines, rest))
}

/// The worker of a line, by the line's place in its round.
pub fn worker_of(workers: usize, place: usize) -> usize
    requires some { 0 < workers }
    requires place { place < round_lines }
    ensures worker { result ≡ worker_of_line workers place }
    ensures within { result < workers }
{
    place % workers
}
