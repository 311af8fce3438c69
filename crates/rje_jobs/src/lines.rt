//! The lines of a deck.
ghost use Rattle.std.specs.Prelude.{◌≡◌, ◌∷◌, [], ◌<◌, length, position, ◌==◌, MatchOption, IfSome};
ghost use Rattle.std.specs.Str.Lines.{lines, strip_carriage_return};

use memchr::memchr;

/// Ends a line.
const LF: u8 = b'\n';

/// Belongs to a line's end where it stands just before the LF.
const CR: u8 = b'\r';

/// The first line and what stands after it; `None` where there is nothing.
pub(crate) fn next_line(rest: &[u8]) -> Option<(&[u8], &[u8])>
    ensures line { MatchOption result (rest.now ≡ [])
        (λ next. lines rest.now ≡ next.0.now ∷ lines next.1.now) }
    ensures shorter { IfSome result (λ next. length next.1.now < length rest.now) }
{
    if rest.is_empty() {
        return None;
    }
    match place_of_lf(rest) {
        Some(end) => {
            let (line, _) = rest.split_at(end);
            let (_, after) = rest.split_at(end + 1);
            Some((without_cr(line), after))
        }
        None => Some((rest, &[])),
    }
}

fn place_of_lf(rest: &[u8]) -> Option<usize>
    ensures place { result ≡ position (λ byte. byte == LF) rest.now }
    ensures within { IfSome result (λ place. place < length rest.now) }
{
    memchr(LF, rest)
}

/// A line without the CR at its end.
fn without_cr(line: &[u8]) -> &[u8]
    ensures { result.now ≡ strip_carriage_return line.now }
{
    match line.split_last() {
        Some((last, front)) if *last == CR => front,
        _ => line,
    }
}
