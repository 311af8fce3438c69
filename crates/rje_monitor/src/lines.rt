//! Lines of a text.
ghost use Rattle.std.specs.Prelude.{◌≡◌, ◌≢◌, ◌<◌, [], length, position, IfSome, MatchOption};
ghost use Rattle.std.specs.Io.BufRead.{strip_last};
ghost use Rattle.rje_monitor.specs.Turns.{first_line as line_in_front, is_lf, later_lines};

/// The first line, without its LF and a CR in front of that, and the lines after it; `None` where there is no line.
pub(crate) fn first_line(lines: &[u8]) -> Option<(&[u8], &[u8])>
    ensures none { MatchOption result (lines.now ≡ []) (λ p. lines.now ≢ []) }
    ensures line { IfSome result (λ p. p.0.now ≡ line_in_front lines.now) }
    ensures later { IfSome result (λ p. p.1.now ≡ later_lines lines.now) }
    ensures shorter { IfSome result (λ p. length p.1.now < length lines.now) }
{
    if lines.is_empty() {
        return None;
    }
    match first_lf(lines) {
        Some(place) => {
            let (line, end) = lines.split_at(place);
            let (_, later) = end.split_at(1);
            Some((without_cr(line), later))
        }
        None => Some((lines, &[])),
    }
}

fn first_lf(lines: &[u8]) -> Option<usize>
    ensures { result ≡ position is_lf lines.now }
{
    lines.iter().position(|byte| *byte == b'\n')
}

/// A line without the CR at its end.
fn without_cr(line: &[u8]) -> &[u8]
    ensures { result.now ≡ strip_last 0x0D line.now }
{
    match line.split_last() {
        Some((last, front)) if *last == b'\r' => front,
        _ => line,
    }
}
