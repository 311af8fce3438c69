//! Bytes, split at the first of a kind.
ghost use Rattle.std.specs.Prelude.{MatchOption};
ghost use Rattle.rje_settle.specs.Inside.Splitting.{IsSplit, Lacks};

/// What stands before the first such byte, and what stands after it; `None` if there is no such
/// byte.
pub(crate) fn split_once<'a>(bytes: &'a [u8], byte: u8) -> Option<(&'a [u8], &'a [u8])>
    ensures { MatchOption result (Lacks byte bytes.entry.now)
        (λ p. IsSplit byte bytes.entry.now p.0.now p.1.now) }
{
    let place = bytes.iter().position(|b| *b == byte)?;
    let (front, rest) = bytes.split_at(place);
    let (_, behind) = rest.split_at(1);
    Some((front, behind))
}
