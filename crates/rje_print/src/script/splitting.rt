//! Bytes, split at the first of a kind.
ghost use Rattle.std.specs.Prelude.{◌<◌, length, IfSome, MatchOption};
ghost use Rattle.rje_print.specs.Script.{IsSplit, Lacks};

/// What stands before the first such byte, and what stands after it; `None` if there is no such byte.
pub fn split_once<'a>(bytes: &'a [u8], byte: u8) -> Option<(&'a [u8], &'a [u8])>
    ensures parts { MatchOption result (Lacks byte bytes.entry.now)
        (λ p. IsSplit byte bytes.entry.now p.0.now p.1.now) }
    ensures shorter { IfSome result (λ p. length p.1.now < length bytes.entry.now) }
{
    let place = bytes.iter().position(|b| *b == byte)?;
    let (front, rest) = bytes.split_at(place);
    let (_, behind) = rest.split_at(1);
    Some((front, behind))
}
