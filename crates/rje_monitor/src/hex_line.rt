//! A line of bytes in hexadecimal.
ghost use Rattle.std.specs.Prelude.{◌≡◌, ◌<◌, ◌≤◌, ◌↔◌, ℕ, List, length, IsTrue, IfOk, IfSome, MatchOption};
ghost use Rattle.std.specs.List.{prefix_len};
ghost use Rattle.rje_monitor.specs.Turns.{is_blank, IsHexDigit, IsPair, IsHex, IsHexLine, after_blanks as behind_blanks};

use std::alloc::{AllocError, Global};

/// Whether a line is that of some bytes. It takes no memory.
pub(crate) fn is_hex(line: &[u8]) -> bool
    ensures { IsTrue result ↔ IsHex line.now }
{
    if line.first() == Some(&b' ') {
        return false;
    }
    let mut rest = line;
    while let Some((_byte, more)) = first_pair(rest) {
        rest = more;
    }
    rest.is_empty()
}

/// The bytes of a line that is one.
pub(crate) fn bytes_of(alloc: Global, line: &[u8]) -> Result<Vec<u8>, AllocError>
    requires { IsHex line.now }
    ensures { IfOk result (λ bytes. IsHexLine bytes.items line.now) }
{
    let mut bytes = Vec::new(alloc);
    let mut rest = line;
    while let Some((byte, more)) = first_pair(rest) {
        bytes.push(byte)?;
        rest = more;
    }
    Ok(bytes)
}

/// The byte of the first two digits after any blanks, and what is after them; `None` where they are not digits.
fn first_pair(text: &[u8]) -> Option<(u8, &[u8])>
    ensures pair { MatchOption result
        ((b : ℕ) (behind : List ℕ) → ¬ (IsPair b (behind_blanks text.now) behind))
        (λ p. IsPair p.0 (behind_blanks text.now) p.1.now) }
    ensures shorter { IfSome result (λ p. length p.1.now < length text.now) }
{
    let (high, rest) = after_blanks(text).split_first()?;
    let (low, rest) = rest.split_first()?;
    let high = digit_of(*high)?;
    let low = digit_of(*low)?;
    Some((high * 16 + low, rest))
}

/// What follows the blanks in front.
fn after_blanks(text: &[u8]) -> &[u8]
    ensures { result.now ≡ behind_blanks text.now }
{
    let (_, rest) = text.split_at(blanks_before(text));
    rest
}

/// How many blanks come first.
fn blanks_before(text: &[u8]) -> usize
    ensures blanks { result ≡ prefix_len is_blank text.now }
    ensures within { result ≤ length text.now }
{
    text.iter().take_while(|byte| **byte == b' ').count()
}

/// The value of a hexadecimal digit of either case.
fn digit_of(character: u8) -> Option<u8>
    ensures value { MatchOption result ((value : ℕ) → ¬ (IsHexDigit value character))
        (λ value. IsHexDigit value character) }
    ensures small { IfSome result (λ value. value < 16) }
{
    match character {
        b'0'..=b'9' => Some(character - b'0'),
        b'A'..=b'F' => Some(character - b'A' + 10),
        b'a'..=b'f' => Some(character - b'a' + 10),
        _ => None,
    }
}
