//! The words of a script for what the line does.
ghost use Rattle.std.specs.Prelude.{◌≡◌, ◌≢◌, ◌<◌, ◌^◌, ◌++◌, ℕ, codes, decimal, length, IfOk, IfSome, MatchOption};
ghost use Rattle.rje_print.specs.Script.{FitsMachine, HasFirstPair, IsFate, IsFateWord, IsFirstPair, IsHexDigit};

use super::splitting::split_once;
use itoa::Buffer;
use line_world::Fate;
use std::alloc::{AllocError, Global};

/// The fate of a word; `None` if the word is not a fate.
pub fn fate_of(alloc: Global, word: &[u8]) -> Result<Option<Fate>, AllocError>
    ensures { IfOk result (λ fate. MatchOption fate (¬ (IsFate word.now))
        (λ f. IsFateWord f word.now × FitsMachine f)) }
{
    if word == b"ok".as_slice() {
        return Ok(Some(Fate::Arrives {
            cuts: Vec::new(alloc),
        }));
    }
    if word == b"lost".as_slice() {
        return Ok(Some(Fate::Lost));
    }
    if let Some(places) = word.strip_prefix(b"ok:".as_slice()) {
        return cuts_of(alloc, places);
    }
    if let Some(digits) = word.strip_prefix(b"bad:".as_slice()) {
        return damage_of(alloc, digits);
    }
    Ok(None)
}

/// Bytes that come in pieces, cut at these places.
fn cuts_of(alloc: Global, places: &[u8]) -> Result<Option<Fate>, AllocError>
    ensures { IfOk result (λ fate. MatchOption fate (¬ (IsFate (codes "ok:" ++ places.now)))
        (λ f. IsFateWord f (codes "ok:" ++ places.now) × FitsMachine f)) }
{
    let mut cuts = Vec::new(alloc);
    let mut rest = places;
    while let Some((text, more)) = split_once(rest, b',') {
        let Some(place) = number_of(text) else {
            return Ok(None);
        };
        cuts.push(place)?;
        rest = more;
    }
    let Some(place) = number_of(rest) else {
        return Ok(None);
    };
    cuts.push(place)?;
    Ok(Some(Fate::Arrives { cuts }))
}

/// The number of a decimal text without leading zeros.
fn number_of(text: &[u8]) -> Option<usize>
    ensures { MatchOption result ((number : ℕ) → number < 2 ^ 64 → text.now ≢ decimal number)
        (λ number. (text.now ≡ decimal number) × (number < 2 ^ 64)) }
{
    let number = str::from_utf8(text).ok()?.parse::<usize>().ok()?;
    let mut buffer = Buffer::new();
    if buffer.format(number).as_bytes() == text {
        Some(number)
    } else {
        None
    }
}

/// Damage that gives these bytes in hexadecimal, one at least.
fn damage_of(alloc: Global, digits: &[u8]) -> Result<Option<Fate>, AllocError>
    ensures { IfOk result (λ fate. MatchOption fate (¬ (IsFate (codes "bad:" ++ digits.now)))
        (λ f. IsFateWord f (codes "bad:" ++ digits.now) × FitsMachine f)) }
{
    if digits.is_empty() {
        return Ok(None);
    }
    let mut bytes = Vec::new(alloc);
    let mut rest = digits;
    while let Some((byte, more)) = first_byte(rest) {
        bytes.push(byte)?;
        rest = more;
    }
    if !rest.is_empty() {
        return Ok(None);
    }
    Ok(Some(Fate::Damaged { bytes }))
}

/// The byte of the first two digits, and what is after them; `None` where they are not digits.
fn first_byte(digits: &[u8]) -> Option<(u8, &[u8])>
    ensures byte { MatchOption result (¬ (HasFirstPair digits.now))
        (λ p. IsFirstPair digits.now p.0 p.1.now × (p.0 < 2 ^ 8)) }
    ensures shorter { IfSome result (λ p. length p.1.now < length digits.now) }
{
    let (high, rest) = digits.split_first()?;
    let (low, rest) = rest.split_first()?;
    let high = digit_of(*high)?;
    let low = digit_of(*low)?;
    Some((high * 16 + low, rest))
}

/// The value of a hexadecimal digit of either case.
fn digit_of(character: u8) -> Option<u8>
    ensures value { MatchOption result ((value : ℕ) → value < 16 → ¬ (IsHexDigit value character))
        (λ value. IsHexDigit value character) }
    ensures small { IfSome result (λ value. value < 16) }
{
    match character {
        b'0'..=b'9' => Some(character - b'0'),
        b'A'..=b'F' => Some(character - b'A' + 10),
        b'a'..=b'f' => Some(character - b'a' + 10),
        _ => None,
    }
}
