//! The test for a normal text byte.
ghost use Rattle.std.specs.Prelude.{◌≡◌, IsTrue, Contains, MatchOption};
ghost use Rattle.std.specs.Bool.{MatchBool};
ghost use Rattle.std.specs.List.{AllByRecursion};
ghost use Rattle.bsc_codes.specs.Bytes.{control_bytes};
ghost use Rattle.bsc_frame.specs.Body.{IsNormalText};
ghost use Rattle.bsc_frame.specs.FrameFault.{IsFirstBad};
ghost use Rattle.bsc_frame.specs.Inside.Listening.NormalText.{is_normal_text};

use bsc_codes::{BLANK, ESC, IGS, IRS};

/// How many bytes are checked together.
const PIECE: usize = 32;

/// Whether normal text may have a byte.
pub(crate) fn is_normal(byte: u8) -> bool
    ensures means { MatchBool result (IsNormalText byte) (Contains control_bytes byte) }
    ensures test { result ≡ is_normal_text byte }
{
    bsc_codes::is_normal_text(byte)
}

/// The place of the first byte that is no normal text byte.
pub(crate) fn first_bad(text: &[u8]) -> Option<usize>
    ensures { MatchOption result (AllByRecursion IsNormalText text.now)
        (λ place. IsFirstBad text.now place) }
{
    let mut passed = 0;
    while let Some(piece) = text[passed..].first_chunk::<PIECE>() {
        if let Some(place) = first_bad_in_piece(piece) {
            return Some(passed + place);
        }
        passed += PIECE;
    }
    match first_bad_one_by_one(&text[passed..]) {
        Some(place) => Some(passed + place),
        None => None,
    }
}

/// The place of the first such byte of a piece. Nearly all pieces are of the usual bytes, and need no second look.
fn first_bad_in_piece(piece: &[u8; PIECE]) -> Option<usize>
    ensures { MatchOption result (AllByRecursion IsNormalText piece.now)
        (λ place. IsFirstBad piece.now place) }
{
    if are_usual(piece) {
        return None;
    }
    first_bad_one_by_one(piece)
}

/// The place of the first such byte, by a look at one byte after the other.
fn first_bad_one_by_one(text: &[u8]) -> Option<usize>
    ensures { MatchOption result (AllByRecursion IsNormalText text.now)
        (λ place. IsFirstBad text.now place) }
{
    for (i, byte) in text.iter().enumerate() {
        if !is_normal(*byte) {
            return Some(i);
        }
    }
    None
}

/// Whether all of these bytes are usual. The loop has no way out before its end, so that the bytes are compared many at a time.
fn are_usual(piece: &[u8; PIECE]) -> bool
    ensures { IsTrue result → AllByRecursion IsNormalText piece.now }
{
    let mut all = true;
    for byte in piece {
        all &= is_usual(*byte);
    }
    all
}

/// Whether a byte is one of those that nearly all of a text is made of: a character, a separator or an escape. None controls the line.
fn is_usual(byte: u8) -> bool
    ensures { IsTrue result → IsNormalText byte }
{
    (byte >= BLANK) | (byte == IGS) | (byte == IRS) | (byte == ESC)
}
