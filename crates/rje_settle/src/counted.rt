//! A number and a digest, as they are on cards and in names.
ghost use Rattle.std.specs.Prelude.{◌≡◌, ◌≢◌, ◌<◌, ◌≤◌, ◌+◌, ◌++◌, ℕ, List, length, MatchOption};
ghost use Rattle.rje_settle.specs.declared.receipt.Receipt.{Receipt as Said};
ghost use Rattle.rje_settle.specs.Receipt.{CanBeSaid, counted_text};

use crate::number::{number_of, push, push_number};
use crate::splitting::split_once;
use crate::{Digest, Receipt};
use arrayvec::ArrayVec;

/// The number and the digest at the front of a text, with this byte between them, and what stands
/// behind; `None` if they aren't there.
#[tactic(auto, unfolding(crate::specs::Receipt::counted_text))]
pub(crate) fn read_counted<'a>(text: &'a [u8], between: u8) -> Option<(Receipt, &'a [u8])>
    requires { between < 48 }
    ensures { MatchOption result
        ((r : Said) (behind : List ℕ) → CanBeSaid r
        → text.entry.now ≢ counted_text between r ++ behind)
        (λ p. CanBeSaid p.0 × (text.entry.now ≡ counted_text between p.0 ++ p.1.now)) }
{
    let Some((number, rest)) = split_once(text, between) else {
        return None;
    };
    if rest.len() < 40 {
        return None;
    }
    let (digits, behind) = rest.split_at(40);
    let Some(kept) = number_of(number) else {
        return None;
    };
    let Some(digest) = Digest::read(digits) else {
        return None;
    };
    Some((Receipt { kept, digest }, behind))
}

/// Puts a number and a digest after the bytes of a text, with this byte between them.
#[tactic(auto, unfolding(crate::specs::Receipt::counted_text))]
pub(crate) fn push_counted<const ROOM: usize>(
    text: &mut ArrayVec<u8, ROOM>,
    receipt: Receipt,
    between: u8,
)
    requires { length text.old.items + 61 ≤ ROOM }
    ensures counted { text.new.items ≡ text.old.items ++ counted_text between receipt }
    ensures few { length text.new.items ≤ length text.old.items + 61 }
{
    push_number(text, receipt.kept);
    push(text, &[between]);
    push(text, receipt.digest.text().as_slice());
}
