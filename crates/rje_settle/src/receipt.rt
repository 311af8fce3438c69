//! What an end says that it has kept.
ghost use Rattle.std.specs.Prelude.{◌≡◌, ◌↔◌, ◌≤◌, ◌-◌, ◌++◌, length, replicate, IfSome, IsNone, MatchOption};
ghost use Rattle.rje_settle.specs.declared.receipt.Receipt.{Receipt as Said};
ghost use Rattle.rje_settle.specs.Receipt.{CanBeSaid, IsReceiptCard, counted_with, no_receipt, receipt_words};

use crate::counted::{push_counted, read_counted};
use crate::number::push;
use crate::{Digest, JobDigest};
use arrayvec::ArrayVec;

/// The columns of a card.
const COLUMNS: usize = 80;

/// How a receipt begins.
const WORDS: &[u8] = b"RJE/SETTLE 1 KEPT ";

/// What an end says that it has kept of the other end's jobs: how many ever, and their digest.
#[derive(Clone, Copy, Debug, PartialEq, Eq)]
pub struct Receipt {
    /// How many.
    pub kept: u64,
    /// The digest of all of them.
    pub digest: Digest,
}

impl Receipt {
    /// The receipt of no jobs.
    pub fn of_none() -> Self
        ensures { result ≡ no_receipt }
    {
        Receipt {
            kept: 0,
            digest: Digest::of_none(),
        }
    }

    /// The receipt of these jobs and one more; `None` if they are as many as can be counted.
    pub fn with(self, job: JobDigest) -> Option<Self>
        ensures full { IsNone result ↔ (self.kept ≡ u64.MAX) }
        ensures one_more { IfSome result (λ r. r ≡ counted_with self job.bytes) }
    {
        Some(Receipt {
            kept: self.kept.checked_add(1)?,
            digest: self.digest.with(job),
        })
    }
    /// Its card, in ASCII.
    pub fn card(self) -> [u8; 80]
        ensures { IsReceiptCard result self }
    {
        filled(self.words().as_slice())
    }

    /// The receipt that a card is, in ASCII; `None` if it is none.
    pub fn read(card: &[u8]) -> Option<Self>
        ensures { MatchOption result ((r : Said) → CanBeSaid r → ¬ (IsReceiptCard card.now r))
            (λ r. IsReceiptCard card.now r × CanBeSaid r) }
    {
        let Some(rest) = card.strip_prefix(WORDS) else {
            return None;
        };
        let Some((receipt, _)) = read_counted(rest, b' ') else {
            return None;
        };
        if receipt.card().as_slice() == card {
            Some(receipt)
        } else {
            None
        }
    }

    /// The words of its card.
    #[tactic(auto, unfolding(crate::specs::Receipt::receipt_words))]
    fn words(self) -> ArrayVec<u8, COLUMNS>
        ensures words { result.items ≡ receipt_words self }
        ensures few { length result.items ≤ 79 }
    {
        let mut words = ArrayVec::new();
        push(&mut words, WORDS);
        push_counted(&mut words, self, b' ');
        words
    }
}

/// A card with these words.
fn filled(words: &[u8]) -> [u8; 80]
    requires { length words.now ≤ 80 }
    ensures { result ≡ words.now ++ replicate (80 - length words.now) 0x20 }
{
    let mut card = [b' '; COLUMNS];
    card[..words.len()].copy_from_slice(words);
    card
}
