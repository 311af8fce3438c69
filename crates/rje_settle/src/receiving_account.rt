//! The account of what was kept.
ghost use Rattle.std.specs.Prelude.{◌≡◌, ◌↔◌, ◌∷◌, ◌++◌, [], List, IfNone, IsNone, OnSome, IfSome};
ghost use Rattle.sha2.specs.Sha256.{sha256};
ghost use Rattle.rje_settle.specs.Digest.{JobFile};
ghost use Rattle.rje_settle.specs.Receipt.{IsReceiptOf, counted_with};

use crate::{JobDigest, Receipt};
use std::marker::Model;

/// The account of an end that receives: how many of the other end's jobs it has kept ever, and
/// their digest. Contracts see its receipt.
#[derive(Debug, Drop)]
pub struct ReceivingAccount {
    receipt: Receipt,
}

impl Model for ReceivingAccount {
    ghost use Rattle.rje_settle.specs.declared.receipt.Receipt.{Receipt as Said};

    ghost Value = { Said };

    ghost view = { λ a. a.receipt };
}

impl ReceivingAccount {
    /// An account of which this stood on disk; of no jobs, `Receipt::of_none`.
    pub fn new(receipt: Receipt) -> Self
        ensures { result ≡ receipt }
    {
        ReceivingAccount { receipt }
    }

    /// What it says to the other end.
    pub fn receipt(&self) -> Receipt
        ensures { result ≡ self.now }
    {
        self.receipt
    }

    /// A job is kept. Its receipt from now on; `None`, and nothing changes, if no more can be
    /// counted: then the job must not be kept.
    pub fn keep(&mut self, job: JobDigest) -> Option<Receipt>
        ensures full { IsNone result ↔ (self.old.kept ≡ u64.MAX) }
        ensures refused { IfNone result (self.new ≡ self.old) }
        ensures kept { OnSome result (self.new ≡ counted_with self.old job.bytes) }
        ensures told { IfSome result (λ r. r ≡ self.new) }
        ensures counts { (files : List JobFile) (file : JobFile)
            → IsReceiptOf self.old files → job.bytes ≡ sha256 file
            → OnSome result (IsReceiptOf self.new (files ++ file ∷ [])) }
    {
        let next = self.receipt.with(job)?;
        self.receipt = next;
        Some(next)
    }
}
