//! The account of what was sent.
ghost use Rattle.std.specs.Prelude.{◌≡◌, ◌≢◌, ◌↔◌, ◌∷◌, ◌++◌, [], ◌+◌, ℕ, List, take, Some, None, Err, OnErr, OnOk, OnSome, slice_get, IfErr, IfNone, IfOk, IfSome, IsNone};
ghost use Rattle.sha2.specs.Sha256.{sha256};
ghost use Rattle.rje_settle.specs.declared.receipt.Receipt.{Receipt as Said};
ghost use Rattle.rje_settle.specs.Digest.{JobFile};
ghost use Rattle.rje_settle.specs.Receipt.{IsReceiptOf, counted_with};
ghost use Rattle.rje_settle.specs.Sending.{IsAccountOf, IsFound, after_receipt, all_said_of, may_be_said, promised_with};

use crate::{JobDigest, JobPlace, Promise, PromiseFault, Receipt, Verdict};
use std::alloc::Global;
use std::marker::Model;

/// The account of an end that sends: what the other end is known to have kept, and what was
/// promised since, which a receipt settles.
#[derive(Debug, Drop)]
pub struct SendingAccount {
    known: Option<Receipt>,
    promises: Vec<Promise>,
}

impl Model for SendingAccount {
    ghost use Rattle.rje_settle.specs.Sending.{IsKeptInOrder, Sending};

    ghost Value = { Sending };

    ghost view = { λ a. record { known = a.known; promises = a.promises.items } };

    ghost invariant = { λ a. IsKeptInOrder a.known a.promises.items };
}

impl SendingAccount {
    /// An account of which this stood on disk, without its promises; none, if it isn't known what
    /// the other end has kept.
    pub fn new(alloc: Global, known: Option<Receipt>) -> Self
        ensures known { result.known ≡ known }
        ensures none { result.promises ≡ [] }
    {
        SendingAccount {
            known,
            promises: Vec::new(alloc),
        }
    }

    /// What the other end is known to have kept.
    pub fn known(&self) -> Option<Receipt>
        ensures { result ≡ self.now.known }
    {
        self.known
    }

    /// What is promised, the first of it first.
    pub fn promises(&self) -> &[Promise]
        ensures { result.now ≡ self.now.promises }
    {
        self.promises.as_slice()
    }

    /// What the other end says once all that is promised came; none, if nothing is known.
    pub fn all_said(&self) -> Option<Receipt>
        ensures { result ≡ all_said_of self.now }
    {
        let Some(promise) = self.promises.last() else {
            return self.known;
        };
        Some(promise.receipt)
    }

    /// A job is promised, before its last block is said. What the other end says once it has kept
    /// it; on a fault nothing changes, and the job must not be sent.
    pub fn promise(&mut self, job: JobDigest, place: JobPlace) -> Result<Receipt, PromiseFault>
        ensures nothing_known { (result ≡ Err PromiseFault.NothingKnown) ↔ (self.old.known ≡ None) }
        ensures full { (result ≡ Err PromiseFault.CountFull)
            ↔ ((all : Said) × (all_said_of self.old ≡ Some all) × (all.kept ≡ u64.MAX)) }
        ensures in_order { result ≢ Err PromiseFault.OutOfOrder }
        ensures refused { OnErr result (self.new ≡ self.old) }
        ensures next { IfOk result (λ r. (all : Said)
            × (all_said_of self.old ≡ Some all) × (r ≡ counted_with all job.bytes)) }
        ensures promised { IfOk result (λ r.
            self.new ≡ promised_with self.old (record { receipt = r; place = place })) }
        ensures all { (files : List JobFile) (file : JobFile)
            → IsAccountOf self.old files → job.bytes ≡ sha256 file
            → OnOk result (IsAccountOf self.new (files ++ file ∷ [])) }
    {
        let Some(all) = self.all_said() else {
            return Err(PromiseFault::NothingKnown);
        };
        let Some(receipt) = all.with(job) else {
            return Err(PromiseFault::CountFull);
        };
        match self.push(Promise { receipt, place }) {
            Ok(()) => Ok(receipt),
            Err(fault) => Err(fault),
        }
    }

    /// A promise that stood on disk is promised again: the next one after those that are. On a
    /// fault nothing changes.
    pub fn restore(&mut self, promise: Promise) -> Result<(), PromiseFault>
        ensures nothing_known { (result ≡ Err PromiseFault.NothingKnown) ↔ (self.old.known ≡ None) }
        ensures out_of_order { (result ≡ Err PromiseFault.OutOfOrder)
            ↔ ((all : Said)
            × (all_said_of self.old ≡ Some all) × (promise.receipt.kept ≢ all.kept + 1)) }
        ensures not_full { result ≢ Err PromiseFault.CountFull }
        ensures refused { OnErr result (self.new ≡ self.old) }
        ensures promised { OnOk result (self.new ≡ promised_with self.old promise) }
    {
        let Some(all) = self.all_said() else {
            return Err(PromiseFault::NothingKnown);
        };
        if all.kept.checked_add(1) != Some(promise.receipt.kept) {
            return Err(PromiseFault::OutOfOrder);
        }
        self.push(promise)
    }

    /// A promise is put after those that are.
    fn push(&mut self, promise: Promise) -> Result<(), PromiseFault>
        requires { (all : Said)
            × (all_said_of self.old ≡ Some all) × (promise.receipt.kept ≡ all.kept + 1) }
        ensures promised { OnOk result (self.new ≡ promised_with self.old promise) }
        ensures refused { OnErr result (self.new ≡ self.old) }
        ensures no_memory { IfErr result (λ e. e ≡ PromiseFault.OutOfMemory) }
    {
        match self.promises.push(promise) {
            Ok(()) => Ok(()),
            Err(_) => Err(PromiseFault::OutOfMemory),
        }
    }

    /// The last promise is taken back, since the last block of its job was never said; none, if
    /// nothing is promised.
    pub fn take_back(&mut self) -> Option<Promise>
        ensures none { IsNone result ↔ (self.old.promises ≡ []) }
        ensures unchanged { IfNone result (self.new ≡ self.old) }
        ensures known { self.new.known ≡ self.old.known }
        ensures last { IfSome result (λ p. self.old ≡ promised_with self.new p) }
        ensures all { (files : List JobFile) (file : JobFile)
            → IsAccountOf self.old (files ++ file ∷ [])
            → OnSome result (IsAccountOf self.new files) }
    {
        self.promises.pop()
    }

    /// What a receipt comes to, while nothing changes yet.
    pub fn verdict(&self, receipt: Receipt) -> Verdict
        ensures { IsFound self.now receipt result }
    {
        let Some(known) = self.known else {
            return Verdict::BeginsToCount;
        };
        let Some(came) = receipt.kept.checked_sub(known.kept) else {
            return Verdict::DoesNotAgree;
        };
        let came = came as usize;
        if self.said_once(known, came) == Some(receipt) {
            Verdict::Agrees { came }
        } else {
            Verdict::DoesNotAgree
        }
    }

    /// What the other end says once so many of the promised jobs came, where it is known to have
    /// kept this; none, if fewer are promised.
    fn said_once(&self, known: Receipt, came: usize) -> Option<Receipt>
        ensures { result ≡ slice_get (may_be_said known self.now.promises) came }
    {
        let Some(last) = came.checked_sub(1) else {
            return Some(known);
        };
        Some(self.promises.get(last)?.receipt)
    }

    /// A receipt came, and each promise was dealt with as it says: it is what is known from now on,
    /// and nothing is promised any more; where it doesn't agree nothing changes.
    pub fn receive(&mut self, receipt: Receipt) -> Verdict
        ensures found { IsFound self.old receipt result }
        ensures after { self.new ≡ after_receipt self.old receipt result }
        ensures begins { (files : List JobFile) → result ≡ Verdict.BeginsToCount
            → IsReceiptOf receipt files → IsAccountOf self.new files }
        ensures agrees { (files : List JobFile) (came : ℕ) (known : Said)
            → result ≡ Verdict.Agrees came → self.old.known ≡ Some known
            → IsAccountOf self.old files → IsAccountOf self.new (take (known.kept + came) files) }
    {
        let verdict = self.verdict(receipt);
        if verdict != Verdict::DoesNotAgree {
            self.known = Some(receipt);
            self.promises.clear();
        }
        verdict
    }
}
