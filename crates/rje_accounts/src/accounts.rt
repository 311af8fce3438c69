//! What the names in settle/ come to.
ghost use Rattle.std.specs.Prelude.{◌≡◌, ◌≢◌, ◌↔◌, true, false, ◌∷◌, ◌++◌, [], List, IfOk, IfErr, IsTrue, MatchOption};
ghost use Rattle.rje_settle.specs.declared.receipt.Receipt.{Receipt as Said};
ghost use Rattle.rje_settle.specs.declared.settle_name.SettleName.{SettleName as Named};
ghost use Rattle.rje_accounts.specs.Accounts.{AreAccounts, HasTwo, IsHighest, IsMost, IsOver};
ghost use Rattle.rje_accounts.specs.Names.{AreSorted};

use crate::accounts_fault::AccountsFault;
use crate::settle_names::SettleNames;
use rje_settle::{Promise, PromiseFault, Receipt, ReceivingAccount, SendingAccount};
use std::alloc::Global;

/// What a station's accounts on disk are.
#[derive(Debug, Drop)]
pub struct Accounts {
    /// What the other end is known to have kept; none, if that isn't known.
    pub sent: Option<Receipt>,
    /// What was kept of the other end's jobs.
    pub kept: Receipt,
    /// What is promised, in the order of its numbers.
    pub promises: Vec<Promise>,
    /// The numbers of the jobs that came and have no name in in/ yet, in order.
    pub come: Vec<u64>,
    /// How many names in the folder are none of these: they are left alone.
    pub others: usize,
}

impl Accounts {
    /// What these names come to. Two of one number, where two names of the highest number tell it of other jobs.
    pub(crate) fn of_names(names: SettleNames) -> Result<Accounts, AccountsFault>
        ensures accounts { (all : List Named) → AreSorted all names
            → IfOk result (AreAccounts all) }
        ensures others { IfOk result (λ accounts. accounts.others ≡ names.others) }
    {
        let sent = highest(names.sent.as_slice())?;
        let kept = highest(names.kept.as_slice())?;
        let mut promises = names.promises;
        promises.sort_by_key(|promise| promise.receipt.kept)?;
        let mut come = names.come;
        come.sort()?;
        Ok(Accounts {
            sent,
            kept: kept.unwrap_or(Receipt::of_none()),
            promises,
            come,
            others: names.others,
        })
    }

    /// The account of what was sent. Out of order where a promise is missing before another one that no receipt has had.
    pub fn sending(&self, alloc: Global) -> Result<SendingAccount, PromiseFault>
        ensures { IfOk result (λ account. account.known ≡ self.now.sent) }
    {
        let mut account = SendingAccount::new(alloc, self.sent);
        for promise in &self.promises {
            if !self.is_over(*promise) {
                account.restore(*promise)?;
            }
        }
        Ok(account)
    }

    /// The account of what was kept.
    pub fn receiving(&self) -> ReceivingAccount
        ensures { result ≡ self.now.kept }
    {
        ReceivingAccount::new(self.kept)
    }

    /// Whether a promise is over, since its job is among those that are known to have been kept.
    pub fn is_over(&self, promise: Promise) -> bool
        ensures { IsTrue result ↔ IsOver self.now.sent promise.receipt }
    {
        match self.sent {
            Some(known) => promise.receipt.kept <= known.kept,
            None => false,
        }
    }
}

/// Of these counts the highest; none, if there are none. Two of one number, where another one is as high, and of other jobs.
fn highest(counts: &[Receipt]) -> Result<Option<Receipt>, AccountsFault>
    ensures highest { IfOk result (IsHighest counts.now) }
    ensures two { IfErr result (λ fault.
        (fault ≡ AccountsFault.TwoOfOneNumber) × HasTwo counts.now) }
{
    let Some(highest) = most(counts) else {
        return Ok(None);
    };
    for count in counts {
        if is_another(*count, highest) {
            return Err(AccountsFault::TwoOfOneNumber);
        }
    }
    Ok(Some(highest))
}

/// Whether two counts are of one number, and not the same.
fn is_another(count: Receipt, highest: Receipt) -> bool
    ensures another { result ≡ true → (count.kept ≡ highest.kept) × (count ≢ highest) }
    ensures same { result ≡ false → count.kept ≡ highest.kept → count ≡ highest }
{
    count.kept == highest.kept && count != highest
}

/// One of these counts, which none is above; none, if there are none.
fn most(counts: &[Receipt]) -> Option<Receipt>
    ensures { MatchOption result (counts.now ≡ []) (IsMost counts.now) }
{
    let mut most = None;
    for count in counts {
        most = Some(higher(most, *count));
    }
    most
}

/// The higher of two counts.
fn higher(one: Option<Receipt>, other: Receipt) -> Receipt
    ensures { (before : List Said) → MatchOption one (before ≡ []) (IsMost before)
        → IsMost (before ++ other ∷ []) result }
{
    match one {
        None => other,
        Some(one) if other.kept <= one.kept => one,
        Some(_) => other,
    }
}
