//! Settles what is left of the jobs of a transmission.
ghost use Rattle.std.specs.Prelude.{◌≡◌, ◌≤◌, ◌⊎◌, ℕ, Some, OnOk, OnErr};
ghost use Rattle.rje_day.specs.Ended.{disposition_of};
ghost use Rattle.rje_session.specs.Account.{became, SettlesRest};

use crate::Spool;
use rje_day::Ended;

/// Settles the jobs of a transmission from the first of these on, by how it ended. Where that fails, each of them is settled so or not yet.
pub(crate) fn settle_rest<S: Spool>(
    ended: Ended,
    first: usize,
    last: usize,
    spool: &mut S,
) -> Result<(), S::Fault>
    requires order { first ≤ last }
    ensures settled { S.discloses → OnOk result (SettlesRest ended first last
        (S.ledger spool.old) (S.ledger spool.new)) }
    ensures failed { S.discloses → OnErr result ((job : ℕ)
        → (became (S.ledger spool.new) job ≡ became (S.ledger spool.old) job)
        ⊎ (became (S.ledger spool.new) job ≡ Some (disposition_of ended job))) }
{
    for job in first..last {
        spool.settle(job, ended.disposition(job))?;
    }
    Ok(())
}
