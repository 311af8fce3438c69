//! What holds of every such day.
ghost use Rattle.settle_world.specs.Connections.{BringsEachOnce, KeepsEachOnce, SettlesDoubt};
ghost use Rattle.settle_world.specs.Settling.{KnowsWhatWasKept, SettlesWhatWasKept};

use rje_settle::{receipts_count_what_is_kept, receipts_tell_what_came};

/// What is settled as sent was kept, whatever the line did: each job that is settled as sent is the
/// one of its number among those that the other end kept, whole and as it was given; and what the
/// other end is known to have kept are just the first jobs that it kept.
pub fn what_is_settled_was_kept()
    ensures settled { SettlesWhatWasKept }
    ensures known { KnowsWhatWasKept }
{
    receipts_count_what_is_kept();
    receipts_tell_what_came();
}

/// Where a receipt is a transmission of its own, and once one is said nothing comes any more that was
/// sent before: once a receipt agrees no job is in doubt. Each job that was promised is settled as
/// sent or ready again; what the other end has kept since it was begun to count are just those that
/// are settled, in order, and no job that was put out is settled twice. So each that it has kept since
/// was put out, and is kept once.
pub fn receipts_settle_doubt()
    ensures doubt { SettlesDoubt }
    ensures once { BringsEachOnce }
    ensures kept_once { KeepsEachOnce }
{
    receipts_count_what_is_kept();
    receipts_tell_what_came();
}
