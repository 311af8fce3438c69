//! What holds of every run of two stations that both have jobs.
ghost use Rattle.line_world.specs.Headline.{AreHandedInOrder, AreHandedWhole, HandsFirstJobs};
ghost use Rattle.pair_world.specs.OneWay.{WithoutDownJobs};
ghost use Rattle.pair_world.specs.PairHeadline.{OfPairRuns};
ghost use Rattle.pair_world.specs.PairRun.{NoDamageNoPair, BadCutNoPair};

use bsc_frame::one_hearing;
use line_world::histories_keep_order;

/// Where a looked-at fate of a schedule of two stations that both have jobs breaks its rule, there is no conversation of the pair with
/// the same refusals: so no run over it that meets these is Ok.
pub fn broken_schedules_have_no_pair_conversation()
    ensures damage { NoDamageNoPair }
    ensures cuts { BadCutNoPair }
{
    one_hearing();
}

/// The headline, each way of two stations that both have jobs. Whatever the line loses or damages, the records of each station's jobs
/// that a run of the pair delivers are a prefix of those given, in order and each once, and every job that counts as sent was delivered
/// whole.
pub fn pair_runs_keep_order()
    ensures in_order { OfPairRuns (λ counted given handed. AreHandedInOrder given handed) }
    ensures counted_whole { OfPairRuns AreHandedWhole }
    ensures first_jobs { OfPairRuns HandsFirstJobs }
{
    histories_keep_order();
}

/// Where the secondary has no jobs, what a run of a pair reports of the primary's is what a run of them over the same turns reports, and of
/// the secondary nothing is told.
pub fn one_way_is_a_run()
    ensures { WithoutDownJobs }
{}
