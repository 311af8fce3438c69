//! What holds of every transmission over a connection.
ghost use Rattle.connection_world.specs.BothWays.{OverExchanges};
ghost use Rattle.connection_world.specs.CrossingBids.{CrossingBidsComeThrough};
ghost use Rattle.connection_world.specs.Headline.{MayBeConnections, OverConnections, TakeFaithfulTurns};
ghost use Rattle.connection_world.specs.LastBlocks.{HandOutWhatWasSaid};
ghost use Rattle.connection_world.specs.LateBid.{LateBidComesThrough};
ghost use Rattle.line_world.specs.Headline.{AreHandedInOrder, AreHandedWhole, HandsFirstJobs};

use bsc_history::ends_agree;
use line_world::{faithful_lines_keep_order, histories_keep_order, stations_keep_history};
use rje_answers::answers_are_own;
use rje_station::counted_blocks_end_counted_jobs;
use rje_text::cut_reads_back;

/// Whatever comes late over a connection, and whatever it loses or damages: where each thing is answered with fewer than two hearings in
/// vain since it was said, or not at all, there are turns that both stations take, in each of which the line is faithful, and that leave
/// them where they stand.
#[tactic(auto, using(crate::proofs::Headline::take_faithful_turns))]
pub fn connections_are_faithful()
    ensures { TakeFaithfulTurns }
{
    answers_are_own();
}

/// And the other way round: whatever faithful turns do, a connection may do too, and it leaves both stations where they stand.
#[tactic(auto, using(crate::proofs::Possible::may_be_connections))]
pub fn faithful_turns_may_be_connections()
    ensures { MayBeConnections }
{
    ends_agree();
    counted_blocks_end_counted_jobs();
    stations_keep_history();
}

/// The headline, over a connection on which each answer that comes does so in time. What the receiving station delivers is a prefix of
/// the jobs that the sending one was given, and every job that it counts was delivered whole.
#[tactic(auto, using(crate::proofs::Headline::headlines))]
pub fn connections_keep_order()
    ensures in_order { OverConnections (λ counted given handed. AreHandedInOrder given handed) }
    ensures counted_whole { OverConnections AreHandedWhole }
    ensures first_jobs { OverConnections HandsFirstJobs }
{
    connections_are_faithful();
    faithful_lines_keep_order();
}

/// The headline over such a connection, each way of two stations that both have jobs. Whatever comes late, crosses, is lost or damaged:
/// what each station delivers is a prefix of the jobs that the other one was given, and every job that this one counts was delivered
/// whole.
#[tactic(auto, using(crate::proofs::Headline::both_headlines))]
pub fn exchanges_keep_order()
    ensures in_order { OverExchanges (λ counted given handed. AreHandedInOrder given handed) }
    ensures counted_whole { OverExchanges AreHandedWhole }
    ensures first_jobs { OverExchanges HandsFirstJobs }
{
    answers_are_own();
    ends_agree();
    counted_blocks_end_counted_jobs();
    stations_keep_history();
    histories_keep_order();
}

/// More exactly, to the job. Of the jobs of each station the other one delivers whole those that
/// are counted; or one more, the next one, and then the station has said that one's last block, with
/// as many jobs counted as now.
pub fn exchanges_hand_out_what_was_said()
    ensures last_said { HandOutWhatWasSaid }
{
    answers_are_own();
    ends_agree();
    counted_blocks_end_counted_jobs();
    stations_keep_history();
    cut_reads_back();
}

/// A worked example: the first bid comes late, when its sender has given it up, and the answer to it is lost; a job of one block comes all
/// the same, and is counted.
#[tactic(auto, using(crate::proofs::LateBid::late_bid_comes_through))]
pub fn late_bid_comes_through()
    ensures { LateBidComesThrough }
{}

/// A worked example of both ways: both ends bid at once, the primary passes over the other's bid, and the secondary yields; the
/// primary's job of one block comes, and the secondary is to bid again.
#[tactic(auto, using(crate::proofs::CrossingBids::crossing_bids_come_through))]
pub fn crossing_bids_come_through()
    ensures { CrossingBidsComeThrough }
{}
