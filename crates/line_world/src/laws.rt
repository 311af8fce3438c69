//! What holds of every run.
ghost use Rattle.line_world.specs.AnyLines.{OverFaithfulLines};
ghost use Rattle.line_world.specs.CleanLine.{CleanLineIsEnough};
ghost use Rattle.line_world.specs.Fairness.{FairLineIsEnough};
ghost use Rattle.line_world.specs.Headline.{AreHandedInOrder, AreHandedWhole, HandsFirstJobs, OfHistories, OfRuns};
ghost use Rattle.line_world.specs.Plan.{NextIsPlanned};
ghost use Rattle.line_world.specs.Run.{NoDamageNoConversation, BadCutNoConversation};
ghost use Rattle.line_world.specs.Turns.{SendingTurns, ReceivingTurns};

use bsc_frame::one_hearing;
use rje_station::{blocks_are_joined, counted_blocks_end_counted_jobs};
use rje_text::cut_reads_back;

/// The bridge to the stations. The plan of blocks says what follows each of them; one turn in which a sending station speaks and hears is
/// one turn of the history, and so is one hearing of a receiving station where a block that it hears is the next one that the sender
/// doesn't know to be received.
pub fn stations_keep_history()
    ensures planned { NextIsPlanned }
    ensures sending { SendingTurns }
    ensures receiving { ReceivingTurns }
{
    counted_blocks_end_counted_jobs();
    blocks_are_joined();
}

/// Where a looked-at fate of a schedule breaks its rule, there is no conversation with the same refusals: so no run over it that meets
/// these is Ok.
pub fn broken_schedules_have_no_conversation()
    ensures damage { NoDamageNoConversation }
    ensures cuts { BadCutNoConversation }
{
    one_hearing();
}

/// On a clean line, a schedule of good turns alone that has one more than there are blocks, a run without a refusal counts every job and
/// delivers just the jobs.
pub fn clean_line_is_enough()
    ensures enough { CleanLineIsEnough }
{
    cut_reads_back();
}

/// On a fair line seven turns for the bid and seven for each block are enough: where each eight neighbouring turns hold two neighbouring
/// good ones, the receiver wishes nothing and the sender never waits, a run without a refusal counts every job and delivers just the
/// jobs.
pub fn fair_line_is_enough()
    ensures enough { FairLineIsEnough }
{
    cut_reads_back();
}

/// The headline, of every history of the law of agreement, whatever counts for giving up.
pub fn histories_keep_order()
    ensures in_order { OfHistories (λ counted given handed. AreHandedInOrder given handed) }
    ensures counted_whole { OfHistories AreHandedWhole }
    ensures first_jobs { OfHistories HandsFirstJobs }
{
    cut_reads_back();
}

/// The headline. Whatever the line loses or damages, the records that a run of jobs delivers are a prefix of those given, in order and
/// each once, and every job that counts as sent was delivered whole. More exactly: the first jobs are delivered as they were given, as
/// many as are counted or one more, and after them nothing, or a beginning of the next one that isn't whole.
pub fn runs_keep_order()
    ensures in_order { OfRuns (λ counted given handed. AreHandedInOrder given handed) }
    ensures counted_whole { OfRuns AreHandedWhole }
    ensures first_jobs { OfRuns HandsFirstJobs }
{
    cut_reads_back();
}

/// The headline, over lines of any kind. Where two new stations take the same turns, and in each of them the line brings what was said and
/// replied, or nothing, or damage that passes for no block, no EOT and no control sequence, what the receiving station delivers is a
/// prefix of the jobs that the sending one was given, and every job that it counts was delivered whole.
pub fn faithful_lines_keep_order()
    ensures in_order { OverFaithfulLines (λ counted given handed. AreHandedInOrder given handed) }
    ensures counted_whole { OverFaithfulLines AreHandedWhole }
    ensures first_jobs { OverFaithfulLines HandsFirstJobs }
{
    stations_keep_history();
    histories_keep_order();
}
