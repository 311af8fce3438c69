//! The run of jobs over a schedule of losses and damage.
ghost use Rattle.std.specs.Prelude.{◌≡◌, ◌≤◌, ◌+◌, false, length, IfOk, OnOk, IfErr};
ghost use Rattle.std.specs.List.{AllByRecursion};
ghost use Rattle.rje_jobs.specs.Blocks.{blocks};
ghost use Rattle.rje_jobs.specs.Fitting.{JobFits};
ghost use Rattle.rje_station.specs.Receiving.{first_receiving};
ghost use Rattle.rje_station.specs.Sending.{first_sending, outcome_of};
ghost use Rattle.line_world.specs.Drive.{IsDrive};
ghost use Rattle.line_world.specs.GoodTurn.{IsGood};
ghost use Rattle.line_world.specs.Fairness.{IsFair, turns_for};
ghost use Rattle.line_world.specs.Headline.{AreHandedInOrder, AreHandedWhole, HandsFirstJobs};
ghost use Rattle.line_world.specs.Run.{IsRun, IsDriveFault, IsRunFault};

use crate::ends::Ends;
use crate::{
    Driven, Report, Turn, WorldFault, clean_line_is_enough, fair_line_is_enough, runs_keep_order,
    stations_keep_history,
};
use bsc_frame::{every_hearing, one_hearing, written_is_transmission};
use rje_jobs::{Job, Jobs};
use rje_station::{ReceivingStation, SendingStation, trace_goes_on};
use std::alloc::{AllocError, Global};

/// One transmission of these jobs over a schedule: two new stations in conversation, over lines that do to their bytes what the turns say.
pub fn run(alloc: Global, jobs: &[Job], turns: &[Turn]) -> Result<Report, WorldFault>
    ensures run { IfOk result (λ report.
        IsRun jobs.now turns.now report.turns.items report.handed report.counted report.outcome) }
    ensures fit { OnOk result (AllByRecursion JobFits jobs.now) }

    // The headline. Whatever the line loses or damages, the records delivered are a prefix of those given, in order and each once, ..
    ensures in_order { IfOk result (λ report. AreHandedInOrder jobs.now report.handed) }

    // .. and every job that counts as sent was delivered whole.
    ensures counted_whole { IfOk result
        (λ report. AreHandedWhole report.counted jobs.now report.handed) }

    // More exactly: the first jobs as they were given, as many as are counted or one more, and then nothing, or a beginning of the next.
    ensures first_jobs { IfOk result (λ report.
        HandsFirstJobs report.counted jobs.now report.handed) }

    // On a fair line of seven turns for the bid and seven for each block, where no turn is refused, every job is counted and delivered.
    ensures fair { IfOk result (λ report. IsFair turns.now → turns_for jobs.now ≤ length turns.now
        → AllByRecursion (λ t. t.refused ≡ false) report.turns.items
        → (report.counted ≡ length jobs.now) × (report.handed ≡ jobs.now)) }

    // So it is on a clean line of good turns alone, of which there is one more than there are blocks.
    ensures clean { IfOk result (λ report. AllByRecursion IsGood turns.now
        → length (blocks jobs.now) + 1 ≤ length turns.now
        → AllByRecursion (λ t. t.refused ≡ false) report.turns.items
        → (report.counted ≡ length jobs.now) × (report.handed ≡ jobs.now)) }

    // A job that can't be sent is told before any turn, and else the first turn of which a looked-at fate breaks a rule.
    ensures fault { IfErr result (IsRunFault jobs.now turns.now) }
{
    let sender = SendingStation::new(alloc, jobs)?;
    let receiver = ReceivingStation::new(alloc)?;
    let Driven {
        turns,
        sender,
        receiver,
    } = drive(alloc, sender, receiver, turns)?;
    Ok(Report {
        turns,
        handed: Jobs::from(receiver.take()),
        counted: sender.counted(),
        outcome: sender.outcome(),
    })
}

/// What `run` does, between two stations that have done nothing yet; they are given back as the turns leave them.
pub fn drive<'a>(
    alloc: Global,
    sender: SendingStation<'a>,
    receiver: ReceivingStation,
    turns: &[Turn],
) -> Result<Driven<'a>, WorldFault>
    requires sender { sender ≡ first_sending sender.jobs }
    requires receiver { receiver ≡ first_receiving }
    ensures run { IfOk result (λ driven.
        IsRun sender.entry.jobs turns.now driven.turns.items driven.receiver.jobs
        driven.sender.counted (outcome_of driven.sender)) }
    ensures jobs { IfOk result (λ driven. driven.sender.jobs ≡ sender.entry.jobs) }

    // Both stations stand where the turns left them, and no reply is due.
    ensures drive { IfOk result (λ driven.
        IsDrive sender.entry.jobs turns.now driven.turns.items driven.sender driven.receiver) }

    // The headline, of the stations that are given back: records in order and each once, ..
    ensures in_order { IfOk result (λ driven.
        AreHandedInOrder sender.entry.jobs driven.receiver.jobs) }

    // .. every counted job whole, ..
    ensures counted_whole { IfOk result
        (λ driven. AreHandedWhole driven.sender.counted sender.entry.jobs driven.receiver.jobs) }

    // .. and more exactly, the first jobs and a beginning of the next.
    ensures first_jobs { IfOk result (λ driven.
        HandsFirstJobs driven.sender.counted sender.entry.jobs driven.receiver.jobs) }

    // On a fair line of seven turns for the bid and seven for each block, where no turn is refused, every job is counted and delivered; ..
    ensures fair { IfOk result (λ driven. IsFair turns.now → turns_for sender.entry.jobs
        ≤ length turns.now → AllByRecursion (λ t. t.refused ≡ false) driven.turns.items
        → (driven.sender.counted ≡ length sender.entry.jobs)
        × (driven.receiver.jobs ≡ sender.entry.jobs)) }

    // .. and so it is on a clean line of good turns alone, of which there is one more than there are blocks.
    ensures clean { IfOk result (λ driven. AllByRecursion IsGood turns.now
        → length (blocks sender.entry.jobs) + 1 ≤ length turns.now
        → AllByRecursion (λ t. t.refused ≡ false) driven.turns.items
        → (driven.sender.counted ≡ length sender.entry.jobs)
        × (driven.receiver.jobs ≡ sender.entry.jobs)) }
    ensures fault { IfErr result (IsDriveFault sender.entry.jobs turns.now) }
{
    runs_keep_order();
    fair_line_is_enough();
    clean_line_is_enough();
    let _jobs_that_fit = sender.jobs();
    take_turns(alloc, Ends::new(alloc, sender, receiver), turns)
}

/// The turns of a schedule, one after another, until it ends or the sender has nothing to say any more.
fn take_turns<'a>(
    alloc: Global,
    mut ends: Ends<'a>,
    turns: &[Turn],
) -> Result<Driven<'a>, WorldFault>
    requires sender { ends.sender ≡ first_sending ends.sender.jobs }
    requires receiver { ends.receiver ≡ first_receiving }
    ensures run { IfOk result (λ driven.
        IsRun ends.entry.sender.jobs turns.now driven.turns.items driven.receiver.jobs
        driven.sender.counted (outcome_of driven.sender)) }
    ensures drive { IfOk result (λ driven.
        IsDrive ends.entry.sender.jobs turns.now driven.turns.items driven.sender driven.receiver) }
    ensures jobs { IfOk result (λ driven. driven.sender.jobs ≡ ends.entry.sender.jobs) }
    ensures fault { IfErr result (IsDriveFault ends.entry.sender.jobs turns.now) }
{
    one_hearing();
    every_hearing();
    written_is_transmission();
    stations_keep_history();
    trace_goes_on();
    let mut spoken = Vec::new(alloc);
    for turn in turns {
        match ends.take_turn(alloc, turn) {
            Ok(Some(one)) => {
                if let Err(refused) = spoken.push(one) {
                    return Err(AllocError::from(refused).into());
                }
            }
            Ok(None) => return Ok(ends.driven(spoken)),
            Err(fault) => return Err(fault.at(spoken.len() + 1)),
        }
    }
    Ok(ends.driven(spoken))
}
