//! The run of two stations that both have jobs over a schedule of losses and damage.
ghost use Rattle.std.specs.Prelude.{◌≡◌, false, IfOk, OnOk, IfErr};
ghost use Rattle.std.specs.List.{AllByRecursion};
ghost use Rattle.bsc_link.specs.declared.rank.Rank.TheVariants as rank;
ghost use Rattle.rje_jobs.specs.Fitting.{JobFits};
ghost use Rattle.rje_station.specs.Sending.{outcome_of};
ghost use Rattle.rje_station.specs.Station.{first_contending};
ghost use Rattle.line_world.specs.Headline.{AreHandedInOrder, AreHandedWhole, HandsFirstJobs};
ghost use Rattle.pair_world.specs.PairDrive.{IsPairDrive};
ghost use Rattle.pair_world.specs.PairRun.{IsPairRun, told, told_by, IsPairDriveFault, IsPairRunFault};

use crate::pair_ends::PairEnds;
use crate::{PairReport, PairTurn, Paired, Side, pair_runs_keep_order};
use bsc_frame::{every_hearing, one_hearing, written_is_transmission};
use bsc_link::Rank;
use line_world::{WorldFault, stations_keep_history};
use rje_jobs::{Job, Jobs};
use rje_station::{Station, counted_blocks_end_counted_jobs, first_unfit, trace_goes_on};
use std::alloc::{AllocError, Global};

/// Two transmissions on one line over a schedule: the primary's jobs go up, and the secondary's down.
pub fn run_pair(
    alloc: Global,
    up: &[Job],
    down: &[Job],
    turns: &[PairTurn],
) -> Result<PairReport, WorldFault>
    ensures run { IfOk result (λ report.
        IsPairRun up.now down.now turns.now report.turns.items (told report.up)
        (told report.down)) }
    ensures fit { OnOk result (AllByRecursion JobFits up.now × AllByRecursion JobFits down.now) }

    // The headline, each way: records in order and each once, ..
    ensures up_in_order { IfOk result (λ report. AreHandedInOrder up.now report.up.handed) }
    ensures down_in_order { IfOk result (λ report. AreHandedInOrder down.now report.down.handed) }

    // .. every counted job whole, ..
    ensures up_counted_whole { IfOk result
        (λ report. AreHandedWhole report.up.counted up.now report.up.handed) }
    ensures down_counted_whole { IfOk result
        (λ report. AreHandedWhole report.down.counted down.now report.down.handed) }

    // .. and more exactly, the first jobs and a beginning of the next.
    ensures up_first_jobs { IfOk result
        (λ report. HandsFirstJobs report.up.counted up.now report.up.handed) }
    ensures down_first_jobs { IfOk result
        (λ report. HandsFirstJobs report.down.counted down.now report.down.handed) }

    // A job that can't be sent is told before any turn, and else the first turn of which a looked-at fate breaks a rule. Want of memory is
    // told of jobs that can be sent.
    ensures fault { IfErr result (IsPairRunFault up.now down.now turns.now) }
{
    if let Some(number) = first_unfit(up) {
        return Err(WorldFault::BadJob(number));
    }
    if let Some(number) = first_unfit(down) {
        return Err(WorldFault::BadJob(up.len() + number));
    }
    let primary = Station::new(alloc, Rank::Primary, up)?;
    let secondary = Station::new(alloc, Rank::Secondary, down)?;
    let Paired {
        turns,
        primary,
        secondary,
    } = drive_pair(alloc, primary, secondary, turns)?;
    let up_counted = primary.sender().counted();
    let up_outcome = primary.sender().outcome();
    let down_counted = secondary.sender().counted();
    let down_outcome = secondary.sender().outcome();
    Ok(PairReport {
        turns,
        up: Side {
            handed: Jobs::from(secondary.take()),
            counted: up_counted,
            outcome: up_outcome,
        },
        down: Side {
            handed: Jobs::from(primary.take()),
            counted: down_counted,
            outcome: down_outcome,
        },
    })
}

/// What `run_pair` does, between two stations that have done nothing yet; they are given back as the turns leave them.
pub fn drive_pair<'a>(
    alloc: Global,
    primary: Station<'a>,
    secondary: Station<'a>,
    turns: &[PairTurn],
) -> Result<Paired<'a>, WorldFault>
    requires primary { primary ≡ first_contending rank.Primary primary.sender.jobs }
    requires secondary { secondary ≡ first_contending rank.Secondary secondary.sender.jobs }
    ensures run { IfOk result (λ p. IsPairRun primary.entry.sender.jobs secondary.entry.sender.jobs
        turns.now p.turns.items (told_by p.secondary p.primary) (told_by p.primary p.secondary)) }

    // Both stations stand where the turns left them.
    ensures drive { IfOk result (λ p. IsPairDrive primary.entry.sender.jobs
        secondary.entry.sender.jobs turns.now p.turns.items p.primary p.secondary) }

    // The headline, each way, of the stations that are given back.
    ensures up_in_order { IfOk result (λ p.
        AreHandedInOrder primary.entry.sender.jobs p.secondary.receiver.jobs) }
    ensures down_in_order { IfOk result
        (λ p. AreHandedInOrder secondary.entry.sender.jobs p.primary.receiver.jobs) }
    ensures up_counted_whole { IfOk result
        (λ p. AreHandedWhole p.primary.sender.counted primary.entry.sender.jobs
        p.secondary.receiver.jobs) }
    ensures down_counted_whole { IfOk result
        (λ p. AreHandedWhole p.secondary.sender.counted secondary.entry.sender.jobs
        p.primary.receiver.jobs) }
    ensures up_first_jobs { IfOk result
        (λ p. HandsFirstJobs p.primary.sender.counted primary.entry.sender.jobs
        p.secondary.receiver.jobs) }
    ensures down_first_jobs { IfOk result
        (λ p. HandsFirstJobs p.secondary.sender.counted secondary.entry.sender.jobs
        p.primary.receiver.jobs) }
    ensures fault { IfErr result (IsPairDriveFault primary.entry.sender.jobs
        secondary.entry.sender.jobs turns.now) }
{
    pair_runs_keep_order();
    let _up_jobs_fit = primary.sender().jobs();
    let _down_jobs_fit = secondary.sender().jobs();
    take_turns(alloc, primary, secondary, turns)
}

/// The turns of a schedule, one after another, until it ends or nothing is due at either.
fn take_turns<'a>(
    alloc: Global,
    primary: Station<'a>,
    secondary: Station<'a>,
    turns: &[PairTurn],
) -> Result<Paired<'a>, WorldFault>
    requires primary { primary ≡ first_contending rank.Primary primary.sender.jobs }
    requires secondary { secondary ≡ first_contending rank.Secondary secondary.sender.jobs }
    ensures run { IfOk result (λ p. IsPairRun primary.entry.sender.jobs secondary.entry.sender.jobs
        turns.now p.turns.items (told_by p.secondary p.primary) (told_by p.primary p.secondary)) }
    ensures drive { IfOk result (λ p. IsPairDrive primary.entry.sender.jobs
        secondary.entry.sender.jobs turns.now p.turns.items p.primary p.secondary) }
    ensures fault { IfErr result (IsPairDriveFault primary.entry.sender.jobs
        secondary.entry.sender.jobs turns.now) }
{
    one_hearing();
    every_hearing();
    written_is_transmission();
    counted_blocks_end_counted_jobs();
    stations_keep_history();
    trace_goes_on();
    let mut ends = PairEnds::new(alloc, primary, secondary);
    let mut spoken = Vec::new(alloc);
    for turn in turns {
        match ends.take_turn(alloc, turn) {
            Ok(Some(one)) => {
                if let Err(refused) = spoken.push(one) {
                    return Err(AllocError::from(refused).into());
                }
            }
            Ok(None) => return Ok(ends.paired(spoken)),
            Err(fault) => return Err(fault.at(spoken.len() + 1)),
        }
    }
    Ok(ends.paired(spoken))
}
