//! The blocks that aren't counted yet.
ghost use Rattle.std.specs.Prelude.{◌≡◌, ◌≢◌, ◌⊎◌, ◌<◌, ◌==◌, [], length, drop, None};
ghost use Rattle.std.specs.List.{AllByRecursion};
ghost use Rattle.rje_jobs.specs.Blocks.{blocks};
ghost use Rattle.rje_jobs.specs.Fitting.{JobFits};
ghost use Rattle.rje_text.specs.PackFault.{pack_fault};
ghost use Rattle.rje_station.specs.Sending.{next_in, counted_by, first_length, GoesOnAt, IsFirstWritten};
ghost use Rattle.rje_station.specs.Inside.Uncounted.{rest_in, more_in, StandsAt, IsPlace, IsOutstanding, all_uncounted, after_count};

use crate::writing::{Transmission, write};
use bsc_codes::Closing;
use bsc_frame::Frame;
use bsc_link::Next;
use rje_jobs::Job;
use std::marker::Model;

/// The blocks of some jobs that aren't counted yet. It keeps the outstanding one, which is the first of them, and the place of the record
/// after it; each further block is made when it becomes outstanding.
#[derive(Drop)]
pub(crate) struct Uncounted<'a> {
    jobs: &'a [Job],
    // The jobs whose last block is counted: the outstanding block is one of the job after them.
    counted: usize,
    // The outstanding block; EOT where every block is counted.
    outstanding: Frame,
    // The record after the outstanding block.
    place: usize,
}

impl<'a> Model for Uncounted<'a> {
    ghost use Rattle.rje_station.specs.Inside.Uncounted.{Remaining, remaining_in, IsUncounted};

    ghost Value = { Remaining };

    ghost view = { remaining_in };

    ghost invariant = { IsUncounted };
}

impl<'a> Uncounted<'a> {
    /// All blocks of these jobs.
    pub(crate) fn new(jobs: &'a [Job]) -> Self
        requires fit { AllByRecursion JobFits jobs.now }
        ensures { result ≡ all_uncounted jobs.now }
    {
        let mut outstanding = Frame::Eot;
        let place = begin_job(jobs, 0, &mut outstanding);
        Uncounted {
            jobs,
            counted: 0,
            outstanding,
            place,
        }
    }

    /// All jobs, each of which can be sent.
    pub(crate) fn jobs(&self) -> &'a [Job]
        ensures jobs { result.now ≡ self.now.jobs }
        ensures fit { AllByRecursion JobFits self.now.jobs }
    {
        self.jobs
    }

    /// Whether there are no jobs at all.
    pub(crate) fn has_no_jobs(&self) -> bool
        ensures { result ≡ (length self.now.jobs == 0) }
    {
        self.jobs.is_empty()
    }

    /// The jobs whose last block is counted.
    pub(crate) fn counted(&self) -> usize
        ensures { result ≡ self.now.counted }
    {
        self.counted
    }

    /// What follows the outstanding block.
    pub(crate) fn next(&self) -> Next
        ensures { result ≡ next_in self.now.rest }
    {
        next_of(self.jobs, self.counted, &self.outstanding, self.place)
    }

    /// The bytes of the outstanding block's text; 0 where every block is counted.
    pub(crate) fn length(&self) -> usize
        ensures { result ≡ first_length self.now.rest }
    {
        match &self.outstanding {
            Frame::Block(block) => block.text.len(),
            _ => 0,
        }
    }

    /// The record after the outstanding block.
    pub(crate) fn place(&self) -> usize
        ensures { GoesOnAt self.now.rest (drop self.now.counted self.now.jobs) result }
    {
        self.place
    }

    /// Writes the transmission of the outstanding block.
    pub(crate) fn write(&self, out: &mut Transmission)
        requires { self.now.rest ≢ [] }
        ensures { IsFirstWritten self.now.rest out.new.items }
    {
        write(&self.outstanding, out);
    }

    /// Goes on to the next block, where the outstanding one was counted.
    pub(crate) fn count(&mut self, counted: bool)
        ensures { self.new ≡ after_count counted self.old }
    {
        if !counted {
            return;
        }
        if let Frame::Block(block) = &self.outstanding {
            let closing = block.closing;
            let (place, jobs) = after_block(
                self.jobs,
                self.counted,
                closing,
                self.place,
                &mut self.outstanding,
            );
            self.place = place;
            self.counted = jobs;
        }
    }
}

/// Makes the first block of a job outstanding, or EOT where there is no such job: the place after its last record.
fn begin_job(jobs: &[Job], at: usize, outstanding: &mut Frame) -> usize
    requires fit { AllByRecursion JobFits jobs.now }
    ensures rest { rest_in (drop at jobs.now) outstanding.new result ≡ blocks (drop at jobs.now) }
    ensures at { StandsAt (drop at jobs.now) outstanding.new result }
{
    if at < jobs.len() {
        put_block(&jobs[at], 0, outstanding)
    } else {
        *outstanding = Frame::Eot;
        0
    }
}

/// Makes outstanding what comes after a block that is counted: the place after its last record, and its job.
fn after_block(
    jobs: &[Job],
    at: usize,
    closing: Closing,
    place: usize,
    outstanding: &mut Frame,
) -> (usize, usize)
    requires fit { AllByRecursion JobFits jobs.now }
    requires within { IsPlace (drop at jobs.now) closing place }
    ensures rest { rest_in (drop result.1 jobs.now) outstanding.new result.0
        ≡ more_in (drop at jobs.now) closing place }
    ensures at { StandsAt (drop result.1 jobs.now) outstanding.new result.0 }
    ensures counted { result.1 ≡ counted_by closing at }
{
    match closing {
        Closing::Etx => (begin_job(jobs, at + 1, outstanding), at + 1),
        Closing::Etb => (put_block(&jobs[at], place, outstanding), at),
    }
}

/// Makes outstanding the block of a job that begins at a record: the place after its last record. A block that was outstanding gives it its
/// room.
fn put_block(job: &Job, from: usize, outstanding: &mut Frame) -> usize
    requires sent { AllByRecursion (λ r. pack_fault job.now.select job.now.mode r ≡ None)
        job.now.records }
    requires within { (from < length job.now.records) ⊎ ((from ≡ 0)
        × (length job.now.records ≡ 0)) }
    ensures next { IsOutstanding job.now from outstanding.new result }
{
    if let Frame::Block(block) = outstanding {
        return job
            .records
            .put_next_block(from, job.select, job.mode, block);
    }
    let (block, place) = job.records.next_block(from, job.select, job.mode);
    *outstanding = Frame::Block(block);
    place
}

/// What follows the outstanding block.
fn next_of(jobs: &[Job], at: usize, outstanding: &Frame, place: usize) -> Next
    requires at { StandsAt (drop at jobs.now) outstanding.now place }
    ensures { result ≡ next_in (rest_in (drop at jobs.now) outstanding.now place) }
{
    match outstanding {
        Frame::Block(block) => match block.closing {
            Closing::Etb => Next::Block,
            Closing::Etx if at + 1 < jobs.len() => Next::NewJob,
            Closing::Etx => Next::Done,
        },
        _ => Next::Done,
    }
}
