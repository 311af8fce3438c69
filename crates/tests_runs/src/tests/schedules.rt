//! Schedules, jobs and printed turns, for the tests of runs.
use arrayvec::ArrayVec;
use bsc_link::{Reply, Say, Sound, Wish};
use line_world::{Fate, Spoken, Turn};
use pair_world::{Bids, PairTurn};
use rje_jobs::Job;
use rje_text::{Action, Mode, Record, Records, Select};
use std::alloc::{AllocError, AllocGlobal, Global};
use std::process::Abort;

/// A fate, before its bytes have memory.
#[derive(Clone, Copy)]
pub(super) enum Way {
    Arrives,
    Lost,
    Cut(&'static [usize]),
    Damaged(&'static [u8]),
}

/// A turn of a schedule, before its fates have memory.
#[derive(Clone, Copy)]
pub(super) struct Place {
    pub(super) up: Way,
    pub(super) down: Way,
    pub(super) wish: Wish,
    pub(super) pause: bool,
}

pub(super) const GOOD: Place = Place {
    up: Way::Arrives,
    down: Way::Arrives,
    wish: Wish::Go,
    pause: false,
};

pub(super) const UP_LOST: Place = Place {
    up: Way::Lost,
    ..GOOD
};

pub(super) const DOWN_LOST: Place = Place {
    down: Way::Lost,
    ..GOOD
};

pub(super) const HOLD: Place = Place {
    wish: Wish::Hold,
    ..GOOD
};

pub(super) const TURN: Place = Place {
    wish: Wish::Turn,
    ..GOOD
};

pub(super) const PAUSE: Place = Place {
    pause: true,
    ..GOOD
};

/// A turn whose `up` is damaged into these bytes.
pub(super) fn damaged(bytes: &'static [u8]) -> Place {
    Place {
        up: Way::Damaged(bytes),
        ..GOOD
    }
}

/// A turn whose `up` is cut at these places.
pub(super) fn cut(cuts: &'static [usize]) -> Place {
    Place {
        up: Way::Cut(cuts),
        ..GOOD
    }
}

/// The fate.
fn fate(alloc: Global, way: Way) -> Result<Fate, AllocError> {
    Ok(match way {
        Way::Arrives => Fate::Arrives {
            cuts: Vec::new(alloc),
        },
        Way::Lost => Fate::Lost,
        Way::Cut(cuts) => Fate::Arrives {
            cuts: Vec::from_slice(alloc, cuts)?,
        },
        Way::Damaged(bytes) => Fate::Damaged {
            bytes: Vec::from_slice(alloc, bytes)?,
        },
    })
}

/// The turn.
fn turn_of(alloc: Global, place: Place) -> Result<Turn, AllocError> {
    Ok(Turn {
        up: fate(alloc, place.up)?,
        down: fate(alloc, place.down)?,
        wish: place.wish,
        pause: place.pause,
    })
}

/// The schedule.
pub(super) fn schedule(alloc: Global, places: &[Place]) -> Result<Vec<Turn>, AllocError> {
    let mut turns = Vec::new(alloc);
    for place in places {
        turns.push(turn_of(alloc, *place)?)?;
    }
    Ok(turns)
}

/// The schedule of two stations that both have jobs: who speaks where both could, and what the line does.
pub(super) fn pair_schedule(
    alloc: Global,
    places: &[(Bids, Place)],
) -> Result<Vec<PairTurn>, AllocError> {
    let mut turns = Vec::new(alloc);
    for (bids, place) in places {
        turns.push(PairTurn {
            bids: *bids,
            turn: turn_of(alloc, *place)?,
        })?;
    }
    Ok(turns)
}

/// The schedule, where there is memory.
pub(super) fn schedule_of(rt: &(impl Abort + AllocGlobal), places: &[Place]) -> Vec<Turn> {
    schedule(rt.alloc(), places).expect(rt, "no memory")
}

/// The schedule of two stations, where there is memory.
pub(super) fn pair_schedule_of(
    rt: &(impl Abort + AllocGlobal),
    places: &[(Bids, Place)],
) -> Vec<PairTurn> {
    pair_schedule(rt.alloc(), places).expect(rt, "no memory")
}

/// A record of `length` bytes C1.
pub(super) fn record_of(rt: &impl Abort, length: usize) -> Record {
    let given = [0xC1; 144];
    assert!(rt; length <= given.len());
    let mut bytes = ArrayVec::new();
    assert!(rt; bytes.try_extend_from_slice(&given[..length]).is_ok());
    Record {
        action: Action::Plain,
        bytes,
    }
}

/// A whole, normal job of this many records of `length` bytes C1 for the default device.
pub(super) fn job_of(rt: &(impl Abort + AllocGlobal), records: usize, length: usize) -> Job {
    let mut job = Job {
        select: Select::Unset,
        mode: Mode::Normal,
        records: Records::new(rt.alloc()),
        whole: true,
    };
    for _i in 0..records {
        assert!(rt; job.records.push(record_of(rt, length)).is_ok());
    }
    job
}

/// Such jobs, each of this many records of so many bytes.
pub(super) fn jobs_of(rt: &(impl Abort + AllocGlobal), sizes: &[(usize, usize)]) -> Vec<Job> {
    let mut jobs = Vec::new(rt.alloc());
    for (records, length) in sizes {
        assert!(rt; jobs.push(job_of(rt, *records, *length)).is_ok());
    }
    jobs
}

/// A job that can be sent, and one that can't be.
pub(super) fn bad_jobs(rt: &(impl Abort + AllocGlobal)) -> Vec<Job> {
    let mut jobs = jobs_of(rt, &[(1, 1)]);
    assert!(rt; jobs.push(unfit_job(rt)).is_ok());
    jobs
}

/// A job that can't be sent: its record is too long for the punch.
pub(super) fn unfit_job(rt: &(impl Abort + AllocGlobal)) -> Job {
    let mut job = job_of(rt, 1, 81);
    job.select = Select::Punch;
    job
}

/// The jobs are the same, and all are whole.
pub(super) fn assert_same_jobs(rt: &impl Abort, handed: &[Job], jobs: &[Job]) {
    assert_equal_jobs(rt, handed, jobs);
    for given in handed {
        assert!(rt; given.whole);
    }
}

fn is_same_job(given: &Job, job: &Job) -> bool {
    given.whole == job.whole
        && given.select == job.select
        && given.mode == job.mode
        && given.records.iter().eq(job.records.iter())
}

/// The jobs are the same, and the same of them are whole.
pub(super) fn assert_equal_jobs(rt: &impl Abort, handed: &[Job], jobs: &[Job]) {
    assert!(rt; handed.len() == jobs.len());
    for (place, given) in handed.iter().enumerate() {
        assert!(rt; is_same_job(given, &jobs[place]));
    }
}

/// A printed turn: said, arrived, reply, heard.
#[derive(Clone, Copy, Debug)]
pub(super) struct Line(
    pub(super) Say,
    pub(super) Sound,
    pub(super) Option<Reply>,
    pub(super) Sound,
);

pub(super) const BID: Line = Line(Say::Bid, Sound::Enq, Some(Reply::Ack0), Sound::Ack0);

pub(super) const BLOCK_ACK0: Line = Line(Say::Block, Sound::Block, Some(Reply::Ack0), Sound::Ack0);

pub(super) const BLOCK_ACK1: Line = Line(Say::Block, Sound::Block, Some(Reply::Ack1), Sound::Ack1);

pub(super) const BLOCK_UNHEARD: Line = Line(
    Say::Block,
    Sound::Block,
    Some(Reply::Ack1),
    Sound::Quiet,
);

pub(super) const BLOCK_LOST: Line = Line(Say::Block, Sound::Quiet, None, Sound::Quiet);

pub(super) const ASK_ACK1: Line = Line(Say::Ask, Sound::Enq, Some(Reply::Ack1), Sound::Ack1);

pub(super) const ASK_UNHEARD: Line = Line(Say::Ask, Sound::Enq, Some(Reply::Ack1), Sound::Quiet);

pub(super) const ASK_LOST: Line = Line(Say::Ask, Sound::Quiet, None, Sound::Quiet);

pub(super) const END: Line = Line(Say::End, Sound::Eot, None, Sound::Quiet);

/// The turns are what is printed; none was refused.
pub(super) fn assert_turns(rt: &impl Abort, turns: &[Spoken], lines: &[Line]) {
    assert!(rt; turns.len() == lines.len());
    for (place, turn) in turns.iter().enumerate() {
        assert_turn(rt, turn, &lines[place]);
    }
}

/// The turn is what is printed, and wasn't refused.
pub(super) fn assert_turn(rt: &impl Abort, turn: &Spoken, line: &Line) {
    let printed = Spoken {
        said: line.0,
        arrived: line.1,
        refused: false,
        reply: line.2,
        heard: line.3,
    };
    assert!(rt; *turn == printed, "{turn:?} at {line:?}");
}
