//! Calls that take memory, with ample memory and with a growth of memory refused: tests/test_refusals.py runs these tests with each
//! growth refused in turn.
use super::{buffer, record_of};
use arrayvec::ArrayVec;
use bsc_codes::{Block, Closing};
use bsc_frame::{Frame, write_frame};
use bsc_link::{Rank, Reply, Say, Sound, Wish};
use line_world::MemoryLine;
use rje_jobs::Job;
use rje_station::{Arrival, ReceivingStation, SendingStation, Station, StationFault};
use rje_text::{Action, Mode, Records, Select, TextFault};
use std::alloc::{AllocError, Global};
use std::process::Abort;
use std::slice;
use std::test::Fail;

/// A job of `count` records, at most 1,000, whose memory is taken in one growth.
fn job_of(rt: &(impl Abort + AllocGlobal), count: usize) -> Result<Job, AllocError> {
    let mut records = Records::with_capacity(rt.alloc(), 1000, 80_000)?;
    for _ in 0..count {
        records.push(record_of(rt, 80))?;
    }
    Ok(Job {
        select: Select::Unset,
        mode: Mode::Normal,
        records,
        whole: true,
    })
}

/// A station for a job of `count` records is made, or there is no memory for it.
fn assert_made_or_no_memory(rt: &(impl Abort + AllocGlobal), count: usize) {
    let Ok(job) = job_of(rt, count) else {
        return;
    };
    match SendingStation::new(rt.alloc(), slice::from_ref(&job)) {
        Ok(station) => assert!(rt; station.counted() == 0),
        Err(fault) => assert!(rt; fault == StationFault::OutOfMemory),
    }
}

#[test]
fn a_sender_of_one_record_is_made_or_finds_no_memory(rt: HostRuntime) {
    assert_made_or_no_memory(&rt, 1);
}

/// As many growths as: a_sender_of_one_record_is_made_or_finds_no_memory.
#[test]
fn a_sender_of_a_thousand_records_is_made_or_finds_no_memory(rt: HostRuntime) {
    assert_made_or_no_memory(&rt, 1000);
}

/// The transmission of this frame comes on the line, in one piece.
fn put_frame(alloc: Global, line: &mut MemoryLine, frame: &Frame) -> Result<(), AllocError> {
    let mut bytes = ArrayVec::new();
    let _ = write_frame(frame, &mut bytes);
    let mut pieces = Vec::new(alloc);
    pieces.push(Vec::from_slice(alloc, bytes.as_slice())?)?;
    line.put(pieces);
    Ok(())
}

/// A block of one record of this byte 25 times, for which a job takes memory.
fn block_of(rt: &impl Abort, byte: u8, closing: Closing) -> Frame {
    let mut text = [byte; 26];
    text[25] = 0x1E;
    Frame::Block(Block {
        text: buffer(rt, &text),
        closing,
        transparent: false,
    })
}

/// The block of a job of one record.
fn one_record(rt: &impl Abort) -> Frame {
    block_of(rt, 0xC1, Closing::Etx)
}

/// The station hears a bid, and answers ACK0.
fn hear_bid(
    rt: &(impl Abort + AllocGlobal),
    station: &mut ReceivingStation,
) -> Result<(), AllocError> {
    let mut line = MemoryLine::new(rt.alloc());
    put_frame(rt.alloc(), &mut line, &Frame::Enq)?;
    assert!(rt; station.hear(&mut line, Wish::Go) == Ok(Some(Reply::Ack0)));
    Ok(())
}

/// The station hears the block of a job: it has it then, or it answers NAK.
fn hear_job(
    rt: &(impl Abort + AllocGlobal),
    station: &mut ReceivingStation,
) -> Result<(), AllocError> {
    let mut line = MemoryLine::new(rt.alloc());
    put_frame(rt.alloc(), &mut line, &one_record(rt))?;
    match station.hear(&mut line, Wish::Go) {
        Ok(Some(Reply::Ack1)) => assert!(rt; station.jobs().len() == 1),
        Ok(Some(Reply::Nak)) => assert!(rt; station.jobs().is_empty()),
        _ => assert!(rt; false),
    }
    Ok(())
}

/// A receiver hears a bid and then the block of a job.
fn try_job(rt: &(impl Abort + AllocGlobal)) -> Result<(), StationFault> {
    let mut station = ReceivingStation::new(rt.alloc())?;
    hear_bid(rt, &mut station)?;
    hear_job(rt, &mut station)?;
    Ok(())
}

#[test]
fn a_receiver_without_memory_answers_nak_and_keeps_its_jobs(rt: HostRuntime) {
    if let Err(fault) = try_job(&rt) {
        assert!(rt; fault == StationFault::OutOfMemory);
    }
}

/// A job that came: whether it is whole, and the byte of each of its records.
type Came = (bool, &'static [u8]);

/// A block of one record, the reply to it, the jobs before and after it, and what is said to the script where it found no memory at first.
struct Step {
    byte: u8,
    closing: Closing,
    reply: Reply,
    before: &'static [Came],
    after: &'static [Came],
    told: &'static str,
}

/// A job of one block and a job of two.
const STEPS: [Step; 3] = [
    Step {
        byte: 0xC1,
        closing: Closing::Etx,
        reply: Reply::Ack1,
        before: &[],
        after: &[(true, &[0xC1])],
        told: "block 1 found no memory",
    },
    Step {
        byte: 0xC2,
        closing: Closing::Etb,
        reply: Reply::Ack0,
        before: &[(true, &[0xC1])],
        after: &[(true, &[0xC1]), (false, &[0xC2])],
        told: "block 2 found no memory",
    },
    Step {
        byte: 0xC3,
        closing: Closing::Etx,
        reply: Reply::Ack1,
        before: &[(true, &[0xC1]), (false, &[0xC2])],
        after: &[(true, &[0xC1]), (true, &[0xC2, 0xC3])],
        told: "block 3 found no memory",
    },
];

/// The jobs are those that came.
fn assert_came(rt: &impl Abort, jobs: &[Job], came: &[Came]) {
    assert!(rt; jobs.len() == came.len());
    for (place, job) in jobs.iter().enumerate() {
        let (whole, bytes) = came[place];
        assert!(rt; job.whole == whole && job.select == Select::Unset && job.mode == Mode::Normal);
        assert_records(rt, job, bytes);
    }
}

/// The records of the job are of these bytes, 25 times each.
fn assert_records(rt: &impl Abort, job: &Job, bytes: &[u8]) {
    assert!(rt; job.records.len() == bytes.len());
    for (place, record) in job.records.iter().enumerate() {
        assert!(rt; record.action == Action::Plain);
        assert!(rt; record.bytes.as_slice() == [bytes[place]; 25].as_slice());
    }
}

/// The station hears the step's block, and once more where it answers NAK: whether it did. It has its jobs from before then.
fn hear_step(
    rt: &(impl Abort + AllocGlobal),
    station: &mut ReceivingStation,
    step: &Step,
) -> Result<bool, StationFault> {
    let mut line = MemoryLine::new(rt.alloc());
    let block = block_of(rt, step.byte, step.closing);
    put_frame(rt.alloc(), &mut line, &block)?;
    let refused = station.hear(&mut line, Wish::Go)? == Some(Reply::Nak);
    let sound = Sound::Block;
    assert!(rt; station.arrival() == Some(Arrival { sound, refused }));
    let why = match refused {
        true => Some(TextFault::OutOfMemory),
        false => None,
    };
    assert!(rt; station.refusal() == why);
    if refused {
        assert_came(rt, station.jobs(), step.before);
        put_frame(rt.alloc(), &mut line, &block)?;
        assert!(rt; station.hear(&mut line, Wish::Go)? == Some(step.reply));
    }
    assert_came(rt, station.jobs(), step.after);
    Ok(refused)
}

/// A receiver hears the blocks of two jobs, one of which may find no memory at first: what came of it, for the script.
fn try_blocks(rt: &(impl Abort + AllocGlobal)) -> Result<&'static str, StationFault> {
    let mut station = ReceivingStation::new(rt.alloc())?;
    hear_bid(rt, &mut station)?;
    let mut told = "each block found memory";
    for step in &STEPS {
        if hear_step(rt, &mut station, step)? {
            told = step.told;
        }
    }
    Ok(told)
}

/// Printed at some growth: block 1 found no memory, block 2 found no memory, block 3 found no memory.
#[test]
fn a_later_block_without_memory_leaves_all_jobs_and_comes_again(
    rt: HostRuntime,
) -> Result<(), Fail> {
    match try_blocks(&rt) {
        Ok(told) => println!(rt; "{told}")?,
        Err(fault) => assert!(rt; fault == StationFault::OutOfMemory),
    }
    Ok(())
}

// TWO STATIONS THAT BOTH HAVE JOBS

#[test]
fn a_station_of_either_rank_is_made_or_finds_no_memory(rt: HostRuntime) {
    let Ok(job) = job_of(&rt, 1) else {
        return;
    };
    for rank in [Rank::Primary, Rank::Secondary] {
        assert_station_or_no_memory(&rt, rank, &job);
    }
}

/// A station of this rank is made for this job, or there is no memory for it.
fn assert_station_or_no_memory(rt: &(impl Abort + AllocGlobal), rank: Rank, job: &Job) {
    match Station::new(rt.alloc(), rank, slice::from_ref(job)) {
        Ok(station) => assert!(rt; station.due() == Say::Bid),
        Err(fault) => assert!(rt; fault == StationFault::OutOfMemory),
    }
}

/// The station hears a bid of the other one, and answers ACK0.
fn hear_other_bid(
    rt: &(impl Abort + AllocGlobal),
    station: &mut Station<'_>,
) -> Result<(), AllocError> {
    let mut line = MemoryLine::new(rt.alloc());
    put_frame(rt.alloc(), &mut line, &Frame::Enq)?;
    assert!(rt; station.hear_other(&mut line, Wish::Go) == Ok(Some(Reply::Ack0)));
    Ok(())
}

/// It hears the block of a job of the other one: it has one job more then, or it answers NAK. All its jobs are whole.
fn hear_other_job(
    rt: &(impl Abort + AllocGlobal),
    station: &mut Station<'_>,
) -> Result<(), AllocError> {
    let mut line = MemoryLine::new(rt.alloc());
    put_frame(rt.alloc(), &mut line, &one_record(rt))?;
    let before = station.receiver().jobs().len();
    let reply = station.hear_other(&mut line, Wish::Go);
    let jobs = station.receiver().jobs();
    if reply == Ok(Some(Reply::Nak)) {
        assert!(rt; jobs.len() == before);
    } else {
        assert!(rt; reply == Ok(Some([Reply::Ack1, Reply::Ack0][before % 2])));
        assert!(rt; jobs.len().checked_sub(before) == Some(1));
    }
    for job in jobs {
        assert!(rt; job.whole);
        assert!(rt; job.records.len() == 1);
    }
    Ok(())
}

/// A secondary hears a bid and then the blocks of three jobs.
fn try_jobs(rt: &(impl Abort + AllocGlobal)) -> Result<(), StationFault> {
    let mut station = Station::new(rt.alloc(), Rank::Secondary, &[])?;
    hear_other_bid(rt, &mut station)?;
    for _ in 0..3 {
        hear_other_job(rt, &mut station)?;
    }
    Ok(())
}

#[test]
fn a_station_without_memory_answers_nak_and_keeps_its_jobs(rt: HostRuntime) {
    if let Err(fault) = try_jobs(&rt) {
        assert!(rt; fault == StationFault::OutOfMemory);
    }
}
