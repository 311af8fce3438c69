//! Both stations over lines in memory: conversations by hand, what one hearing takes, traces, and lines of which a call fails.
use super::failing_lines::line_of;
use super::{bad_jobs, block, buffer, job_of};
use arrayvec::ArrayVec;
use bsc_codes::{Block, Closing, SYN};
use bsc_frame::{Frame, write_frame};
use bsc_link::{Outcome, Reply, Say, Sound, Wish};
use line_world::MemoryLine;
use rje_jobs::{Job, job_fits};
use rje_station::{
    Came, Event, Line, LineFault, MAX_HEARD, ReceivingStation, SendingStation, StationFault, Trace,
};
use rje_text::{Action, Mode, Select, TextFault, next_block};
use std::alloc::{AllocError, Global};
use std::process::Abort;
use std::slice;

/// An ENQ on the line.
pub(super) const ENQ: [u8; 4] = [0x32, 0x32, 0x2D, 0xFF];

/// These bytes in one piece.
pub(super) fn one_piece(alloc: Global, bytes: &[u8]) -> Result<Vec<Vec<u8>>, AllocError> {
    let piece = Vec::from_slice(alloc, bytes)?;
    let mut pieces = Vec::with_capacity(alloc, 1)?;
    pieces.push(piece)?;
    Ok(pieces)
}

/// The same, where there is memory.
pub(super) fn piece_of(rt: &(impl Abort + AllocGlobal), bytes: &[u8]) -> Vec<Vec<u8>> {
    one_piece(rt.alloc(), bytes).expect(rt, "no memory")
}

/// A sender of these jobs.
pub(super) fn sender_of<'a>(
    rt: &(impl Abort + AllocGlobal),
    jobs: &'a [Job],
) -> SendingStation<'a> {
    SendingStation::new(rt.alloc(), jobs).expect(rt, "no memory")
}

/// A receiver.
pub(super) fn receiver_of(rt: &(impl Abort + AllocGlobal)) -> ReceivingStation {
    ReceivingStation::new(rt.alloc()).expect(rt, "no memory")
}

/// Two stations, each at its end of a line in memory.
#[derive(Drop)]
struct Ends<'a> {
    sender: SendingStation<'a>,
    receiver: ReceivingStation,
    sending_line: MemoryLine,
    receiving_line: MemoryLine,
}

impl<'a> Ends<'a> {
    fn new(rt: &(impl Abort + AllocGlobal), jobs: &'a [Job]) -> Self {
        Ends {
            sender: sender_of(rt, jobs),
            receiver: receiver_of(rt),
            sending_line: MemoryLine::new(rt.alloc()),
            receiving_line: MemoryLine::new(rt.alloc()),
        }
    }

    /// What the sender says arrives at the receiver.
    fn go_up(&mut self, alloc: Global, wish: Wish) -> Result<Say, StationFault> {
        let say = self.sender.speak(&mut self.sending_line)?;
        let pieces = one_piece(alloc, self.sending_line.sent())?;
        self.receiving_line.put(pieces);
        self.receiver.hear(&mut self.receiving_line, wish)?;
        Ok(say)
    }

    /// What the receiver answers arrives at the sender.
    fn go_down(&mut self, alloc: Global) -> Result<Sound, StationFault> {
        self.receiver.speak(&mut self.receiving_line)?;
        let pieces = one_piece(alloc, self.receiving_line.sent())?;
        self.sending_line.put(pieces);
        self.sender.hear(&mut self.sending_line, false)
    }

    /// The receiver hears these bytes.
    fn hear_bytes(&mut self, alloc: Global, bytes: &[u8]) -> Result<Option<Reply>, StationFault> {
        let pieces = one_piece(alloc, bytes)?;
        self.receiving_line.put(pieces);
        self.receiver.hear(&mut self.receiving_line, Wish::Go)
    }

    /// The receiver answers, and nothing of it arrives at the sender.
    fn lose_down(&mut self, alloc: Global) -> Result<Sound, StationFault> {
        self.receiver.speak(&mut self.receiving_line)?;
        self.sending_line.put(Vec::new(alloc));
        self.sender.hear(&mut self.sending_line, false)
    }
}

/// The jobs go from one station to the other over lines on which all arrives, until EOT is said: the turns that it took.
fn send_jobs(ends: &mut Ends<'_>, alloc: Global) -> Result<u64, StationFault> {
    for turn in 1..u64::MAX {
        if ends.go_up(alloc, Wish::Go)? == Say::End {
            return Ok(turn);
        }
        ends.go_down(alloc)?;
    }
    Ok(u64::MAX)
}

/// The events of a trace are these.
pub(super) fn assert_events(rt: &impl Abort, trace: &Trace, events: &[Event]) {
    assert!(rt; trace.len() == events.len());
    for (i, event) in events.iter().enumerate() {
        assert!(rt; trace.get(i) == Some(*event));
    }
    assert!(rt; trace.get(events.len()).is_none());
}

/// The jobs are one whole job of this many records of these bytes.
fn assert_one_job(rt: &impl Abort, jobs: &[Job], records: usize, bytes: &[u8]) {
    assert!(rt; jobs.len() == 1);
    let job = &jobs[0];
    assert!(rt; job.whole);
    assert!(rt; job.select == Select::Unset);
    assert!(rt; job.mode == Mode::Normal);
    assert!(rt; job.records.len() == records);
    for item in job.records.iter() {
        assert!(rt; item.action == Action::Plain);
        assert!(rt; item.bytes.as_slice() == bytes);
    }
}

/// A bid, a block whose acknowledgement is lost, an inquiry after it, and what is said then.
fn lose_acknowledgement(ends: &mut Ends<'_>, alloc: Global) -> Result<Say, StationFault> {
    ends.go_up(alloc, Wish::Go)?;
    ends.go_down(alloc)?;
    ends.go_up(alloc, Wish::Go)?;
    ends.lose_down(alloc)?;
    ends.go_up(alloc, Wish::Go)?;
    ends.go_down(alloc)?;
    ends.go_up(alloc, Wish::Go)
}

#[test]
fn a_lost_acknowledgement_is_asked_for(rt: HostRuntime) {
    let job = job_of(&rt, 1, 1);
    let jobs = slice::from_ref(&job);
    let mut ends = Ends::new(&rt, jobs);
    assert!(rt; lose_acknowledgement(&mut ends, rt.alloc()) == Ok(Say::End));
    let sent = [
        Event::Said(Say::Bid),
        Event::Heard(Sound::Ack0),
        Event::Said(Say::Block),
        Event::Heard(Sound::Quiet),
        Event::Said(Say::Ask),
        Event::Heard(Sound::Ack1),
        Event::Counted,
        Event::Said(Say::End),
    ];
    assert_events(&rt, ends.sender.trace(), &sent);
    let received = [
        Event::Heard(Sound::Enq),
        Event::Replied(Reply::Ack0),
        Event::Heard(Sound::Block),
        Event::Accepted,
        Event::Replied(Reply::Ack1),
        Event::Heard(Sound::Enq),
        Event::Replied(Reply::Ack1),
        Event::Heard(Sound::Eot),
    ];
    assert_events(&rt, ends.receiver.trace(), &received);
    assert!(rt; ends.sender.counted() == 1);
    assert!(rt; ends.sender.outcome() == Some(Outcome::Done));
    let Ends {
        sender: _,
        receiver,
        sending_line: _,
        receiving_line: _,
    } = ends;
    assert_one_job(&rt, receiver.take().as_slice(), 1, &[0xC1]);
}

#[test]
fn a_thousand_records_go_through(rt: HostRuntime) {
    let job = job_of(&rt, 1000, 80);
    let jobs = slice::from_ref(&job);
    let mut ends = Ends::new(&rt, jobs);

    // A bid, 167 blocks and the end.
    assert!(rt; send_jobs(&mut ends, rt.alloc()) == Ok(169));
    assert!(rt; ends.sender.counted() == 1);
    assert!(rt; ends.sender.outcome() == Some(Outcome::Done));
    assert_one_job(&rt, ends.receiver.jobs(), 1000, &[0xC1; 80]);
}

#[test]
fn blocks_are_made_on_demand(rt: HostRuntime) -> Result<(), AllocError> {
    let job = job_of(&rt, 1000, 80);
    assert!(rt; job_fits(&job));
    let records = &job.records;
    assert!(rt; records.len() == 1000);
    let (mut first, place) = records.next_block(0, job.select, job.mode);
    assert!(rt; first.text.len() == 486);
    assert!(rt; first.closing == Closing::Etb);
    assert!(rt; place == 6);
    assert_last_four(&rt, records.next_block(996, job.select, job.mode));
    let place = records.put_next_block(996, job.select, job.mode, &mut first);
    assert_last_four(&rt, (first, place));
    let vector = records.to_vec()?;
    assert_last_four(&rt, next_block(&vector, 996, job.select, job.mode));
    Ok(())
}

/// The last block of 1,000 records of 80 bytes C1 has four of them.
fn assert_last_four(rt: &impl Abort, (last, place): (Block, usize)) {
    assert!(rt; last.text.len() == 324);
    assert!(rt; last.closing == Closing::Etx);
    assert!(rt; place == 1000);
}

#[test]
fn without_jobs_the_sender_is_over_at_once(rt: HostRuntime) {
    let mut line = MemoryLine::new(rt.alloc());
    let mut sender = sender_of(&rt, &[]);
    assert!(rt; sender.outcome() == Some(Outcome::Done));
    assert!(rt; sender.counted() == 0);
    assert!(rt; sender.speak(&mut line).err() == Some(StationFault::Over));
    assert!(rt; sender.hear(&mut line, false).err() == Some(StationFault::Over));
    assert!(rt; line.sent().is_empty());
    assert_events(&rt, sender.trace(), &[]);
}

#[test]
fn a_job_that_cannot_be_sent_is_told_by_its_number(rt: HostRuntime) {
    let jobs = bad_jobs(&rt);
    let refused = SendingStation::new(rt.alloc(), &jobs).err();
    assert!(rt; refused == Some(StationFault::BadJob(2)));
}

/// A receiver that was bid for, and its line.
pub(super) fn open_receiver(rt: &(impl Abort + AllocGlobal)) -> (ReceivingStation, MemoryLine) {
    let mut receiver = receiver_of(rt);
    let mut line = MemoryLine::new(rt.alloc());
    line.put(piece_of(rt, &ENQ));
    assert!(rt; receiver.hear(&mut line, Wish::Go).is_ok());
    assert!(rt; receiver.speak(&mut line).is_ok());
    (receiver, line)
}

/// The transmission of a transparent block of this many bytes C1, in one piece.
pub(super) fn transparent_block(rt: &(impl Abort + AllocGlobal), length: usize) -> Vec<Vec<u8>> {
    let bytes = [0xC1; 512];
    assert!(rt; length <= bytes.len());
    let mut out = ArrayVec::new();
    let block = Frame::Block(block(rt, &bytes[..length], true));
    assert!(rt; write_frame(&block, &mut out).is_ok());
    piece_of(rt, out.as_slice())
}

#[test]
fn a_block_with_a_bad_check_is_not_acknowledged(rt: HostRuntime) {
    let (mut receiver, mut line) = open_receiver(&rt);
    let bytes = [0x32, 0x32, 0x02, 0xC1, 0x1E, 0x03, 0x18, 0x5C];
    line.put(piece_of(&rt, &bytes));
    assert!(rt; receiver.hear(&mut line, Wish::Go) == Ok(Some(Reply::Nak)));
    assert!(rt; receiver.jobs().is_empty());
    assert!(rt; receiver.heard_length() == 0);
}

#[test]
fn a_block_that_cannot_be_read_leaves_the_jobs(rt: HostRuntime) {
    let (short, cards) = (transparent_block(&rt, 79), transparent_block(&rt, 480));
    let (mut receiver, mut line) = open_receiver(&rt);
    line.put(short);
    assert!(rt; receiver.refusal().is_none());
    assert!(rt; receiver.hear(&mut line, Wish::Go) == Ok(Some(Reply::Nak)));
    assert!(rt; receiver.refusal() == Some(TextFault::CardsNot80));
    assert!(rt; receiver.heard_length() == 79);
    assert!(rt; receiver.jobs().is_empty());
    assert!(rt; receiver.trace().get(2) == Some(Event::Heard(Sound::Block)));
    assert!(rt; receiver.trace().get(3) == Some(Event::Refused));
    line.put(cards);
    assert!(rt; receiver.hear(&mut line, Wish::Go) == Ok(Some(Reply::Ack1)));
    assert!(rt; receiver.refusal().is_none());
    assert!(rt; receiver.heard_length() == 480);
    let jobs = receiver.jobs();
    assert!(rt; jobs.len() == 1);
    assert!(rt; jobs[0].mode == Mode::Transparent);
    assert!(rt; jobs[0].select == Select::Punch);
    assert!(rt; jobs[0].records.len() == 6);
    for card in jobs[0].records.iter() {
        assert!(rt; card.bytes.as_slice() == [0xC1; 80].as_slice());
    }
}

/// This many SYN, and then an ENQ or nothing, in one piece.
pub(super) fn syns(rt: &(impl Abort + AllocGlobal), count: usize, enq: bool) -> Vec<Vec<u8>> {
    let mut bytes = Vec::new(rt.alloc());
    for _i in 0..count {
        assert!(rt; bytes.push(SYN).is_ok());
    }
    if enq {
        assert!(rt; bytes.extend_from_slice(&ENQ[2..]).is_ok());
    }
    piece_of(rt, &bytes)
}

#[test]
fn one_hearing_has_8192_bytes(rt: HostRuntime) {
    let enq = syns(&rt, MAX_HEARD - 1, true);
    let (quiet, babble) = (syns(&rt, MAX_HEARD, false), syns(&rt, MAX_HEARD, true));
    let mut line = MemoryLine::new(rt.alloc());
    let mut receiver = receiver_of(&rt);
    line.put(enq);
    assert!(rt; receiver.hear(&mut line, Wish::Go) == Ok(Some(Reply::Ack0)));
    line.put(quiet);
    assert!(rt; receiver.hear(&mut line, Wish::Go) == Ok(None));
    line.put(babble);
    assert!(rt; receiver.hear(&mut line, Wish::Go).err() == Some(StationFault::Babble));
    assert!(rt; receiver.hear(&mut line, Wish::Go).err() == Some(StationFault::Over));
    let events = [
        Event::Heard(Sound::Enq),
        Event::Heard(Sound::Quiet),
        Event::Over,
    ];
    assert_events(&rt, receiver.trace(), &events);
}

/// This many pieces of one SYN each.
fn single_syns(alloc: Global, count: usize) -> Result<Vec<Vec<u8>>, AllocError> {
    let mut pieces = Vec::new(alloc);
    for _i in 0..count {
        pieces.push(Vec::from_slice(alloc, &[SYN])?)?;
    }
    Ok(pieces)
}

/// What a new receiver replies to 8,192 pieces of one SYN each, on a line of which this call fails.
fn hear_single_syns(alloc: Global, call: u64) -> Result<Option<Reply>, StationFault> {
    let mut line = MemoryLine::new(alloc);
    line.put(single_syns(alloc, MAX_HEARD)?);
    line.fail_at(call);
    ReceivingStation::new(alloc)?.hear(&mut line, Wish::Go)
}

#[test]
fn one_hearing_listens_8193_times_at_most(rt: HostRuntime) {
    let met = hear_single_syns(rt.alloc(), 8193).err();
    assert!(rt; met == Some(StationFault::Line(LineFault::Failed)));
    assert!(rt; hear_single_syns(rt.alloc(), 8194) == Ok(None));
}

#[test]
fn bytes_behind_a_frame_are_dropped(rt: HostRuntime) {
    let (mut receiver, mut line) = open_receiver(&rt);
    let mut bytes: ArrayVec<u8, 16> = buffer(&rt, &ENQ);
    assert!(rt; bytes.try_extend_from_slice(&[0x32, 0x32, 0x37]).is_ok());
    line.put(piece_of(&rt, bytes.as_slice()));
    assert!(rt; receiver.hear(&mut line, Wish::Go) == Ok(Some(Reply::Ack0)));
    assert!(rt; receiver.hear(&mut line, Wish::Go) == Ok(None));
    assert!(rt; receiver.trace().get(3) == Some(Event::Heard(Sound::Quiet)));
}

#[test]
fn a_trace_keeps_64_events(rt: HostRuntime) {
    let mut line = MemoryLine::new(rt.alloc());
    let mut receiver = receiver_of(&rt);
    for _i in 0..70 {
        assert!(rt; receiver.hear(&mut line, Wish::Go) == Ok(None));
    }
    receiver.abandon();
    assert!(rt; receiver.trace().len() == 64);
    assert!(rt; receiver.trace().get(0) == Some(Event::Heard(Sound::Quiet)));
    assert!(rt; receiver.trace().get(63) == Some(Event::Over));
    assert!(rt; receiver.trace().get(64).is_none());
    assert!(rt; receiver.speak(&mut line).err() == Some(StationFault::Over));
}

/// Whether the sender is over: it neither speaks nor hears.
fn sender_is_over(ends: &mut Ends<'_>) -> bool {
    ends.sender.speak(&mut ends.sending_line).err() == Some(StationFault::Over)
        && ends.sender.hear(&mut ends.sending_line, false).err() == Some(StationFault::Over)
}

/// Whether the receiver is over.
fn receiver_is_over(ends: &mut Ends<'_>) -> bool {
    ends.receiver.speak(&mut ends.receiving_line).err() == Some(StationFault::Over)
        && ends.receiver.hear(&mut ends.receiving_line, Wish::Go).err() == Some(StationFault::Over)
}

/// A bid, a block and the end over lines on which all arrives.
fn converse(ends: &mut Ends<'_>, alloc: Global) -> Result<(), StationFault> {
    ends.go_up(alloc, Wish::Go)?;
    ends.go_down(alloc)?;
    ends.go_up(alloc, Wish::Go)?;
    ends.go_down(alloc)?;
    ends.go_up(alloc, Wish::Go)?;
    Ok(())
}

pub(super) const FAILED: Option<StationFault> = Some(StationFault::Line(LineFault::Failed));

/// What is counted and how many jobs were delivered, by the call of a line that fails.
const COUNTS: [(usize, usize); 5] = [(0, 0), (0, 0), (0, 0), (0, 1), (1, 1)];

/// The transmission is done with `counted` jobs counted, and `handed` were delivered, each of them the one job.
fn assert_counts(rt: &impl Abort, ends: &Ends<'_>, counted: usize, handed: usize) {
    assert!(rt; ends.sender.counted() == counted);
    assert!(rt; ends.sender.outcome().is_some() == (counted == 1));
    assert!(rt; ends.sender.outcome().is_none() || ends.sender.outcome() == Some(Outcome::Done));
    assert!(rt; ends.receiver.jobs().len() == handed);
    if handed == 1 {
        assert_one_job(rt, ends.receiver.jobs(), 1, &[0xC1]);
    }
}

/// This call fails, of the sender's line or of the receiver's, by turns a transmit and a listen.
fn assert_call_fails(
    rt: &(impl Abort + AllocGlobal),
    of_sender: bool,
    call: u64,
    (counted, handed): (usize, usize),
) {
    let job = job_of(rt, 1, 1);
    let jobs = slice::from_ref(&job);
    let mut ends = Ends::new(rt, jobs);
    if of_sender {
        ends.sending_line.fail_at(call);
    } else {
        ends.receiving_line.fail_at(call);
    }
    assert!(rt; converse(&mut ends, rt.alloc()).err() == FAILED);
    let is_over = if of_sender {
        sender_is_over(&mut ends)
    } else {
        receiver_is_over(&mut ends)
    };
    assert!(rt; is_over);
    assert_counts(rt, &ends, counted, handed);
}

#[test]
fn each_call_of_the_senders_or_the_receivers_line_fails_once(rt: HostRuntime) {
    for (i, counts) in COUNTS.iter().enumerate() {
        for of_sender in [true, false] {
            assert_call_fails(&rt, of_sender, i as u64 + 1, *counts);
        }
    }
}

/// The bid, the first job's block, and the first of the second job's two; then the receiver hears an EOT.
fn cut_second_job(ends: &mut Ends<'_>, alloc: Global) -> Result<Option<Reply>, StationFault> {
    for _turn in 0..3 {
        ends.go_up(alloc, Wish::Go)?;
        ends.go_down(alloc)?;
    }
    ends.hear_bytes(alloc, &[0x32, 0x32, 0x37, 0xFF])
}

/// A job of one block, and one of two.
fn two_jobs(rt: &(impl Abort + AllocGlobal)) -> Vec<Job> {
    let mut jobs = Vec::new(rt.alloc());
    assert!(rt; jobs.push(job_of(rt, 1, 1)).is_ok());
    assert!(rt; jobs.push(job_of(rt, 7, 80)).is_ok());
    jobs
}

#[test]
fn a_cut_job_is_not_whole(rt: HostRuntime) {
    let jobs = two_jobs(&rt);
    let mut ends = Ends::new(&rt, &jobs);
    assert!(rt; cut_second_job(&mut ends, rt.alloc()) == Ok(None));
    assert!(rt; receiver_is_over(&mut ends));
    let handed = ends.receiver.jobs();
    assert!(rt; handed.len() == 2);
    assert!(rt; handed[0].whole);
    assert!(rt; handed[0].records.len() == 1);
    assert!(rt; !handed[1].whole);
    assert!(rt; handed[1].records.len() == 6);
    assert!(rt; ends.sender.counted() == 1);
}

#[test]
fn pieces_come_in_order_and_in_parts(rt: HostRuntime) {
    let coming: [&[u8]; 4] = [&[], &[1, 2, 3], &[], &[4]];
    let mut line = line_of(&rt, &coming, 0);
    let mut piece = [0, 0];
    assert!(rt; line.listen(&mut piece) == Ok(Came::Bytes(2)));
    assert!(rt; piece == [1, 2]);
    assert!(rt; line.listen(&mut piece) == Ok(Came::Bytes(1)));
    assert!(rt; piece == [3, 2]);
    assert!(rt; line.listen(&mut piece) == Ok(Came::Bytes(1)));
    assert!(rt; piece == [4, 2]);
    assert!(rt; line.listen(&mut piece) == Ok(Came::Quiet));
    assert!(rt; line.transmit(&[5, 6]).is_ok());
    assert!(rt; line.transmit(&[0; 1034]).err() == Some(LineFault::Failed));
    assert!(rt; line.sent() == [5, 6].as_slice());
}
