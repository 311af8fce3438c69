//! Two stations that both have jobs, by hand over lines in memory: a conversation, what isn't taken or can't be read, and lines of which
//! a call fails.
use super::failing_lines::{ACK0, EOT, OVER};
use super::stations::{ENQ, FAILED, assert_events, one_piece, piece_of, syns, transparent_block};
use super::{assert_same_jobs, bad_jobs, job_of};
use bsc_link::{Outcome, Rank, Reply, Say, Sound, Wish};
use line_world::MemoryLine;
use rje_jobs::Job;
use rje_station::{Came, Event, Line, LineFault, MAX_HEARD, Station, StationFault, Trace};
use std::alloc::{AllocGlobal, Global};
use std::process::Abort;
use std::slice;

const RANKS: [Rank; 2] = [Rank::Primary, Rank::Secondary];

const ACK1: [u8; 4] = [0x32, 0x32, 0x10, 0x61];

/// A station at its end of a line.
#[derive(Drop)]
struct End<'a> {
    station: Station<'a>,
    line: MemoryLine,
}

impl<'a> End<'a> {
    fn new(alloc: Global, rank: Rank, jobs: &'a [Job]) -> Result<Self, StationFault> {
        Ok(End {
            station: Station::new(alloc, rank, jobs)?,
            line: MemoryLine::new(alloc),
        })
    }

    fn speak(&mut self) -> Result<Say, StationFault> {
        self.station.speak(&mut self.line)
    }

    fn reply(&mut self) -> Result<Option<Reply>, StationFault> {
        self.station.reply(&mut self.line)
    }

    /// It hears these pieces of the other station.
    fn hear(&mut self, pieces: Vec<Vec<u8>>) -> Result<Option<Reply>, StationFault> {
        self.line.put(pieces);
        self.station.hear_other(&mut self.line, Wish::Go)
    }

    /// It hears these bytes of the other station, in one piece.
    fn hear_bytes(
        &mut self,
        rt: &(impl Abort + AllocGlobal),
        bytes: &[u8],
    ) -> Result<Option<Reply>, StationFault> {
        self.hear(piece_of(rt, bytes))
    }

    /// It hears these pieces as an answer.
    fn hear_answer(&mut self, pieces: Vec<Vec<u8>>) -> Result<Sound, StationFault> {
        self.line.put(pieces);
        self.station.hear_answer(&mut self.line, false)
    }

    /// It hears these bytes as an answer, in one piece.
    fn answer(
        &mut self,
        rt: &(impl Abort + AllocGlobal),
        bytes: &[u8],
    ) -> Result<Sound, StationFault> {
        self.hear_answer(piece_of(rt, bytes))
    }

    /// It listens to the other station, to whatever comes.
    fn listen(&mut self) -> Result<Option<Reply>, StationFault> {
        self.station.hear_other(&mut self.line, Wish::Go)
    }

    /// It listens for an answer, to whatever comes.
    fn await_answer(&mut self) -> Result<Sound, StationFault> {
        self.station.hear_answer(&mut self.line, false)
    }

    fn due(&self) -> Say {
        self.station.due()
    }

    fn other_ended(&mut self) {
        self.station.other_ended();
    }

    fn counted(&self) -> usize {
        self.station.sender().counted()
    }

    fn outcome(&self) -> Option<Outcome> {
        self.station.sender().outcome()
    }

    fn jobs(&self) -> &[Job] {
        self.station.receiver().jobs()
    }

    fn take(self) -> Vec<Job> {
        let End { station, line: _ } = self;
        station.take()
    }

    /// The events of what it sends.
    fn sending(&self) -> &Trace {
        self.station.sender().trace()
    }

    /// The events of what it receives.
    fn receiving(&self) -> &Trace {
        self.station.receiver().trace()
    }

    /// What went over its line last.
    fn sent(&self) -> &[u8] {
        self.line.sent()
    }

    /// This call of its line will fail.
    fn fail_at(&mut self, call: u64) {
        self.line.fail_at(call);
    }

    /// It bids this many times and hears nothing.
    fn bid_in_vain(&mut self, alloc: Global, times: usize) -> Result<(), StationFault> {
        for _ in 0..times {
            self.speak()?;
            self.hear_answer(Vec::new(alloc))?;
        }
        Ok(())
    }
}

/// The end of a station of this rank, which has memory.
fn end_of<'a>(rt: &(impl Abort + AllocGlobal), rank: Rank, jobs: &'a [Job]) -> End<'a> {
    End::new(rt.alloc(), rank, jobs).expect(rt, "no memory")
}

/// Nothing is due, and every call returns that and touches no line: the call of the line that is to fail is still to come.
fn assert_over(rt: &impl Abort, end: &mut End<'_>) {
    end.fail_at(1);
    assert!(rt; end.due() == Say::Nothing);
    assert!(rt; end.speak().err() == OVER);
    assert!(rt; end.await_answer().err() == OVER);
    assert!(rt; end.listen().err() == OVER);
    assert!(rt; end.reply().err() == OVER);
}

/// One speaks, and all arrives; so does the reply.
fn turn(alloc: Global, speaker: &mut End<'_>, listener: &mut End<'_>) -> Result<(), StationFault> {
    let say = speaker.speak()?;
    listener.hear(one_piece(alloc, speaker.sent())?)?;
    if say == Say::End {
        listener.other_ended();
        return Ok(());
    }
    listener.reply()?;
    speaker.hear_answer(one_piece(alloc, listener.sent())?)?;
    Ok(())
}

/// A bid, a block and the end of the primary, and then of the secondary.
fn converse(
    alloc: Global,
    primary: &mut End<'_>,
    secondary: &mut End<'_>,
) -> Result<(), StationFault> {
    for _ in 0..3 {
        turn(alloc, primary, secondary)?;
    }
    for _ in 0..3 {
        turn(alloc, secondary, primary)?;
    }
    Ok(())
}

const SENT: [Event; 6] = [
    Event::Said(Say::Bid),
    Event::Heard(Sound::Ack0),
    Event::Said(Say::Block),
    Event::Heard(Sound::Ack1),
    Event::Counted,
    Event::Said(Say::End),
];

const RECEIVED: [Event; 6] = [
    Event::Heard(Sound::Enq),
    Event::Replied(Reply::Ack0),
    Event::Heard(Sound::Block),
    Event::Accepted,
    Event::Replied(Reply::Ack1),
    Event::Heard(Sound::Eot),
];

/// The station sent its job, received the other's, and has nothing more to do.
fn assert_both_done(rt: &(impl Abort + AllocGlobal), end: &mut End<'_>) {
    assert_events(rt, end.sending(), &SENT);
    assert_events(rt, end.receiving(), &RECEIVED);
    assert_nothing_is_due(rt, end);
    assert!(rt; end.listen().err() == OVER);
    assert!(rt; end.reply().err() == OVER);
}

#[test]
fn each_station_sends_and_then_receives(rt: HostRuntime) {
    let (up, down) = (job_of(&rt, 1, 1), job_of(&rt, 2, 2));
    let (ups, downs) = (slice::from_ref(&up), slice::from_ref(&down));
    let mut primary = end_of(&rt, Rank::Primary, &ups);
    let mut secondary = end_of(&rt, Rank::Secondary, &downs);
    assert!(rt; converse(rt.alloc(), &mut primary, &mut secondary).is_ok());
    assert_both_done(&rt, &mut primary);
    assert_both_done(&rt, &mut secondary);
    assert_sent(&rt, &primary, &secondary, &ups, 1, 1);
    assert_sent(&rt, &secondary, &primary, &downs, 1, 1);
    assert_same_jobs(&rt, primary.take().as_slice(), &downs);
    assert_same_jobs(&rt, secondary.take().as_slice(), &ups);
}

// A LINE WHOSE CALL FAILS

/// Of a station's jobs, `counted` are counted, and `handed` are delivered by the other.
fn assert_sent(
    rt: &impl Abort,
    sender: &End<'_>,
    receiver: &End<'_>,
    jobs: &[Job],
    counted: usize,
    handed: usize,
) {
    assert_eq!(rt; sender.counted(), counted);
    let outcome = if counted == jobs.len() {
        Some(Outcome::Done)
    } else {
        None
    };
    assert_eq!(rt; sender.outcome(), outcome);
    assert!(rt; handed <= jobs.len());
    assert_same_jobs(rt, receiver.jobs(), &jobs[..handed]);
}

/// Counted and delivered of the primary's jobs, and of the secondary's.
type Counts = (usize, usize, usize, usize);

/// What is counted and delivered, by the call of the primary's line that fails: a transmit, a listen, and so on, and five for the other way.
const PRIMARY_FAILS: [Counts; 10] = [
    (0, 0, 0, 0),
    (0, 0, 0, 0),
    (0, 0, 0, 0),
    (0, 1, 0, 0),
    (1, 1, 0, 0),
    (1, 1, 0, 0),
    (1, 1, 0, 0),
    (1, 1, 0, 0),
    (1, 1, 0, 1),
    (1, 1, 1, 1),
];

/// The station of this rank.
fn of_rank<'e, 'a>(rank: Rank, up: &'e mut End<'a>, down: &'e mut End<'a>) -> &'e mut End<'a> {
    match rank {
        Rank::Primary => up,
        Rank::Secondary => down,
    }
}

/// This call of the line of this rank's station fails.
fn assert_call_fails(rt: &(impl Abort + AllocGlobal), rank: Rank, call: u64, counts: Counts) {
    let job = job_of(rt, 1, 1);
    let jobs = slice::from_ref(&job);
    let mut up = end_of(rt, Rank::Primary, jobs);
    let mut down = end_of(rt, Rank::Secondary, jobs);
    of_rank(rank, &mut up, &mut down).fail_at(call);
    assert!(rt; converse(rt.alloc(), &mut up, &mut down).err() == FAILED);
    assert_over(rt, of_rank(rank, &mut up, &mut down));
    assert_sent(rt, &up, &down, jobs, counts.0, counts.1);
    assert_sent(rt, &down, &up, jobs, counts.2, counts.3);
}

#[test]
fn each_call_of_either_line_fails_once(rt: HostRuntime) {
    // The counts are those of the secondary's line too: where one transmits the other listens.
    for (i, counts) in PRIMARY_FAILS.iter().enumerate() {
        for rank in RANKS {
            assert_call_fails(&rt, rank, i as u64 + 1, *counts);
        }
    }
}

const BABBLE: Option<StationFault> = Some(StationFault::Babble);

/// A station of this rank hears babble of the other station.
fn assert_babble_ends_it(rt: &(impl Abort + AllocGlobal), rank: Rank) {
    let job = job_of(rt, 1, 1);
    let jobs = slice::from_ref(&job);
    let pieces = syns(rt, MAX_HEARD, true);
    let mut end = end_of(rt, rank, jobs);
    assert!(rt; end.hear(pieces).err() == BABBLE);
    assert_over(rt, &mut end);
    assert_events(rt, end.receiving(), &[Event::Over]);
}

/// A station of this rank hears babble for an answer.
fn assert_babbled_answer_ends_it(rt: &(impl Abort + AllocGlobal), rank: Rank) {
    let job = job_of(rt, 1, 1);
    let jobs = slice::from_ref(&job);
    let pieces = syns(rt, MAX_HEARD, true);
    let mut end = end_of(rt, rank, jobs);
    assert!(rt; end.speak().is_ok());
    assert!(rt; end.hear_answer(pieces).err() == BABBLE);
    assert_over(rt, &mut end);
    let events = [Event::Said(Say::Bid), Event::Over];
    assert_events(rt, end.sending(), &events);
    assert!(rt; end.counted() == 0);
    assert!(rt; end.take().is_empty());
}

#[test]
fn babble_ends_a_station(rt: HostRuntime) {
    for rank in RANKS {
        assert_babble_ends_it(&rt, rank);
        assert_babbled_answer_ends_it(&rt, rank);
    }
}

// NOTHING IS DUE

/// Nothing is due, and neither call touches the line or adds an event.
fn assert_nothing_is_due(rt: &(impl Abort + AllocGlobal), end: &mut End<'_>) {
    let events = end.sending().len();
    assert!(rt; end.line.transmit(&[1, 2]).is_ok());
    end.line.put(piece_of(rt, &[3]));
    end.fail_at(1);
    assert!(rt; says_nothing(end));
    assert!(rt; end.sending().len() == events);
    assert_untouched(rt, &mut end.line);
}

/// Whether nothing is due, before and after it speaks and listens for an answer.
fn says_nothing(end: &mut End<'_>) -> bool {
    end.due() == Say::Nothing
        && end.speak() == Ok(Say::Nothing)
        && end.await_answer() == Ok(Sound::Quiet)
        && end.due() == Say::Nothing
}

/// Nothing was done with a line that sent 1, 2, on which 3 comes next, and whose next call fails.
fn assert_untouched(rt: &impl Abort, line: &mut MemoryLine) {
    assert!(rt; line.sent() == [1, 2].as_slice());
    assert!(rt; line.transmit(&[4]).err() == Some(LineFault::Failed));
    let mut piece = [0, 0];
    assert!(rt; line.listen(&mut piece) == Ok(Came::Bytes(1)));
    assert!(rt; piece == [3, 0]);
}

#[test]
fn without_jobs_no_line_is_touched(rt: HostRuntime) {
    for rank in RANKS {
        let mut idle = end_of(&rt, rank, &[]);
        assert_nothing_is_due(&rt, &mut idle);
        assert!(rt; idle.outcome() == Some(Outcome::Done));
    }
}

/// A station of this rank that took a bid says nothing but its replies.
fn assert_silent(rt: &(impl Abort + AllocGlobal), rank: Rank) {
    let job = job_of(rt, 1, 1);
    let jobs = slice::from_ref(&job);
    let mut receiving = end_of(rt, rank, jobs);
    assert!(rt; receiving.due() == Say::Bid);
    assert!(rt; receiving.hear_bytes(rt, &ENQ) == Ok(Some(Reply::Ack0)));
    assert_nothing_is_due(rt, &mut receiving);
    assert!(rt; receiving.reply() == Ok(Some(Reply::Ack0)));
    assert!(rt; receiving.sent() == ACK0.as_slice());
    assert!(rt; receiving.reply() == Ok(None));
}

#[test]
fn a_station_that_receives_is_silent(rt: HostRuntime) {
    for rank in RANKS {
        assert_silent(&rt, rank);
    }
}

/// A bid of this rank's station is answered by EOT.
fn assert_ended(rt: &(impl Abort + AllocGlobal), rank: Rank) {
    let job = job_of(rt, 1, 1);
    let jobs = slice::from_ref(&job);
    let mut ended = end_of(rt, rank, jobs);
    assert!(rt; ended.speak().is_ok());
    assert!(rt; ended.answer(rt, &EOT) == Ok(Sound::Eot));
    assert!(rt; ended.outcome() == Some(Outcome::Ended));
    assert_nothing_is_due(rt, &mut ended);
    assert!(rt; ended.hear_bytes(rt, &ENQ) == Ok(Some(Reply::Ack0)));
}

// An EOT for an answer ends its own transmission, and then the bid is no longer out.
#[test]
fn after_an_eot_for_an_answer_nothing_is_due(rt: HostRuntime) {
    for rank in RANKS {
        assert_ended(&rt, rank);
    }
}

// BIDS OF THE OTHER STATION

/// Whether this is the one event that a trace has behind so many.
fn is_one_more(trace: &Trace, events: usize, event: Event) -> bool {
    trace.len().checked_sub(events) == Some(1) && trace.get(events) == Some(event)
}

/// Whether no reply is due, and none is sent.
fn replies_nothing(end: &mut End<'_>) -> bool {
    end.fail_at(1);
    let replied = end.reply();
    end.fail_at(0);
    replied == Ok(None)
}

/// An ENQ comes that isn't taken: no reply is due, none is sent, and the ENQ is the one event more.
fn assert_passed_over(rt: &(impl Abort + AllocGlobal), end: &mut End<'_>) {
    let events = end.receiving().len();
    let due = end.due();
    assert!(rt; end.hear_bytes(rt, &ENQ) == Ok(None));
    assert!(rt; replies_nothing(end));
    assert!(rt; is_one_more(end.receiving(), events, Event::Heard(Sound::Enq)));
    assert!(rt; end.due() == due);
}

/// It hears this answer, and then an ENQ that isn't taken.
fn assert_passed_over_after(rt: &(impl Abort + AllocGlobal), end: &mut End<'_>, answer: &[u8]) {
    assert!(rt; end.answer(rt, answer).is_ok());
    assert_passed_over(rt, end);
}

/// From its bid to its end a station of this rank takes no ENQ, but that of a secondary takes one while it bids.
fn assert_bid_stands(rt: &(impl Abort + AllocGlobal), rank: Rank) {
    let job = job_of(rt, 1, 1);
    let jobs = slice::from_ref(&job);
    let mut end = end_of(rt, rank, jobs);
    assert!(rt; end.speak().is_ok());
    if rank == Rank::Primary {
        assert_passed_over(rt, &mut end);
    }
    assert_passed_over_after(rt, &mut end, &ACK0);
    assert!(rt; end.speak() == Ok(Say::Block));
    assert_passed_over(rt, &mut end);
    assert_passed_over_after(rt, &mut end, &ACK1);
    assert!(rt; end.speak() == Ok(Say::End));
    assert!(rt; end.hear_bytes(rt, &ENQ) == Ok(Some(Reply::Ack0)));
}

#[test]
fn a_bid_is_not_taken_while_the_own_stands(rt: HostRuntime) {
    for rank in RANKS {
        assert_bid_stands(&rt, rank);
    }
}

/// After six bids without an answer one more is due, and after that the sender gives up.
fn assert_seventh_bid_gives_up(rt: &(impl Abort + AllocGlobal), end: &mut End<'_>) {
    assert!(rt; end.due() == Say::Bid);
    assert!(rt; end.bid_in_vain(rt.alloc(), 1).is_ok());
    assert!(rt; end.due() == Say::End);
    assert!(rt; end.outcome() == Some(Outcome::GaveUp));
}

#[test]
fn a_secondary_gives_way_and_counts_its_bids_anew(rt: HostRuntime) {
    let job = job_of(&rt, 1, 1);
    let jobs = slice::from_ref(&job);
    let mut secondary = end_of(&rt, Rank::Secondary, jobs);
    assert!(rt; secondary.bid_in_vain(rt.alloc(), 6).is_ok());
    assert!(rt; secondary.hear_bytes(&rt, &ENQ) == Ok(Some(Reply::Ack0)));
    assert!(rt; secondary.due() == Say::Nothing);
    secondary.other_ended();
    assert!(rt; secondary.bid_in_vain(rt.alloc(), 6).is_ok());
    assert_seventh_bid_gives_up(&rt, &mut secondary);
}

#[test]
fn a_primary_passes_a_bid_over_and_counts_on(rt: HostRuntime) {
    let job = job_of(&rt, 1, 1);
    let jobs = slice::from_ref(&job);
    let mut primary = end_of(&rt, Rank::Primary, jobs);
    assert!(rt; primary.bid_in_vain(rt.alloc(), 6).is_ok());
    assert_passed_over(&rt, &mut primary);
    assert_seventh_bid_gives_up(&rt, &mut primary);
}

/// A station of this rank refuses a block that can't be read, and takes the next one.
fn assert_unreadable_block_leaves_the_jobs(rt: &(impl Abort + AllocGlobal), rank: Rank) {
    let (short, cards) = (transparent_block(rt, 79), transparent_block(rt, 480));
    let mut end = end_of(rt, rank, &[]);
    assert!(rt; end.hear_bytes(rt, &ENQ) == Ok(Some(Reply::Ack0)));
    assert!(rt; end.hear(short) == Ok(Some(Reply::Nak)));
    assert!(rt; end.jobs().is_empty());
    let events = [
        Event::Heard(Sound::Enq),
        Event::Heard(Sound::Block),
        Event::Refused,
    ];
    assert_events(rt, end.receiving(), &events);
    assert!(rt; end.hear(cards) == Ok(Some(Reply::Ack1)));
    let jobs = end.take();
    assert!(rt; jobs.len() == 1);
    assert!(rt; jobs[0].records.len() == 6);
}

#[test]
fn a_block_that_cannot_be_read_leaves_the_jobs_of_either_station(rt: HostRuntime) {
    for rank in RANKS {
        assert_unreadable_block_leaves_the_jobs(&rt, rank);
    }
}

// THE END OF THE OTHER STATION

/// The other station's transmission ended: this one no longer hears it, keeps the jobs delivered, and sends its own.
fn assert_left(rt: &(impl Abort + AllocGlobal), end: &mut End<'_>, handed: usize) {
    let events = end.receiving().len();
    end.other_ended();
    end.other_ended();
    assert!(rt; is_one_more(end.receiving(), events, Event::Over));
    assert!(rt; end.hear_bytes(rt, &ENQ).err() == OVER);
    assert!(rt; end.reply().err() == OVER);
    assert!(rt; end.jobs().len() == handed);
    assert!(rt; end.speak() == Ok(Say::Bid));
    assert!(rt; end.answer(rt, &ACK0) == Ok(Sound::Ack0));
}

/// The other's EOT was lost before its bid came, and then after a block of it.
fn assert_each_left(rt: &(impl Abort + AllocGlobal), rank: Rank) {
    let job = job_of(rt, 1, 1);
    let jobs = slice::from_ref(&job);
    let card = transparent_block(rt, 80);
    assert_left(rt, &mut end_of(rt, rank, jobs), 0);
    let mut end = end_of(rt, rank, jobs);
    assert!(rt; end.hear_bytes(rt, &ENQ).is_ok());
    assert!(rt; end.hear(card).is_ok());
    assert_left(rt, &mut end, 1);
    let received = end.take();
    assert!(rt; received.len() == 1);
    assert!(rt; received[0].whole);
}

#[test]
fn once_the_other_ended_it_is_not_heard_and_its_job_is_kept(rt: HostRuntime) {
    for rank in RANKS {
        assert_each_left(&rt, rank);
    }
}

#[test]
fn a_station_tells_the_first_job_that_cannot_be_sent(rt: HostRuntime) {
    let jobs = bad_jobs(&rt);
    for rank in RANKS {
        let refused = Station::new(rt.alloc(), rank, &jobs).err();
        assert!(rt; refused == Some(StationFault::BadJob(2)));
    }
}
