//! Contention: its table as it is printed, and what a station that yields counts afterwards.
use bsc_link::{Contender, ContenderPlace, Next, Outcome, Rank, Say, Sender, Sound};

// CONTENTION

/// A call of a contender.
#[derive(Clone, Copy)]
enum Call {
    SaidBid,
    Granted,
    HearEnq,
    OwnEnd,
    OtherEnd,
}

/// A state of a contender: the calls that lead there from a new one, its place, and whether a primary and a secondary take an ENQ there.
#[derive(Clone, Copy)]
struct State(&'static [Call], ContenderPlace, bool, bool);

const FREE: State = State(&[], ContenderPlace::Free, true, true);

const BID: State = State(&[Call::SaidBid], ContenderPlace::Free, false, true);

const SENDING: State = State(&[Call::Granted], ContenderPlace::Sending, false, false);

const SENDING_AFTER_BID: State = State(
    &[Call::SaidBid, Call::Granted],
    ContenderPlace::Sending,
    false,
    false,
);

const RECEIVING: State = State(&[Call::HearEnq], ContenderPlace::Receiving, true, true);

const ANY: &[Rank] = &[Rank::Primary, Rank::Secondary];

const PRIMARY: &[Rank] = &[Rank::Primary];

const SECONDARY: &[Rank] = &[Rank::Secondary];

/// A line of the table: the ranks, the state, the call, the state that follows, and what the call returns.
#[derive(Clone, Copy)]
struct Line(&'static [Rank], State, Call, State, Option<bool>);

static TABLE: [Line; 26] = [
    Line(ANY, FREE, Call::SaidBid, BID, None),
    Line(ANY, FREE, Call::Granted, SENDING, None),
    Line(ANY, FREE, Call::HearEnq, RECEIVING, Some(true)),
    Line(ANY, FREE, Call::OwnEnd, FREE, None),
    Line(ANY, FREE, Call::OtherEnd, FREE, None),
    Line(ANY, BID, Call::SaidBid, BID, None),
    Line(ANY, BID, Call::Granted, SENDING_AFTER_BID, None),
    Line(PRIMARY, BID, Call::HearEnq, BID, Some(false)),
    Line(SECONDARY, BID, Call::HearEnq, RECEIVING, Some(true)),
    Line(ANY, BID, Call::OwnEnd, FREE, None),
    Line(ANY, BID, Call::OtherEnd, BID, None),
    Line(ANY, SENDING, Call::SaidBid, SENDING, None),
    Line(ANY, SENDING, Call::Granted, SENDING, None),
    Line(ANY, SENDING, Call::HearEnq, SENDING, Some(false)),
    Line(ANY, SENDING, Call::OwnEnd, FREE, None),
    Line(ANY, SENDING, Call::OtherEnd, SENDING, None),
    Line(
        ANY,
        SENDING_AFTER_BID,
        Call::SaidBid,
        SENDING_AFTER_BID,
        None,
    ),
    Line(
        ANY,
        SENDING_AFTER_BID,
        Call::Granted,
        SENDING_AFTER_BID,
        None,
    ),
    Line(
        ANY,
        SENDING_AFTER_BID,
        Call::HearEnq,
        SENDING_AFTER_BID,
        Some(false),
    ),
    Line(ANY, SENDING_AFTER_BID, Call::OwnEnd, FREE, None),
    Line(
        ANY,
        SENDING_AFTER_BID,
        Call::OtherEnd,
        SENDING_AFTER_BID,
        None,
    ),
    Line(ANY, RECEIVING, Call::SaidBid, RECEIVING, None),
    Line(ANY, RECEIVING, Call::Granted, RECEIVING, None),
    Line(ANY, RECEIVING, Call::HearEnq, RECEIVING, Some(true)),
    Line(ANY, RECEIVING, Call::OwnEnd, RECEIVING, None),
    Line(ANY, RECEIVING, Call::OtherEnd, FREE, None),
];

/// Makes the call. What it returns, where it returns anything.
fn make_call(contender: &mut Contender, call: Call) -> Option<bool> {
    match call {
        Call::SaidBid => contender.said_bid(),
        Call::Granted => contender.granted(),
        Call::HearEnq => return Some(contender.hear_enq()),
        Call::OwnEnd => contender.own_end(),
        Call::OtherEnd => contender.other_end(),
    }
    None
}

/// A new contender that came to this state.
fn contender_at(rank: Rank, state: State) -> Contender {
    let mut contender = Contender::new(rank);
    for step in state.0 {
        make_call(&mut contender, *step);
    }
    contender
}

/// Whether the contender is there. The note of a bid is seen by whether it takes an ENQ: there, and once the other station's transmission ended.
fn is_at(contender: Contender, state: State) -> bool {
    let State(_, place, primary_takes, secondary_takes) = state;
    let takes = match contender.rank() {
        Rank::Primary => primary_takes,
        Rank::Secondary => secondary_takes,
    };
    let mut now = contender;
    let mut later = contender;
    later.other_end();
    contender.place() == place
        && now.hear_enq() == takes
        && (place != ContenderPlace::Receiving
            || (later.place() == ContenderPlace::Free && later.hear_enq()))
}

/// Whether the line holds for this rank: the state before the call, what it returns, and the state that follows.
fn holds(line: &Line, rank: Rank) -> bool {
    let Line(_, state, step, follows, answer) = *line;
    let mut contender = contender_at(rank, state);
    is_at(contender, state)
        && make_call(&mut contender, step) == answer
        && contender.rank() == rank
        && is_at(contender, follows)
        && contender == contender_at(rank, follows)
}

#[test]
fn each_line_of_the_table_of_contention_holds(rt: HostRuntime) {
    for (number, line) in TABLE.iter().enumerate() {
        for rank in line.0 {
            assert!(rt; holds(line, *rank), "line {number} for {rank:?}");
        }
    }
}

// A SENDER THAT GIVES WAY

/// What a sender hears, what follows the outstanding block, and whether there is a pause.
type Heard = (Sound, Next, bool);

const GRANT: Heard = (Sound::Ack0, Next::Block, false);

const HOLD: Heard = (Sound::Wack, Next::Block, false);

const SILENCE: Heard = (Sound::Quiet, Next::Block, false);

const NAK: Heard = (Sound::Nak, Next::Block, false);

const LAST: Heard = (Sound::Ack1, Next::Done, false);

const TURN: Heard = (Sound::Rvi, Next::NewJob, false);

const PAUSE: Heard = (Sound::Ack1, Next::NewJob, true);

const EOT: Heard = (Sound::Eot, Next::Block, false);

const HELD_PAUSE: Heard = (Sound::Wack, Next::NewJob, true);

/// What a new sender hears so that it no longer bids, and what is due then; where nothing is, what was due was EOT, and was sent.
static BEYOND_THE_BID: [(&'static [Heard], Say); 13] = [
    (&[HOLD, SILENCE, GRANT], Say::Block),
    (&[GRANT, PAUSE, HELD_PAUSE, SILENCE, NAK], Say::Block),
    (&[GRANT, NAK], Say::Again),
    (&[GRANT, HOLD, SILENCE, NAK], Say::Again),
    (&[GRANT, HOLD], Say::Ask),
    (&[GRANT, HOLD, SILENCE], Say::Ask),
    (&[GRANT, PAUSE], Say::Delay),
    (&[GRANT, PAUSE, HELD_PAUSE, SILENCE], Say::Delay),
    (&[GRANT, LAST], Say::End),
    (&[GRANT, TURN], Say::End),
    (
        &[HOLD, SILENCE, SILENCE, NAK, NAK, SILENCE, SILENCE, NAK],
        Say::End,
    ),
    (&[GRANT, LAST], Say::Nothing),
    (&[HOLD, SILENCE, EOT], Say::Nothing),
];

/// A bidding sender after this many tries and holds.
fn bidding(tries: usize, holds: usize) -> Sender {
    let mut sender = Sender::new();
    for _ in 0..tries {
        sender.hear(Sound::Quiet, Next::NewJob, false);
    }
    for _ in 0..holds {
        sender.hear(Sound::Wack, Next::NewJob, false);
    }
    sender
}

/// Whether hearing this sound `times` more times makes the sender give up, and once less does not.
fn gives_up_at(bid: Sender, sound: Sound, times: usize) -> bool {
    let mut sender = bid;
    for _ in 1..times {
        sender.hear(sound, Next::NewJob, false);
        if sender.say() != Say::Bid || sender.outcome().is_some() {
            return false;
        }
    }
    sender.hear(sound, Next::NewJob, false);
    sender.say() == Say::End && sender.outcome() == Some(Outcome::GaveUp)
}

#[test]
fn a_bid_that_gave_way_begins_anew(rt: HostRuntime) {
    for (tries, holds) in [(0, 0), (1, 0), (6, 0), (0, 1), (0, 299), (3, 150), (6, 299)] {
        let mut sender = bidding(tries, holds);
        assert!(rt; sender.say() == Say::Bid);
        sender.yielded();
        assert!(rt; sender == Sender::new(), "at {tries} and {holds}");
        assert!(rt; gives_up_at(sender, Sound::Quiet, 7));
        assert!(rt; gives_up_at(sender, Sound::Wack, 300));
    }
}

/// A new sender that heard this, and where nothing is due then, said its end.
fn sender_after(heard: &[Heard], due: Say) -> Sender {
    let mut sender = Sender::new();
    for (sound, next, pause) in heard {
        sender.hear(*sound, *next, *pause);
    }
    if due == Say::Nothing {
        sender.sent_end();
    }
    sender
}

#[test]
fn where_a_sender_no_longer_bids_giving_way_changes_nothing(rt: HostRuntime) {
    for (row, (heard, due)) in BEYOND_THE_BID.iter().enumerate() {
        let before = sender_after(heard, *due);
        let mut sender = before;
        sender.yielded();
        assert!(rt; before.say() == *due && sender == before, "row {row}");
    }
}
