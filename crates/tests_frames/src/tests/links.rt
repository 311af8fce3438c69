//! The link cores: short histories, and each line of both tables.
ghost use Rattle.std.specs.Prelude.{◌≤◌};

use bsc_link::{Next, Outcome, Receiver, ReceiverNews, Reply, Say, Sender, Sound, Wish};
use std::process::Abort;

/// A state of a sender from which lines of its table are tried. The number is that of the outstanding block.
#[derive(Clone, Copy)]
enum Sending {
    Bid,
    Block1,
    Again1,
    Ask1,
    Block2,
    Again2,
    Ask2,
    Block2AfterRvi,
    Ask2AfterRvi,
    Delay,
    PausedDelay,
    End,
    Over,
}

const ALL_SENDING: [Sending; 13] = [
    Sending::Bid,
    Sending::Block1,
    Sending::Again1,
    Sending::Ask1,
    Sending::Block2,
    Sending::Again2,
    Sending::Ask2,
    Sending::Block2AfterRvi,
    Sending::Ask2AfterRvi,
    Sending::Delay,
    Sending::PausedDelay,
    Sending::End,
    Sending::Over,
];

/// What the sender's table says; a try and a hold name what is due then.
#[derive(Clone, Copy)]
enum Follows {
    Progress,
    Counted,
    Try(Say),
    Hold(Say),
    OverEnded,
    NothingChanges,
}

/// A line of the sender's table: the states, the sounds, and what follows.
#[derive(Clone, Copy)]
struct SenderLine(&'static [Sending], &'static [Sound], Follows);

/// Block 1 is outstanding.
const FIRST: &[Sending] = &[Sending::Block1, Sending::Again1, Sending::Ask1];

const FIRST_SAID: &[Sending] = &[Sending::Block1, Sending::Again1];

/// Block 2 is outstanding.
const SECOND: &[Sending] = &[
    Sending::Block2,
    Sending::Again2,
    Sending::Ask2,
    Sending::Block2AfterRvi,
    Sending::Ask2AfterRvi,
];

const NO_RVI: &[Sending] = &[Sending::Block2, Sending::Again2, Sending::Ask2];

const SECOND_SAID: &[Sending] = &[Sending::Block2, Sending::Again2];

const SECOND_ASKED: &[Sending] = &[Sending::Ask2, Sending::Ask2AfterRvi];

const DELAYS: &[Sending] = &[Sending::Delay, Sending::PausedDelay];

const ENDS: &[Sending] = &[Sending::End, Sending::Over];

const ACK0: &[Sound] = &[Sound::Ack0];

const ACK1: &[Sound] = &[Sound::Ack1];

const NAK: &[Sound] = &[Sound::Nak];

const WACK: &[Sound] = &[Sound::Wack];

const RVI: &[Sound] = &[Sound::Rvi];

const ENQ: &[Sound] = &[Sound::Enq];

const BLOCK: &[Sound] = &[Sound::Block];

const EOT: &[Sound] = &[Sound::Eot];

/// The sounds that no line of the sender's table names.
const OTHERS: &[Sound] = &[
    Sound::Enq,
    Sound::Ttd,
    Sound::Abort,
    Sound::Block,
    Sound::Bad,
    Sound::Noise,
    Sound::Quiet,
];

/// The replies that are no answer to a bid.
const NO_GRANT: &[Sound] = &[Sound::Ack1, Sound::Nak, Sound::Rvi];

/// The replies that are no answer to a delay.
const NO_DELAY: &[Sound] = &[Sound::Ack0, Sound::Ack1, Sound::Rvi];

const ALL_SOUNDS: &[Sound] = &[
    Sound::Enq,
    Sound::Ack0,
    Sound::Ack1,
    Sound::Nak,
    Sound::Wack,
    Sound::Rvi,
    Sound::Ttd,
    Sound::Abort,
    Sound::Eot,
    Sound::Block,
    Sound::Bad,
    Sound::Noise,
    Sound::Quiet,
];

static SENDER_TABLE: [SenderLine; 26] = [
    SenderLine(&[Sending::Bid], ACK0, Follows::Progress),
    SenderLine(&[Sending::Bid], WACK, Follows::Hold(Say::Bid)),
    SenderLine(&[Sending::Bid], OTHERS, Follows::Try(Say::Bid)),
    SenderLine(&[Sending::Bid], NO_GRANT, Follows::Try(Say::Bid)),
    SenderLine(&[Sending::Bid], EOT, Follows::OverEnded),
    SenderLine(FIRST, ACK1, Follows::Counted),
    SenderLine(FIRST, RVI, Follows::Counted),
    SenderLine(FIRST, NAK, Follows::Try(Say::Again)),
    SenderLine(FIRST, WACK, Follows::Hold(Say::Ask)),
    SenderLine(FIRST, OTHERS, Follows::Try(Say::Ask)),
    SenderLine(FIRST, EOT, Follows::OverEnded),
    SenderLine(FIRST_SAID, ACK0, Follows::Try(Say::Ask)),
    SenderLine(&[Sending::Ask1], ACK0, Follows::Try(Say::Again)),
    SenderLine(SECOND, ACK0, Follows::Counted),
    SenderLine(NO_RVI, RVI, Follows::Counted),
    SenderLine(SECOND_SAID, ACK1, Follows::Try(Say::Ask)),
    SenderLine(SECOND_ASKED, ACK1, Follows::Try(Say::Again)),
    SenderLine(&[Sending::Block2AfterRvi], RVI, Follows::Try(Say::Ask)),
    SenderLine(&[Sending::Ask2AfterRvi], RVI, Follows::Try(Say::Again)),
    SenderLine(&[Sending::PausedDelay], NAK, Follows::Hold(Say::Delay)),
    SenderLine(&[Sending::Delay], NAK, Follows::Hold(Say::Block)),
    SenderLine(DELAYS, WACK, Follows::Hold(Say::Delay)),
    SenderLine(DELAYS, OTHERS, Follows::Try(Say::Delay)),
    SenderLine(DELAYS, NO_DELAY, Follows::Try(Say::Delay)),
    SenderLine(DELAYS, EOT, Follows::OverEnded),
    SenderLine(ENDS, ALL_SOUNDS, Follows::NothingChanges),
];

/// Where progress leads.
#[derive(Clone, Copy)]
enum Leads {
    Block,
    Delay,
    Done,
    Turned,
}

/// A progress: the states and their sounds, what follows the outstanding block, whether there is a pause, and where it leads.
#[derive(Clone, Copy)]
struct ProgressLine(&'static [(Sending, Sound)], Next, bool, Leads);

const UNNOTED: &[(Sending, Sound)] = &[(Sending::Bid, Sound::Ack0), (Sending::Block1, Sound::Ack1)];

/// An RVI is noted then.
const NOTED: &[(Sending, Sound)] = &[
    (Sending::Block1, Sound::Rvi),
    (Sending::Block2AfterRvi, Sound::Ack0),
    (Sending::Ask2AfterRvi, Sound::Ack0),
];

static PROGRESS_TABLE: [ProgressLine; 9] = [
    ProgressLine(UNNOTED, Next::Done, true, Leads::Done),
    ProgressLine(UNNOTED, Next::NewJob, true, Leads::Delay),
    ProgressLine(UNNOTED, Next::NewJob, false, Leads::Block),
    ProgressLine(NOTED, Next::NewJob, true, Leads::Turned),
    ProgressLine(NOTED, Next::NewJob, false, Leads::Turned),
    ProgressLine(NOTED, Next::Block, true, Leads::Delay),
    ProgressLine(NOTED, Next::Block, false, Leads::Block),
    ProgressLine(NOTED, Next::Done, true, Leads::Done),
    ProgressLine(NOTED, Next::Done, false, Leads::Done),
];

/// A new sender that came to this state, where it can with a try and a hold counted.
fn sender_at(at: Sending) -> Sender {
    let mut sender = Sender::new();
    let heard: &[Sound] = match at {
        Sending::Bid => &[Sound::Wack, Sound::Quiet],
        Sending::Block1 => &[Sound::Ack0],
        Sending::Again1 => &[Sound::Ack0, Sound::Wack, Sound::Nak],
        Sending::Ask1 => &[Sound::Ack0, Sound::Wack, Sound::Quiet],
        Sending::Block2 => &[Sound::Ack0, Sound::Ack1],
        Sending::Again2 => &[Sound::Ack0, Sound::Ack1, Sound::Wack, Sound::Nak],
        Sending::Ask2 => &[Sound::Ack0, Sound::Ack1, Sound::Wack, Sound::Quiet],
        Sending::Block2AfterRvi => &[Sound::Ack0, Sound::Rvi],
        Sending::Ask2AfterRvi => &[Sound::Ack0, Sound::Rvi, Sound::Wack, Sound::Quiet],
        Sending::Delay | Sending::PausedDelay | Sending::End | Sending::Over => &[],
    };
    for sound in heard {
        sender.hear(*sound, Next::Block, false);
    }
    match at {
        Sending::Delay | Sending::PausedDelay => {
            sender.hear(Sound::Ack0, Next::NewJob, true);
            sender.hear(Sound::Wack, Next::NewJob, true);
            sender.hear(Sound::Quiet, Next::NewJob, true);
        }
        Sending::End => {
            sender.hear(Sound::Ack0, Next::Done, false);
        }
        Sending::Over => {
            sender.hear(Sound::Ack0, Next::Done, false);
            sender.sent_end();
        }
        _ => {}
    }
    sender
}

/// The tries that a sender keeps while it waits for an answer: silence makes it give up at the seventh.
fn tries_of(sender: Sender) -> usize
    ensures { result ≤ 7 }
{
    let mut sender = sender;
    for more in 0..7 {
        if sender.say() == Say::End {
            return 7 - more;
        }
        sender.hear(Sound::Quiet, Next::Block, false);
    }
    0
}

/// The holds that a sender keeps while it waits for an answer: WACK makes it give up at the three hundredth.
fn holds_of(sender: Sender) -> usize
    ensures { result ≤ 300 }
{
    let mut sender = sender;
    for more in 0..300 {
        if sender.say() == Say::End {
            return 300 - more;
        }
        sender.hear(Sound::Wack, Next::Block, false);
    }
    0
}

/// A state of a receiver from which lines of its table are tried. The number is that of the last block accepted.
#[derive(Clone, Copy)]
enum Receiving {
    Idle,
    Granted,
    BidHeld,
    Block1,
    Held1,
    Held2,
    Refused,
    RviMade,
    Ended,
}

const ALL_RECEIVING: [Receiving; 9] = [
    Receiving::Idle,
    Receiving::Granted,
    Receiving::BidHeld,
    Receiving::Block1,
    Receiving::Held1,
    Receiving::Held2,
    Receiving::Refused,
    Receiving::RviMade,
    Receiving::Ended,
];

/// What the receiver's table says.
#[derive(Clone, Copy)]
enum Answers {
    With(Reply),
    Accepts(Reply),
    Ends,
    NothingChanges,
}

impl Answers {
    fn news(self) -> ReceiverNews {
        let (accepted, reply, ended) = match self {
            Answers::With(reply) => (false, Some(reply), false),
            Answers::Accepts(reply) => (true, Some(reply), false),
            Answers::Ends => (false, None, true),
            Answers::NothingChanges => (false, None, false),
        };
        ReceiverNews {
            accepted,
            reply,
            ended,
        }
    }
}

/// A line of the receiver's table: the state, the sounds, the wishes, and what follows.
#[derive(Clone, Copy)]
struct ReceiverLine(Receiving, &'static [Sound], &'static [Wish], Answers);

const ANY: &[Wish] = &[Wish::Go, Wish::Hold, Wish::Turn];

const GO: &[Wish] = &[Wish::Go];

const HOLD: &[Wish] = &[Wish::Hold];

const TURN: &[Wish] = &[Wish::Turn];

const NO_HOLD: &[Wish] = &[Wish::Go, Wish::Turn];

/// The sounds that an idle receiver doesn't answer.
const NO_BID: &[Sound] = &[
    Sound::Ack0,
    Sound::Ack1,
    Sound::Nak,
    Sound::Wack,
    Sound::Rvi,
    Sound::Ttd,
    Sound::Abort,
    Sound::Block,
    Sound::Bad,
    Sound::Noise,
    Sound::Quiet,
];

/// The sounds that a receiver in a transmission doesn't answer.
const UNANSWERED: &[Sound] = &[
    Sound::Ack0,
    Sound::Ack1,
    Sound::Nak,
    Sound::Wack,
    Sound::Rvi,
    Sound::Noise,
    Sound::Quiet,
];

const SPOILED: &[Sound] = &[Sound::Bad, Sound::Ttd, Sound::Abort];

static RECEIVER_TABLE: [ReceiverLine; 26] = [
    ReceiverLine(Receiving::Idle, ENQ, HOLD, Answers::With(Reply::Wack)),
    ReceiverLine(Receiving::Idle, ENQ, NO_HOLD, Answers::With(Reply::Ack0)),
    ReceiverLine(Receiving::Idle, EOT, ANY, Answers::Ends),
    ReceiverLine(Receiving::Idle, NO_BID, ANY, Answers::NothingChanges),
    ReceiverLine(
        Receiving::Granted,
        BLOCK,
        HOLD,
        Answers::Accepts(Reply::Wack),
    ),
    ReceiverLine(
        Receiving::Granted,
        BLOCK,
        TURN,
        Answers::Accepts(Reply::Rvi),
    ),
    ReceiverLine(Receiving::Granted, BLOCK, GO, Answers::Accepts(Reply::Ack1)),
    ReceiverLine(
        Receiving::Block1,
        BLOCK,
        HOLD,
        Answers::Accepts(Reply::Wack),
    ),
    ReceiverLine(Receiving::Block1, BLOCK, TURN, Answers::Accepts(Reply::Rvi)),
    ReceiverLine(Receiving::Block1, BLOCK, GO, Answers::Accepts(Reply::Ack0)),
    ReceiverLine(
        Receiving::RviMade,
        BLOCK,
        NO_HOLD,
        Answers::Accepts(Reply::Ack0),
    ),
    ReceiverLine(
        Receiving::RviMade,
        BLOCK,
        HOLD,
        Answers::Accepts(Reply::Wack),
    ),
    ReceiverLine(Receiving::BidHeld, ENQ, HOLD, Answers::With(Reply::Wack)),
    ReceiverLine(Receiving::BidHeld, ENQ, NO_HOLD, Answers::With(Reply::Ack0)),
    ReceiverLine(Receiving::Held1, ENQ, HOLD, Answers::With(Reply::Wack)),
    ReceiverLine(Receiving::Held1, ENQ, NO_HOLD, Answers::With(Reply::Ack1)),
    ReceiverLine(Receiving::Held2, ENQ, NO_HOLD, Answers::With(Reply::Ack0)),
    ReceiverLine(Receiving::Granted, ENQ, ANY, Answers::With(Reply::Ack0)),
    ReceiverLine(Receiving::Block1, ENQ, ANY, Answers::With(Reply::Ack1)),
    ReceiverLine(Receiving::Refused, ENQ, ANY, Answers::With(Reply::Nak)),
    ReceiverLine(Receiving::RviMade, ENQ, ANY, Answers::With(Reply::Rvi)),
    ReceiverLine(Receiving::Block1, SPOILED, ANY, Answers::With(Reply::Nak)),
    ReceiverLine(Receiving::BidHeld, SPOILED, ANY, Answers::With(Reply::Nak)),
    ReceiverLine(Receiving::Block1, EOT, ANY, Answers::Ends),
    ReceiverLine(Receiving::Block1, UNANSWERED, ANY, Answers::NothingChanges),
    ReceiverLine(Receiving::Ended, ALL_SOUNDS, ANY, Answers::NothingChanges),
];

/// A new receiver that came to this state.
fn receiver_at(at: Receiving) -> Receiver {
    let mut receiver = Receiver::new();
    let heard: &[(Sound, Wish)] = match at {
        Receiving::Idle => &[],
        Receiving::Granted => &[(Sound::Enq, Wish::Go)],
        Receiving::BidHeld => &[(Sound::Enq, Wish::Hold)],
        Receiving::Block1 => &[(Sound::Enq, Wish::Go), (Sound::Block, Wish::Go)],
        Receiving::Held1 => &[(Sound::Enq, Wish::Go), (Sound::Block, Wish::Hold)],
        Receiving::Held2 => &[
            (Sound::Enq, Wish::Go),
            (Sound::Block, Wish::Go),
            (Sound::Block, Wish::Hold),
        ],
        Receiving::Refused => &[
            (Sound::Enq, Wish::Go),
            (Sound::Block, Wish::Go),
            (Sound::Bad, Wish::Go),
        ],
        Receiving::RviMade => &[(Sound::Enq, Wish::Go), (Sound::Block, Wish::Turn)],
        Receiving::Ended => &[(Sound::Enq, Wish::Go), (Sound::Eot, Wish::Go)],
    };
    for (sound, wish) in heard {
        receiver.hear(*sound, *wish);
    }
    receiver
}

/// What a sender shows of itself: what is due, its outcome, and the tries and the holds that it keeps.
type Shown = (Say, Option<Outcome>, usize, usize);

fn shown(sender: Sender) -> Shown {
    (
        sender.say(),
        sender.outcome(),
        tries_of(sender),
        holds_of(sender),
    )
}

/// Whether a line of the sender's table holds at this state and sound.
fn sender_line_holds(at: Sending, sound: Sound, follows: Follows) -> bool {
    let before = sender_at(at);
    let mut after = before;
    let news = after.hear(sound, Next::Block, matches!(at, Sending::PausedDelay));
    let (tries, holds) = (tries_of(before), holds_of(before));
    let due = match follows {
        Follows::NothingChanges => return after == before && !news.counted,
        Follows::Progress | Follows::Counted => (Say::Block, None, 0, 0),
        Follows::Try(due) => (due, None, tries + 1, holds),
        Follows::Hold(due) => (due, None, tries, holds + 1),
        Follows::OverEnded => (Say::Nothing, Some(Outcome::Ended), 0, 0),
    };
    news.counted == matches!(follows, Follows::Counted) && shown(after) == due
}

/// Whether a line of the receiver's table holds at this sound and wish.
fn receiver_line_holds(line: &ReceiverLine, sound: Sound, wish: Wish) -> bool {
    let ReceiverLine(at, _, _, answers) = *line;
    let before = receiver_at(at);
    let mut receiver = before;
    if receiver.hear(sound, wish) != answers.news() {
        return false;
    }
    match answers {
        Answers::NothingChanges => receiver == before,
        Answers::Ends => receiver.hear(Sound::Enq, Wish::Go).reply.is_none(),
        Answers::With(reply) | Answers::Accepts(reply) => {
            receiver.hear(Sound::Enq, Wish::Hold).reply == Some(reply)
        }
    }
}

fn assert_sender_table(rt: &impl Abort) {
    for (number, line) in SENDER_TABLE.iter().enumerate() {
        for at in line.0 {
            for sound in line.1 {
                assert!(rt;
                    sender_line_holds(*at, *sound, line.2),
                    "line {number} at {sound:?}"
                );
            }
        }
    }
}

/// Whether a progress from this state leads where its line says.
fn progress_holds(at: Sending, sound: Sound, line: &ProgressLine) -> bool {
    let (due, outcome) = match line.3 {
        Leads::Block => (Say::Block, None),
        Leads::Delay => (Say::Delay, None),
        Leads::Done => (Say::End, Some(Outcome::Done)),
        Leads::Turned => (Say::End, Some(Outcome::Turned)),
    };
    let mut sender = sender_at(at);
    sender.hear(sound, line.1, line.2);
    is_due(sender, due, outcome)
}

fn assert_progress_table(rt: &impl Abort) {
    for (number, line) in PROGRESS_TABLE.iter().enumerate() {
        for (at, sound) in line.0 {
            assert!(rt;
                progress_holds(*at, *sound, line),
                "line {number} at {sound:?}"
            );
        }
    }
}

fn assert_receiver_table(rt: &impl Abort) {
    for (number, line) in RECEIVER_TABLE.iter().enumerate() {
        for sound in line.1 {
            for wish in line.2 {
                assert!(rt;
                    receiver_line_holds(line, *sound, *wish),
                    "line {number} at {sound:?}"
                );
            }
        }
    }
}

#[test]
fn each_line_of_both_tables_holds(rt: HostRuntime) {
    assert_sender_table(&rt);
    assert_progress_table(&rt);
    assert_receiver_table(&rt);
}

#[test]
fn sent_end_moves_from_end_alone(rt: HostRuntime) {
    for (number, at) in ALL_SENDING.iter().enumerate() {
        let before = sender_at(*at);
        let mut sender = before;
        sender.sent_end();
        let follows = if let Sending::End = *at {
            sender.say() == Say::Nothing && sender.outcome() == Some(Outcome::Done)
        } else {
            sender == before
        };
        assert!(rt; follows, "at state {number}");
    }
}

#[test]
fn a_long_quiet_ends_a_receiver_at_every_place(rt: HostRuntime) {
    for (number, at) in ALL_RECEIVING.iter().enumerate() {
        let mut receiver = receiver_at(*at);
        receiver.quiet_long();
        let reply = receiver.hear(Sound::Enq, Wish::Go).reply;
        let accepted = receiver.hear(Sound::Block, Wish::Go).accepted;
        assert!(rt; reply.is_none() && !accepted, "at state {number}");
    }
}

/// Whether this is due of the sender, and it has this outcome.
fn is_due(sender: Sender, due: Say, outcome: Option<Outcome>) -> bool {
    sender.say() == due && sender.outcome() == outcome
}

#[test]
fn six_quiet_bids_are_made_up_for_and_a_seventh_gives_up(rt: HostRuntime) {
    let mut sender = Sender::new();
    for _ in 0..6 {
        sender.hear(Sound::Quiet, Next::NewJob, false);
    }
    assert!(rt; sender.say() == Say::Bid);
    let mut granted = sender;
    granted.hear(Sound::Ack0, Next::NewJob, false);
    assert!(rt; is_due(granted, Say::Block, None));
    sender.hear(Sound::Quiet, Next::NewJob, false);
    assert!(rt; is_due(sender, Say::End, Some(Outcome::GaveUp)));
}

#[test]
fn a_bid_is_held_299_times_and_no_more(rt: HostRuntime) {
    let mut sender = Sender::new();
    for _ in 0..299 {
        sender.hear(Sound::Wack, Next::NewJob, false);
    }
    assert!(rt; is_due(sender, Say::Bid, None));
    sender.hear(Sound::Wack, Next::NewJob, false);
    assert!(rt; is_due(sender, Say::End, Some(Outcome::GaveUp)));
}

/// What comes to a receiver, its wish, and what it replies.
const TURNS: [(Sound, Wish, Reply); 7] = [
    (Sound::Enq, Wish::Go, Reply::Ack0),
    (Sound::Block, Wish::Turn, Reply::Rvi),
    (Sound::Enq, Wish::Go, Reply::Rvi),
    (Sound::Block, Wish::Turn, Reply::Ack0),
    (Sound::Block, Wish::Hold, Reply::Wack),
    (Sound::Enq, Wish::Hold, Reply::Wack),
    (Sound::Enq, Wish::Go, Reply::Ack1),
];

#[test]
fn a_receiver_answers_turn_by_turn(rt: HostRuntime) {
    let mut receiver = Receiver::new();
    for (number, (sound, wish, reply)) in TURNS.iter().enumerate() {
        let news = ReceiverNews {
            accepted: *sound == Sound::Block,
            reply: Some(*reply),
            ended: false,
        };
        assert!(rt; receiver.hear(*sound, *wish) == news, "turn {number}");
    }
}
