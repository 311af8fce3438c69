//! Runs of two stations that both have jobs: who speaks, who yields, and that each way is a conversation of its own.
use super::schedules::{
    BID, BLOCK_ACK1, DOWN_LOST, END, GOOD, HOLD, Line, PAUSE, Place, TURN, UP_LOST, Way,
    assert_equal_jobs, assert_turn, bad_jobs, cut, damaged, job_of, jobs_of, pair_schedule_of,
    schedule_of,
};
use bsc_link::{Outcome, Rank, Reply, Say, Sound, Wish};
use line_world::{Report, Spoken, WorldFault, run};
use pair_world::{Bids, PairReport, PairTurn, Paired, Side, drive_pair, run_pair};
use rje_jobs::{Job, Jobs};
use rje_station::Station;
use rje_text::{Mode, Select};
use std::alloc::{AllocGlobal, Global};
use std::process::Abort;

/// A turn of a schedule: who speaks where both could, and what the line does.
type Pairing = (Bids, Place);

const BOTH: Pairing = (Bids::Both, GOOD);

const P: Pairing = (Bids::Primary, GOOD);

const S: Pairing = (Bids::Secondary, GOOD);

const P_LOST: Pairing = (Bids::Primary, UP_LOST);

const S_LOST: Pairing = (Bids::Secondary, UP_LOST);

const P_UNHEARD: Pairing = (Bids::Primary, DOWN_LOST);

const S_HELD: Pairing = (Bids::Secondary, HOLD);

/// A printed turn: what the primary and the secondary said, where they spoke.
type PairLine = (Option<Line>, Option<Line>);

const VAIN: Line = Line(Say::Bid, Sound::Quiet, None, Sound::Quiet);

const LAST: Line = Line(Say::End, Sound::Quiet, None, Sound::Quiet);

const UNHEARD: Line = Line(Say::Bid, Sound::Enq, Some(Reply::Ack0), Sound::Quiet);

const HELD: Line = Line(Say::Bid, Sound::Enq, Some(Reply::Wack), Sound::Wack);

const COLLISION: PairLine = (Some(VAIN), Some(VAIN));

const END_VAIN: PairLine = (Some(LAST), Some(VAIN));

const PASSED: PairLine = (None, Some(Line(Say::Bid, Sound::Enq, None, Sound::Quiet)));

const UP_BID: PairLine = (Some(BID), None);

const UP_UNHEARD: PairLine = (Some(UNHEARD), None);

const UP_VAIN: PairLine = (Some(VAIN), None);

const UP_BLOCK: PairLine = (Some(BLOCK_ACK1), None);

const UP_END: PairLine = (Some(END), None);

const UP_LAST: PairLine = (Some(LAST), None);

const DOWN_BID: PairLine = (None, Some(BID));

const DOWN_HELD: PairLine = (None, Some(HELD));

const DOWN_VAIN: PairLine = (None, Some(VAIN));

const DOWN_BLOCK: PairLine = (None, Some(BLOCK_ACK1));

const DOWN_END: PairLine = (None, Some(END));

const DOWN_LAST: PairLine = (None, Some(LAST));

/// What becomes of a station's jobs: those that the other one delivers, how many are counted, and the outcome.
type Fares<'a> = (&'a [Job], usize, Option<Outcome>);

fn all_sent(jobs: &[Job]) -> Fares<'_> {
    (jobs, jobs.len(), Some(Outcome::Done))
}

/// Nothing becomes of the jobs.
fn nothing<'a>(outcome: Option<Outcome>) -> Fares<'a> {
    (&[], 0, outcome)
}

const GAVE_UP: Option<Outcome> = Some(Outcome::GaveUp);

/// The call that makes a report.
#[derive(Clone, Copy)]
pub(super) enum Call {
    Run,
    Drive,
}

const CALLS: [Call; 2] = [Call::Run, Call::Drive];

/// The report of these jobs of the primary and of the secondary, by this call.
pub(super) fn report_by(
    call: Call,
    alloc: Global,
    jobs: (&[Job], &[Job]),
    turns: &[PairTurn],
) -> Result<PairReport, WorldFault> {
    if let Call::Run = call {
        return run_pair(alloc, jobs.0, jobs.1, turns);
    }
    let primary = Station::new(alloc, Rank::Primary, jobs.0)?;
    let secondary = Station::new(alloc, Rank::Secondary, jobs.1)?;
    let Paired {
        turns,
        primary,
        secondary,
    } = drive_pair(alloc, primary, secondary, turns)?;
    let up = (primary.sender().counted(), primary.sender().outcome());
    let down = (secondary.sender().counted(), secondary.sender().outcome());
    Ok(PairReport {
        turns,
        up: side(secondary.take(), up),
        down: side(primary.take(), down),
    })
}

/// The report of these jobs, which can be sent, over a schedule that breaks no rule.
fn report_of(
    rt: &(impl Abort + AllocGlobal),
    call: Call,
    jobs: (&[Job], &[Job]),
    turns: &[PairTurn],
) -> PairReport {
    report_by(call, rt.alloc(), jobs, turns).expect(rt, "a report")
}

fn side(handed: Vec<Job>, (counted, outcome): (usize, Option<Outcome>)) -> Side {
    Side {
        handed: Jobs::from(handed),
        counted,
        outcome,
    }
}

/// What one station said is what is printed, or it didn't speak and nothing is.
fn assert_part(rt: &impl Abort, shows: &str, spoken: Option<Spoken>, line: Option<Line>) {
    match (spoken, line) {
        (None, None) => {}
        (Some(spoken), Some(line)) => assert_turn(rt, &spoken, &line),
        (_, line) => assert!(rt; false, "{line:?} where {shows}"),
    }
}

fn assert_side(rt: &impl Abort, side: &Side, fares: Fares<'_>) {
    assert_equal_jobs(rt, side.handed.as_slice(), fares.0);
    assert!(rt; side.counted == fares.1);
    assert!(rt; side.outcome == fares.2);
}

/// Over this schedule both calls report the turns that are printed, and this becomes of the jobs of the primary and of the secondary.
fn assert_pair(
    rt: &(impl Abort + AllocGlobal),
    shows: &str,
    jobs: (&[Job], &[Job]),
    places: &[Pairing],
    lines: &[PairLine],
    fares: (Fares<'_>, Fares<'_>),
) {
    let turns = pair_schedule_of(rt, places);
    for call in CALLS {
        let report = report_of(rt, call, jobs, &turns);
        assert!(rt; report.turns.len() == lines.len(), "turns where {shows}");
        for (place, turn) in report.turns.iter().enumerate() {
            let line = lines[place];
            assert_part(rt, shows, turn.primary, line.0);
            assert_part(rt, shows, turn.secondary, line.1);
        }
        assert_side(rt, &report.up, fares.0);
        assert_side(rt, &report.down, fares.1);
    }
}

/// One job of one block each way: the turns, and what becomes of the jobs.
fn assert_one_each(rt: &(impl Abort + AllocGlobal), places: &[Pairing], lines: &[PairLine]) {
    let (ups, downs) = (jobs_of(rt, &[(1, 1)]), jobs_of(rt, &[(1, 2)]));
    let fares = (all_sent(&ups), all_sent(&downs));
    assert_pair(rt, "both are done", (&ups, &downs), places, lines, fares);
}

/// A conversation of one job of one block each way: what it shows, the schedule, the turns, and whether each way is done or given up.
struct Talk(
    &'static str,
    &'static [Pairing],
    &'static [PairLine],
    (bool, bool),
);

static TALKS: [Talk; 8] = [
    Talk(
        "after a collision the secondary gives way",
        &[BOTH, S, P, BOTH, BOTH, BOTH, BOTH, BOTH, BOTH],
        &[
            COLLISION, PASSED, UP_BID, UP_BLOCK, UP_END, DOWN_BID, DOWN_BLOCK, DOWN_END,
        ],
        (true, true),
    ),
    Talk(
        "a lost end is told all the same, and whoever may bid, a granted transmission goes on",
        &[BOTH, S, P, S, S_LOST, P, P, P, P],
        &[
            COLLISION, PASSED, UP_BID, UP_BLOCK, UP_LAST, DOWN_BID, DOWN_BLOCK, DOWN_END,
        ],
        (true, true),
    ),
    Talk(
        "a secondary that gave up says so once it may speak",
        &[BOTH, S, S, S, S, S, S, P, P, P, P, P],
        &[
            COLLISION, PASSED, PASSED, PASSED, PASSED, PASSED, PASSED, UP_BID, UP_BLOCK, UP_END,
            DOWN_END,
        ],
        (true, false),
    ),
    Talk(
        "a secondary that took a bid is silent until the end",
        &[P_UNHEARD, S, S, S, S, S, S],
        &[
            UP_UNHEARD, UP_BID, UP_BLOCK, UP_END, DOWN_BID, DOWN_BLOCK, DOWN_END,
        ],
        (true, true),
    ),
    Talk(
        "a primary that holds a bid is silent until the end",
        &[S_HELD, P, P, P, P, P, P],
        &[
            DOWN_HELD, DOWN_BID, DOWN_BLOCK, DOWN_END, UP_BID, UP_BLOCK, UP_END,
        ],
        (true, true),
    ),
    Talk(
        "a secondary that takes a bid counts its own anew",
        &[
            S_LOST, S_LOST, S_LOST, P, P, P, S_LOST, S_LOST, S_LOST, S_LOST, S_LOST, S_LOST,
            S_LOST, S_LOST, P,
        ],
        &[
            DOWN_VAIN, DOWN_VAIN, DOWN_VAIN, UP_BID, UP_BLOCK, UP_END, DOWN_VAIN, DOWN_VAIN,
            DOWN_VAIN, DOWN_VAIN, DOWN_VAIN, DOWN_VAIN, DOWN_VAIN, DOWN_LAST,
        ],
        (true, false),
    ),
    Talk(
        "a primary passes bids over until it said its end",
        &[
            P_LOST, P_LOST, P_LOST, S, S, P_LOST, P_LOST, P_LOST, P_LOST, S, P, S, S, S, S,
        ],
        &[
            UP_VAIN, UP_VAIN, UP_VAIN, PASSED, PASSED, UP_VAIN, UP_VAIN, UP_VAIN, UP_VAIN, PASSED,
            UP_END, DOWN_BID, DOWN_BLOCK, DOWN_END,
        ],
        (false, true),
    ),
    Talk(
        "an end that meets a bid is told all the same",
        &[
            P_LOST, P_LOST, P_LOST, P_LOST, P_LOST, P_LOST, P_LOST, BOTH, P, P, P, P,
        ],
        &[
            UP_VAIN, UP_VAIN, UP_VAIN, UP_VAIN, UP_VAIN, UP_VAIN, UP_VAIN, END_VAIN, DOWN_BID,
            DOWN_BLOCK, DOWN_END,
        ],
        (false, true),
    ),
];

fn fares(done: bool, jobs: &[Job]) -> Fares<'_> {
    if done {
        all_sent(jobs)
    } else {
        nothing(GAVE_UP)
    }
}

#[test]
fn each_conversation_goes_turn_by_turn(rt: HostRuntime) {
    let (ups, downs) = (jobs_of(&rt, &[(1, 1)]), jobs_of(&rt, &[(1, 2)]));
    for Talk(shows, places, lines, (up, down)) in &TALKS {
        let fares = (fares(*up, &ups), fares(*down, &downs));
        assert_pair(&rt, shows, (&ups, &downs), places, lines, fares);
    }
}

// ONE WAY ALONE

const L: Place = UP_LOST;

static SCHEDULES: [&'static [Place]; 7] = [
    &[GOOD, GOOD, GOOD, GOOD, GOOD, GOOD],
    &[L, GOOD, DOWN_LOST, GOOD, L, DOWN_LOST, GOOD, GOOD, GOOD],
    &[TEXT, GOOD, GOOD, GOOD],
    &[HOLD, GOOD, HOLD, GOOD, PAUSE, PAUSE, GOOD, GOOD, GOOD, GOOD],
    &[GOOD, GOOD, TURN, GOOD, GOOD],
    &[L, L, L, L, L, L, L, GOOD],
    &[GOOD, GOOD, L, L, L, L, L, L, L, GOOD],
];

/// The schedule of a pair in which the secondary may always bid.
fn as_pair_schedule(rt: &(impl Abort + AllocGlobal), places: &[Place]) -> Vec<PairTurn> {
    let mut pairings = Vec::new(rt.alloc());
    for place in places {
        assert!(rt; pairings.push((Bids::Secondary, *place)).is_ok());
    }
    pair_schedule_of(rt, &pairings)
}

/// The primary's way is this run, and nothing goes the other way.
fn assert_one_way(rt: &impl Abort, pair: &PairReport, report: &Report) {
    let handed = report.handed.as_slice();
    assert_side(rt, &pair.up, (handed, report.counted, report.outcome));
    assert_side(rt, &pair.down, all_sent(&[]));
    assert!(rt; pair.turns.len() == report.turns.len());
    for (place, turn) in pair.turns.iter().enumerate() {
        assert!(rt; turn.primary == Some(report.turns[place]) && turn.secondary.is_none());
    }
}

/// By each call, over this schedule the pair reports what a run of the primary's jobs does, or the same fault.
fn assert_is_a_run(rt: &(impl Abort + AllocGlobal), jobs: &[Job], places: &[Place]) {
    let turns = schedule_of(rt, places);
    let pair_turns = as_pair_schedule(rt, places);
    for call in CALLS {
        let pair = report_by(call, rt.alloc(), (jobs, &[]), &pair_turns);
        match (run(rt.alloc(), jobs, &turns), pair) {
            (Ok(report), Ok(pair)) => assert_one_way(rt, &pair, &report),
            (report, pair) => assert!(rt; report.err() == pair.err()),
        }
    }
}

#[test]
fn without_jobs_of_the_secondary_the_primarys_way_is_a_run(rt: HostRuntime) {
    let jobs = jobs_of(&rt, &[(7, 80), (1, 1)]);
    for places in SCHEDULES {
        assert_is_a_run(&rt, &jobs, places);
    }
}

/// With these jobs of both, the schedule ends at once, and after the last block of the primary was counted, before its EOT.
fn assert_schedule_ends(rt: &(impl Abort + AllocGlobal), jobs: &[Job]) {
    let (shows, open) = ("the schedule ends", nothing(None));
    assert_pair(rt, shows, (jobs, jobs), &[], &[], (open, open));
    let lines = [UP_BID, UP_BLOCK];
    assert_pair(
        rt,
        shows,
        (jobs, jobs),
        &[P; 2],
        &lines,
        (all_sent(jobs), open),
    );
}

#[test]
fn with_no_jobs_or_no_schedule_nothing_is_said(rt: HostRuntime) {
    let (shows, none) = ("nobody has jobs", all_sent(&[]));
    let unread = [(Bids::Both, cut(&[0]))];
    assert_pair(&rt, shows, (&[], &[]), &unread, &[], (none, none));
    assert_pair(&rt, shows, (&[], &[]), &[], &[], (none, none));
    let jobs = jobs_of(&rt, &[(1, 1)]);
    assert_schedule_ends(&rt, &jobs);
}

// JOBS

/// On a clean line all these jobs are sent, in this many turns.
fn assert_all_sent(rt: &(impl Abort + AllocGlobal), ups: &[Job], downs: &[Job], count: usize) {
    let mut pairings = Vec::new(rt.alloc());
    for _ in 0..=count {
        assert!(rt; pairings.push(S).is_ok());
    }
    let turns = pair_schedule_of(rt, &pairings);
    for call in CALLS {
        let report = report_of(rt, call, (ups, downs), &turns);
        assert!(rt; report.turns.len() == count);
        assert_side(rt, &report.up, all_sent(ups));
        assert_side(rt, &report.down, all_sent(downs));
    }
}

/// Jobs of two cards for these devices.
fn cards<const N: usize>(rt: &(impl Abort + AllocGlobal), kinds: [(Select, Mode); N]) -> Vec<Job> {
    let mut jobs = Vec::new(rt.alloc());
    for (select, mode) in kinds {
        let mut job = job_of(rt, 2, 80);
        job.select = select;
        job.mode = mode;
        assert!(rt; jobs.push(job).is_ok());
    }
    jobs
}

#[test]
fn jobs_of_each_device_and_mode_go_each_way(rt: HostRuntime) {
    let plain = (Select::Unset, Mode::Normal);
    let printed = (Select::Printer, Mode::Normal);
    let punched = (Select::Punch, Mode::Normal);
    let transparent = (Select::Punch, Mode::Transparent);
    let ups = cards(&rt, [plain, printed, punched, transparent]);
    let downs = cards(&rt, [transparent, punched, plain, printed]);
    assert_all_sent(&rt, &ups, &downs, 12);
}

#[test]
fn a_hundred_jobs_go_each_way(rt: HostRuntime) {
    let (mut ups, mut downs) = (Vec::new(rt.alloc()), Vec::new(rt.alloc()));
    for i in 0..100 {
        assert!(rt; ups.push(job_of(&rt, 1, i + 1)).is_ok());
        assert!(rt; downs.push(job_of(&rt, 2, 100 - i)).is_ok());
    }
    assert_all_sent(&rt, &ups, &downs, 204);
}

// FAULTS

/// Over this schedule one job of one block each way is refused so, by both calls.
fn assert_refused(rt: &(impl Abort + AllocGlobal), places: &[Pairing], fault: WorldFault) {
    let jobs = jobs_of(rt, &[(1, 1)]);
    let turns = pair_schedule_of(rt, places);
    for call in CALLS {
        let refused = report_by(call, rt.alloc(), (&jobs, &jobs), &turns).err();
        assert!(rt; refused == Some(fault));
    }
}

/// A good turn except the fate of the reply.
fn answered(down: Way) -> Place {
    Place { down, ..GOOD }
}

const TEXT: Place = Place {
    up: Way::Damaged(&[0x32, 0x32, 0x02, 0xC1]),
    ..GOOD
};

/// This place is refused so where one speaks, and not used in a collision.
fn assert_not_looked_at(rt: &(impl Abort + AllocGlobal), place: Place, fault: WorldFault) {
    assert_refused(rt, &[(Bids::Primary, place)], fault);
    assert_refused(rt, &[(Bids::Secondary, place)], fault);
    let vain = Place {
        wish: Wish::Hold,
        pause: true,
        ..place
    };
    let both = Bids::Both;
    let places = [(both, place), (both, vain), P, P, P, P, P, P];
    let lines = [
        COLLISION, COLLISION, UP_BID, UP_BLOCK, UP_END, DOWN_BID, DOWN_BLOCK, DOWN_END,
    ];
    assert_one_each(rt, &places, &lines);
}

#[test]
fn in_a_collision_fates_and_wish_are_not_looked_at(rt: HostRuntime) {
    let eot: &[u8] = &[0x32, 0x32, 0x37];
    let (no_damage, bad_cut) = (WorldFault::NotDamage(1, 1), WorldFault::BadCut(1, 1));
    for (place, fault) in [
        (TEXT, no_damage),
        (damaged(eot), no_damage),
        (answered(Way::Damaged(eot)), no_damage),
        (cut(&[0]), bad_cut),
        (cut(&[4]), bad_cut),
        (answered(Way::Cut(&[5])), bad_cut),
    ] {
        assert_not_looked_at(&rt, place, fault);
    }
}

#[test]
fn where_one_speaks_the_first_broken_fate_is_told(rt: HostRuntime) {
    let (p, s) = (Bids::Primary, Bids::Secondary);
    let (no_damage, bad_cut) = (WorldFault::NotDamage(1, 2), WorldFault::BadCut(1, 2));
    assert_refused(&rt, &[BOTH, (p, TEXT)], no_damage);
    // A bid that is passed over arrives all the same, and no answer to it does.
    assert_refused(&rt, &[BOTH, (s, TEXT)], no_damage);
    assert_refused(&rt, &[BOTH, (s, cut(&[4]))], bad_cut);
    let places = [BOTH, (s, answered(Way::Cut(&[0]))), (p, TEXT)];
    assert_refused(&rt, &places, WorldFault::NotDamage(1, 3));
    // The acknowledgement has five bytes. Where both fates break a rule, the fault of the block's is reported.
    let down = answered(Way::Cut(&[5]));
    assert_refused(&rt, &[S, (p, down)], bad_cut);
    let up = Way::Damaged(&[0x32, 0x32, 0x37]);
    let places = [P, P, P, P, (p, Place { up, ..down })];
    assert_refused(&rt, &places, WorldFault::NotDamage(1, 5));
}

#[test]
fn jobs_that_cannot_be_sent_count_from_the_primarys_first(rt: HostRuntime) {
    let good = jobs_of(&rt, &[(1, 1), (1, 1)]);
    let bad = bad_jobs(&rt);
    let turns = pair_schedule_of(&rt, &[(Bids::Primary, cut(&[0]))]);
    let cases: [(&[Job], &[Job], usize); 5] = [
        (&bad, &good, 2),
        (&good, &bad, 4),
        (&bad, &bad, 2),
        (&[], &bad, 2),
        (&bad, &[], 2),
    ];
    for (ups, downs, number) in cases {
        let fault = run_pair(rt.alloc(), ups, downs, &turns).err();
        assert!(rt; fault == Some(WorldFault::BadJob(number)));
    }
}
