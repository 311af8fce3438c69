//! Whole connections.

use super::book::{Book, Note};
use super::script::Script;
use bsc_link::Rank;
use rje_day::{Day, DayEvent, Disposition, Settings};
use rje_jobs::{Job, job_of_deck};
use rje_session::{ConnectionEnd, Terms, stay};
use rje_station::{LineFault, StationFault};
use rje_text::{Mode, Select};
use std::alloc::{AllocError, AllocGlobal, Global};
use std::process::Abort;

const ENQ: [u8; 4] = [0x32, 0x32, 0x2D, 0xFF];

const ACK0: [u8; 5] = [0x32, 0x32, 0x10, 0x70, 0xFF];

const NAK: [u8; 4] = [0x32, 0x32, 0x3D, 0xFF];

const ACK1: [u8; 5] = [0x32, 0x32, 0x10, 0x61, 0xFF];

/// The block of the record C1 that ends its job.
const BLOCK: [u8; 9] = [0x32, 0x32, 0x02, 0xC1, 0x1E, 0x03, 0x18, 0x5D, 0xFF];

/// The block of the record C1 that more blocks follow.
const MORE: [u8; 9] = [0x32, 0x32, 0x02, 0xC1, 0x1E, 0x26, 0xD9, 0x86, 0xFF];

const EOT: [u8; 4] = [0x32, 0x32, 0x37, 0xFF];

/// The third bytes of a bid, a block, EOT and an acknowledgement.
const SAID_BID: u8 = 0x2D;

const SAID_BLOCK: u8 = 0x02;

const SAID_END: u8 = 0x37;

const SAID_ACK: u8 = 0x10;

/// So many small jobs.
fn decks(alloc: Global, count: usize) -> Result<Vec<Job>, AllocError> {
    let mut jobs = Vec::new(alloc);
    for _ in 0..count {
        if let Ok(job) = job_of_deck(alloc, b"PAY 1\n", Select::Unset, Mode::Normal) {
            jobs.push(job)?;
        }
    }
    Ok(jobs)
}

/// A spool with so many jobs, that is drained after so many looks, and whose call of this number fails.
fn book(rt: &(impl Abort + AllocGlobal), jobs: usize, looks: u32, failing: u32) -> Book {
    let jobs = decks(rt.alloc(), jobs).expect(rt, "no memory");
    Book::new(jobs, looks, failing)
}

/// Stays on a line until the station is drained. How the connection came to its end; nothing where the spool failed.
fn parts(
    rt: &(impl Abort + AllocGlobal),
    terms: Terms,
    line: &mut Script,
    spool: &mut Book,
) -> Option<ConnectionEnd> {
    let settings = Settings {
        calls: false,
        once: false,
        patience: 40,
    };
    let mut day = Day::new(settings);
    day.note(DayEvent::Connected);
    stay(rt.alloc(), terms, &mut day, line, spool).ok()
}

/// The terms of a primary, with an end like it or with a host.
fn terms(host: bool) -> Terms {
    Terms {
        rank: Rank::Primary,
        patience: 3,
        host,
    }
}

/// Stays on a line until the station is drained. Whether the spool didn't fail.
fn stays(rt: &(impl Abort + AllocGlobal), rank: Rank, line: &mut Script, spool: &mut Book) -> bool {
    let terms = Terms {
        rank,
        ..terms(false)
    };
    parts(rt, terms, line, spool).is_some()
}

#[test]
fn one_job_is_sent(rt: HostRuntime) {
    let mut line = Script::new(&[&ACK0, &ACK1], 0);
    let mut spool = book(&rt, 1, 2, 0);
    assert!(rt; stays(&rt, Rank::Primary, &mut line, &mut spool));
    assert!(rt;
        spool.notes()
            == [
                Note::Given,
                Note::MayArrive(0),
                Note::Settled(0, Disposition::Sent)
            ]
            .as_slice()
    );
    assert!(rt; line.said() == [SAID_BID, SAID_BLOCK, SAID_END].as_slice());
}

#[test]
fn one_job_is_received(rt: HostRuntime) {
    let mut line = Script::new(&[&ENQ, &BLOCK, &EOT], 0);
    let mut spool = book(&rt, 0, 2, 0);
    assert!(rt; stays(&rt, Rank::Primary, &mut line, &mut spool));
    assert!(rt; spool.notes() == [Note::Kept].as_slice());
    assert!(rt; line.said() == [SAID_ACK, SAID_ACK].as_slice());
}

#[test]
fn a_transmission_that_does_not_go_on_is_left(rt: HostRuntime) {
    let mut line = Script::new(&[&ENQ, &MORE, &MORE, &MORE], 0);
    let mut spool = book(&rt, 0, 9, 0);
    spool.leave_after(1);
    assert!(rt; stays(&rt, Rank::Primary, &mut line, &mut spool));
    assert!(rt; spool.notes() == [Note::KeptCut].as_slice());
    assert!(rt; line.said() == [SAID_ACK, SAID_ACK].as_slice());
}

#[test]
fn each_transmission_begins_with_new_stations(rt: HostRuntime) {
    let mut line = Script::new(&[&ENQ, &BLOCK, &EOT, &ENQ, &BLOCK, &EOT], 0);
    let mut spool = book(&rt, 0, 3, 0);
    assert!(rt; stays(&rt, Rank::Secondary, &mut line, &mut spool));
    assert!(rt; spool.notes() == [Note::Kept, Note::Kept].as_slice());
    assert!(rt; line.said() == [SAID_ACK, SAID_ACK, SAID_ACK, SAID_ACK].as_slice());
}

#[test]
fn a_secondary_gives_way(rt: HostRuntime) {
    let mut line = Script::new(&[&ENQ, &BLOCK, &EOT], 0);
    let mut spool = book(&rt, 1, 2, 0);
    assert!(rt; stays(&rt, Rank::Secondary, &mut line, &mut spool));
    assert!(rt;
        spool.notes()
            == [
                Note::Given,
                Note::Kept,
                Note::Settled(0, Disposition::Ready)
            ]
            .as_slice()
    );
    assert!(rt; line.said() == [SAID_ACK, SAID_ACK].as_slice());
}

#[test]
fn a_primary_stands_by_its_bid(rt: HostRuntime) {
    let mut line = Script::new(&[&ENQ, &ACK0, &ACK1], 0);
    let mut spool = book(&rt, 1, 2, 0);
    assert!(rt; stays(&rt, Rank::Primary, &mut line, &mut spool));
    assert!(rt;
        spool.notes()
            == [
                Note::Given,
                Note::MayArrive(0),
                Note::Settled(0, Disposition::Sent)
            ]
            .as_slice()
    );
    assert!(rt; line.said() == [SAID_BID, SAID_BID, SAID_BLOCK, SAID_END].as_slice());
}

#[test]
fn a_line_that_fails_before_the_last_block_leaves_the_job_ready(rt: HostRuntime) {
    let mut line = Script::new(&[&ACK0, &ACK1], 1);
    let mut spool = book(&rt, 1, 2, 0);
    assert!(rt; stays(&rt, Rank::Primary, &mut line, &mut spool));
    assert!(rt; spool.notes() == [Note::Given, Note::Settled(0, Disposition::Ready)].as_slice());
}

#[test]
fn a_line_that_fails_with_the_last_block_out_leaves_the_job_in_doubt(rt: HostRuntime) {
    let mut line = Script::new(&[&ACK0, &ACK1], 2);
    let mut spool = book(&rt, 2, 2, 0);
    assert!(rt; stays(&rt, Rank::Primary, &mut line, &mut spool));
    assert!(rt;
        spool.notes()
            == [
                Note::Given,
                Note::MayArrive(0),
                Note::Settled(0, Disposition::InDoubt),
                Note::Settled(1, Disposition::Ready)
            ]
            .as_slice()
    );
}

#[test]
fn a_line_that_fails_once_a_job_is_counted_leaves_it_sent(rt: HostRuntime) {
    let mut line = Script::new(&[&ACK0, &ACK1], 3);
    let mut spool = book(&rt, 1, 2, 0);
    assert!(rt; stays(&rt, Rank::Primary, &mut line, &mut spool));
    assert!(rt;
        spool.notes()
            == [
                Note::Given,
                Note::MayArrive(0),
                Note::Settled(0, Disposition::Sent)
            ]
            .as_slice()
    );
}

#[test]
fn nothing_is_said_where_the_spool_fails(rt: HostRuntime) {
    let said = [SAID_BID, SAID_BLOCK];
    for failing in 1..4 {
        let mut line = Script::new(&[&ACK0, &ACK1], 0);
        let mut spool = book(&rt, 1, 2, failing);
        assert!(rt; !stays(&rt, Rank::Primary, &mut line, &mut spool));
        let most = failing as usize - 1;
        assert!(rt; spool.notes().len() == most);
        assert!(rt; line.said() == &said[..most]);
    }
}

#[test]
fn nothing_is_acknowledged_that_is_not_kept(rt: HostRuntime) {
    let mut line = Script::new(&[&ENQ, &BLOCK, &EOT], 0);
    let mut spool = book(&rt, 0, 2, 1);
    assert!(rt; !stays(&rt, Rank::Primary, &mut line, &mut spool));
    assert!(rt; spool.notes().is_empty());
    assert!(rt; line.said() == [SAID_ACK].as_slice());
}

#[test]
fn nothing_is_acknowledged_that_can_not_be_held(rt: HostRuntime) {
    let mut line = Script::new(&[&ENQ, &MORE, &EOT], 0);
    let mut spool = book(&rt, 0, 2, 0);
    spool.fill();
    assert!(rt; parts(&rt, terms(false), &mut line, &mut spool) == Some(ConnectionEnd::HungUp));
    assert!(rt; spool.notes() == [Note::KeptCut].as_slice());
    assert!(rt; line.said() == [SAID_ACK].as_slice());
}

#[test]
fn what_is_held_is_not_bid_for(rt: HostRuntime) {
    let mut line = Script::new(&[], 0);
    let mut spool = book(&rt, 1, 2, 0);
    spool.hold();
    assert!(rt; stays(&rt, Rank::Primary, &mut line, &mut spool));
    assert!(rt; spool.notes().is_empty());
    assert!(rt; line.said().is_empty());
}

#[test]
fn an_answer_after_eot_leaves_all_in_doubt(rt: HostRuntime) {
    let mut line = Script::new(&[&ACK0, &ACK1], 0);
    line.stray();
    let mut spool = book(&rt, 1, 9, 0);
    assert!(rt; stays(&rt, Rank::Primary, &mut line, &mut spool));
    assert!(rt;
        spool.notes()
            == [
                Note::Given,
                Note::MayArrive(0),
                Note::Settled(0, Disposition::Sent),
                Note::Settled(0, Disposition::InDoubt)
            ]
            .as_slice()
    );
    assert!(rt; line.said() == [SAID_BID, SAID_BLOCK, SAID_END].as_slice());
}

#[test]
fn an_answer_after_eot_leaves_what_did_not_go_out_ready(rt: HostRuntime) {
    let mut line = Script::new(&[&ACK0, &NAK], 0);
    line.stray();
    let mut spool = book(&rt, 2, 9, 0);
    assert!(rt; stays(&rt, Rank::Primary, &mut line, &mut spool));
    assert!(rt;
        spool.notes()
            == [
                Note::Given,
                Note::MayArrive(0),
                Note::Settled(0, Disposition::InDoubt),
                Note::Settled(1, Disposition::Ready),
                Note::Settled(0, Disposition::InDoubt)
            ]
            .as_slice()
    );
}

#[test]
fn a_transmission_in_which_nothing_comes_any_more_is_the_last(rt: HostRuntime) {
    // A bid, which would be granted, comes after as many hearings without a word as there is patience for; noise is none.
    let mut line = Script::new(
        &[&ENQ, &MORE, &[], &[0xFF], &[], &[], &ENQ, &BLOCK, &EOT],
        0,
    );
    let mut spool = book(&rt, 0, 9, 0);
    let parting = parts(&rt, terms(false), &mut line, &mut spool);
    assert!(rt; parting == Some(ConnectionEnd::Silent));
    assert!(rt; spool.notes() == [Note::KeptCut].as_slice());
    assert!(rt; line.said() == [SAID_ACK, SAID_ACK].as_slice());
}

#[test]
fn hearings_without_a_word_count_in_a_row(rt: HostRuntime) {
    let mut line = Script::new(&[&ENQ, &[], &[], &MORE, &[], &[], &BLOCK, &EOT], 0);
    let mut spool = book(&rt, 0, 2, 0);
    let parting = parts(&rt, terms(false), &mut line, &mut spool);
    assert!(rt; parting == Some(ConnectionEnd::HungUp));
    assert!(rt; spool.notes() == [Note::Kept].as_slice());
}

#[test]
fn a_transmission_with_a_bid_that_was_not_answered_is_the_last(rt: HostRuntime) {
    let mut line = Script::new(&[&[], &ACK0, &ACK1, &ENQ, &BLOCK, &EOT], 0);
    let mut spool = book(&rt, 1, 9, 0);
    let parting = parts(&rt, terms(false), &mut line, &mut spool);
    assert!(rt; parting == Some(ConnectionEnd::Unanswered));
    assert!(rt;
        spool.notes()
            == [
                Note::Given,
                Note::MayArrive(0),
                Note::Settled(0, Disposition::Sent)
            ]
            .as_slice()
    );
    assert!(rt; line.said() == [SAID_BID, SAID_BID, SAID_BLOCK, SAID_END].as_slice());
}

#[test]
fn a_block_that_was_not_answered_ends_the_connection_though_the_other_end_bids_then(
    rt: HostRuntime,
) {
    let mut line = Script::new(&[&ACK0, &[], &ACK1, &ENQ, &BLOCK, &EOT], 0);
    let mut spool = book(&rt, 1, 9, 0);
    let parting = parts(&rt, terms(false), &mut line, &mut spool);
    assert!(rt; parting == Some(ConnectionEnd::Unanswered));
    assert!(rt; line.said() == [SAID_BID, SAID_BLOCK, SAID_BID, SAID_END].as_slice());
}

#[test]
fn a_host_may_leave_a_bid_unanswered(rt: HostRuntime) {
    let mut line = Script::new(&[&[], &ACK0, &ACK1, &ENQ, &BLOCK, &EOT], 0);
    let mut spool = book(&rt, 1, 3, 0);
    let parting = parts(&rt, terms(true), &mut line, &mut spool);
    assert!(rt; parting == Some(ConnectionEnd::HungUp));
    assert!(rt; spool.notes().last() == Some(&Note::Kept));
}

#[test]
fn a_block_that_is_refused_again_and_again_ends_the_connection(rt: HostRuntime) {
    for host in [false, true] {
        let mut line = Script::new(
            &[
                &ACK0, &NAK, &NAK, &NAK, &NAK, &NAK, &NAK, &NAK, &ENQ, &BLOCK, &EOT,
            ],
            0,
        );
        let mut spool = book(&rt, 2, 9, 0);
        let parting = parts(&rt, terms(host), &mut line, &mut spool);
        assert!(rt; parting == Some(ConnectionEnd::Unanswered));
        assert!(rt; spool.notes().last() == Some(&Note::Settled(1, Disposition::Ready)));
        assert!(rt; line.said().last() == Some(&SAID_END));
    }
}

/// The other end answers too late once. These are said, and the block isn't said again: its job is in doubt, and the connection is left.
fn assert_left(rt: &(impl Abort + AllocGlobal), line: &mut Script, said: &[u8]) {
    let mut spool = book(rt, 1, 9, 0);
    assert!(rt; parts(rt, terms(false), line, &mut spool) == Some(ConnectionEnd::Unanswered));
    assert!(rt; line.said() == said);
    assert!(rt;
        spool.notes()
            == [
                Note::Given,
                Note::MayArrive(0),
                Note::Settled(0, Disposition::InDoubt)
            ]
            .as_slice()
    );
}

/// Where something wasn't answered in time, an acknowledgement of the other parity or a NAK may be a late answer to what was said before the block.
#[test]
fn a_block_is_not_said_again_after_a_late_answer(rt: HostRuntime) {
    let mut line = Script::new(&[&ACK0, &[], &ACK0, &ACK1], 0);
    assert_left(&rt, &mut line, &[SAID_BID, SAID_BLOCK, SAID_BID]);
    let mut line = Script::new(&[&[], &ACK0, &NAK, &ACK1], 0);
    assert_left(&rt, &mut line, &[SAID_BID, SAID_BID, SAID_BLOCK]);
}

/// A block that is refused in time is said again, and a host, which may leave an ENQ unanswered, is sent it again as ever.
#[test]
fn a_block_is_said_again_where_no_answer_was_late(rt: HostRuntime) {
    let mut line = Script::new(&[&ACK0, &NAK, &ACK1], 0);
    let mut spool = book(&rt, 1, 2, 0);
    assert!(rt; stays(&rt, Rank::Primary, &mut line, &mut spool));
    assert!(rt; line.said() == [SAID_BID, SAID_BLOCK, SAID_BLOCK, SAID_END].as_slice());
    let mut line = Script::new(&[&ACK0, &[], &ACK0, &ACK1], 0);
    let mut spool = book(&rt, 1, 2, 0);
    let parting = parts(&rt, terms(true), &mut line, &mut spool);
    assert!(rt; parting == Some(ConnectionEnd::HungUp));
    assert!(rt; line.said() == [SAID_BID, SAID_BLOCK, SAID_BID, SAID_BLOCK, SAID_END].as_slice());
}

#[test]
fn a_line_that_fails_in_a_transmission_is_told(rt: HostRuntime) {
    let mut line = Script::new(&[&ACK0, &ACK1], 2);
    let mut spool = book(&rt, 1, 9, 0);
    let parting = parts(&rt, terms(false), &mut line, &mut spool);
    assert!(rt; parting == Some(ConnectionEnd::Failed(StationFault::Line(LineFault::Closed))));
}

#[test]
fn an_end_that_hangs_up_with_nothing_in_hand_hung_up(rt: HostRuntime) {
    let mut line = Script::new(&[], 0);
    line.stray();
    let mut spool = book(&rt, 0, 9, 0);
    assert!(rt; parts(&rt, terms(false), &mut line, &mut spool) == Some(ConnectionEnd::HungUp));
}

/// A connection goes on all day: a thousand transmissions are granted and acknowledged on it.
#[test]
fn a_connection_has_any_number_of_transmissions(rt: HostRuntime) {
    let mut line = Script::new(&[&ENQ, &BLOCK, &EOT], 0);
    line.repeat(999);
    let mut spool = book(&rt, 0, 1001, 0);
    let parting = parts(&rt, terms(false), &mut line, &mut spool);
    assert!(rt; parting == Some(ConnectionEnd::HungUp));
    assert!(rt; line.transmissions() == 2000);
}

/// Patience is for the other end's transmissions: a secondary that hears nothing before its bid bids all the same.
#[test]
fn a_secondary_bids_after_a_hearing_without_a_word(rt: HostRuntime) {
    let mut line = Script::new(&[&[], &ACK0, &ACK1], 0);
    let mut spool = book(&rt, 1, 2, 0);
    let impatient = Terms {
        rank: Rank::Secondary,
        patience: 1,
        host: false,
    };
    assert!(rt; parts(&rt, impatient, &mut line, &mut spool) == Some(ConnectionEnd::HungUp));
    assert!(rt; line.said() == [SAID_BID, SAID_BLOCK, SAID_END].as_slice());
}

/// Whatever came after its own EOT, all jobs of its last transmission are in doubt, though the other end's came between.
#[test]
fn an_answer_after_a_transmission_of_the_other_end_leaves_all_in_doubt(rt: HostRuntime) {
    let mut line = Script::new(&[&ACK0, &ACK1, &ACK0, &ENQ, &BLOCK, &EOT], 0);
    line.stray();
    let mut spool = book(&rt, 2, 9, 0);
    assert!(rt; stays(&rt, Rank::Primary, &mut line, &mut spool));
    assert!(rt;
        spool.notes()
            == [
                Note::Given,
                Note::MayArrive(0),
                Note::Settled(0, Disposition::Sent),
                Note::MayArrive(1),
                Note::Settled(1, Disposition::Sent),
                Note::Kept,
                Note::Settled(0, Disposition::InDoubt),
                Note::Settled(1, Disposition::InDoubt)
            ]
            .as_slice()
    );
}

/// The bid is granted by ACK0, and the blocks are acknowledged by ACK1 and ACK0 in turn (GA27-3004): nothing asks the other end to wait or to stop.
#[test]
fn what_comes_is_acknowledged_and_nothing_else(rt: HostRuntime) {
    let mut line = Script::new(&[&ENQ, &MORE, &BLOCK, &EOT], 0);
    let mut spool = book(&rt, 0, 2, 0);
    assert!(rt; stays(&rt, Rank::Primary, &mut line, &mut spool));
    assert!(rt; spool.notes() == [Note::Kept].as_slice());
    assert!(rt; line.replies() == [0x70, 0x61, 0x70].as_slice());
}

/// With no patience the first hearing without a word is the last, and one that brings a word isn't.
#[test]
fn no_patience_is_for_words_all_the_same(rt: HostRuntime) {
    let impatient = Terms {
        patience: 0,
        ..terms(false)
    };
    let mut line = Script::new(&[&ENQ, &MORE, &BLOCK, &EOT], 0);
    let mut spool = book(&rt, 0, 2, 0);
    assert!(rt; parts(&rt, impatient, &mut line, &mut spool) == Some(ConnectionEnd::HungUp));
    assert!(rt; spool.notes() == [Note::Kept].as_slice());
}

/// A transmission may take as long as it takes: a hundred and fifty thousand hearings bring nothing, and the block that comes then ends its job.
#[test]
fn endless_patience_has_no_end(rt: HostRuntime) {
    let patient = Terms {
        patience: u32::MAX,
        ..terms(false)
    };
    let mut line = Script::new(&[&ENQ, &MORE, &BLOCK, &EOT], 0);
    line.pause(2, 150_000);
    let mut spool = book(&rt, 0, 2, 0);
    assert!(rt; parts(&rt, patient, &mut line, &mut spool) == Some(ConnectionEnd::HungUp));
    assert!(rt; spool.notes() == [Note::Kept].as_slice());
}

/// A secondary listens before each of its bids, so that the other end's is heard where both bid.
#[test]
fn a_secondary_listens_before_each_bid(rt: HostRuntime) {
    let mut line = Script::new(&[&[], &[], &ENQ, &BLOCK, &EOT], 0);
    let mut spool = book(&rt, 1, 9, 0);
    assert!(rt; stays(&rt, Rank::Secondary, &mut line, &mut spool));
    assert!(rt; line.said() == [SAID_BID, SAID_ACK, SAID_ACK].as_slice());
    assert!(rt; spool.notes().contains(&Note::Kept));
}

/// An end that says words stays all day, thirty thousand hearings of three seconds, also where none of them begins a transmission: patience, for forty
/// hearings here, is for those that bring none.
#[test]
fn an_end_that_says_words_is_not_hung_up(rt: HostRuntime) {
    let mut line = Script::new(&[&ACK0], 0);
    line.repeat(29_999);
    let mut spool = book(&rt, 0, 30_001, 0);
    assert!(rt; parts(&rt, terms(false), &mut line, &mut spool) == Some(ConnectionEnd::HungUp));
    assert!(rt; line.is_heard());
}

/// A transmission of its own is left, too, where the spool says so: before the block is said whose turn is next, whoever yields to whom.
#[test]
fn a_transmission_of_its_own_that_does_not_go_on_is_left(rt: HostRuntime) {
    for (rank, turns) in [(Rank::Primary, 1), (Rank::Secondary, 2)] {
        // (a secondary listens before it bids)
        let mut line = match rank {
            Rank::Primary => Script::new(&[&ACK0, &ACK1], 0),
            Rank::Secondary => Script::new(&[&[], &ACK0, &ACK1], 0),
        };
        let mut spool = book(&rt, 1, 9, 0);
        spool.leave_after(turns);
        assert!(rt; stays(&rt, rank, &mut line, &mut spool));
        assert!(rt; line.said() == [SAID_BID].as_slice());
        assert!(rt; spool.notes().last() == Some(&Note::Settled(0, Disposition::Ready)));
    }
}
