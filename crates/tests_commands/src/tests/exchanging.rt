//! What `exchange` sends and receives, and what is in its two files then.
use super::receiving::FillingStore;
use super::sending::ReadOnly;
use super::told_line::ToldLine;
use super::{NO_JOBS, Written, assert_file, joined, line_of, store_of};
use bsc_link::Rank;
use rje_requests::{Destination, Existing};
use rje_sockets::exchange_over;
use rje_station::Line;
use rje_store::Store;
use std::process::Abort;

const ENQ: &[u8] = b"\x32\x32\x2D\xFF";

const ACK0: &[u8] = b"\x32\x32\x10\x70\xFF";

const ACK1: &[u8] = b"\x32\x32\x10\x61\xFF";

const EOT: &[u8] = b"\x32\x32\x37\xFF";

/// The last block of a job of one record, `A` or `B`.
const A: &[u8] = b"\x32\x32\x02\xC1\x1E\x03\x18\x5D\xFF";

const B: &[u8] = b"\x32\x32\x02\xC2\x1E\x03\xE8\x5D\xFF";

const QUIET: &[u8] = b"";

/// The version 2 file of one job in this state (0 waiting, 1 sent, 2 whole), of this one record.
fn one_job(rt: &impl Abort, state: u8, record: u8) -> Written {
    let header = b"RJ37\x00\x02\x00\x00\x00\x00\x00\x00\x00\x01        ".as_slice();
    let rest = b"\x00\x00\x00\x00\x00\x00\x00\x00\x00\x01\x00\x01".as_slice();
    joined(rt, &[header, &[state], rest, &[record]])
}

/// An end of this rank exchanges the file `out` for the file `got` over this line: it ends with this status and writes these texts.
fn assert_ends(
    rt: &(impl Abort + AllocGlobal),
    rank: Rank,
    line: &mut impl Line,
    store: &mut impl Store,
    status: u8,
    text: &[u8],
    told: &[u8],
) {
    let mut out = Written::new();
    let mut err = Written::new();
    let ended = exchange_over(
        rt.alloc(),
        rank,
        line,
        "out",
        Destination {
            jobs: "got",
            existing: Existing::Replace,
        },
        store,
        &mut out,
        &mut err,
    );
    assert!(rt; ended == status);
    assert!(rt; out.as_slice() == text);
    assert!(rt; err.as_slice() == told);
}

/// An end of this rank exchanges the job `A` for the job `B` where this comes, and says that.
fn assert_exchanges(rt: &(impl Abort + AllocGlobal), rank: Rank, coming: &[&[u8]], said: &[&[u8]]) {
    let mut store = store_of(rt, "out", one_job(rt, 0, 0xC1).as_slice());
    let mut line = ToldLine::new(coming);
    let text = b"counted 1 of 1 jobs\noutcome done\nhanded 1 jobs, 1 whole\n";
    assert_ends(rt, rank, &mut line, &mut store, 0, text, b"");
    assert!(rt; line.sent.as_slice() == joined(rt, said).as_slice());
    assert_file(rt, &mut store, "out", one_job(rt, 1, 0xC1).as_slice());
    assert_file(rt, &mut store, "got", one_job(rt, 2, 0xC2).as_slice());
}

/// A primary exchanges the job `A` over a line on which this comes and this call fails (0: none). It ends with status 3, and writes these
/// texts; the job is in this state then.
fn assert_breaks_off(
    rt: &(impl Abort + AllocGlobal),
    coming: &[&[u8]],
    call: u64,
    state: u8,
    text: &[u8],
    told: &[u8],
) {
    let mut store = store_of(rt, "out", one_job(rt, 0, 0xC1).as_slice());
    let mut line = line_of(rt, coming);
    line.fail_at(call);
    assert_ends(rt, Rank::Primary, &mut line, &mut store, 3, text, told);
    assert_file(rt, &mut store, "out", one_job(rt, state, 0xC1).as_slice());
}

#[test]
fn a_primary_bids_at_once_and_receives_behind_its_own_jobs(rt: HostRuntime) {
    assert_exchanges(
        &rt,
        Rank::Primary,
        &[ACK0, ACK1, ENQ, B, EOT],
        &[ENQ, A, EOT, ACK0, ACK1],
    );
}

#[test]
fn a_secondary_listens_before_each_bid_and_gives_way(rt: HostRuntime) {
    // It hears nothing and bids, and the primary bids at the same time.
    assert_exchanges(
        &rt,
        Rank::Secondary,
        &[QUIET, ENQ, ENQ, B, EOT, ACK0, ACK1],
        &[ENQ, ACK0, ACK1, ENQ, A, EOT],
    );

    // Its bid is lost, it listens once more, and bids again.
    assert_exchanges(
        &rt,
        Rank::Secondary,
        &[QUIET, QUIET, QUIET, ACK0, ACK1, ENQ, B, EOT],
        &[ENQ, ENQ, A, EOT, ACK0, ACK1],
    );
}

#[test]
fn an_exchange_of_nothing_is_well_after_40_quiet_hearings(rt: HostRuntime) {
    let text = b"counted 0 of 0 jobs\noutcome done\nhanded 0 jobs, 0 whole\n";
    for rank in [Rank::Primary, Rank::Secondary] {
        let mut store = store_of(&rt, "out", NO_JOBS);
        let mut line = ToldLine::new(&[]);
        assert_ends(&rt, rank, &mut line, &mut store, 0, text, b"");
        assert!(rt; line.sent.is_empty());
        assert_file(&rt, &mut store, "got", NO_JOBS);
    }

    // Where it had something to send, the other end may have had too.
    let text = b"counted 1 of 1 jobs\noutcome done\nhanded 0 jobs, 0 whole\n";
    let mut store = store_of(&rt, "out", one_job(&rt, 0, 0xC1).as_slice());
    let mut line = ToldLine::new(&[ACK0, ACK1]);
    assert_ends(&rt, Rank::Primary, &mut line, &mut store, 4, text, b"");
}

#[test]
fn the_fault_of_an_exchange_is_told_behind_its_lines(rt: HostRuntime) {
    let uncounted = b"counted 0 of 1 jobs\noutcome open\nhanded 0 jobs, 0 whole\n";
    let counted = b"counted 1 of 1 jobs\noutcome done\nhanded 0 jobs, 0 whole\n";
    let failed = b"rje: line failed\n";

    // In its own turns it speaks by calls 1, 3 and 5 and hears by 2 and 4; by 6 it hears the other, and by 7 it answers.
    for call in 1..=4 {
        assert_breaks_off(&rt, &[ACK0, ACK1, ENQ], call, 0, uncounted, failed);
    }
    for call in 5..=7 {
        assert_breaks_off(&rt, &[ACK0, ACK1, ENQ], call, 1, counted, failed);
    }

    let noise = [0x00; 8193];
    let babble = b"rje: babble\n";
    assert_breaks_off(&rt, &[ACK0, &noise], 0, 0, uncounted, babble);
    assert_breaks_off(&rt, &[ACK0, ACK1, &noise], 0, 1, counted, babble);
}

#[test]
fn of_two_files_that_cannot_be_written_the_sent_one_is_told(rt: HostRuntime) {
    // The copy that marks go into can't be made.
    let mut store = ReadOnly {
        file: one_job(&rt, 0, 0xC1),
    };
    let mut line = ToldLine::new(&[ACK0, ACK1]);
    let told = b"rje: out: no storage space\nrje: can't write out\n";
    assert_ends(&rt, Rank::Primary, &mut line, &mut store, 3, b"", told);

    // It is made, and then neither a mark nor what came can be written.
    let files = store_of(&rt, "out", one_job(&rt, 0, 0xC1).as_slice());
    let mut store = FillingStore::new(files);
    let mut line = ToldLine::new(&[ACK0, ACK1]);
    let text = b"counted 1 of 1 jobs\noutcome done\nhanded 0 jobs, 0 whole\n";
    assert_ends(&rt, Rank::Primary, &mut line, &mut store, 3, text, told);
}
