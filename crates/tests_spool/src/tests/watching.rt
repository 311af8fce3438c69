//! What is told while a transmission goes on.
use super::Ground;
use super::holding::{BID, block, bring, hear, new_station};
use super::page::Page;
use super::step::{given, settled};
use bsc_link::Rank;
use line_world::MemoryLine;
use rje_day::Disposition;
use rje_jobs::job_of_deck;
use rje_session::Spool;
use rje_station::Station;
use rje_text::{Mode, Select};
use std::process::Abort;

/// A block that ends its job, and one that is spoiled.
const LAST: &[u8] = &[0x32, 0x32, 0x02, 0xC1, 0x1E, 0x03, 0x18, 0x5D, 0xFF];

/// A block after which its job goes on, and the end of a transmission.
const MORE: &[u8] = &[0x32, 0x32, 0x02, 0xC1, 0x1E, 0x26, 0xD9, 0x86, 0xFF];

const EOT: &[u8] = &[0x32, 0x32, 0x37, 0xFF];

const SPOILED: &[u8] = &[0x32, 0x32, 0x02, 0xC2, 0x1E, 0x03, 0x18, 0x5D, 0xFF];

const ACK0: &[u8] = &[0x32, 0x32, 0x10, 0x70, 0xFF];

const ACK1: &[u8] = &[0x32, 0x32, 0x10, 0x61, 0xFF];

/// The station says what is due, and hears this.
fn speaks(rt: &(impl Abort + AllocGlobal), station: &mut Station<'_>, bytes: &[u8]) {
    let alloc = rt.alloc();
    let mut pieces = Vec::new(alloc);
    let piece = Vec::from_slice(alloc, bytes).expect(rt, "memory");
    assert!(rt; pieces.push(piece).is_ok());
    let mut line = MemoryLine::new(alloc);
    line.put(pieces);
    assert!(rt; station.speak(&mut line).is_ok());
    assert!(rt; station.hear_answer(&mut line, false).is_ok());
}

/// A job that comes is told when it begins, and then every half minute.
#[test]
fn a_long_job_is_told_every_half_minute(rt: HostRuntime) {
    let ground = Ground::new(rt.alloc());
    let mut spool = ground.spool(&rt);
    let mut station = new_station(&rt);
    let block = block(&rt);
    bring(&rt, &mut station, BID);
    for passed in [0, 29, 30, 59, 60] {
        ground.clock.set(Some(1795871109 + passed));
        bring(&rt, &mut station, block.as_slice());
        assert!(rt; spool.look_on(&station));
    }
    ground.assert_told(
        &rt,
        b"2026-11-28 13:05:09 receiving job 1
2026-11-28 13:05:39 receiving job 1: 1530 records, 3 blocks
2026-11-28 13:06:09 receiving job 1: 2550 records, 5 blocks
",
    );
}

/// What came refused is no block of a job, and the next transmission's jobs are numbered from 1 again.
#[test]
fn each_transmission_is_told_for_itself(rt: HostRuntime) {
    let ground = Ground::new(rt.alloc());
    let mut spool = ground.spool(&rt);
    let block = block(&rt);
    for begin in [0, 60] {
        let mut station = new_station(&rt);
        assert!(rt; spool.look_on(&station));
        ground.clock.set(Some(1795871109 + begin));
        for piece in [BID, block.as_slice(), SPOILED] {
            bring(&rt, &mut station, piece);
            assert!(rt; spool.look_on(&station));
        }
        ground.clock.set(Some(1795871139 + begin));
        for piece in [block.as_slice(), LAST] {
            bring(&rt, &mut station, piece);
            assert!(rt; spool.look_on(&station));
        }
    }
    ground.assert_told(
        &rt,
        b"2026-11-28 13:05:09 receiving job 1
2026-11-28 13:05:39 receiving job 1: 1020 records, 2 blocks
2026-11-28 13:06:09 receiving job 1
2026-11-28 13:06:39 receiving job 1: 1020 records, 2 blocks
",
    );
}

/// On a terminal nothing stands of how far a job was once it is kept, and once its transmission ended: the last line is that it was received.
#[test]
fn nothing_stands_on_a_terminal_after_a_transmission(rt: HostRuntime) {
    let ground = Ground::new(rt.alloc());
    let mut spool = ground.spool_on_terminal(&rt);
    let mut station = new_station(&rt);
    let page = Page::new(&ground.page);
    for (passed, piece) in [(0, BID), (1, MORE), (2, MORE), (3, LAST)] {
        ground.clock.set(Some(1795871109 + passed));
        bring(&rt, &mut station, piece);
        if let Some(job) = station.receiver().jobs().first() {
            if job.whole {
                assert!(rt; spool.keep(job).is_ok());
            }
        }
        assert!(rt; spool.look_on(&station));
        assert!(rt; page.has(b"records, ") == (passed > 0));
    }
    // The other end's EOT is heard, and the station looks on once more.
    ground.clock.set(Some(1795871114));
    hear(&rt, &mut station, EOT);
    assert!(rt; spool.look_on(&station));
    assert!(rt;
        page.ends_with(
            b"\r\x1b[K2026-11-28 13:05:12 received in/20261128T130512Z-1.job unset whole 3 records\n"
        )
    );
}

/// What is sent in the next transmission is told as in the one before: the bid, and each job.
#[test]
fn the_next_transmission_is_told_too(rt: HostRuntime) {
    let ground = Ground::new(rt.alloc());
    let mut spool = ground.spool(&rt);
    for name in ["a", "b"] {
        let path = format!(in rt.alloc(); "s/out/{name}.deck").expect(&rt, "memory");
        ground.put(&rt, path.as_str(), b"A\n");
        assert!(rt; given(&rt, &mut spool) == 1);
        let mut jobs = Vec::new(rt.alloc());
        let job = job_of_deck(rt.alloc(), b"A\n", Select::Unset, Mode::Normal);
        assert!(rt; jobs.push(job.expect(&rt, "a job")).is_ok());
        let mut station = Station::new(rt.alloc(), Rank::Primary, jobs.as_slice()).expect(
            &rt, "memory",
        );
        for heard in [ACK0, ACK1] {
            assert!(rt; spool.look_on(&station));
            speaks(&rt, &mut station, heard);
        }
        settled(&rt, &mut spool, 1, Disposition::Sent);
    }
    ground.assert_told(
        &rt,
        b"2026-11-28 13:05:09 bid
2026-11-28 13:05:09 sending a.deck unset 1 cards
2026-11-28 13:05:09 sent a.deck
2026-11-28 13:05:09 bid
2026-11-28 13:05:09 sending b.deck unset 1 cards
2026-11-28 13:05:09 sent b.deck
",
    );
}

/// A bid is told once, however often it is said, and so is each job of a transmission, by its file.
#[test]
fn what_is_sent_is_told_once(rt: HostRuntime) {
    let ground = Ground::new(rt.alloc());
    ground.put(&rt, "s/out/a.deck", b"A\n");
    ground.put(&rt, "s/out/b.punch.deck", b"A\nB\n");
    let mut spool = ground.spool(&rt);
    assert!(rt; given(&rt, &mut spool) == 2);
    let mut jobs = Vec::new(rt.alloc());
    for (cards, select) in [
        (b"A\n".as_slice(), Select::Unset),
        (b"A\nB\n".as_slice(), Select::Punch),
    ] {
        let job = job_of_deck(rt.alloc(), cards, select, Mode::Normal).expect(&rt, "a job");
        assert!(rt; jobs.push(job).is_ok());
    }
    let mut station = Station::new(rt.alloc(), Rank::Primary, jobs.as_slice()).expect(
        &rt, "memory",
    );
    for heard in [&[], ACK0, &[], ACK0, ACK1] {
        assert!(rt; spool.look_on(&station));
        speaks(&rt, &mut station, heard);
    }
    assert!(rt; spool.look_on(&station));
    ground.assert_told(
        &rt,
        b"2026-11-28 13:05:09 bid
2026-11-28 13:05:09 sending a.deck unset 1 cards
2026-11-28 13:05:09 sending b.punch.deck punch 2 cards
",
    );
}
