//! The lines of a console, and the times in front of them.
use super::Ground;
use super::page::Page;
use super::test_clock::TestClock;
use rje_print::Progress;
use rje_spool::{Console, Notice, Stamps};
use std::cell::Cell;

/// Hours are counted to 24, in lines and in names; five past midnight is no 12.
#[test]
fn times_have_hours_of_24(rt: HostRuntime) {
    let clock = Cell::new(Some(1795871109));
    let stamps = Stamps::new(TestClock::new(&clock), rt.alloc());
    let time = stamps.time().expect(&rt, "a time");
    assert!(rt; time.as_str() == "2026-11-28 13:05:09");
    let stamp = stamps.stamp().expect(&rt, "memory");
    assert!(rt; stamp.as_str() == "20261128T130509Z");
    clock.set(Some(1795824309));
    let midnight = stamps.time().expect(&rt, "a time");
    assert!(rt; midnight.as_str() == "2026-11-28 00:05:09");
    let stamp = stamps.stamp().expect(&rt, "memory");
    assert!(rt; stamp.as_str() == "20261128T000509Z");
}

#[test]
fn a_clock_that_cannot_be_read_gives_noughts(rt: HostRuntime) {
    let clock = Cell::new(None);
    let stamps = Stamps::new(TestClock::new(&clock), rt.alloc());
    assert!(rt; stamps.time().is_none());
    let stamp = stamps.stamp().expect(&rt, "memory");
    assert!(rt; stamp.as_str() == "00000000T000000Z");
}

#[test]
fn each_line_goes_to_the_page_and_to_the_log(rt: HostRuntime) {
    let ground = Ground::new(rt.alloc());
    let mut console = ground.console();
    console.tell(Notice::LineFailed("peer hung up"));
    ground.clock.set(None);
    console.tell(Notice::Connected);
    ground.assert_told(
        &rt,
        b"2026-11-28 13:05:09 line failed: peer hung up\nconnected\n",
    );
}

/// So many records came of the first job, each in a block of its own.
fn amount(records: usize) -> Progress {
    Progress {
        job: 1,
        jobs: None,
        name: *b"        ",
        records,
        blocks: records,
        rate: 0,
        left: None,
    }
}

/// A line that is rewritten stays for a tenth of a second at least, and is taken away before another one.
#[test]
fn a_line_that_is_rewritten_stands_a_while(rt: HostRuntime) {
    let ground = Ground::new(rt.alloc());
    let clock = TestClock::new(&ground.clock);
    let (page, log) = (Page::new(&ground.page), Page::new(&ground.log));
    let mut console = Console::new(clock, rt.alloc(), page, log, true);
    console.show(&amount(1));
    console.show(&amount(2));
    ground.clock.set(Some(1795871110));
    console.show(&amount(3));
    console.tell(Notice::HungUp);
    assert!(rt;
        page.shows(
            b"\r\x1b[?7lreceiving job 1: 1 records, 1 blocks, 0 bytes/s\x1b[K\x1b[?7h\
            \r\x1b[?7lreceiving job 1: 3 records, 3 blocks, 0 bytes/s\x1b[K\x1b[?7h\
            \r\x1b[K2026-11-28 13:05:10 hung up\n"
        )
    );
    assert!(rt; log.shows(b"2026-11-28 13:05:10 hung up\n"));
}

/// If one can't be written the line is in the other.
#[test]
fn a_page_that_cannot_be_written_keeps_no_line_from_the_log(rt: HostRuntime) {
    let ground = Ground::new(rt.alloc());
    ground.clock.set(None);
    let mut console = ground.console();
    if let Ok(page) = ground.page.try_borrow() {
        console.tell(Notice::Connected);
        assert!(rt; page.is_empty());
    }
    if let Ok(log) = ground.log.try_borrow() {
        console.tell(Notice::Bid);
        console.tell(Notice::HungUp);
        assert!(rt; log.as_slice() == b"connected\n".as_slice());
    }
    assert!(rt; Page::new(&ground.page).shows(b"bid\nlog: resource busy\nhung up\n"));
    // (it begins a line of its own, since the log may have a part of the one before)
    console.tell(Notice::Ended);
    assert!(rt; Page::new(&ground.log).shows(b"connected\n\nended\n"));
}
