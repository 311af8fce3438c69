//! What a terminal is shown of how far it is: the lines by hand, and that of a `loop` by a clock of the tests' own.
use super::traced::{Failing, TEXT, Ticking};
use super::{FILE, Written, store_of};
use rje_print::{Progress, shown_listening, shown_peer, shown_progress};
use rje_program::socket_command;
use std::io::Write;
use std::net::{Ipv4Addr, Net, SocketAddr};
use std::process::Abort;
use std::test::Fail;

#[test]
fn a_line_tells_how_far_it_is(rt: HostRuntime) {
    let sending = Progress {
        job: 2,
        jobs: Some(12),
        name: *b"LIST1   ",
        records: 4500,
        blocks: 410,
        rate: 1180,
        left: Some(102),
    };
    let line =
        b"\r\x1b[?7lsending job 2 of 12 LIST1: 4500 records, 410 blocks, 1180 bytes/s, 1:42 left\x1b[K\x1b[?7h";
    assert!(rt; shown_progress(&sending).as_slice() == line.as_slice());
    let receiving = Progress {
        job: 3,
        jobs: None,
        name: *b"        ",
        records: 0,
        blocks: 1,
        rate: 0,
        left: None,
    };
    let line = b"\r\x1b[?7lreceiving job 3: 0 records, 1 blocks, 0 bytes/s\x1b[K\x1b[?7h";
    assert!(rt; shown_progress(&receiving).as_slice() == line.as_slice());
}

#[test]
fn a_line_tells_where_calls_are_awaited_and_who_is_connected(rt: HostRuntime) -> Result<(), Fail> {
    let address = SocketAddr::from((Ipv4Addr::new(192, 0, 2, 1), 3780));
    let line = b"\r\x1b[?7llistening on 192.0.2.1:3780\x1b[K\x1b[?7h";
    assert!(rt; shown_listening(address)?.as_slice() == line.as_slice());
    let line = b"\r\x1b[?7lconnected 192.0.2.1:3780\x1b[K\x1b[?7h";
    assert!(rt; shown_peer(address)?.as_slice() == line.as_slice());
    Ok(())
}

/// A loop of these words at a terminal, by a clock that fails after this many looks, is done, prints what it always does, and shows this.
fn assert_loop<R: Net + Abort + AllocGlobal>(
    rt: &R,
    words: &[&str],
    looks: u64,
    err: &mut impl Write,
) {
    let clock = Ticking::new(rt, looks);
    let mut store = store_of(rt, "jobs", FILE);
    let mut out = Written::new();
    let ended = socket_command(&clock, rt.alloc(), words, &mut store, &mut out, err, true);
    assert!(rt; ended == 0);
    assert!(rt; out.as_slice() == TEXT);
}

/// What is shown of that loop, whose turns take seven milliseconds each: its first line, until it is taken away.
const SHOWN: &[u8] =
    b"\r\x1b[?7lsending job 1 of 1: 0 records, 0 blocks, 0 bytes/s\x1b[K\x1b[?7h\r\x1b[K";

#[test]
fn a_terminal_is_shown_how_far_a_loop_is(rt: HostRuntime) {
    let words = ["loop", "jobs"];
    for (looks, shown) in [(0, b"".as_slice()), (1, b""), (2, SHOWN), (100, SHOWN)] {
        let mut err = Written::new();
        assert_loop(&rt, &words, looks, &mut err);
        assert!(rt; err.as_slice() == shown);
    }
}

#[test]
fn a_line_that_cannot_be_written_is_the_last_one(rt: HostRuntime) {
    let mut err = Failing {
        written: Written::new(),
        writes: 0,
        failing: 0,
    };
    assert_loop(&rt, &["loop", "jobs"], 100, &mut err);
    assert!(rt; err.writes == 1);
}
