//! Connections: what a line does with its stream, the times that it sets and how often it reads, and how long a call waits for an answer.
use super::scripted_stream::{Notes, ScriptedStream};
use super::traced::Ticking;
use super::{FILE, NO_JOBS, Written, store_of};
use bsc_link::Rank;
use rje_net::SocketLine;
use rje_program::socket_command;
use rje_station::{Came, Line, LineFault};
use std::cell::Cell;
use std::io::{self, ErrorKind};
use std::net::{Ipv4Addr, Net, OpenListener, SocketAddr, TcpListener};
use std::process::Abort;
use std::test::Fail;
use std::time::{Clock, Duration};

/// A bid, as it is written: SYN SYN ENQ and a pad.
const BID: &[u8] = b"\x32\x32\x2D\xFF";

/// EOT, as it is written.
const END: &[u8] = b"\x32\x32\x37\xFF";

/// ACK0, as it is written.
const ACK0: &[u8] = b"\x32\x32\x10\x70\xFF";

/// A primary's line over this stream, with this time-out.
fn line_over<'a>(
    rt: &impl Abort,
    stream: ScriptedStream<'a>,
    timeout: u16,
) -> SocketLine<ScriptedStream<'a>> {
    SocketLine::new(stream, timeout, Rank::Primary).expect(rt, "a stream that takes its times")
}

#[test]
fn each_hearing_and_each_transmission_has_its_time(rt: HostRuntime) {
    let notes = Notes::new();
    let _line = line_over(&rt, ScriptedStream::new(&notes, &[]), 250);
    let time = Some(Duration::from_millis(250));
    assert!(rt; notes.read_time.get() == time);
    assert!(rt; notes.write_time.get() == time);
    assert!(rt; notes.is_undelayed.get());
    assert!(rt; notes.writes.get() == 0);
}

#[test]
fn a_transmission_that_times_out_fails(rt: HostRuntime) {
    let notes = Notes::new();
    let mut line = line_over(&rt, ScriptedStream::blocked(&notes), 250);
    assert!(rt; line.transmit(BID) == Err(LineFault::Failed));
}

#[test]
fn a_silence_lasts_one_time_out_and_two_where_an_answer_is_awaited(rt: HostRuntime) {
    let notes = Notes::new();
    let silence: &[&[u8]] = &[b"", b"", b"", b"", b"", b""];
    let mut line = line_over(&rt, ScriptedStream::new(&notes, silence), 250);
    let mut piece = [0; 160];
    assert!(rt; line.listen(&mut piece) == Ok(Came::Quiet));
    assert!(rt; notes.reads.get() == 1);
    assert!(rt; line.transmit(BID) == Ok(()));
    assert!(rt; line.listen(&mut piece) == Ok(Came::Quiet));
    assert!(rt; notes.reads.get() == 3);
    assert!(rt; line.listen(&mut piece) == Ok(Came::Quiet));
    assert!(rt; notes.reads.get() == 4);
}

#[test]
fn an_answer_is_awaited_once(rt: HostRuntime) {
    let notes = Notes::new();
    let coming: &[&[u8]] = &[ACK0, b""];
    let mut line = line_over(&rt, ScriptedStream::new(&notes, coming), 250);
    let mut piece = [0; 160];
    assert!(rt; line.transmit(BID) == Ok(()));
    assert!(rt; matches!(line.listen(&mut piece), Ok(Came::Bytes(_))));
    assert!(rt; notes.reads.get() == 1);
    assert!(rt; line.listen(&mut piece) == Ok(Came::Quiet));
    assert!(rt; notes.reads.get() == 2);
    assert!(rt; line.listen(&mut piece) == Err(LineFault::Closed));
}

#[test]
fn an_end_that_said_eot_hears_the_other_out(rt: HostRuntime) {
    let notes = Notes::new();
    let late: &[&[u8]] = &[b"", ACK0];
    let mut line = line_over(&rt, ScriptedStream::new(&notes, late), 250);
    assert!(rt; line.transmit(END) == Ok(()));
    assert!(rt; !line.ends_in_step());
    assert!(rt; notes.has_shut_down.get());
    assert!(rt; notes.reads.get() == 2);
    assert!(rt; notes.read_time.get() == Some(Duration::from_millis(250)));
    let notes = Notes::new();
    let mut line = line_over(&rt, ScriptedStream::new(&notes, &[]), 900);
    assert!(rt; line.transmit(END) == Ok(()));
    assert!(rt; line.ends_in_step());
    assert!(rt; notes.read_time.get() == Some(Duration::from_millis(250)));
}

#[test]
fn an_answer_comes_in_pieces(rt: HostRuntime) {
    let notes = Notes::new();
    let coming: &[&[u8]] = &[b"\x32", b"\x32", b"\x10", b"\x70"];
    let mut line = line_over(&rt, ScriptedStream::new(&notes, coming), 250);
    let mut piece = [0; 160];
    assert!(rt; line.transmit(BID) == Ok(()));
    assert!(rt; line.listen(&mut piece) == Ok(Came::Bytes(5)));
    assert!(rt; piece.starts_with(ACK0));
}

#[test]
fn what_a_silence_cuts_in_two_is_no_answer(rt: HostRuntime) {
    for (coming, in_step) in [
        ([b"\x32\x32\x10".as_slice(), b"", b"\x70\xFF"], true),
        ([b"", b"\x32\x32\x10", b"\x70\xFF"], false),
    ] {
        let notes = Notes::new();
        let mut line = line_over(&rt, ScriptedStream::new(&notes, &coming), 250);
        let mut piece = [0; 160];
        assert!(rt; line.transmit(END) == Ok(()));
        for _ in 0..3 {
            assert!(rt; line.listen(&mut piece).is_ok());
        }
        assert!(rt; line.ends_in_step() == in_step);
    }
}

#[test]
fn an_end_that_said_no_eot_leaves_at_once(rt: HostRuntime) {
    let notes = Notes::new();
    let mut line = line_over(&rt, ScriptedStream::new(&notes, &[ACK0]), 250);
    assert!(rt; line.ends_in_step());
    assert!(rt; notes.reads.get() == 0);
    assert!(rt; !notes.has_shut_down.get());
}

#[test]
fn an_end_hears_the_other_out_for_four_seconds(rt: HostRuntime) {
    let notes = Notes::new();
    let silence: [&[u8]; 20] = [b""; 20];
    let mut line = line_over(&rt, ScriptedStream::new(&notes, &silence), 900);
    assert!(rt; line.transmit(END) == Ok(()));
    assert!(rt; line.ends_in_step());
    // Each of a quarter of a second.
    assert!(rt; notes.reads.get() == 16);
}

#[test]
fn what_is_left_of_an_answer_goes_with_the_next_transmission(rt: HostRuntime) {
    let notes = Notes::new();
    let coming: &[&[u8]] = &[ACK0, b""];
    let mut line = line_over(&rt, ScriptedStream::new(&notes, coming), 250);
    let mut piece = [0; 2];
    assert!(rt; line.transmit(BID) == Ok(()));
    assert!(rt; line.listen(&mut piece) == Ok(Came::Bytes(2)));
    assert!(rt; line.transmit(ACK0) == Ok(()));
    assert!(rt; line.listen(&mut piece) == Ok(Came::Quiet));
    assert!(rt; notes.reads.get() == 2);
}

#[test]
fn a_line_babbles_until_the_next_transmission(rt: HostRuntime) {
    let notes = Notes::new();
    // With the 52nd read there are more than 8,192 bytes, and no answer.
    let noise: &[u8] = &[0x00; 160];
    let mut coming = [noise; 53];
    coming[52] = ACK0;
    let mut line = line_over(&rt, ScriptedStream::new(&notes, &coming), 250);
    let mut piece = [0; 160];
    assert!(rt; line.transmit(BID) == Ok(()));
    for _ in 0..60 {
        assert!(rt; line.listen(&mut piece) == Ok(Came::Bytes(160)));
        assert!(rt; notes.reads.get() == 52);
    }
    assert!(rt; line.transmit(BID) == Ok(()));
    assert!(rt; line.listen(&mut piece) == Ok(Came::Bytes(5)));
    assert!(rt; piece.starts_with(ACK0));
}

/// A network on which nobody is reached, and who was called last and for how long.
#[derive(Drop)]
struct Unreached<'a, R> {
    net: &'a R,
    called: Cell<Option<(SocketAddr, Duration)>>,
}

impl<R: Net> Net for Unreached<'_, R> {
    type Stream = R::Stream;

    type Listener = R::Listener;

    fn bind(&self, address: SocketAddr) -> io::Result<R::Listener> {
        self.net.bind(address)
    }

    fn connect(&self, _address: SocketAddr) -> io::Result<R::Stream> {
        Err(io::Error::from(ErrorKind::ConnectionRefused))
    }

    fn connect_timeout(&self, address: SocketAddr, time: Duration) -> io::Result<R::Stream> {
        self.called.set(Some((address, time)));
        Err(io::Error::from(ErrorKind::ConnectionRefused))
    }
}

impl<R> Clock for Unreached<'_, R> {
    fn monotonic(&self) -> io::Result<Duration> {
        Ok(Duration::from_millis(0))
    }

    fn since_1970(&self) -> io::Result<Duration> {
        Err(io::Error::from(ErrorKind::Unsupported))
    }
}

/// Whom `send` with this time-out calls, where nobody is reached, and for how long.
fn called<R: Net + Abort + AllocGlobal>(rt: &R, timeout: &str) -> Option<(SocketAddr, Duration)> {
    let net = Unreached {
        net: rt,
        called: Cell::new(None),
    };
    let words = [
        "send",
        "jobs",
        "--to",
        "192.0.2.1:3780",
        "--timeout",
        timeout,
    ];
    let mut store = store_of(rt, "jobs", FILE);
    let mut out = Written::new();
    let mut err = Written::new();
    let ended = socket_command(
        &net,
        rt.alloc(),
        &words,
        &mut store,
        &mut out,
        &mut err,
        false,
    );
    assert!(rt; ended == 3);
    assert!(rt; out.is_empty());
    assert!(rt;
        err.as_slice()
            == b"rje: can't connect to 192.0.2.1:3780: connection refused\nrje: line failed\n".as_slice()
    );
    net.called.get()
}

#[test]
fn a_call_waits_for_a_hearing_and_three_seconds_at_least(rt: HostRuntime) {
    let peer = SocketAddr::from(([192, 0, 2, 1], 3780));
    assert!(rt; called(&rt, "40") == Some((peer, Duration::from_millis(3000))));
    assert!(rt; called(&rt, "5000") == Some((peer, Duration::from_millis(5000))));
}

/// What is reported of a call that takes 7 milliseconds, to an end that is there, with this time-out.
fn told_of_a_call<R: Net + Abort + AllocGlobal>(rt: &R, timeout: &str) -> Result<Written, Fail> {
    let listener = TcpListener::bind(rt, SocketAddr::from((Ipv4Addr::LOCALHOST, 0)))?;
    let peer = format!(in rt.alloc(); "{}", listener.local_addr()?)?;
    let words = ["send", "jobs", "--to", peer.as_str(), "--timeout", timeout];
    let mut store = store_of(rt, "jobs", NO_JOBS);
    let mut out = Written::new();
    let mut err = Written::new();
    let clock = Ticking::new(rt, 100);
    let ended = socket_command(
        &clock,
        rt.alloc(),
        &words,
        &mut store,
        &mut out,
        &mut err,
        false,
    );
    assert!(rt; ended == 0);
    assert!(rt; out.as_slice() == b"counted 0 of 0 jobs\noutcome done\n".as_slice());
    Ok(err)
}

#[test]
fn a_call_that_takes_as_long_as_a_hearing_is_told(rt: HostRuntime) -> Result<(), Fail> {
    let told = b"rje: time-out of 7 ms is short: the connection took 7 ms\n".as_slice();
    assert!(rt; told_of_a_call(&rt, "7")?.as_slice() == told);
    assert!(rt; told_of_a_call(&rt, "8")?.is_empty());
    Ok(())
}
