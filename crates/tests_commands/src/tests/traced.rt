//! What `--trace` writes: its lines by hand, and those of a `loop` by a clock of the tests' own.
use super::{FILE, Written, store_of};
use bsc_link::{Reply, Say, Sound};
use line_world::Spoken;
use rje_print::{BlockPlace, both_text, listening_text, peer_text, receiver_text, sender_text};
use rje_program::socket_command;
use rje_station::Arrival;
use std::cell::Cell;
use std::io::{self, ErrorKind, Write};
use std::net::{Ipv4Addr, Ipv6Addr, Net, SocketAddr};
use std::process::Abort;
use std::test::Fail;
use std::time::{Clock, Duration};

/// What a loop of that file prints.
pub(super) const TEXT: &[u8] = b"counted 1 of 1 jobs\nhanded 1 jobs, 1 whole\noutcome done\n";

#[test]
fn a_line_tells_a_time_and_a_turn(rt: HostRuntime) {
    let none = Duration::new(0, 999_999);
    let long = Duration::new(3661, 50_999_999);
    let line = sender_text(none, Say::Bid, Sound::Ack0, None);
    assert!(rt; line.as_slice() == b"0.000 bid ack0\n".as_slice());
    let place = Some(BlockPlace {
        job: 2,
        block: 17,
        length: 498,
    });
    let line = sender_text(long, Say::Again, Sound::Quiet, place);
    assert!(rt; line.as_slice() == b"3661.050 again quiet job 2 block 17 498 bytes\n".as_slice());
    let block = Arrival {
        sound: Sound::Block,
        refused: false,
    };
    let line = receiver_text(long, block, Some(Reply::Ack1), None);
    assert!(rt; line.as_slice() == b"3661.050 block ack1\n".as_slice());
    let refused = Arrival {
        sound: Sound::Block,
        refused: true,
    };
    let line = receiver_text(none, refused, Some(Reply::Nak), place);
    assert!(rt; line.as_slice() == b"0.000 block! nak job 2 block 17 498 bytes\n".as_slice());
    let turn = Spoken {
        said: Say::End,
        arrived: Sound::Eot,
        refused: false,
        reply: None,
        heard: Sound::Quiet,
    };
    let line = both_text(Duration::new(12, 340_000_000), &turn, None);
    assert!(rt; line.as_slice() == b"12.340 end eot - quiet\n".as_slice());
}

#[test]
fn a_line_tells_who_is_connected(rt: HostRuntime) -> Result<(), Fail> {
    let after = Duration::from_millis(9);
    let peer = SocketAddr::from((Ipv4Addr::new(192, 0, 2, 1), 3780));
    assert!(rt;
        peer_text(after, peer)?.as_slice() == b"0.009 connected 192.0.2.1:3780\n".as_slice()
    );
    let peer = SocketAddr::from((Ipv6Addr::LOCALHOST, 3780));
    assert!(rt; peer_text(after, peer)?.as_slice() == b"0.009 connected [::1]:3780\n".as_slice());
    assert!(rt; listening_text(peer)?.as_slice() == b"0.000 listening [::1]:3780\n".as_slice());
    Ok(())
}

/// The network of a runtime, and a clock that goes on by 7 milliseconds with each look at it, and fails after some.
#[derive(Drop)]
pub(super) struct Ticking<'a, R> {
    net: &'a R,
    looks: Cell<u64>,
    last: u64,
}

impl<'a, R> Ticking<'a, R> {
    /// A clock that fails after this many looks.
    pub(super) fn new(net: &'a R, last: u64) -> Ticking<'a, R> {
        Ticking {
            net,
            looks: Cell::new(0),
            last,
        }
    }
}

impl<R: Net> Net for Ticking<'_, R> {
    type Stream = R::Stream;

    type Listener = R::Listener;

    fn bind(&self, address: SocketAddr) -> io::Result<R::Listener> {
        self.net.bind(address)
    }

    fn connect(&self, address: SocketAddr) -> io::Result<R::Stream> {
        self.net.connect(address)
    }

    fn connect_timeout(&self, address: SocketAddr, time: Duration) -> io::Result<R::Stream> {
        self.net.connect_timeout(address, time)
    }
}

impl<R> Clock for Ticking<'_, R> {
    fn monotonic(&self) -> io::Result<Duration> {
        let looks = self.looks.get();
        if looks == self.last {
            return Err(io::Error::from(ErrorKind::Other));
        }
        self.looks.set(looks.saturating_add(1));
        Ok(Duration::from_millis(looks.saturating_mul(7)))
    }

    fn since_1970(&self) -> io::Result<Duration> {
        Err(io::Error::from(ErrorKind::Unsupported))
    }
}

/// A loop of these words, by a clock that fails after this many looks, is done, prints what it always does, and reports this.
fn assert_loop<R: Net + Abort + AllocGlobal>(
    rt: &R,
    words: &[&str],
    looks: u64,
    err: &mut impl Write,
) {
    let clock = Ticking::new(rt, looks);
    let mut store = store_of(rt, "jobs", FILE);
    let mut out = Written::new();
    let ended = socket_command(&clock, rt.alloc(), words, &mut store, &mut out, err, false);
    assert!(rt; ended == 0);
    assert!(rt; out.as_slice() == TEXT);
}

/// The trace of that loop.
const TRACE: &[u8] =
    b"0.007 bid enq ack0 ack0\n0.014 block block ack1 ack1 job 1 block 1 2 bytes\n0.021 end eot - quiet\n";

/// What is left of it where the third line isn't written, and where the second isn't.
const CUT: [&[u8]; 2] = [
    b"0.007 bid enq ack0 ack0\n0.014 block block ack1 ack1 job 1 block 1 2 bytes\n",
    b"0.007 bid enq ack0 ack0\n",
];

/// The words of that loop.
const TRACED: [&str; 3] = ["loop", "jobs", "--trace"];

#[test]
fn a_trace_goes_quiet_where_the_clock_fails(rt: HostRuntime) {
    for (looks, told) in [
        (0, b"".as_slice()),
        (1, b""),
        (2, CUT[1]),
        (3, CUT[0]),
        (4, TRACE),
        (100, TRACE),
    ] {
        let mut err = Written::new();
        assert_loop(&rt, &TRACED, looks, &mut err);
        assert!(rt; err.as_slice() == told);
    }
}

/// A writer of which one write, counted from 0, fails.
#[derive(Drop)]
pub(super) struct Failing {
    pub(super) written: Written,
    pub(super) writes: u32,
    pub(super) failing: u32,
}

impl Write for Failing {
    fn write(&mut self, bytes: &[u8]) -> io::Result<usize> {
        let write = self.writes;
        self.writes = write.saturating_add(1);
        if write == self.failing {
            return Err(io::Error::from(ErrorKind::Other));
        }
        self.written.write(bytes)
    }

    fn flush(&mut self) -> io::Result<()> {
        Ok(())
    }
}

#[test]
fn a_trace_goes_quiet_where_a_write_fails(rt: HostRuntime) {
    for (failing, told) in [(0, b"".as_slice()), (1, CUT[1]), (2, CUT[0]), (3, TRACE)] {
        let mut err = Failing {
            written: Written::new(),
            writes: 0,
            failing,
        };
        assert_loop(&rt, &TRACED, 100, &mut err);
        assert!(rt; err.written.as_slice() == told);
    }
}
