//! Which call serves which command, and an input that fails. What commands print, and what they refuse, is in tests/.
use super::{FILE, Written, store_of};
use rje_program::{command, is_for_sockets, is_for_station, is_for_status, socket_command};
use rje_store::{MAX_INPUT, MemoryStore};
use std::io::{self, ErrorKind, Read};

/// A reader that gives this many bytes, and then fails.
#[derive(Drop)]
struct Failing {
    left: usize,
}

impl Read for Failing {
    fn read(&mut self, buf: &mut [u8]) -> io::Result<usize> {
        let count = buf.len().min(self.left);
        if count == 0 {
            return Err(io::Error::from(ErrorKind::Interrupted));
        }
        buf[..count].fill(b'A');
        self.left -= count;
        Ok(count)
    }
}

#[test]
fn an_input_that_fails_or_is_too_long_cannot_be_read(rt: HostRuntime) {
    for (left, reported) in [
        (
            10,
            b"rje: -: operation interrupted\nrje: can't read -\n".as_slice(),
        ),
        (
            MAX_INPUT + 1,
            b"rje: -: too long\nrje: can't read -\n".as_slice(),
        ),
    ] {
        let mut store = MemoryStore::new(rt.alloc());
        let mut input = Failing { left };
        let mut written = Written::new();
        let mut told = Written::new();
        let ended = command(
            rt.alloc(),
            &[],
            &mut store,
            &mut input,
            &mut written,
            &mut told,
        );
        assert!(rt; ended == 3);
        assert!(rt; written.is_empty());
        assert!(rt; told.as_slice() == reported);
    }
}

#[test]
fn each_call_serves_its_own_commands(rt: HostRuntime) {
    assert!(rt; is_for_sockets(&["loop", "jobs"]));
    assert!(rt; is_for_sockets(&["send"]));
    assert!(rt; is_for_sockets(&["receive", "--help"]));
    assert!(rt; !is_for_sockets(&["show", "loop"]));
    assert!(rt; !is_for_sockets(&[]));
    assert!(rt; is_for_station(&["station", "here"]));
    assert!(rt; !is_for_station(&["status", "here"]));
    assert!(rt; is_for_status(&["status", "here"]));
    assert!(rt; !is_for_status(&["station", "status"]));
    assert!(rt; !is_for_station(&["loop", "station"]));
    let mut store = store_of(&rt, "jobs", FILE);
    let mut out = Written::new();
    let mut err = Written::new();
    let words = ["show", "jobs"];
    let over_sockets = socket_command(
        &rt,
        rt.alloc(),
        &words,
        &mut store,
        &mut out,
        &mut err,
        false,
    );
    let mut input: &[u8] = b"";
    let words = ["loop", "jobs"];
    let over_files = command(
        rt.alloc(),
        &words,
        &mut store,
        &mut input,
        &mut out,
        &mut err,
    );
    assert!(rt; (over_sockets, over_files) == (2, 2));
    assert!(rt; out.is_empty());
    assert!(rt; err.as_slice() == b"rje: no command\nrje: no command\n".as_slice());
}
