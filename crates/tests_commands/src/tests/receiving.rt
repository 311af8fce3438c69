//! What `receive` makes of what comes over a line: its file, its texts, what it answers, and when it leaves by itself.
ghost use Rattle.std.specs.Prelude.{None};

use super::told_line::ToldLine;
use super::{Written, assert_file, line_of};
use rje_requests::{Destination, Existing};
use rje_sockets::receive_over;
use rje_station::Line;
use rje_store::{MemoryStore, Store, StoreFault};
use std::alloc::{AllocError, Global};
use std::io::ErrorKind;
use std::process::Abort;

const ENQ: &[u8] = b"\x32\x32\x2D";

const EOT: &[u8] = b"\x32\x32\x37";

const QUIET: &[u8] = b"";

/// The version 2 file of one job (default device, normal, whole, one record `A`) as it was received.
const RECEIVED: &[u8] =
    b"RJ37\x00\x02\x00\x00\x00\x00\x00\x00\x00\x01        \x02\x00\x00\x00\x00\x00\x00\x00\x00\x00\x01\x00\x01\xC1";

const ONE_JOB: &[u8] = b"handed 1 jobs, 1 whole\n";

const FAILED: &[u8] = b"rje: line failed\n";

const NOT_WRITTEN: &[u8] = b"rje: got: no storage space\nrje: can't write got\n";

/// What is received into.
const REPLACED: Destination = Destination {
    jobs: "got",
    existing: Existing::Replace,
};

/// What comes over this line is received into the file `got` of this store: it ends with this status and writes these texts.
fn assert_receives(
    rt: &(impl Abort + AllocGlobal),
    line: &mut impl Line,
    store: &mut impl Store,
    status: u8,
    text: &[u8],
    told: &[u8],
) {
    let mut out = Written::new();
    let mut err = Written::new();
    let ended = receive_over(rt.alloc(), line, REPLACED, store, &mut out, &mut err);
    assert!(rt; ended == status);
    assert!(rt; out.as_slice() == text);
    assert!(rt; err.as_slice() == told);
}

/// The receiver of these transmissions between so many quiet hearings, which bring no job, ends with this status, and these are its answers on
/// the line.
fn assert_answers(
    rt: &(impl Abort + AllocGlobal),
    count: usize,
    middle: &[&'static [u8]],
    status: u8,
    answers: &[u8],
) {
    let told = between(rt.alloc(), count, middle).expect(rt, "no memory");
    let mut line = ToldLine::new(&told);
    let mut store = MemoryStore::new(rt.alloc());
    let text = b"handed 0 jobs, 0 whole\n";
    assert_receives(rt, &mut line, &mut store, status, text, b"");
    assert!(rt; line.sent.as_slice() == answers);
}

/// This many quiet hearings, these, as many quiet ones again, and the end.
fn between(
    alloc: Global,
    count: usize,
    middle: &[&'static [u8]],
) -> Result<Vec<&'static [u8]>, AllocError> {
    let mut told = Vec::new(alloc);
    for _ in 0..count {
        told.push(QUIET)?;
    }
    told.extend_from_slice(middle)?;
    for _ in 0..count {
        told.push(QUIET)?;
    }
    told.push(EOT)?;
    Ok(told)
}

#[test]
fn quiet_hearings_are_counted_in_a_row(rt: HostRuntime) {
    let ack0 = b"\x32\x32\x10\x70\xFF";
    assert_answers(&rt, 39, &[ENQ], 0, ack0);
    assert_answers(&rt, 40, &[ENQ], 4, b"");

    // Noise isn't quiet, nor is a text that is spoiled; each ends with the line's quiet. Neither is answered before a bid.
    let noise: &[u8] = b"\x00";
    let spoiled: &[u8] = b"\x32\x32\x02\xC1";
    for heard in [noise, spoiled] {
        assert_answers(&rt, 39, &[heard, QUIET], 0, b"");
    }

    // Pads are quiet: 39 and these are 40.
    let pads: &[u8] = b"\xFF\x55\x32";
    assert_answers(&rt, 39, &[pads, QUIET], 4, b"");
}

/// A bid, the block of the record `A`, and the end.
const TRANSMISSION: [&[u8]; 3] = [
    b"\x32\x32\x2D",
    b"\x32\x32\x02\xC1\x1E\x03\x18\x5D\xFF",
    b"\x32\x32\x37",
];

/// The version 2 file of two such jobs.
const TWO_RECEIVED: &[u8] =
    b"RJ37\x00\x02\x00\x00\x00\x00\x00\x00\x00\x02        \x02\x00\x00\x00\x00\x00\x00\x00\x00\x00\x01\x00\x01\xC1        \x02\x00\x00\x00\x00\x00\x00\x00\x00\x00\x01\x00\x01\xC1";

#[test]
fn a_receiver_leaves_after_40_quiet_hearings(rt: HostRuntime) {
    let mut line = line_of(&rt, &TRANSMISSION[..2]);

    // Two hearings, an answer to each, and then 40 quiet ones: a call that would fail comes too late, and one before doesn't.
    line.fail_at(45);
    let mut store = MemoryStore::new(rt.alloc());
    assert_receives(&rt, &mut line, &mut store, 4, ONE_JOB, b"");
    assert_file(&rt, &mut store, "got", RECEIVED);
    let mut line = line_of(&rt, &TRANSMISSION[..2]);
    line.fail_at(44);
    assert_receives(&rt, &mut line, &mut store, 3, ONE_JOB, FAILED);
}

/// No files, and none that can be written.
#[derive(Drop)]
struct NoFiles;

impl Store for NoFiles {
    ghost files = { λ _. None };

    fn lock(&mut self, _alloc: Global, _name: &str) -> Result<(), StoreFault> {
        Ok(())
    }

    fn read(&mut self, _alloc: Global, _name: &str) -> Result<Vec<u8>, StoreFault> {
        Err(StoreFault::Failed(ErrorKind::StorageFull))
    }

    fn write(&mut self, _name: &str, _bytes: &[u8]) -> Result<(), StoreFault> {
        Err(StoreFault::Failed(ErrorKind::StorageFull))
    }
}

#[test]
fn a_job_file_that_cannot_be_written_is_told_behind_the_lines(rt: HostRuntime) {
    let mut line = line_of(&rt, &TRANSMISSION);
    assert_receives(&rt, &mut line, &mut NoFiles, 3, ONE_JOB, NOT_WRITTEN);
    let mut line = line_of(&rt, &TRANSMISSION[..2]);
    line.fail_at(3);
    let text = b"handed 0 jobs, 0 whole\n";
    assert_receives(&rt, &mut line, &mut NoFiles, 3, text, FAILED);
}

/// A bid, the blocks of two jobs of the record `A`, and the end.
const TWO_JOBS: [&[u8]; 4] = [
    b"\x32\x32\x2D",
    b"\x32\x32\x02\xC1\x1E\x03\x18\x5D\xFF",
    b"\x32\x32\x02\xC1\x1E\x03\x18\x5D\xFF",
    b"\x32\x32\x37",
];

/// Files in memory, some of which can be written, and then no more.
#[derive(Drop)]
pub(super) struct FillingStore {
    files: MemoryStore,
    room: u32,
}

impl FillingStore {
    /// These files; one more can be written.
    pub(super) fn new(files: MemoryStore) -> FillingStore {
        FillingStore { files, room: 1 }
    }
}

impl Store for FillingStore {
    ghost files = { λ _. None };

    fn lock(&mut self, _alloc: Global, _name: &str) -> Result<(), StoreFault> {
        Ok(())
    }

    fn read(&mut self, alloc: Global, name: &str) -> Result<Vec<u8>, StoreFault> {
        self.files.read(alloc, name)
    }

    fn write(&mut self, name: &str, bytes: &[u8]) -> Result<(), StoreFault> {
        if self.room == 0 {
            return Err(StoreFault::Failed(ErrorKind::StorageFull));
        }
        self.room -= 1;
        self.files.write(name, bytes)
    }
}

#[test]
fn a_job_that_cannot_be_kept_is_not_acknowledged(rt: HostRuntime) {
    let two_jobs = b"handed 2 jobs, 2 whole\n".as_slice();
    for (room, answer, status, text, told) in [
        (
            0,
            b"\x32\x32\x10\x70\xFF".as_slice(),
            3,
            ONE_JOB,
            NOT_WRITTEN,
        ),
        (1, b"\x32\x32\x10\x61\xFF", 3, two_jobs, NOT_WRITTEN),
        (2, b"\x32\x32\x10\x70\xFF", 0, two_jobs, b""),
    ] {
        let mut line = line_of(&rt, &TWO_JOBS);
        let mut store = FillingStore {
            files: MemoryStore::new(rt.alloc()),
            room,
        };
        assert_receives(&rt, &mut line, &mut store, status, text, told);
        assert!(rt; line.sent() == answer);
        match room {
            0 => assert!(rt; store.read(rt.alloc(), "got") == Err(StoreFault::Missing)),
            1 => assert_file(&rt, &mut store, "got", RECEIVED),
            _ => assert_file(&rt, &mut store, "got", TWO_RECEIVED),
        }
    }
}
