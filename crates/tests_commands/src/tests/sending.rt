//! What `send` sends of a job file, and what it writes back.
ghost use Rattle.std.specs.Prelude.{None};

use super::receiving::FillingStore;
use super::{Written, assert_file, joined, line_of, store_of};
use line_world::MemoryLine;
use rje_sockets::send_over;
use rje_store::{Store, StoreFault, WriteMode};
use std::alloc::Global;
use std::io::{self, ErrorKind, Write};
use std::process::Abort;

const ACK0: &[u8] = b"\x32\x32\x10\x70\xFF";

const ACK1: &[u8] = b"\x32\x32\x10\x61\xFF";

const EOT: &[u8] = b"\x32\x32\x37\xFF";

const RVI: &[u8] = b"\x32\x32\x10\x7C\xFF";

const NOT_WRITTEN: &[u8] = b"rje: jobs: no storage space\nrje: can't write jobs\n";

const NO_MARKS: &[u8] =
    b"rje: jobs: no job can be marked in a device or a pipe\nrje: can't write jobs\n";

/// The version 2 file of three jobs in these states (0 waiting, 1 sent), of one record `A` each.
fn three_jobs(rt: &impl Abort, states: [u8; 3]) -> Written {
    let header = b"RJ37\x00\x02\x00\x00\x00\x00\x00\x00\x00\x03".as_slice();
    let name = b"        ".as_slice();
    let rest = b"\x00\x00\x00\x00\x00\x00\x00\x00\x00\x01\x00\x01\xC1".as_slice();
    let [first, second, third] = states;
    joined(
        rt,
        &[
            header,
            name,
            &[first],
            rest,
            name,
            &[second],
            rest,
            name,
            &[third],
            rest,
        ],
    )
}

/// What is left of the file `jobs` of this store is sent over this line: it ends with this status and
/// writes these texts.
fn assert_sends(
    rt: &(impl Abort + AllocGlobal),
    line: &mut MemoryLine,
    store: &mut impl Store,
    status: u8,
    text: &[u8],
    told: &[u8],
) {
    let mut out = Written::new();
    let mut err = Written::new();
    let ended = send_over(rt.alloc(), line, "jobs", store, &mut out, &mut err);
    assert!(rt; ended == status);
    assert!(rt; out.as_slice() == text);
    assert!(rt; err.as_slice() == told);
}

/// Of three jobs, the second of which was sent before, those that are left are sent over a line on which these answers come and this call fails
/// (0: none): it ends with this status, writes these texts, and leaves the jobs in these states.
fn assert_marks(
    rt: &(impl Abort + AllocGlobal),
    answers: &[&[u8]],
    call: u64,
    status: u8,
    text: &[u8],
    told: &[u8],
    states: [u8; 3],
) {
    let mut store = store_of(rt, "jobs", three_jobs(rt, [0, 1, 0]).as_slice());
    let mut line = line_of(rt, answers);
    line.fail_at(call);
    assert_sends(rt, &mut line, &mut store, status, text, told);
    assert_file(rt, &mut store, "jobs", three_jobs(rt, states).as_slice());
}

#[test]
fn what_was_counted_is_marked_however_a_transmission_ends(rt: HostRuntime) {
    // Seven tries in silence, an RVI, and an EOT in place of an answer.
    let given_up = b"counted 0 of 2 jobs\noutcome gave up\n";
    let turned = b"counted 1 of 2 jobs\noutcome turned\n";
    let ended = b"counted 1 of 2 jobs\noutcome ended\n";
    assert_marks(&rt, &[], 0, 4, given_up, b"", [0, 1, 0]);
    assert_marks(&rt, &[ACK0, RVI], 0, 4, turned, b"", [1, 1, 0]);
    assert_marks(&rt, &[ACK0, ACK1, EOT], 0, 4, ended, b"", [1, 1, 0]);

    // Babble, and a second block that the line doesn't take.
    let open = b"counted 1 of 2 jobs\noutcome open\n";
    let babble = [ACK0, ACK1, &[0x00; 8193]];
    assert_marks(&rt, &babble, 0, 3, open, b"rje: babble\n", [1, 1, 0]);
    let failed = b"rje: line failed\n";
    assert_marks(&rt, &[ACK0, ACK1], 5, 3, open, failed, [1, 1, 0]);
}

/// One file under any name, which can't be written.
#[derive(Drop)]
pub(super) struct ReadOnly {
    pub(super) file: Written,
}

impl Store for ReadOnly {
    ghost files = { λ _. None };

    fn lock(&mut self, _alloc: Global, _name: &str) -> Result<(), StoreFault> {
        Ok(())
    }

    fn read(&mut self, alloc: Global, _name: &str) -> Result<Vec<u8>, StoreFault> {
        match Vec::from_slice(alloc, self.file.as_slice()) {
            Ok(bytes) => Ok(bytes),
            Err(_) => Err(StoreFault::OutOfMemory),
        }
    }

    fn write(&mut self, _name: &str, _bytes: &[u8]) -> Result<(), StoreFault> {
        Err(StoreFault::Failed(ErrorKind::StorageFull))
    }
}

#[test]
fn nothing_is_sent_that_cannot_be_marked(rt: HostRuntime) {
    let mut store = ReadOnly {
        file: three_jobs(&rt, [0, 1, 1]),
    };
    let mut line = line_of(&rt, &[ACK0, ACK1]);
    assert_sends(&rt, &mut line, &mut store, 3, b"", NOT_WRITTEN);
    assert!(rt; line.sent().is_empty());

    // Nor of a device or a pipe.
    let mut store = Watched::new(three_jobs(&rt, [0, 0, 0]));
    store.place = WriteMode::Once;
    let mut line = line_of(&rt, &[ACK0, ACK1]);
    assert_sends(&rt, &mut line, &mut store, 3, b"", NO_MARKS);
    assert!(rt; line.sent().is_empty());
    assert!(rt; store.written == 0);
}

#[test]
fn a_file_that_cannot_be_written_back_is_told_behind_the_lines(rt: HostRuntime) {
    for (call, text, told) in [
        (
            0,
            b"counted 1 of 1 jobs\noutcome done\n".as_slice(),
            NOT_WRITTEN,
        ),
        (
            3,
            b"counted 0 of 1 jobs\noutcome open\n",
            b"rje: line failed\n",
        ),
    ] {
        let files = store_of(&rt, "jobs", three_jobs(&rt, [0, 1, 1]).as_slice());
        let mut line = line_of(&rt, &[ACK0, ACK1]);
        line.fail_at(call);
        assert_sends(&rt, &mut line, &mut FillingStore::new(files), 3, text, told);
    }
}

/// An output that can't be written.
#[derive(Drop)]
struct NoOutput;

impl Write for NoOutput {
    fn write(&mut self, _bytes: &[u8]) -> io::Result<usize> {
        Err(io::Error::from(ErrorKind::Other))
    }

    fn flush(&mut self) -> io::Result<()> {
        Ok(())
    }
}

#[test]
fn of_a_file_and_an_output_that_fail_the_file_is_told(rt: HostRuntime) {
    let files = store_of(&rt, "jobs", three_jobs(&rt, [0, 1, 1]).as_slice());
    let mut store = FillingStore::new(files);
    let mut line = line_of(&rt, &[ACK0, ACK1]);
    let mut err = Written::new();
    let ended = send_over(
        rt.alloc(),
        &mut line,
        "jobs",
        &mut store,
        &mut NoOutput,
        &mut err,
    );
    assert!(rt; ended == 3);
    assert!(rt; err.as_slice() == NOT_WRITTEN);
}

/// One file, in memory, with what was asked of it.
#[derive(Drop)]
struct Watched {
    file: Written,
    /// How many files were written whole.
    written: u32,
    /// How many bytes were set.
    set: u32,
    /// No byte can be set.
    is_stiff: bool,
    /// How it can be written.
    place: WriteMode,
}

impl Watched {
    fn new(file: Written) -> Watched {
        Watched {
            file,
            written: 0,
            set: 0,
            is_stiff: false,
            place: WriteMode::Growing,
        }
    }
}

impl Store for Watched {
    ghost files = { λ _. None };

    fn lock(&mut self, _alloc: Global, _name: &str) -> Result<(), StoreFault> {
        Ok(())
    }

    fn read(&mut self, alloc: Global, _name: &str) -> Result<Vec<u8>, StoreFault> {
        match Vec::from_slice(alloc, self.file.as_slice()) {
            Ok(bytes) => Ok(bytes),
            Err(_) => Err(StoreFault::OutOfMemory),
        }
    }

    fn write(&mut self, _name: &str, bytes: &[u8]) -> Result<(), StoreFault> {
        self.written = self.written.saturating_add(1);
        self.file.clear();
        match self.file.try_extend_from_slice(bytes) {
            Ok(()) => Ok(()),
            Err(_) => Err(StoreFault::Failed(ErrorKind::StorageFull)),
        }
    }

    fn look(&mut self, _name: &str) -> Result<WriteMode, StoreFault> {
        Ok(self.place)
    }

    fn set_byte(
        &mut self,
        _alloc: Global,
        _name: &str,
        place: usize,
        byte: u8,
    ) -> Result<(), StoreFault> {
        self.set = self.set.saturating_add(1);
        if self.is_stiff || self.file.len() <= place {
            return Err(StoreFault::Failed(ErrorKind::StorageFull));
        }
        self.file.as_mut_slice()[place] = byte;
        Ok(())
    }
}

/// Three jobs are sent of a store like this, over a line that ends after this many answers. Returns what became of it.
fn sent_in(
    rt: &(impl Abort + AllocGlobal),
    mut store: Watched,
    answers: &[&[u8]],
    status: u8,
    text: &[u8],
) -> Watched {
    let mut line = line_of(rt, answers);
    assert_sends(rt, &mut line, &mut store, status, text, b"");
    store
}

#[test]
fn each_job_is_marked_as_it_is_counted(rt: HostRuntime) {
    // The copy before anything is said, then each by a byte in it, and at the end the whole file again.
    let store = Watched::new(three_jobs(&rt, [0, 0, 0]));
    let text = b"counted 3 of 3 jobs\noutcome done\n";
    let store = sent_in(&rt, store, &[ACK0, ACK1, ACK0, ACK1], 0, text);
    assert!(rt; store.written == 2);
    assert!(rt; store.set == 3);
    assert!(rt; store.file.as_slice() == three_jobs(&rt, [1, 1, 1]).as_slice());

    // Where nothing is counted, no byte is set.
    let store = Watched::new(three_jobs(&rt, [0, 0, 0]));
    let text = b"counted 0 of 3 jobs\noutcome gave up\n";
    let store = sent_in(&rt, store, &[], 4, text);
    assert!(rt; store.written == 2);
    assert!(rt; store.set == 0);
}

#[test]
fn marks_that_fail_are_made_at_the_end(rt: HostRuntime) {
    let text = b"counted 3 of 3 jobs\noutcome done\n";
    let mut store = Watched::new(three_jobs(&rt, [0, 0, 0]));
    store.is_stiff = true;
    let store = sent_in(&rt, store, &[ACK0, ACK1, ACK0, ACK1], 0, text);
    assert!(rt; store.written == 2);
    assert!(rt; store.set == 1);
    assert!(rt; store.file.as_slice() == three_jobs(&rt, [1, 1, 1]).as_slice());
}
