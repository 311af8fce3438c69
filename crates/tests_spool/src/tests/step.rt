//! A test as a list of steps: what is done on the disk and to the spool, and what is found then.
use super::page::Page;
use super::{Ground, TestSpool};
use rje_day::Disposition;
use rje_jobs::{Job, job_of_deck};
use rje_session::Spool;
use rje_spool::Notice;
use rje_store::Disk;
use rje_text::{Mode, Select};
use std::process::Abort;

/// When all begins, in seconds since 1970.
pub(super) const BEGIN: u64 = 1795871109;

/// What is done, or found.
#[derive(Clone, Copy)]
pub(super) enum Step<'a> {
    /// A file of these bytes is put on the disk.
    Put(&'a str, &'a [u8]),
    /// So many decks of one card lie ready, each named by its number, from 0 on.
    PutDecks(usize),
    /// Another user's file of these bytes is put on the disk, which may be renamed.
    PutOfAnother(&'a str, &'a [u8]),
    /// The same, which can't be renamed.
    PutHeldFast(&'a str, &'a [u8]),
    /// Another file of these bytes takes the place of one.
    Replace(&'a str, &'a [u8]),
    /// The first byte of a file becomes this one.
    Write(&'a str, u8),
    /// A file gets another name in the place of the one that it has.
    Rename(&'a str, &'a str),
    /// A file is taken away.
    Remove(&'a str),
    /// The file there is another user's: it gets no second name.
    Deny(&'a str),
    /// The names in this folder can't be seen from now on.
    HideFolder(&'a str),
    /// No file gets more bytes than these from now on.
    SetRoom(usize),
    /// The next call that changes something on the disk fails.
    FailNext,
    /// At the next such call the first byte of this file becomes an X.
    WriteMeanwhile(&'a str),
    /// The clock shows this, in seconds since 1970, or can't be read.
    Clock(Option<u64>),
    /// What was reported is taken away from the page and from the log.
    Clear,
    /// A file of just these bytes is there.
    File(&'a str, &'a [u8]),
    /// A file is there.
    Stands(&'a str),
    /// None is.
    Absent(&'a str),
    /// There are so many names more on the disk than when the station began.
    NewNames(usize),
    /// Just this was reported.
    Told(&'a [u8]),
    /// This isn't among what was reported.
    Untold(&'a [u8]),
    /// Whether something lies ready.
    Ready(bool),
    /// A transmission is given so many jobs: none if nothing lies ready.
    Gives(usize),
    /// The last block of a job may be said, or may not.
    GoesOut(usize, bool),
    /// A job comes to this, which can be settled or can't.
    Settles(usize, Disposition, bool),
    /// The last blocks of so many jobs, from the first on, are said, and each job comes to this.
    AllCome(usize, Disposition),
    /// Answers came out of step: whether all that may have arrived is in doubt.
    DoubtsAll(bool),
    /// Whether a station can receive.
    CanReceive(bool),
    /// A job of these cards came, which can be kept or can't.
    Keeps(&'a [u8], Select, bool),
    /// A job of these cards was cut.
    KeepsCut(&'a [u8], Select, Mode),
    /// The station ends.
    Ends,
}

/// Carries these steps out: the first ones before the station begins, the others then.
pub(super) fn play(rt: &(impl Abort + AllocGlobal), before: &[Step<'_>], steps: &[Step<'_>]) {
    let ground = Ground::new(rt.alloc());
    for (number, step) in before.iter().enumerate() {
        assert!(rt;
            is_done(rt, &ground, *step),
            "step {number} before the station begins"
        );
    }
    let mut spool = ground.spool(rt);
    let names = ground.count(rt);
    for (number, step) in steps.iter().enumerate() {
        let is_well = match *step {
            Step::NewNames(more) => ground.count(rt) == names.saturating_add(more),
            step => is_done(rt, &ground, step) || is_taken(rt, &mut spool, step),
        };
        assert!(rt; is_well, "step {number}");
    }
}

/// Whether a step is one on the disk, the clock or the pages, and all is well.
fn is_done(rt: &(impl Abort + AllocGlobal), ground: &Ground, step: Step<'_>) -> bool {
    is_put(rt, ground, step) || is_changed(rt, ground, step) || is_found(rt, ground, step)
}

/// Whether a step puts something on the disk, and that is done.
fn is_put(rt: &(impl Abort + AllocGlobal), ground: &Ground, step: Step<'_>) -> bool {
    match step {
        Step::Put(path, bytes) => ground.put(rt, path, bytes),
        Step::PutDecks(count) => put_decks(rt, ground, count),
        Step::PutOfAnother(path, bytes) => ground.put_of_another(rt, path, bytes, false),
        Step::PutHeldFast(path, bytes) => ground.put_of_another(rt, path, bytes, true),
        Step::Replace(path, bytes) => ground.replace(rt, path, bytes),
        Step::Write(path, byte) => ground.write(rt, path, byte),
        Step::Rename(from, to) => assert!(rt; ground.disk().rename(from, to).is_ok()),
        Step::Remove(path) => ground.remove(rt, path),
        _ => return false,
    }
    true
}

/// Whether a step changes what comes of calls, or what the clock shows, and that is done.
fn is_changed(rt: &impl Abort, ground: &Ground, step: Step<'_>) -> bool {
    match step {
        Step::Deny(path) => ground.deny(rt, path),
        Step::HideFolder(path) => ground.hide_folder(rt, path),
        Step::SetRoom(bytes) => ground.set_room(rt, bytes),
        Step::FailNext => ground.fail_next(rt),
        Step::WriteMeanwhile(path) => ground.write_meanwhile(rt, path),
        Step::Clock(seconds) => ground.clock.set(seconds),
        Step::Clear => ground.clear(),
        _ => return false,
    }
    true
}

/// Whether a step says what is on the disk and on the pages, and it is.
fn is_found(rt: &impl Abort, ground: &Ground, step: Step<'_>) -> bool {
    match step {
        Step::File(path, bytes) => ground.has(rt, path, bytes),
        Step::Stands(path) => ground.stands(path),
        Step::Absent(path) => !ground.stands(path),
        Step::Told(lines) => ground.has_told(lines),
        Step::Untold(text) => !Page::new(&ground.page).has(text),
        _ => false,
    }
}

/// Whether a step is one of the spool's, and comes to what it says.
fn is_taken(rt: &(impl Abort + AllocGlobal), spool: &mut TestSpool<'_>, step: Step<'_>) -> bool {
    match step {
        Step::Ready(ready) => spool.seen().ready == ready,
        Step::Gives(jobs) => given(rt, spool) == jobs,
        Step::GoesOut(job, may_be) => spool.goes_out(job).is_ok() == may_be,
        Step::Settles(job, what, can_be) => spool.settle(job, what).is_ok() == can_be,
        Step::AllCome(jobs, what) => {
            settled(rt, spool, jobs, what);
            true
        }
        Step::DoubtsAll(all) => spool.doubt_all().is_ok() == all,
        Step::CanReceive(can) => spool.can_receive() == can,
        Step::Keeps(cards, select, can_be) => {
            spool.keep(&job_of(rt, cards, select, Mode::Normal)).is_ok() == can_be
        }
        Step::KeepsCut(cards, select, mode) => {
            spool.keep_cut(&job_of(rt, cards, select, mode)).is_ok()
        }
        Step::Ends => {
            spool.tell(Notice::Ended);
            true
        }
        _ => false,
    }
}

/// Gives what lies ready to a transmission: how many jobs it has. None where nothing lies ready.
pub(super) fn given(rt: &(impl Abort + AllocGlobal), spool: &mut TestSpool<'_>) -> usize {
    if !spool.seen().ready {
        return 0;
    }
    spool.next(rt.alloc()).expect(rt, "jobs").len()
}

/// Each of so many jobs of the transmission comes to this.
pub(super) fn settled(rt: &impl Abort, spool: &mut TestSpool<'_>, jobs: usize, what: Disposition) {
    for job in 0..jobs {
        assert!(rt; spool.goes_out(job).is_ok());
        assert!(rt; spool.settle(job, what).is_ok());
    }
}

/// So many decks of one card lie ready.
fn put_decks(rt: &(impl Abort + AllocGlobal), ground: &Ground, count: usize) {
    for number in 0..count {
        let path = format!(in rt.alloc(); "s/out/{number:02}.deck").expect(rt, "memory");
        ground.put(rt, path.as_str(), b"A\n");
    }
}

/// The job of these cards.
fn job_of(rt: &(impl Abort + AllocGlobal), cards: &[u8], select: Select, mode: Mode) -> Job {
    job_of_deck(rt.alloc(), cards, select, mode).expect(rt, "a job")
}
