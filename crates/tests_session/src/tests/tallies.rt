//! How much of a transmission is held.
use rje_jobs::{Job, job_of_deck};
use rje_session::Totals;
use rje_text::{Mode, Select};
use std::process::Abort;

/// The job of these cards.
fn job_of(rt: &(impl Abort + AllocGlobal), cards: &[u8]) -> Job {
    job_of_deck(rt.alloc(), cards, Select::Unset, Mode::Normal).expect(rt, "a job")
}

/// A job file has 14 bytes, and for each job 19, and for each record two and its data (docs/FORMATS.md).
#[test]
fn a_tally_has_the_bytes_of_the_job_file(rt: HostRuntime) {
    let mut jobs = Vec::new(rt.alloc());
    assert!(rt; jobs.push(job_of(&rt, b"ONE\nTHREE\n")).is_ok());
    let one = Totals::after_file(14).after(jobs.as_slice());
    assert!(rt; one.is_too_much(44) && !one.is_too_much(45));
    assert!(rt; one.is_too_much_for_one(44) && !one.is_too_much_for_one(45));
    // The same again: nothing more came.
    let same = one.after(jobs.as_slice());
    assert!(rt; same == one);
    assert!(rt; jobs.push(job_of(&rt, b"SIX\n")).is_ok());
    let two = one.after(jobs.as_slice());
    assert!(rt; two.is_too_much(37) && !two.is_too_much(38));
    assert!(rt; two.is_too_much_for_one(68) && !two.is_too_much_for_one(69));
}

/// 100,000 jobs are held of a transmission, and not one more.
#[test]
fn a_hundred_thousand_jobs_are_held(rt: HostRuntime) {
    let mut jobs = Vec::new(rt.alloc());
    for _ in 0..100_000 {
        assert!(rt; jobs.push(job_of(&rt, b"")).is_ok());
    }
    assert!(rt;
        !Totals::after_file(14)
            .after(jobs.as_slice())
            .is_too_much(usize::MAX)
    );
    assert!(rt; jobs.push(job_of(&rt, b"")).is_ok());
    assert!(rt;
        Totals::after_file(14)
            .after(jobs.as_slice())
            .is_too_much(usize::MAX)
    );
}

/// 750,000 records are held of a transmission, and not one more, however many jobs they are of.
#[test]
fn three_quarters_of_a_million_records_are_held(rt: HostRuntime) {
    let mut cards = Vec::new(rt.alloc());
    assert!(rt; cards.resize(375_000, b'\n').is_ok());
    let mut jobs = Vec::new(rt.alloc());
    assert!(rt; jobs.push(job_of(&rt, cards.as_slice())).is_ok());
    let one = Totals::after_file(14).after(jobs.as_slice());
    assert!(rt; jobs.push(job_of(&rt, cards.as_slice())).is_ok());
    let two = one.after(jobs.as_slice());
    assert!(rt; !two.is_too_much(usize::MAX));
    assert!(rt; jobs.push(job_of(&rt, b"ONE\n")).is_ok());
    assert!(rt; two.after(jobs.as_slice()).is_too_much(usize::MAX));
}
