//! Listings, punched decks, which jobs can be sent, and the texts of their faults.
use super::{job, prints};
use rje_jobs::{FileFault, Form, job_fits, job_of_deck, list_job, punch_job};
use rje_text::{Action, Mode, Select};
use std::process::Abort;
use std::test::Fail;

const FAULTS: [(FileFault, &str); 7] = [
    (FileFault::NotJobFile, "not a job file"),
    (FileFault::Version(9), "job file version 9 is not read"),
    (FileFault::Truncated(5), "job file ends at byte 5"),
    (
        FileFault::BadField(14),
        "job file has a bad field at byte 14",
    ),
    (FileFault::Trailing(28), "job file goes on at byte 28"),
    (FileFault::BadEntry(3), "job file has a bad entry 3"),
    (FileFault::OutOfMemory, "out of memory"),
];

#[test]
fn file_faults_have_their_texts(rt: HostRuntime) -> Result<(), Fail> {
    for (fault, text) in &FAULTS {
        assert!(rt; prints(&rt, fault, text)?);
    }
    Ok(())
}

/// The listing of a printer's job of one record.
fn assert_listed(
    rt: &(impl Abort + AllocGlobal),
    action: Action,
    bytes: &[u8],
    listing: &[u8],
) -> Result<(), Fail> {
    let job = job(rt, Select::Printer, action, bytes)?;
    assert!(rt; list_job(rt.alloc(), &job)?.as_slice() == listing);
    Ok(())
}

#[test]
fn lines_are_listed_with_their_carriage_control(rt: HostRuntime) -> Result<(), Fail> {
    assert_listed(&rt, Action::Ch1, &[0xE7], &[0x58, 0x0A, 0x0C])?;
    assert_listed(&rt, Action::Plain, &[0x27, 0xF0, 0xE7], b"?0X\n")?;
    assert_listed(&rt, Action::Single, &[0xC1], b"A\n")?;
    assert_listed(&rt, Action::Double, &[0xC1], b"A\n\n")?;
    assert_listed(&rt, Action::Triple, &[], b"\n\n\n")?;
    assert_listed(&rt, Action::Suppress, &[0xC1], b"A\r")?;
    assert_listed(&rt, Action::Ch2, &[0xC1], b"A\n[channel 2]\n")?;
    assert_listed(&rt, Action::Ch9, &[0xC1], b"A\n[channel 9]\n")?;
    assert_listed(&rt, Action::Ch12, &[0xC1], b"A\n[channel 12]\n")
}

#[test]
fn a_cut_job_is_listed_as_a_whole_one(rt: HostRuntime) -> Result<(), Fail> {
    let mut cut = job_of_deck(rt.alloc(), b"A\nB\n", Select::Printer, Mode::Normal)?;
    cut.whole = false;
    assert!(rt; list_job(rt.alloc(), &cut)?.as_slice() == b"A\nB\n".as_slice());
    Ok(())
}

#[test]
fn cards_are_punched(rt: HostRuntime) -> Result<(), Fail> {
    let one = job(&rt, Select::Punch, Action::Plain, &[0xC1])?;
    assert!(rt; punch_job(rt.alloc(), &one, Form::Ascii)?.as_slice() == [0x41, 0x0A].as_slice());
    let mut card = [0x40; 80];
    card[0] = 0xC1;
    assert!(rt; punch_job(rt.alloc(), &one, Form::Raw)?.as_slice() == card.as_slice());
    let long = job(&rt, Select::Punch, Action::Plain, &[0xC1; 81])?;
    assert!(rt; punch_job(rt.alloc(), &long, Form::Raw)?.as_slice() == [0xC1; 81].as_slice());
    Ok(())
}

#[test]
fn jobs_that_cannot_be_sent_do_not_fit(rt: HostRuntime) -> Result<(), Fail> {
    assert!(rt; job_fits(&job(&rt, Select::Unset, Action::Ch1, &[0xC1; 144])?));
    assert!(rt; job_fits(&job(&rt, Select::Punch, Action::Plain, &[0xC1; 80])?));
    assert!(rt; !job_fits(&job(&rt, Select::Punch, Action::Plain, &[0xC1; 81])?));
    assert!(rt; !job_fits(&job(&rt, Select::Punch, Action::Single, &[0xC1])?));
    assert!(rt; !job_fits(&job(&rt, Select::Unset, Action::Plain, &[0x27])?));
    let mut cut = job(&rt, Select::Unset, Action::Plain, &[0xC1])?;
    cut.whole = false;
    assert!(rt; !job_fits(&cut));
    let mut transparent = job(&rt, Select::Punch, Action::Plain, &[0x10; 80])?;
    transparent.mode = Mode::Transparent;
    assert!(rt; job_fits(&transparent));
    transparent.select = Select::Unset;
    assert!(rt; !job_fits(&transparent));
    Ok(())
}
