//! Where jobs are marked, worked out from the tables of job files.
use super::record;
use rje_files::{Entry, MARK, NO_NAME, State, mark_places, sent_file, write_entries};
use rje_jobs::{FileFault, Job};
use rje_text::{Action, Mode, Records, Select};
use std::process::Abort;
use std::test::Fail;

/// A job in this state, of records with these data.
fn entry(rt: &(impl Abort + AllocGlobal), state: State, data: &[&[u8]]) -> Result<Entry, Fail> {
    let mut records = Records::new(rt.alloc());
    for bytes in data {
        records.push(record(rt, Action::Plain, bytes))?;
    }
    Ok(Entry {
        name: NO_NAME,
        state,
        job: Job {
            select: Select::Unset,
            mode: Mode::Normal,
            records,
            whole: state != State::Cut,
        },
    })
}

/// Four jobs, the second of which was sent.
fn four_jobs(rt: &(impl Abort + AllocGlobal)) -> Result<Vec<Entry>, Fail> {
    let mut entries = Vec::new(rt.alloc());
    entries.push(entry(rt, State::Waiting, &[b"A"])?)?;
    entries.push(entry(rt, State::Sent, &[&[0xC1; 144], b""])?)?;
    entries.push(entry(rt, State::Whole, &[])?)?;
    entries.push(entry(rt, State::Waiting, &[&[0xC1; 80], &[0xC1; 80]])?)?;
    Ok(entries)
}

#[test]
fn marks_stand_behind_the_names(rt: HostRuntime) -> Result<(), Fail> {
    // 14 bytes in front and 8 of a name. A job has 19 bytes and its records, each 2 bytes and its data: 22, 167 and 19 bytes come before the
    // last of the four.
    let entries = four_jobs(&rt)?;
    let places = mark_places(rt.alloc(), entries.as_slice())?;
    assert!(rt; places.as_slice() == [22, 211, 230].as_slice());
    assert!(rt; mark_places(rt.alloc(), &[])?.is_empty());
    Ok(())
}

#[test]
fn each_mark_makes_one_more_job_sent(rt: HostRuntime) -> Result<(), Fail> {
    let entries = four_jobs(&rt)?;
    let file = write_entries(rt.alloc(), entries.as_slice())?;
    let places = mark_places(rt.alloc(), entries.as_slice())?;
    let mut marked = Vec::from_slice(rt.alloc(), file.as_slice())?;
    for (before, place) in places.iter().enumerate() {
        assert!(rt; *place < marked.len());
        marked[*place] = MARK;
        let sent = sent_file(rt.alloc(), file.as_slice(), before + 1)?;
        assert!(rt; marked.as_slice() == sent.as_slice());
    }
    assert!(rt; places.len() == 3);
    Ok(())
}

#[test]
fn a_job_that_was_cut_is_not_marked(rt: HostRuntime) -> Result<(), Fail> {
    let mut entries = four_jobs(&rt)?;
    entries.push(entry(&rt, State::Cut, &[b"A"])?)?;
    let file = write_entries(rt.alloc(), entries.as_slice())?;
    // Three of the four before it were not sent.
    assert!(rt; sent_file(rt.alloc(), file.as_slice(), 3).is_ok());
    let told = sent_file(rt.alloc(), file.as_slice(), 4).err();
    assert!(rt; told == Some(FileFault::BadEntry(5)));
    Ok(())
}

#[test]
fn jobs_of_version_1_are_marked_in_version_2(rt: HostRuntime) -> Result<(), Fail> {
    // Two whole jobs without records.
    let old = b"RJ37\x00\x01\x00\x00\x00\x00\x00\x00\x00\x02\
        \x00\x00\x01\x00\x00\x00\x00\x00\x00\x00\x00\
        \x01\x00\x01\x00\x00\x00\x00\x00\x00\x00\x00";
    // The first is Sent, the second Whole.
    let new = b"RJ37\x00\x02\x00\x00\x00\x00\x00\x00\x00\x02\
        \x20\x20\x20\x20\x20\x20\x20\x20\x01\x00\x00\x00\x00\x00\x00\x00\x00\x00\x00\
        \x20\x20\x20\x20\x20\x20\x20\x20\x02\x01\x00\x00\x00\x00\x00\x00\x00\x00\x00";
    let sent = sent_file(rt.alloc(), old.as_slice(), 1)?;
    assert!(rt; sent.as_slice() == new.as_slice());
    Ok(())
}
