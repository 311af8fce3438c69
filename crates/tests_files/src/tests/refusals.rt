//! Calls that take memory, with ample memory and with a growth of memory refused: tests/test_refusals.py runs these tests with
//! each growth refused in turn.
use super::entries::{FILE, OLD_FILE};
use super::{CARD, block, record};
use bsc_codes::Block;
use rje_files::{
    entries_in, growth_of, read_entries, read_jobs, sent_file, write_deck, write_entries,
    write_jobs,
};
use rje_jobs::{DeckFault, FileFault, Form, cards_of_deck, job_of_deck, list_job, punch_job};
use rje_text::{Action, Mode, Select, TextFault, Unpacked, unpack};
use std::process::Abort;
use std::test::Fail;

// TEXTS

/// What a block that reads represents, where there is memory for it; else it is refused as out of memory, and the script is told so.
fn read_or_no_memory(
    rt: &(impl Abort + AllocGlobal),
    block: &Block,
    so_far: Option<Mode>,
) -> Option<Unpacked> {
    match unpack(rt.alloc(), block, so_far) {
        Ok(read) => Some(read),
        Err(fault) => {
            assert!(rt; fault == TextFault::OutOfMemory);
            None
        }
    }
}

/// Printed at some growth: no memory for the records.
#[test]
fn a_text_is_read_or_finds_no_memory(rt: HostRuntime) -> Result<(), Fail> {
    // A hundred records of one byte, for which the list of them grows more than once.
    let mut text = [0xC1; 200];
    for place in 0..100 {
        text[2 * place + 1] = 0x1E;
    }
    let Some(read) = read_or_no_memory(&rt, &block(&rt, &text, false), Some(Mode::Normal)) else {
        println!(rt; "no memory for the records")?;
        return Ok(());
    };
    assert!(rt; read.select == Select::Unset);
    assert!(rt; read.mode == Mode::Normal);
    assert!(rt; read.records.len() == 100);
    let wanted = record(&rt, Action::Plain, &[0xC1]);
    assert!(rt; read.records.iter().all(|item| item == wanted));
    Ok(())
}

/// Printed at some growth: no memory for the cards.
#[test]
fn cards_are_read_or_find_no_memory(rt: HostRuntime) -> Result<(), Fail> {
    let cards = block(&rt, &[0xC1; 480], true);
    let Some(read) = read_or_no_memory(&rt, &cards, None) else {
        println!(rt; "no memory for the cards")?;
        return Ok(());
    };
    assert!(rt; read.select == Select::Punch);
    assert!(rt; read.mode == Mode::Transparent);
    assert!(rt; read.records.len() == 6);
    let wanted = record(&rt, Action::Plain, &CARD);
    assert!(rt; read.records.iter().all(|item| item == wanted));
    Ok(())
}

/// A fault of the text is reported whatever memory there is, also one after records that read.
#[test]
fn a_text_that_does_not_read_needs_no_memory(rt: HostRuntime) {
    for (text, transparent, so_far, fault) in [
        (
            b"\xC1\x1E\x1D\x40\x1E".as_slice(),
            false,
            None,
            TextFault::BadCount(3),
        ),
        (
            &[0xC1; 145],
            false,
            Some(Mode::Normal),
            TextFault::RecordTooLong(144),
        ),
        (&[0xC1; 81], true, None, TextFault::CardsNot80),
        (&[0xC1; 80], true, Some(Mode::Normal), TextFault::MixedModes),
        (
            b"\xC1\x1E".as_slice(),
            false,
            Some(Mode::Transparent),
            TextFault::MixedModes,
        ),
    ] {
        let read = unpack(rt.alloc(), &block(&rt, text, transparent), so_far);
        assert!(rt; read.err() == Some(fault));
    }
}

// DECKS, LISTINGS AND CARDS

#[test]
fn a_deck_makes_a_job_or_finds_no_memory(rt: HostRuntime) {
    match job_of_deck(rt.alloc(), b"A\nB\n", Select::Unset, Mode::Normal) {
        Ok(job) => assert!(rt; job.records.len() == 2),
        Err(fault) => assert!(rt; fault == DeckFault::OutOfMemory),
    }

    // A fault of the deck is reported whatever memory there is.
    let told = job_of_deck(rt.alloc(), b"A\n\t\n", Select::Unset, Mode::Normal).err();
    assert!(rt; told == Some(DeckFault::BadCharacter(2, 1)));
}

/// Printed at some growth: no memory for the file.
#[test]
fn a_deck_has_a_file_or_finds_no_memory(rt: HostRuntime) -> Result<(), Fail> {
    let (select, mode) = (Select::Unset, Mode::Normal);
    let cards = cards_of_deck(b"A\n", mode)?;
    match write_deck(rt.alloc(), b"PAY1    ", select, mode, cards) {
        Ok(bytes) => assert!(rt; bytes.as_slice() == FILE.as_slice()),
        Err(fault) => {
            assert!(rt; fault == FileFault::OutOfMemory);
            println!(rt; "no memory for the file")?;
        }
    }

    // A bad name is reported whatever memory there is.
    let told = write_deck(
        rt.alloc(),
        b"pay1    ",
        select,
        mode,
        cards_of_deck(b"A\n", mode)?,
    )
    .err();
    assert!(rt; told == Some(FileFault::BadEntry(1)));
    Ok(())
}

#[test]
fn a_job_is_listed_and_punched_or_finds_no_memory(rt: HostRuntime) {
    let Ok(job) = job_of_deck(rt.alloc(), b"A\nB\n", Select::Unset, Mode::Normal) else {
        return;
    };
    match list_job(rt.alloc(), &job) {
        Ok(text) => assert!(rt; text.as_slice() == b"A\nB\n".as_slice()),
        Err(fault) => assert!(rt; fault == FileFault::OutOfMemory),
    }
    match punch_job(rt.alloc(), &job, Form::Ascii) {
        Ok(text) => assert!(rt; text.as_slice() == b"A\nB\n".as_slice()),
        Err(fault) => assert!(rt; fault == FileFault::OutOfMemory),
    }
}

// JOB FILES

#[test]
fn jobs_are_read_and_written_or_find_no_memory(rt: HostRuntime) {
    match read_jobs(rt.alloc(), &OLD_FILE) {
        Ok(jobs) => {
            assert!(rt; jobs.len() == 1);
            match write_jobs(rt.alloc(), jobs.as_slice()) {
                Ok(bytes) => assert!(rt; bytes.as_slice() == OLD_FILE.as_slice()),
                Err(fault) => assert!(rt; fault == FileFault::OutOfMemory),
            }
        }
        Err(fault) => assert!(rt; fault == FileFault::OutOfMemory),
    }
    let told = read_jobs(rt.alloc(), &OLD_FILE[..27]).err();
    assert!(rt; told == Some(FileFault::Truncated(27)));
}

#[test]
fn entries_are_read_or_find_no_memory(rt: HostRuntime) {
    match read_entries(rt.alloc(), &FILE) {
        Ok(entries) => assert!(rt; entries.len() == 1),
        Err(fault) => assert!(rt; fault == FileFault::OutOfMemory),
    }

    // A fault of the bytes is reported whatever memory there is.
    let told = read_entries(rt.alloc(), &FILE[..35]).err();
    assert!(rt; told == Some(FileFault::Truncated(35)));
}

#[test]
fn entries_are_seen_where_they_stand_or_find_no_memory(rt: HostRuntime) {
    match entries_in(rt.alloc(), &FILE) {
        Ok(entries) => assert!(rt; entries.len() == 1),
        Err(fault) => assert!(rt; fault == FileFault::OutOfMemory),
    }
    let told = entries_in(rt.alloc(), &FILE[..35]).err();
    assert!(rt; told == Some(FileFault::Truncated(35)));
}

#[test]
fn entries_are_written_or_find_no_memory(rt: HostRuntime) {
    let Ok(mut entries) = read_entries(rt.alloc(), &FILE) else {
        return;
    };
    match write_entries(rt.alloc(), entries.as_slice()) {
        Ok(bytes) => assert!(rt; bytes.as_slice() == FILE.as_slice()),
        Err(fault) => assert!(rt; fault == FileFault::OutOfMemory),
    }

    // So is an entry without a name.
    for entry in entries.iter_mut() {
        entry.name = *b"pay1    ";
    }
    let told = write_entries(rt.alloc(), entries.as_slice()).err();
    assert!(rt; told == Some(FileFault::BadEntry(1)));
}

#[test]
fn what_was_counted_is_marked_or_finds_no_memory(rt: HostRuntime) {
    let mut sent = FILE;
    sent[22] = 1;
    match sent_file(rt.alloc(), &FILE, 1) {
        Ok(bytes) => assert!(rt; bytes.as_slice() == sent.as_slice()),
        Err(fault) => assert!(rt; fault == FileFault::OutOfMemory),
    }
}

#[test]
fn how_a_file_goes_on_is_told_or_there_is_no_memory(rt: HostRuntime) {
    let Ok(jobs) = read_jobs(rt.alloc(), &OLD_FILE) else {
        return;
    };
    for job in jobs.as_slice() {
        if let Ok(growth) = growth_of(rt.alloc(), 255, job) {
            assert!(rt;
                growth.front.as_slice()
                    == b"RJ37\x00\x02\x00\x00\x00\x00\x00\x00\x01\x00".as_slice()
            );
            assert!(rt; growth.tail.len() == 22);
        }
    }
}
