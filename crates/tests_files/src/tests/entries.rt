//! Job files of version 2, worked out.
use super::record;
use rje_files::{
    Entry, FileEntry, JobName, NO_NAME, State, entries_in, entries_of, first_unsendable, growth_of,
    jobs_of, mark_sent, name_of, read_entries, read_entry_jobs, read_jobs, sent_file, unsent_jobs,
    write_entries, write_jobs,
};
use rje_jobs::{FileFault, Job};
use rje_text::{Action, Mode, Records, Select};
use std::process::Abort;
use std::test::Fail;

/// The version 2 file of one waiting job PAY1 (default device, normal, one record `A`).
pub(super) const FILE: [u8; 36] = [
    0x52, 0x4A, 0x33, 0x37, 0x00, 0x02, 0x00, 0x00, 0x00, 0x00, 0x00, 0x00, 0x00, 0x01, 0x50, 0x41,
    0x59, 0x31, 0x20, 0x20, 0x20, 0x20, 0x00, 0x00, 0x00, 0x00, 0x00, 0x00, 0x00, 0x00, 0x00, 0x00,
    0x01, 0x00, 0x01, 0xC1,
];

/// The version 1 file of that job.
pub(super) const OLD_FILE: [u8; 28] = [
    0x52, 0x4A, 0x33, 0x37, 0x00, 0x01, 0x00, 0x00, 0x00, 0x00, 0x00, 0x00, 0x00, 0x01, 0x00, 0x00,
    0x01, 0x00, 0x00, 0x00, 0x00, 0x00, 0x00, 0x00, 0x01, 0x00, 0x01, 0xC1,
];

/// The entry of one record `A`.
fn entry(
    rt: &(impl Abort + AllocGlobal),
    name: [u8; 8],
    state: State,
    whole: bool,
) -> Result<Entry, Fail> {
    let mut records = Records::new(rt.alloc());
    records.push(record(rt, Action::Plain, &[0xC1]))?;
    Ok(Entry {
        name,
        state,
        job: Job {
            select: Select::Unset,
            mode: Mode::Normal,
            records,
            whole,
        },
    })
}

/// Why these bytes are not read as entries, if they are not; and the same where their records stay where they stand.
fn fault_of(rt: &(impl Abort + AllocGlobal), bytes: &[u8]) -> Option<FileFault> {
    let fault = read_entries(rt.alloc(), bytes).err();
    assert!(rt; entries_in(rt.alloc(), bytes).err() == fault);
    assert!(rt; read_entry_jobs(rt.alloc(), bytes).err() == fault);
    fault
}

/// Whether an entry where it stands has this state and one record, of no action and `A`, in a normal job for the default device.
fn is_entry_of_a(rt: &impl Abort, entry: &FileEntry, state: State) -> bool {
    let mut records = entry.records();
    assert!(rt; records.len() == 1);
    let Some(item) = records.next() else {
        return false;
    };
    assert!(rt; item.action == Action::Plain);
    assert!(rt; item.bytes.as_slice() == [0xC1].as_slice());
    assert!(rt; records.next().is_none());
    entry.state() == state && entry.select() == Select::Unset && entry.mode() == Mode::Normal
}

/// The file with this byte in place of its own.
fn with_byte(place: usize, byte: u8) -> [u8; 36] {
    let mut bytes = FILE;
    if place < bytes.len() {
        bytes[place] = byte;
    }
    bytes
}

#[test]
fn an_entry_has_one_file(rt: HostRuntime) -> Result<(), Fail> {
    let mut entries = Vec::new(rt.alloc());
    entries.push(entry(&rt, *b"PAY1    ", State::Waiting, true)?)?;
    let written = write_entries(rt.alloc(), entries.as_slice())?;
    assert!(rt; written.as_slice() == FILE.as_slice());
    let read = read_entries(rt.alloc(), &FILE)?;
    assert!(rt; read.len() == 1);
    assert!(rt; read[0].name == *b"PAY1    ");
    assert!(rt; read[0].state == State::Waiting);
    assert!(rt; read[0].job.whole);
    let again = write_entries(rt.alloc(), read.as_slice())?;
    assert!(rt; again.as_slice() == FILE.as_slice());
    let jobs = read_entry_jobs(rt.alloc(), &FILE)?;
    assert!(rt; jobs.len() == 1);
    assert!(rt; jobs.as_slice()[0].whole);
    assert!(rt; jobs.as_slice()[0].records.len() == 1);
    Ok(())
}

/// The one entry has this state, this name and that record, and its job can be sent.
fn assert_one_that_fits(rt: &impl Abort, entries: &[FileEntry], state: State, name: &JobName) {
    assert!(rt; entries.len() == 1);
    let entry = &entries[0];
    assert!(rt; is_entry_of_a(rt, entry, state));
    assert!(rt; entry.name() == name);
    assert!(rt; entry.job_fits());
}

#[test]
fn entries_are_seen_where_they_stand(rt: HostRuntime) -> Result<(), Fail> {
    let named = entries_in(rt.alloc(), &FILE)?;
    assert_one_that_fits(&rt, &named, State::Waiting, b"PAY1    ");
    let old = entries_in(rt.alloc(), &OLD_FILE)?;
    assert_one_that_fits(&rt, &old, State::Whole, &[0x20; 8]);
    Ok(())
}

/// Whether the job of the file with this byte in place of its own can be sent.
fn fits_with(rt: &(impl Abort + AllocGlobal), place: usize, byte: u8) -> Result<bool, Fail> {
    let bytes = with_byte(place, byte);
    let entries = entries_in(rt.alloc(), &bytes)?;
    assert!(rt; entries.len() == 1);
    Ok(entries[0].job_fits())
}

#[test]
fn a_job_where_it_stands_fits_or_not(rt: HostRuntime) -> Result<(), Fail> {
    // Cut; transparent, for the default device, and of one byte; a byte that a normal text can't carry, and one that it can.
    assert!(rt; !fits_with(&rt, 22, 0x03)?);
    assert!(rt; !fits_with(&rt, 24, 0x01)?);
    assert!(rt; !fits_with(&rt, 35, 0x3F)?);
    assert!(rt; fits_with(&rt, 35, 0x40)?);
    Ok(())
}

#[test]
fn a_file_that_is_cut_or_goes_on_is_refused_there(rt: HostRuntime) {
    for k in 0..36usize {
        assert!(rt;
            fault_of(&rt, &FILE[..k]) == Some(FileFault::Truncated(k)),
            "cut to {k}"
        );
    }
    let mut longer = [0; 37];
    longer[..36].copy_from_slice(&FILE);
    assert!(rt; fault_of(&rt, &longer) == Some(FileFault::Trailing(36)));
}

#[test]
fn jobs_alone_are_cut_at_the_version(rt: HostRuntime) {
    assert!(rt; read_jobs(rt.alloc(), &FILE).err() == Some(FileFault::Version(2)));
    for k in 6..36usize {
        assert!(rt;
            read_jobs(rt.alloc(), &FILE[..k]).err() == Some(FileFault::Version(2)),
            "cut to {k}"
        );
    }
    for k in 0..6usize {
        assert!(rt;
            read_jobs(rt.alloc(), &FILE[..k]).err() == Some(FileFault::Truncated(k)),
            "cut to {k}"
        );
    }
}

/// Why the file with this byte in this place is not read.
const BAD_FIELDS: [(usize, u8, FileFault); 10] = [
    (22, 0x04, FileFault::BadField(22)),
    (14, 0x20, FileFault::BadField(15)),
    (14, 0x70, FileFault::BadField(14)),
    (19, 0x41, FileFault::BadField(19)),
    (18, 0x3A, FileFault::BadField(18)),
    (18, 0x5B, FileFault::BadField(18)),
    (23, 0x03, FileFault::BadField(23)),
    (24, 0x02, FileFault::BadField(24)),
    (5, 0x03, FileFault::Version(3)),
    (5, 0x00, FileFault::Version(0)),
];

#[test]
fn bad_fields_are_told_with_their_place(rt: HostRuntime) {
    for (place, byte, fault) in BAD_FIELDS {
        assert!(rt;
            fault_of(&rt, &with_byte(place, byte)) == Some(fault),
            "{byte} at {place}"
        );
    }
    assert!(rt; fault_of(&rt, &with_byte(18, 0x39)).is_none());
    assert!(rt; fault_of(&rt, b"RJ37\x01") == Some(FileFault::Truncated(5)));
}

#[test]
fn states_tell_whether_a_job_is_whole(rt: HostRuntime) -> Result<(), Fail> {
    let read = read_entries(rt.alloc(), &with_byte(22, 0x03))?;
    assert!(rt; read[0].state == State::Cut);
    assert!(rt; !read[0].job.whole);
    let read = read_entries(rt.alloc(), &with_byte(22, 0x01))?;
    assert!(rt; read[0].state == State::Sent);
    assert!(rt; read[0].job.whole);
    Ok(())
}

/// The file reads as one job without a name, in this state.
fn assert_one_without_name(
    rt: &(impl Abort + AllocGlobal),
    file: &[u8],
    state: State,
) -> Result<(), Fail> {
    let read = read_entries(rt.alloc(), file)?;
    assert!(rt; read.len() == 1);
    assert!(rt; read[0].name == NO_NAME && read[0].state == state);
    Ok(())
}

#[test]
fn a_file_of_jobs_is_read_alike(rt: HostRuntime) -> Result<(), Fail> {
    let mut cut = OLD_FILE;
    cut[16] = 0;
    assert_one_without_name(&rt, &OLD_FILE, State::Whole)?;
    assert_one_without_name(&rt, &cut, State::Cut)?;
    let jobs = read_jobs(rt.alloc(), &cut)?;
    let again = write_jobs(rt.alloc(), jobs.as_slice())?;
    assert!(rt; again.as_slice() == cut.as_slice());
    for k in 0..28usize {
        assert!(rt;
            fault_of(&rt, &OLD_FILE[..k]) == Some(FileFault::Truncated(k)),
            "cut to {k}"
        );
    }
    Ok(())
}

#[test]
fn a_bad_entry_is_told_with_its_number(rt: HostRuntime) -> Result<(), Fail> {
    let mut entries = Vec::new(rt.alloc());
    entries.push(entry(&rt, *b"        ", State::Whole, true)?)?;
    entries.push(entry(&rt, *b"ABCDEFG8", State::Cut, false)?)?;
    assert!(rt; write_entries(rt.alloc(), entries.as_slice()).is_ok());
    entries.push(entry(&rt, *b" A      ", State::Whole, true)?)?;
    entries.push(entry(&rt, *b"a       ", State::Whole, true)?)?;
    assert!(rt;
        write_entries(rt.alloc(), entries.as_slice()).err() == Some(FileFault::BadEntry(3))
    );
    let mut cut = Vec::new(rt.alloc());
    cut.push(entry(&rt, *b"PAY1    ", State::Whole, false)?)?;
    assert!(rt; write_entries(rt.alloc(), cut.as_slice()).err() == Some(FileFault::BadEntry(1)));
    let mut whole = Vec::new(rt.alloc());
    whole.push(entry(&rt, *b"PAY1    ", State::Cut, true)?)?;
    assert!(rt; write_entries(rt.alloc(), whole.as_slice()).err() == Some(FileFault::BadEntry(1)));
    Ok(())
}

#[test]
fn the_first_that_are_not_sent_become_sent(rt: HostRuntime) -> Result<(), Fail> {
    let mut entries = Vec::new(rt.alloc());
    entries.push(entry(&rt, [0x20; 8], State::Waiting, true)?)?;
    entries.push(entry(&rt, [0x20; 8], State::Sent, true)?)?;
    entries.push(entry(&rt, [0x20; 8], State::Whole, true)?)?;
    entries.push(entry(&rt, [0x20; 8], State::Waiting, true)?)?;
    mark_sent(&mut entries[..], 2);
    assert!(rt; entries[0].state == State::Sent);
    assert!(rt; entries[1].state == State::Sent);
    assert!(rt; entries[2].state == State::Sent);
    assert!(rt; entries[3].state == State::Waiting);
    mark_sent(&mut entries[..], 9);
    assert!(rt; entries[3].state == State::Sent);
    Ok(())
}

/// Why the file with this byte in place of its own is not read as entries: by the table, place by place.
fn told_at(place: usize, byte: u8) -> Option<FileFault> {
    let low = byte == 0x00;
    match place {
        0..=3 => Some(FileFault::NotJobFile),
        4 if !low => Some(FileFault::Version(0xFF02)),
        5 => Some(FileFault::Version(u16::from(byte))),
        6..=12 | 25..=31 if !low => Some(FileFault::Truncated(36)),
        13 => Some(if low {
            FileFault::Trailing(14)
        } else {
            FileFault::Truncated(36)
        }),
        14..=21 => Some(FileFault::BadField(place)),
        22..=24 | 33 if !low => Some(FileFault::BadField(place)),
        32 => Some(if low {
            FileFault::Trailing(33)
        } else {
            FileFault::Truncated(36)
        }),
        34 => Some(if low {
            FileFault::Trailing(35)
        } else {
            FileFault::BadField(34)
        }),
        _ => None,
    }
}

#[test]
fn each_byte_replaced_by_00_or_ff_is_told_of_entries(rt: HostRuntime) {
    for place in 0..36usize {
        for byte in [0x00, 0xFF] {
            let bytes = with_byte(place, byte);
            assert!(rt;
                fault_of(&rt, &bytes) == told_at(place, byte),
                "byte {place}"
            );
            let told = match told_at(place, byte) {
                Some(FileFault::NotJobFile) => FileFault::NotJobFile,
                Some(FileFault::Version(n)) => FileFault::Version(n),
                _ => FileFault::Version(2),
            };
            assert!(rt;
                read_jobs(rt.alloc(), &bytes).err() == Some(told),
                "byte {place}"
            );
        }
    }
}

#[test]
fn a_thousand_entries_are_written_and_read(rt: HostRuntime) -> Result<(), Fail> {
    let mut entries = Vec::new(rt.alloc());
    for _ in 0..1_000usize {
        entries.push(entry(&rt, *b"PAY1    ", State::Waiting, true)?)?;
    }
    let written = write_entries(rt.alloc(), entries.as_slice())?;
    assert!(rt; written.len() == 14 + 22 * 1_000);
    let read = read_entries(rt.alloc(), written.as_slice())?;
    assert!(rt; read.len() == 1_000);
    let again = write_entries(rt.alloc(), read.as_slice())?;
    assert!(rt; again.as_slice() == written.as_slice());
    let sent = sent_file(rt.alloc(), written.as_slice(), 999)?;
    let left = read_entries(rt.alloc(), sent.as_slice())?;
    assert!(rt; left.len() == 1_000);
    assert!(rt; left[998].state == State::Sent);
    assert!(rt; left[999].state == State::Waiting);
    assert!(rt; unsent_jobs(rt.alloc(), left)?.len() == 1);
    Ok(())
}

#[test]
fn entries_without_jobs_have_a_file(rt: HostRuntime) -> Result<(), Fail> {
    let none = b"RJ37\x00\x02\x00\x00\x00\x00\x00\x00\x00\x00";
    assert!(rt; write_entries(rt.alloc(), &[])?.as_slice() == none.as_slice());
    assert!(rt; read_entries(rt.alloc(), none)?.is_empty());
    Ok(())
}

#[test]
fn the_first_that_cannot_be_sent_is_found(rt: HostRuntime) -> Result<(), Fail> {
    let mut entries = Vec::new(rt.alloc());
    entries.push(entry(&rt, [0x20; 8], State::Sent, true)?)?;
    entries.push(entry(&rt, [0x20; 8], State::Whole, true)?)?;
    assert!(rt; first_unsendable(entries.as_slice()).is_none());
    entries.push(entry(&rt, [0x20; 8], State::Cut, false)?)?;
    assert!(rt; first_unsendable(entries.as_slice()) == Some(3));
    let jobs = unsent_jobs(rt.alloc(), entries)?;
    assert!(rt; jobs.len() == 2);
    let again = entries_of(rt.alloc(), jobs)?;
    assert!(rt; again.len() == 2);
    assert!(rt; again[0].state == State::Whole);
    assert!(rt; again[1].state == State::Cut);
    assert!(rt; jobs_of(rt.alloc(), again)?.len() == 2);
    Ok(())
}

#[test]
fn a_text_gives_a_name(rt: HostRuntime) {
    assert!(rt; name_of("PAY1") == Some(*b"PAY1    "));
    assert!(rt; name_of("A") == Some(*b"A       "));
    assert!(rt; name_of("ABCDEFG8") == Some(*b"ABCDEFG8"));
    for text in ["", "ABCDEFGH9", "a", "A B", "A ", "@", "[", "/", ":"] {
        assert!(rt; name_of(text).is_none(), "{text}");
    }
}

#[test]
fn a_file_goes_on_with_one_more_job(rt: HostRuntime) -> Result<(), Fail> {
    let entry = entry(&rt, *b"PAY2    ", State::Cut, false)?;
    let growth = growth_of(rt.alloc(), 1, &entry.job)?;
    assert!(rt;
        growth.front.as_slice() == b"RJ37\x00\x02\x00\x00\x00\x00\x00\x00\x00\x02".as_slice()
    );
    let tail = b"        \x03\x00\x00\x00\x00\x00\x00\x00\x00\x00\x01\x00\x01\xC1";
    assert!(rt; growth.tail.as_slice() == tail.as_slice());
    Ok(())
}
