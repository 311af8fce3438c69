//! Job files of version 1, worked out.
use super::{is_one_record, job};
use rje_files::{read_jobs, write_jobs};
use rje_jobs::{FileFault, Jobs};
use rje_text::{Action, Mode, Select};
use std::process::Abort;
use std::test::Fail;

/// The file of one job (default device, normal, whole, one record `A`).
const FILE: [u8; 28] = [
    0x52, 0x4A, 0x33, 0x37, 0x00, 0x01, 0x00, 0x00, 0x00, 0x00, 0x00, 0x00, 0x00, 0x01, 0x00, 0x00,
    0x01, 0x00, 0x00, 0x00, 0x00, 0x00, 0x00, 0x00, 0x01, 0x00, 0x01, 0xC1,
];

/// Why these bytes are not read, if they are not.
fn fault_of(rt: &impl AllocGlobal, bytes: &[u8]) -> Option<FileFault> {
    read_jobs(rt.alloc(), bytes).err()
}

#[test]
fn a_job_has_one_file(rt: HostRuntime) -> Result<(), Fail> {
    let mut jobs = Vec::new(rt.alloc());
    jobs.push(job(&rt, Select::Unset, Action::Plain, &[0xC1])?)?;
    let jobs = Jobs::from(jobs);
    assert!(rt; jobs.len() == 1);
    assert!(rt; !jobs.is_empty());
    let written = write_jobs(rt.alloc(), jobs.as_slice())?;
    assert!(rt; written.as_slice() == FILE.as_slice());
    let read = read_jobs(rt.alloc(), written.as_slice())?;
    assert!(rt; read.iter().count() == 1);
    let read = read.into_vec();
    let found = &read[0];
    assert!(rt; found.select == Select::Unset);
    assert!(rt; found.mode == Mode::Normal);
    assert!(rt; found.whole);
    assert!(rt; is_one_record(&found.records, Action::Plain, &[0xC1]));
    Ok(())
}

#[test]
fn no_jobs_have_a_file(rt: HostRuntime) -> Result<(), Fail> {
    let mut expected = [0; 14];
    expected[..6].copy_from_slice(&FILE[..6]);
    let written = write_jobs(rt.alloc(), &[])?;
    assert!(rt; written.as_slice() == expected.as_slice());
    assert!(rt; read_jobs(rt.alloc(), &expected)?.is_empty());
    Ok(())
}

#[test]
fn cut_jobs_of_every_kind_have_a_file(rt: HostRuntime) -> Result<(), Fail> {
    let mut cut = job(&rt, Select::Printer, Action::Ch12, &[])?;
    cut.whole = false;
    let mut cards = job(&rt, Select::Punch, Action::Plain, &[0x00, 0xFF])?;
    cards.mode = Mode::Transparent;
    let mut jobs = Vec::new(rt.alloc());
    jobs.push(cut)?;
    jobs.push(cards)?;
    let written = write_jobs(rt.alloc(), jobs.as_slice())?;
    let expected = [
        0x52, 0x4A, 0x33, 0x37, 0, 1, 0, 0, 0, 0, 0, 0, 0, 2, 1, 0, 0, 0, 0, 0, 0, 0, 0, 0, 1,
        0xD3, 0, 2, 1, 1, 0, 0, 0, 0, 0, 0, 0, 1, 0, 2, 0x00, 0xFF,
    ];
    assert!(rt; written.as_slice() == expected.as_slice());
    let read = read_jobs(rt.alloc(), &expected)?;
    let again = write_jobs(rt.alloc(), read.as_slice())?;
    assert!(rt; again.as_slice() == expected.as_slice());
    let found = &read.as_slice()[0];
    assert!(rt; !found.whole);
    assert!(rt; found.select == Select::Printer);
    assert!(rt; is_one_record(&found.records, Action::Ch12, &[]));
    Ok(())
}

#[test]
fn a_file_that_is_cut_ends_where_it_is_cut(rt: HostRuntime) {
    for k in 0..28usize {
        assert!(rt;
            fault_of(&rt, &FILE[..k]) == Some(FileFault::Truncated(k)),
            "cut to {k}"
        );
    }
}

#[test]
fn a_file_that_goes_on_is_refused_there(rt: HostRuntime) {
    let mut longer = [0; 29];
    longer[..28].copy_from_slice(&FILE);
    assert!(rt; fault_of(&rt, &longer) == Some(FileFault::Trailing(28)));
}

/// The file with this byte in place of its own.
fn with_byte(place: usize, byte: u8) -> [u8; 28] {
    let mut bytes = FILE;
    if place < bytes.len() {
        bytes[place] = byte;
    }
    bytes
}

/// Why the file with this byte in this place is not read.
const BAD_FIELDS: [(usize, u8, FileFault); 6] = [
    (14, 0x03, FileFault::BadField(14)),
    (16, 0x02, FileFault::BadField(16)),
    (25, 0x05, FileFault::BadField(25)),
    (26, 0x91, FileFault::BadField(26)),
    (5, 0x09, FileFault::Version(9)),
    (0, 0x53, FileFault::NotJobFile),
];

#[test]
fn bad_fields_are_told_with_their_place(rt: HostRuntime) {
    for (place, byte, fault) in BAD_FIELDS {
        assert!(rt;
            fault_of(&rt, &with_byte(place, byte)) == Some(fault),
            "{byte} at {place}"
        );
    }
    assert!(rt; fault_of(&rt, b"S") == Some(FileFault::NotJobFile));
    assert!(rt; fault_of(&rt, b"RJ37\x01") == Some(FileFault::Truncated(5)));
    assert!(rt; fault_of(&rt, b"RJ37\x01\x02") == Some(FileFault::Version(0x0102)));
}

#[test]
fn counts_take_no_memory(rt: HostRuntime) {
    let mut counted = [0xFF; 14];
    counted[..6].copy_from_slice(&FILE[..6]);
    assert!(rt; fault_of(&rt, &counted) == Some(FileFault::Truncated(14)));
    let mut records = FILE;
    records[17..25].copy_from_slice(&[0xFF; 8]);
    assert!(rt; fault_of(&rt, &records) == Some(FileFault::Truncated(28)));
}

/// The fault of the file with 00 in place of this byte, which is another.
fn with_zero(place: usize) -> Option<FileFault> {
    match place {
        0..4 => Some(FileFault::NotJobFile),
        5 => Some(FileFault::Version(0)),
        13 => Some(FileFault::Trailing(14)),
        24 => Some(FileFault::Trailing(25)),
        26 => Some(FileFault::Trailing(27)),
        _ => None,
    }
}

/// The fault of the file with FF in place of this byte.
fn with_ff(place: usize) -> Option<FileFault> {
    match place {
        0..4 => Some(FileFault::NotJobFile),
        4 => Some(FileFault::Version(0xFF01)),
        5 => Some(FileFault::Version(0x00FF)),
        6..14 | 17..25 => Some(FileFault::Truncated(28)),
        14..17 | 25 | 26 => Some(FileFault::BadField(place)),
        _ => None,
    }
}

#[test]
fn each_byte_replaced_by_00_or_ff_is_told(rt: HostRuntime) {
    for place in 0..28usize {
        assert!(rt;
            fault_of(&rt, &with_byte(place, 0x00)) == with_zero(place),
            "00 at {place}"
        );
        assert!(rt;
            fault_of(&rt, &with_byte(place, 0xFF)) == with_ff(place),
            "FF at {place}"
        );
    }
}
