//! The jobs and entries of a job file, once its bytes were checked: the counts in it hold, and so much memory is taken as they say.
ghost use Rattle.std.specs.Prelude.{◌≡◌, ◌++◌, ◌<◌, suc, IfOk};
ghost use Rattle.byteorder.specs.Endian.{big_bytes};
ghost use Rattle.rje_files.specs.JobFile.{IsEntryFileOf, IsOfVersion, fields, select_byte, mode_byte, state_byte};
ghost use Rattle.rje_files.specs.declared.job_file.version.FileVersion.{FileVersion as Versions};
ghost use Rattle.rje_files.specs.Inside.Reading.Grammar.{File, Entries, Records, Number};
ghost use Rattle.rje_files.specs.Inside.Reading.Collecting.{AnyRest, AreFields, AreJobsOf, IsFront, IsRecords, IsFirst, width};

use super::version::FileVersion;
use crate::entry::received_state;
use crate::file_records::behind_records_at;
use crate::{Entry, FileEntry, FileRecords, NO_NAME, State};
use byteorder::{BigEndian, ByteOrder};
use rje_jobs::Job;
use rje_text::{Mode, Select};
use std::alloc::{AllocError, Global};

/// The jobs of a file of this version or an older one.
pub(super) fn collect_jobs(
    alloc: Global,
    newest: FileVersion,
    bytes: &[u8],
) -> Result<Vec<Job>, AllocError>
    requires { File newest bytes.now }
    ensures { IfOk result (λ v. AreJobsOf newest v.items bytes.now) }
{
    let (version, count, items) = front_at(newest, bytes);
    let mut jobs = Vec::with_capacity(alloc, count as usize)?;
    let mut rest = items;
    for i in 0..count {
        let (entry, more) = entry_at(version, rest, count - i - 1);
        let Entry { job, .. } = entry.into_entry(alloc)?;
        jobs.push(job)?;
        rest = more;
    }
    Ok(jobs)
}

/// The entries of a file of either version.
pub(super) fn collect_entries(alloc: Global, bytes: &[u8]) -> Result<Vec<Entry>, AllocError>
    requires { File FileVersion.Second bytes.now }
    ensures { IfOk result (λ v. (version : Versions) × IsEntryFileOf version v.items bytes.now) }
{
    let (version, count, items) = front_at(FileVersion::Second, bytes);
    let mut entries = Vec::with_capacity(alloc, count as usize)?;
    let mut rest = items;
    for i in 0..count {
        let (entry, more) = entry_at(version, rest, count - i - 1);
        entries.push(entry.into_entry(alloc)?)?;
        rest = more;
    }
    Ok(entries)
}

/// The entries of a file of either version, as they are there.
pub(super) fn collect_file_entries(
    alloc: Global,
    bytes: &[u8],
) -> Result<Vec<FileEntry<'_>>, AllocError>
    requires { File FileVersion.Second bytes.now }
    ensures { IfOk result (λ v. (version : Versions) × IsEntryFileOf version v.items bytes.now) }
{
    let (version, count, items) = front_at(FileVersion::Second, bytes);
    let mut entries = Vec::with_capacity(alloc, count as usize)?;
    let mut rest = items;
    for i in 0..count {
        let (entry, more) = entry_at(version, rest, count - i - 1);
        entries.push(entry)?;
        rest = more;
    }
    Ok(entries)
}

/// The version, the number of entries, and the bytes of the entries.
fn front_at<'a>(newest: FileVersion, bytes: &'a [u8]) -> (FileVersion, u64, &'a [u8])
    requires { File newest bytes.now }
    ensures { IsFront newest bytes.now result.0 result.1 result.2.now }
{
    let (_, behind) = bytes.split_at(6);
    let (count, items) = number_at(behind);
    let version = if bytes[5] == 1 {
        FileVersion::First
    } else {
        FileVersion::Second
    };
    (version, count, items)
}

/// The entry at the front, which `left` more follow, and the bytes after it.
fn entry_at(version: FileVersion, bytes: &[u8], left: u64) -> (FileEntry<'_>, &[u8])
    requires { Entries version (suc left) bytes.now }
    ensures { IsFirst version bytes.now left result.0 result.1.now }
{
    let (front, behind) = bytes.split_at(width_of(version));
    let (count, items) = number_at(behind);
    let (records, rest) = records_at(version, items, count, left);
    (entry_with(version, front, records), rest)
}

/// The `count` records at the front, which `left` entries follow, and the bytes after them.
fn records_at(version: FileVersion, bytes: &[u8], count: u64, left: u64) -> (FileRecords<'_>, &[u8])
    requires { Records count (Entries version left) bytes.now }
    ensures { IsRecords version bytes.now count left result.0 result.1.now }
{
    let count = count as usize;
    (
        FileRecords::new(bytes, count),
        behind_records_at(bytes, count),
    )
}

/// The entry with these fields and records.
fn entry_with<'a>(version: FileVersion, front: &[u8], records: FileRecords<'a>) -> FileEntry<'a>
    requires { AreFields version front.now }
    ensures fields { fields version result ≡ front.now }
    ensures records { result.job.records ≡ records.entry }
    ensures version { IsOfVersion version result }
{
    match version {
        FileVersion::First => first_entry(front, records),
        FileVersion::Second => second_entry(front, records),
    }
}

fn first_entry<'a>(front: &[u8], records: FileRecords<'a>) -> FileEntry<'a>
    requires { AreFields FileVersion.First front.now }
    ensures fields { fields FileVersion.First result ≡ front.now }
    ensures records { result.job.records ≡ records.entry }
    ensures version { IsOfVersion FileVersion.First result }
{
    FileEntry::new(
        NO_NAME,
        received_state(front[2] == 1),
        select_at(front[0]),
        mode_at(front[1]),
        records,
    )
}

fn second_entry<'a>(front: &[u8], records: FileRecords<'a>) -> FileEntry<'a>
    requires { AreFields FileVersion.Second front.now }
    ensures fields { fields FileVersion.Second result ≡ front.now }
    ensures records { result.job.records ≡ records.entry }
    ensures version { IsOfVersion FileVersion.Second result }
{
    let (letters, behind) = front.split_at(8);
    let mut name = [0; 8];
    name.copy_from_slice(letters);
    FileEntry::new(
        name,
        state_at(behind[0]),
        select_at(behind[1]),
        mode_at(behind[2]),
        records,
    )
}

/// The number at the front, and the bytes after it.
fn number_at<'a>(bytes: &'a [u8]) -> (u64, &'a [u8])
    requires { Number 8 0 AnyRest bytes.now }
    ensures { bytes.now ≡ big_bytes 8 result.0 ++ result.1.now }
{
    let (_, rest) = bytes.split_at(8);
    (BigEndian::read_u64(bytes), rest)
}

fn select_at(byte: u8) -> Select
    requires { byte < 3 }
    ensures { select_byte result ≡ byte }
{
    if byte == 0 {
        Select::Unset
    } else if byte == 1 {
        Select::Printer
    } else {
        Select::Punch
    }
}

fn mode_at(byte: u8) -> Mode
    requires { byte < 2 }
    ensures { mode_byte result ≡ byte }
{
    if byte == 0 {
        Mode::Normal
    } else {
        Mode::Transparent
    }
}

fn state_at(byte: u8) -> State
    requires { byte < 4 }
    ensures { state_byte result ≡ byte }
{
    if byte == 0 {
        State::Waiting
    } else if byte == 1 {
        State::Sent
    } else if byte == 2 {
        State::Whole
    } else {
        State::Cut
    }
}

/// How many bytes the fields of an entry have.
fn width_of(version: FileVersion) -> usize
    ensures { result ≡ width version }
{
    match version {
        FileVersion::First => 3,
        FileVersion::Second => 11,
    }
}
