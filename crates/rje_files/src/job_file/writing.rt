//! Jobs and entries into the bytes of a job file.
ghost use Rattle.std.specs.Prelude.{◌≡◌, ◌<◌, ◌-◌, ◌^◌, ◌∷◌, ◌++◌, [], List, ℕ, None, true, length, map, IfOk, OnOk};
ghost use Rattle.std.specs.List.{AllByRecursion};
ghost use Rattle.byteorder.specs.Endian.{big_bytes};
ghost use Rattle.rje_files.specs.Entry.{entry_of, entry_of_cards, entry_with, is_entry, is_job_name, bad_entry};
ghost use Rattle.rje_files.specs.Growth.{GrowsBy};
ghost use Rattle.rje_files.specs.JobFile.{AreForFile, FitsFields, IsEntryFileOf, HasRoom, file_of, head, entry_bytes, records_bytes, record_bytes, action_byte, select_byte, mode_byte, state_byte, version_byte};

use super::HEAD;
use super::version::FileVersion;
use crate::entry::received_state;
use crate::{Entry, JobName, NO_NAME, State};
use byteorder::{BigEndian, ByteOrder};
use rje_jobs::{Cards, Job, deck_device};
use rje_text::{Action, Mode, Record, Records, Select};
use std::alloc::{AllocError, Global};

/// The columns of a card.
const CARD: usize = 80;

/// How many bytes stand before the first record in the version 2 file of one job.
const BEFORE_RECORDS: usize = 33;

/// Appends the version 1 file of these jobs.
pub(super) fn write_all_jobs(jobs: &[Job], out: &mut Vec<u8>) -> Result<(), AllocError>
    ensures file { OnOk result (out.new.items
        ≡ out.old.items ++ file_of FileVersion.First (map entry_of jobs.now)) }
    ensures fit { OnOk result (AreForFile FileVersion.First (map entry_of jobs.now)) }
{
    write_front(FileVersion::First, jobs.len(), out)?;
    for job in jobs {
        write_job(job, out)?;
    }
    Ok(())
}

/// Appends the version 2 file of these entries.
pub(super) fn write_all_entries(entries: &[Entry], out: &mut Vec<u8>) -> Result<(), AllocError>
    ensures file { OnOk result (out.new.items
        ≡ out.old.items ++ file_of FileVersion.Second entries.now) }
    ensures fit { OnOk result (bad_entry entries.now ≡ None
        → AreForFile FileVersion.Second entries.now) }
{
    write_front(FileVersion::Second, entries.len(), out)?;
    for entry in entries {
        write_entry(entry, out)?;
    }
    Ok(())
}

/// The version 2 file of a deck's job with these cards. Its memory is taken at once.
pub(super) fn written_deck(
    alloc: Global,
    name: &JobName,
    select: Select,
    mode: Mode,
    cards: Cards,
) -> Result<Vec<u8>, AllocError>
    requires named { is_job_name name.now ≡ true }
    ensures file { IfOk result (λ bytes. IsEntryFileOf FileVersion.Second
        (entry_of_cards name.now select mode cards.entry ∷ []) bytes.items) }
{
    let mut out = Vec::with_capacity(alloc, most_bytes(mode, &cards))?;
    write_front(FileVersion::Second, 1, &mut out)?;
    let device = deck_device(select, mode);
    write_fields(name, State::Waiting, device, mode, &mut out)?;
    write_cards(cards, &mut out)?;
    Ok(out)
}

/// The most bytes that the file of a deck's job can have: a line has its end, unless it is the last one, and gives two bytes more than its
/// characters, and one whose card is filled gives two more than a card.
fn most_bytes(mode: Mode, cards: &Cards) -> usize {
    let lines = cards.len();
    let records = match mode {
        Mode::Normal => cards.rest().len().saturating_add(lines).saturating_add(1),
        Mode::Transparent => lines.saturating_mul(CARD + 2),
    };
    records.saturating_add(BEFORE_RECORDS)
}

/// Appends what stands before the first of `count` jobs.
fn write_front(version: FileVersion, count: usize, out: &mut Vec<u8>) -> Result<(), AllocError>
    ensures { OnOk result ((tail : List ℕ) → out.new.items ++ tail
        ≡ out.old.items ++ (head ++ (version_byte version ∷ (big_bytes 8 count ++ tail)))) }
{
    out.extend_from_slice(&HEAD)?;
    out.push(byte_of_version(version))?;
    write_number(count, out)?;
    Ok(())
}

fn write_job(job: &Job, out: &mut Vec<u8>) -> Result<(), AllocError>
    ensures job { OnOk result (out.new.items
        ≡ out.old.items ++ entry_bytes FileVersion.First (entry_of job.now)) }
    ensures fit { OnOk result (FitsFields FileVersion.First (entry_of job.now)) }
{
    out.extend_from_slice(&[
        byte_of_select(job.select),
        byte_of_mode(job.mode),
        job.whole as u8,
    ])?;
    write_records(&job.records, out)
}

fn write_entry(entry: &Entry, out: &mut Vec<u8>) -> Result<(), AllocError>
    ensures entry { OnOk result (out.new.items
        ≡ out.old.items ++ entry_bytes FileVersion.Second entry.now) }
    ensures fit { OnOk result (is_entry entry.now ≡ true
        → FitsFields FileVersion.Second entry.now) }
{
    write_parts(&entry.name, entry.state, &entry.job, out)
}

/// Appends a received job: without a name, whole or cut.
fn write_received(job: &Job, out: &mut Vec<u8>) -> Result<(), AllocError>
    ensures entry { OnOk result (out.new.items
        ≡ out.old.items ++ entry_bytes FileVersion.Second (entry_of job.now)) }
    ensures fit { OnOk result (FitsFields FileVersion.Second (entry_of job.now)) }
{
    write_parts(&NO_NAME, received_state(job.whole), job, out)
}

/// Appends the entry of these three.
fn write_parts(name: &JobName, state: State, job: &Job, out: &mut Vec<u8>) -> Result<(), AllocError>
    ensures entry { OnOk result (out.new.items
        ≡ out.old.items ++ entry_bytes FileVersion.Second (entry_with name.now state job.now)) }
    ensures fit { OnOk result (is_entry (entry_with name.now state job.now) ≡ true
        → FitsFields FileVersion.Second (entry_with name.now state job.now)) }
{
    write_fields(name, state, job.select, job.mode, out)?;
    write_records(&job.records, out)
}

/// Appends what stands before the records of a job of version 2.
fn write_fields(
    name: &JobName,
    state: State,
    select: Select,
    mode: Mode,
    out: &mut Vec<u8>,
) -> Result<(), AllocError>
    ensures { OnOk result (out.new.items ≡ out.old.items
        ++ (name.now ++ state_byte state ∷ select_byte select ∷ mode_byte mode ∷ [])) }
{
    out.extend_from_slice(name)?;
    out.extend_from_slice(&[
        byte_of_state(state),
        byte_of_select(select),
        byte_of_mode(mode),
    ])
}

/// Appends to `front` and `tail` how the version 2 file of `count` entries goes on with this received job.
pub(super) fn write_growth(
    count: usize,
    job: &Job,
    front: &mut Vec<u8>,
    tail: &mut Vec<u8>,
) -> Result<(), AllocError>
    requires room { count < 2 ^ 64 - 1 }
    requires new_front { front.old.items ≡ [] }
    requires new_tail { tail.old.items ≡ [] }
    ensures grows { OnOk result (GrowsBy count (entry_of job.now) front.new.items tail.new.items) }
    ensures front { OnOk result (length front.new.items ≡ 14) }
{
    write_front(FileVersion::Second, count + 1, front)?;
    write_received(job, tail)
}

/// Appends the number of these records, and the records.
fn write_records(items: &Records, out: &mut Vec<u8>) -> Result<(), AllocError>
    ensures records { OnOk result (out.new.items ≡ out.old.items ++ records_bytes items.now) }
    ensures room { OnOk result (AllByRecursion HasRoom items.now) }
    ensures few { OnOk result (length items.now < 2 ^ 64) }
{
    write_number(items.len(), out)?;
    for item in items.iter() {
        write_record(&item, out)?;
    }
    Ok(())
}

/// Appends the number of these cards, and each card as it is made.
fn write_cards(cards: Cards, out: &mut Vec<u8>) -> Result<(), AllocError>
    ensures records { OnOk result (out.new.items ≡ out.old.items ++ records_bytes cards.entry) }
    ensures room { OnOk result (AllByRecursion HasRoom cards.entry) }
    ensures few { OnOk result (length cards.entry < 2 ^ 64) }
{
    write_number(cards.len(), out)?;
    for card in cards {
        write_record(&card, out)?;
    }
    Ok(())
}

fn write_record(item: &Record, out: &mut Vec<u8>) -> Result<(), AllocError>
    ensures record { OnOk result (out.new.items ≡ out.old.items ++ record_bytes item.now) }
    ensures room { HasRoom item.now }
{
    out.extend_from_slice(&[byte_of_action(item.action), item.bytes.len() as u8])?;
    out.extend_from_slice(item.bytes.as_slice())
}

/// Appends a number in 8 bytes.
fn write_number(number: usize, out: &mut Vec<u8>) -> Result<(), AllocError>
    ensures { OnOk result (out.new.items ≡ out.old.items ++ big_bytes 8 number) }
{
    let mut field = [0; 8];
    BigEndian::write_u64(&mut field, number as u64);
    out.extend_from_slice(&field)
}

fn byte_of_action(action: Action) -> u8
    ensures { result ≡ action_byte action }
{
    action.code().unwrap_or(0)
}

fn byte_of_select(select: Select) -> u8
    ensures { result ≡ select_byte select }
{
    match select {
        Select::Unset => 0,
        Select::Printer => 1,
        Select::Punch => 2,
    }
}

fn byte_of_mode(mode: Mode) -> u8
    ensures { result ≡ mode_byte mode }
{
    match mode {
        Mode::Normal => 0,
        Mode::Transparent => 1,
    }
}

fn byte_of_state(state: State) -> u8
    ensures { result ≡ state_byte state }
{
    match state {
        State::Waiting => 0,
        State::Sent => 1,
        State::Whole => 2,
        State::Cut => 3,
    }
}

fn byte_of_version(version: FileVersion) -> u8
    ensures { result ≡ version_byte version }
{
    match version {
        FileVersion::First => 1,
        FileVersion::Second => 2,
    }
}
