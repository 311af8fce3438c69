//! What no clause says of texts, jobs and job files: worked records, texts, decks, listings, cards, files, names and states.
mod decks;
mod entries;
mod files;
mod listings;
mod marks;
mod refusals;
mod texts;

use arrayvec::ArrayVec;
use bsc_codes::{Block, Closing};
use rje_jobs::Job;
use rje_text::{Action, Mode, Record, Records, Select};
use std::fmt::Display;
use std::process::Abort;
use std::test::Fail;

/// A card of 80 bytes C1.
const CARD: [u8; 80] = [0xC1; 80];

/// A buffer of these bytes, for which it has room.
fn buffer<const N: usize>(rt: &impl Abort, bytes: &[u8]) -> ArrayVec<u8, N> {
    let mut buffer = ArrayVec::new();
    assert!(rt; buffer.try_extend_from_slice(bytes).is_ok());
    buffer
}

/// A record of these bytes.
fn record(rt: &impl Abort, action: Action, bytes: &[u8]) -> Record {
    Record {
        action,
        bytes: buffer(rt, bytes),
    }
}

/// Whether a record has this action and these bytes.
fn is_record(found: &Record, action: Action, bytes: &[u8]) -> bool {
    found.action == action && found.bytes.as_slice() == bytes
}

/// Whether the records are this one.
fn is_one_record(records: &Records, action: Action, bytes: &[u8]) -> bool {
    records.len() == 1 && records.iter().all(|found| is_record(&found, action, bytes))
}

/// Whether the records are of plain data, these.
fn are_plain(records: &Records, wanted: &[&[u8]]) -> bool {
    for (place, found) in records.iter().enumerate() {
        let Some(bytes) = wanted.get(place) else {
            return false;
        };
        if !is_record(&found, Action::Plain, bytes) {
            return false;
        }
    }
    records.len() == wanted.len()
}

/// Whether this is printed.
fn prints(rt: &impl AllocGlobal, printed: &impl Display, text: &str) -> Result<bool, Fail> {
    Ok(format!(in rt.alloc(); "{printed}")?.as_str() == text)
}

/// A block of this text that ends its job.
fn block(rt: &impl Abort, text: &[u8], transparent: bool) -> Block {
    Block {
        text: buffer(rt, text),
        closing: Closing::Etx,
        transparent,
    }
}

/// A normal, whole job of one record.
fn job(
    rt: &(impl Abort + AllocGlobal),
    select: Select,
    action: Action,
    bytes: &[u8],
) -> Result<Job, Fail> {
    let mut records = Records::new(rt.alloc());
    records.push(record(rt, action, bytes))?;
    Ok(Job {
        select,
        mode: Mode::Normal,
        records,
        whole: true,
    })
}
