//! The text of one record, without its IRS.
ghost use Rattle.std.specs.Prelude.{◌≡◌, ◌≢◌, ℕ, ◌+◌, ◌<◌, ◌≤◌, ◌^◌, ◌++◌, length, replicate, IsTrue, IsSome, OnOk, IfErr, Some, slice_index};
ghost use Rattle.arrayvec.specs.ArrayVec.{array_vec_len};
ghost use Rattle.rje_text.specs.Reading.{is_count, record_of};
ghost use Rattle.rje_text.specs.Inside.RecordText.{HasHead, reads_record, IsFaultFrom};

use crate::searching::first_place;
use crate::spelling::append;
use crate::{Action, MAX_RECORD, Record, TextFault};
use arrayvec::ArrayVec;
use bsc_codes::{BLANK, ESC, IGS, IRS};

const BLANKS: [u8; MAX_RECORD] = [BLANK; MAX_RECORD];

/// Whether this text is a record's. Its place in the block's text is `start`.
pub(crate) fn check_record(text: &[u8], start: usize) -> Result<(), TextFault>
    requires { start + length text.now < 2 ^ 63 }
    ensures read { OnOk result (IsSome (record_of text.now)) }
    ensures fault { IfErr result (IsFaultFrom reads_record start text.now) }
{
    let (_, head) = head_of(text);
    let mut length = 0;
    let mut i = head;
    while i < text.len() {
        let (_, rest) = text.split_at(i);
        let data = first_place(IGS, rest);
        if MAX_RECORD - length < data {
            return Err(TextFault::RecordTooLong(start + i + (MAX_RECORD - length)));
        }
        length += data;
        i += data;
        if i < text.len() {
            if text.len() <= i + 1 || !is_blank_count(text[i + 1]) {
                return Err(TextFault::BadCount(start + i + 1));
            }
            let count = (text[i + 1] - BLANK) as usize;
            if MAX_RECORD < length + count {
                return Err(TextFault::RecordTooLong(start + i));
            }
            length += count;
            i += 2;
        }
    }
    Ok(())
}

/// The record of a text that is one.
pub(crate) fn record_from(text: &[u8]) -> Record
    requires { IsSome (record_of text.now) }
    ensures { record_of text.now ≡ Some result }
{
    let (action, head) = head_of(text);
    let mut bytes = ArrayVec::new();
    let mut i = head;
    while i < text.len() {
        let (_, rest) = text.split_at(i);
        let (data, _) = rest.split_at(first_place(IGS, rest));
        append(&mut bytes, data);
        i += data.len();
        if i < text.len() {
            fill(&mut bytes, (text[i + 1] - BLANK) as usize);
            i += 2;
        }
    }
    Record { action, bytes }
}

/// The action of a record's text, and how many bytes it takes in front.
fn head_of(text: &[u8]) -> (Action, usize)
    ensures { HasHead text.now result.1 result.0 }
{
    if text.len() < 2 || text[0] != ESC {
        return (Action::Plain, 0);
    }
    match Action::of(text[1]) {
        Some(action) => (action, 2),
        None => (Action::Plain, 0),
    }
}

fn is_blank_count(byte: u8) -> bool
    ensures value { result ≡ is_count byte }
    ensures above { IsTrue result → BLANK < byte }
{
    BLANK < byte && byte < 0x80
}

fn fill(bytes: &mut ArrayVec<u8, MAX_RECORD>, count: usize)
    requires { array_vec_len bytes.old + count ≤ MAX_RECORD }
    ensures { bytes.new.items ≡ bytes.old.items ++ replicate count BLANK }
{
    let (blanks, _) = BLANKS.split_at(count);
    append(bytes, blanks);
}

/// The place of the first IRS, or the text's length.
pub(crate) fn record_end(text: &[u8]) -> usize
    ensures within { result ≤ length text.now }
    ensures before { (k : ℕ) → k < result → slice_index text.now k ≢ IRS }
    ensures at { result < length text.now → slice_index text.now result ≡ IRS }
{
    first_place(IRS, text)
}
