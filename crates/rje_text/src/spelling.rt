//! How a record is written in a text.
ghost use Rattle.std.specs.Prelude.{◌≡◌, ◌≢◌, ℕ, ◌+◌, ◌<◌, ◌≤◌, ◌++◌, length, slice_index, IsTrue, IsFalse};
ghost use Rattle.arrayvec.specs.ArrayVec.{array_vec_len};
ghost use Rattle.rje_text.specs.Spelling.{action_escape, compressed, written_run, spelling};
ghost use Rattle.rje_text.specs.Spelling.Run.{Blanks};
ghost use Rattle.rje_text.specs.Action.{code_of};
ghost use Rattle.rje_text.specs.Records.{record_of_data};
ghost use Rattle.rje_text.specs.Inside.Words.{AreWords, IsAlone};

use crate::packer::MAX_TEXT_SENT;
use crate::searching::first_place;
use crate::{Action, Mode};
use arrayvec::ArrayVec;
use bsc_codes::{BLANK, ESC, IGS, IRS};

/// The most bytes of a spelling: an action's two, 144 data bytes and the IRS.
pub(crate) const MAX_SPELLING: usize = 147;

/// A text while records are spelled into it: the most that is sent, and one spelling more.
pub(crate) type TextInHand = ArrayVec<u8, MAX_IN_HAND>;

const MAX_IN_HAND: usize = MAX_TEXT_SENT + MAX_SPELLING;

/// Appends a record of this action and these data to the text as it is in a text of this mode.
pub(crate) fn spell(action: Action, items: &[u8], mode: Mode, text: &mut TextInHand)
    requires room { array_vec_len text.old ≤ MAX_TEXT_SENT }
    requires limit { length items.now ≤ 144 }
    ensures text { text.new.items ≡ text.old.items ++ spelling mode (record_of_data action items.now) }
    ensures short { array_vec_len text.new ≤ array_vec_len text.old + MAX_SPELLING }
{
    match mode {
        Mode::Normal => {
            escape(action, text);
            compress(items, text);
            text.push(IRS);
        }
        Mode::Transparent => append(text, items),
    }
}

/// Appends ESC and the action's code, if it has one.
fn escape(action: Action, out: &mut TextInHand)
    requires { array_vec_len out.old + 2 ≤ MAX_IN_HAND }
    ensures text { out.new.items ≡ out.old.items ++ action_escape (code_of action) }
    ensures room { array_vec_len out.new ≤ array_vec_len out.old + 2 }
{
    if let Some(code) = action.code() {
        out.push(ESC);
        out.push(code);
    }
}

/// Appends the data with its runs of blanks replaced by counts.
fn compress(bytes: &[u8], out: &mut TextInHand)
    requires { array_vec_len out.old + length bytes.now + 1 ≤ MAX_IN_HAND }
    ensures text { out.new.items ≡ out.old.items ++ compressed bytes.now }
    ensures room { array_vec_len out.new ≤ array_vec_len out.old + length bytes.now }
{
    let mut i = 0;
    while i < bytes.len() {
        let (_, rest) = bytes.split_at(i);
        let blanks = blanks_in_front(rest);
        push_blanks(out, blanks);
        let (_, data) = rest.split_at(blanks);
        let (word, _) = data.split_at(words_in_front(data));
        append(out, word);
        i += blanks + word.len();
    }
}

/// How many blanks there are in front of the first other byte.
fn blanks_in_front(bytes: &[u8]) -> usize
    ensures within { result ≤ length bytes.now }
    ensures before { (k : ℕ) → k < result → slice_index bytes.now k ≡ BLANK }
    ensures at { result < length bytes.now → slice_index bytes.now result ≢ BLANK }
{
    match bytes.iter().position(|byte| *byte != BLANK) {
        Some(place) => place,
        None => bytes.len(),
    }
}

/// How many bytes there are in front of the first two blanks, or of a last one. A blank alone stands as it is, so they are written as they are.
fn words_in_front(bytes: &[u8]) -> usize
    ensures within { result ≤ length bytes.now }
    ensures alone { AreWords result bytes.now }
    ensures at { result < length bytes.now → slice_index bytes.now result ≡ BLANK }
{
    let mut place = 0;
    while place < bytes.len() {
        let (_, rest) = bytes.split_at(place);
        let blank = place + first_place(BLANK, rest);
        if blank == bytes.len() || ends_words(bytes, blank) {
            return blank;
        }
        place = blank + 1;
    }
    place
}

/// Whether two blanks are at a place, or a last one.
fn ends_words(bytes: &[u8], place: usize) -> bool
    requires { place < length bytes.now }
    ensures ends { IsTrue result → slice_index bytes.now place ≡ BLANK }
    ensures goes_on { IsFalse result → IsAlone bytes.now place }
{
    bytes[place] == BLANK && (place + 1 == bytes.len() || bytes[place + 1] == BLANK)
}

/// Appends a run of blanks: a count for each 63 of them, and the rest.
fn push_blanks(out: &mut TextInHand, run: usize)
    requires { array_vec_len out.old + run ≤ MAX_IN_HAND }
    ensures text { out.new.items ≡ out.old.items ++ written_run (Blanks run) }
    ensures room { array_vec_len out.new ≤ array_vec_len out.old + run }
{
    if run == 0 {
        return;
    }
    for _i in 0..run / 63 {
        out.push(IGS);
        out.push(0x7F);
    }
    match run % 63 {
        0 => {}
        1 => out.push(BLANK),
        rest => {
            out.push(IGS);
            out.push(BLANK + rest as u8);
        }
    }
}

/// Appends bytes for which there is room.
pub(crate) fn append<const N: usize>(text: &mut ArrayVec<u8, N>, bytes: &[u8])
    requires { array_vec_len text.old + length bytes.now ≤ N }
    ensures { text.new.items ≡ text.old.items ++ bytes.now }
{
    let Ok(()) = text.try_extend_from_slice(bytes) else {
        unreachable!()
    };
}
