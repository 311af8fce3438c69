//! The parts of the names in settle/.
ghost use Rattle.std.specs.Prelude.{◌≡◌, ◌≢◌, ◌≤◌, ◌+◌, ◌++◌, ℕ, Option, length, MatchOption};
ghost use Rattle.rje_settle.specs.declared.job_place.JobPlace.{JobPlace as Place};
ghost use Rattle.rje_settle.specs.declared.promise.Promise.{Promise as Promised};
ghost use Rattle.rje_settle.specs.declared.receipt.Receipt.{Receipt as Said};
ghost use Rattle.rje_settle.specs.Names.{IsMark, mark_text, place_text};
ghost use Rattle.rje_settle.specs.Receipt.{CanBeSaid, counted_text};

use crate::counted::read_counted;
use crate::number::{number_of, push, push_number};
use crate::splitting::split_once;
use crate::{JobPlace, Promise, Receipt};
use arrayvec::ArrayVec;

/// The number and digest that a text is, a dash between them.
pub(crate) fn read_receipt(text: &[u8]) -> Option<Receipt>
    ensures { MatchOption result ((r : Said) → CanBeSaid r → text.now ≢ counted_text 0x2D r)
        (λ r. (text.now ≡ counted_text 0x2D r) × CanBeSaid r) }
{
    let Some((receipt, behind)) = read_counted(text, b'-') else {
        return None;
    };
    if behind.is_empty() {
        Some(receipt)
    } else {
        None
    }
}

/// The promise that a text is: its number and digest, and which job of its file it is.
pub(crate) fn read_promise(text: &[u8]) -> Option<Promise>
    ensures { MatchOption result
        ((p : Promised) → CanBeSaid p.receipt → IsMark p.place.mark
        → text.now ≢ counted_text 0x2D p.receipt ++ place_text p.place)
        (λ p. (text.now ≡ counted_text 0x2D p.receipt ++ place_text p.place)
        × CanBeSaid p.receipt × IsMark p.place.mark) }
{
    let Some((receipt, behind)) = read_counted(text, b'-') else {
        return None;
    };
    let Some(place) = read_place(behind) else {
        return None;
    };
    Some(Promise { receipt, place })
}

/// Which job of its file it is, by the end of a name.
#[tactic(auto, unfolding(crate::specs::Names::place_text))]
fn read_place(text: &[u8]) -> Option<JobPlace>
    ensures { MatchOption result ((place : Place) → IsMark place.mark → text.now ≢ place_text place)
        (λ place. (text.now ≡ place_text place) × IsMark place.mark) }
{
    let Some(rest) = text.strip_prefix(b"-".as_slice()) else {
        return None;
    };
    let Some((mark, last)) = split_once(rest, b'-') else {
        return None;
    };
    let Some(mark) = read_mark(mark) else {
        return None;
    };
    if last == b"1".as_slice() {
        Some(JobPlace {
            mark,
            is_last: true,
        })
    } else if last == b"0".as_slice() {
        Some(JobPlace {
            mark,
            is_last: false,
        })
    } else {
        None
    }
}

/// Where a job is marked: `x` for nowhere.
fn read_mark(text: &[u8]) -> Option<Option<u64>>
    ensures { MatchOption result ((mark : Option ℕ) → IsMark mark → text.now ≢ mark_text mark)
        (λ mark. (text.now ≡ mark_text mark) × IsMark mark) }
{
    if text == b"x".as_slice() {
        return Some(None);
    }
    number_of(text).map(Some)
}

/// Puts the end of a name after the bytes of a text.
#[tactic(auto, unfolding(crate::specs::Names::place_text))]
pub(crate) fn push_place<const ROOM: usize>(text: &mut ArrayVec<u8, ROOM>, place: JobPlace)
    requires { length text.old.items + 23 ≤ ROOM }
    ensures { text.new.items ≡ text.old.items ++ place_text place }
{
    push(text, b"-");
    match place.mark {
        None => push(text, b"x"),
        Some(mark) => push_number(text, mark),
    }
    push(text, if place.is_last { b"-1" } else { b"-0" });
}
