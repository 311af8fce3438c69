//! Data bytes, kept as many at once as come.
ghost use Rattle.std.specs.Prelude.{◌≡◌, ◌≤◌, ◌<◌, ℕ, true, false, length, drop, slice_index};
ghost use Rattle.bsc_frame.specs.Inside.Listening.Data.{IsData};
ghost use Rattle.bsc_frame.specs.Inside.Listening.Run.{run};
ghost use Rattle.bsc_frame.specs.Inside.Listening.Stage.{so_far_of, CheckRuns};

use super::stage::Stage;
use crate::normal_text::first_bad;
use arrayvec::ArrayVec;
use bsc_check::Check;
use bsc_codes::{DLE, MAX_TEXT};
use memchr::memchr;

/// Keeps the data bytes in front of these bytes, where this stage keeps some and there is room for them; how many. Most bytes of a line
/// are data, and need no more than this.
pub(crate) fn keep_data(
    stage: Stage,
    text: &mut ArrayVec<u8, MAX_TEXT>,
    check: &mut Check,
    bytes: &[u8],
) -> usize
    requires { CheckRuns stage text.old.items check.old }
    ensures within { result ≤ length bytes.now }
    ensures goes_on { run (so_far_of stage text.new.items) (drop result bytes.now)
        ≡ run (so_far_of stage text.old.items) bytes.now }
    ensures runs { CheckRuns stage text.new.items check.new }
{
    let Stage::Text(transparent) = stage else {
        return 0;
    };
    let room = MAX_TEXT - text.len();
    let data = &bytes[..data_in_front(transparent, bytes).min(room)];
    if text.try_extend_from_slice(data).is_err() {
        return 0;
    }
    check.add_all(data);
    data.len()
}

/// How many bytes in front are data.
fn data_in_front(transparent: bool, bytes: &[u8]) -> usize
    ensures within { result ≤ length bytes.now }
    ensures data { (k : ℕ) → k < result → IsData transparent (slice_index bytes.now k) }
{
    if transparent {
        in_front_of_dle(bytes)
    } else {
        normal_in_front(bytes)
    }
}

/// The place of the first DLE, or how many bytes there are.
pub(crate) fn in_front_of_dle(bytes: &[u8]) -> usize
    ensures within { result ≤ length bytes.now }
    ensures data { (k : ℕ) → k < result → IsData true (slice_index bytes.now k) }
    ensures at { result < length bytes.now → slice_index bytes.now result ≡ DLE }
{
    match memchr(DLE, bytes) {
        Some(place) => place,
        None => bytes.len(),
    }
}

fn normal_in_front(bytes: &[u8]) -> usize
    ensures within { result ≤ length bytes.now }
    ensures data { (k : ℕ) → k < result → IsData false (slice_index bytes.now k) }
{
    match first_bad(bytes) {
        Some(place) => place,
        None => bytes.len(),
    }
}
