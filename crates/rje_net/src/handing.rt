//! Bytes that were read and wait to be read again.
ghost use Rattle.std.specs.Prelude.{◌≡◌, ◌≢◌, ◌<◌, ◌≤◌, ◌++◌, [], length, take};

use arrayvec::ArrayVec;

/// Hands out what waits, as much as there is room for, from the front. Answers how much.
pub(crate) fn hand_out<const N: usize>(waiting: &mut ArrayVec<u8, N>, buf: &mut [u8]) -> usize
    ensures within { result ≤ length buf.new }
    ensures handed { waiting.old.items ≡ take result buf.new ++ waiting.new.items }
    ensures some { waiting.old.items ≢ [] → 0 < length buf.new → 0 < result }
{
    let count = waiting.len().min(buf.len());
    buf[..count].copy_from_slice(&waiting[..count]);
    waiting.drain(..count);
    count
}
