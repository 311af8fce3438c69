//! Numbers without leading zeros, and other pieces of texts.
ghost use Rattle.std.specs.Prelude.{◌≡◌, ◌≢◌, ◌<◌, ◌≤◌, ◌^◌, ◌+◌, ◌++◌, ℕ, decimal, length, MatchOption};

use arrayvec::ArrayVec;
use itoa::Buffer;

/// The number of a decimal text without leading zeros; `None` if it is none.
pub(crate) fn number_of(text: &[u8]) -> Option<u64>
    ensures { MatchOption result ((number : ℕ) → number < 2 ^ 64 → text.now ≢ decimal number)
        (λ number. (text.now ≡ decimal number) × (number < 2 ^ 64)) }
{
    let number = str::from_utf8(text).ok()?.parse::<u64>().ok()?;
    let mut buffer = Buffer::new();
    if buffer.format(number).as_bytes() == text {
        Some(number)
    } else {
        None
    }
}

/// Puts bytes after those of a text.
pub(crate) fn push<const ROOM: usize>(text: &mut ArrayVec<u8, ROOM>, bytes: &[u8])
    requires { length text.old.items + length bytes.now ≤ ROOM }
    ensures { text.new.items ≡ text.old.items ++ bytes.now }
{
    text.try_extend_from_slice(bytes).unwrap();
}

/// Puts a number after the bytes of a text.
pub(crate) fn push_number<const ROOM: usize>(text: &mut ArrayVec<u8, ROOM>, number: u64)
    requires { length text.old.items + 20 ≤ ROOM }
    ensures digits { text.new.items ≡ text.old.items ++ decimal number }
    ensures few { length text.new.items ≤ length text.old.items + 20 }
{
    let mut buffer = Buffer::new();
    push(text, buffer.format(number).as_bytes());
}
