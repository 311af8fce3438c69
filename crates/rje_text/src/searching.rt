//! The search for a byte of a text.
ghost use Rattle.std.specs.Prelude.{◌≡◌, ◌≢◌, ℕ, ◌<◌, ◌≤◌, length, slice_index};

use memchr::memchr;

/// The place of the first such byte, or the text's length.
pub(crate) fn first_place(byte: u8, text: &[u8]) -> usize
    ensures within { result ≤ length text.now }
    ensures before { (k : ℕ) → k < result → slice_index text.now k ≢ byte }
    ensures at { result < length text.now → slice_index text.now result ≡ byte }
{
    match memchr(byte, text) {
        Some(place) => place,
        None => text.len(),
    }
}
