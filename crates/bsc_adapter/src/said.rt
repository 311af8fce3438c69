//! What is said to an adapter.
ghost use Rattle.std.specs.Prelude.{◌≡◌, ℕ, List, [], ◌∷◌, ◌++◌, length};
ghost use Rattle.bsc_frame.specs.declared.frame.Frame.{Frame};
ghost use Rattle.bsc_frame.specs.Written.{Written};
ghost use Rattle.bsc_adapter.specs.Form.{IsSaid};
ghost use Rattle.bsc_adapter.specs.Inside.Making.{behind as behind_of};

use bsc_codes::{DLE, ENQ, STX};

/// What of a written transmission is said to an adapter: all but its two SYN and its pad, and but the check of a block.
pub fn for_adapter(written: &[u8]) -> &[u8]
    ensures { (f : Frame) → Written f written.now → IsSaid f result.now }
{
    middle(written, behind(written))
}

/// How many bytes of a written transmission come after what is said of it: its pad, and the check of a block.
fn behind(written: &[u8]) -> usize
    ensures { result ≡ behind_of written.now }
{
    match written {
        [_, _, STX, ENQ, ..] => 1,
        [_, _, STX, ..] | [_, _, DLE, STX, ..] => 3,
        _ => 1,
    }
}

/// What is left without two bytes in front and so many behind; all, where there are fewer.
fn middle(bytes: &[u8], behind: usize) -> &[u8]
    ensures { (first second : ℕ) (body back : List ℕ)
        → bytes.now ≡ first ∷ second ∷ (body ++ back) → length back ≡ behind → result.now ≡ body }
{
    match bytes {
        [_, _, rest @ ..] if behind <= rest.len() => &rest[..rest.len() - behind],
        _ => bytes,
    }
}
