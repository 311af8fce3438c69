//! What SHA-256 makes of jobs and of digests.
ghost use Rattle.std.specs.Prelude.{◌≡◌, ◌++◌, take};
ghost use Rattle.hex.specs.Hex.{encode_lower};
ghost use Rattle.sha2.specs.Sha256.{sha256};
ghost use Rattle.rje_settle.specs.Digest.{chained};

use sha2::{Digest, Sha256};

/// The digest of a job file.
pub(crate) fn hash_of(file: &[u8]) -> [u8; 32]
    ensures { result ≡ sha256 file.now }
{
    Sha256::digest(file)
}

/// The digest of jobs and one more, of that of those before it and its own.
#[tactic(auto, unfolding(crate::specs::Digest::chained))]
pub(crate) fn chain(before: [u8; 20], own: [u8; 32]) -> [u8; 20]
    ensures { result ≡ chained before own }
{
    let mut hasher = Sha256::new();
    hasher.update(&text_of_20(before));
    hasher.update(&text_of_32(own));
    let whole = hasher.finalize();
    let mut first = [0; 20];
    first.copy_from_slice(&whole[..20]);
    first
}

/// Twenty bytes in hexadecimal.
pub(crate) fn text_of_20(bytes: [u8; 20]) -> [u8; 40]
    ensures { result ≡ encode_lower bytes }
{
    let mut text = [0; 40];
    hex::encode_to_slice(&bytes, &mut text).unwrap();
    text
}

/// Thirty-two bytes in hexadecimal.
fn text_of_32(bytes: [u8; 32]) -> [u8; 64]
    ensures { result ≡ encode_lower bytes }
{
    let mut text = [0; 64];
    hex::encode_to_slice(&bytes, &mut text).unwrap();
    text
}
