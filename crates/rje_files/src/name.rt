//! The names of jobs.
ghost use Rattle.std.specs.Prelude.{◌≡◌};
ghost use Rattle.std.specs.List.{list_all};
ghost use Rattle.rje_files.specs.Entry.{IsNameOf, is_name_character, is_name_text};

/// The name of a job: up to eight of A to Z and 0 to 9 in ASCII, and then blanks.
pub type JobName = [u8; 8];

/// The name of a job that has none.
pub const NO_NAME: JobName = [b' '; 8];

/// The name that a text gives, which is one to eight of A to Z and 0 to 9; None for any other text.
pub fn name_of(text: &str) -> Option<JobName>
    ensures name { IsNameOf text.now result }
{
    let letters = text.as_bytes();
    if letters.is_empty() || 8 < letters.len() || !are_letters(letters) {
        return None;
    }
    let mut name = NO_NAME;
    name[..letters.len()].copy_from_slice(letters);
    Some(name)
}

fn are_letters(text: &[u8]) -> bool
    ensures { result ≡ is_name_text text.now }
{
    text.iter().all(|byte| is_name_byte(*byte))
}

/// Whether this is one of A to Z and 0 to 9.
pub(crate) fn is_name_byte(byte: u8) -> bool
    ensures { result ≡ is_name_character byte }
{
    b'A' <= byte && byte <= b'Z' || b'0' <= byte && byte <= b'9'
}
