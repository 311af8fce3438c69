//! Which entries have a name, and a state that their job can have.
ghost use Rattle.std.specs.Prelude.{◌≡◌};
ghost use Rattle.rje_files.specs.Entry.{is_entry, bad_entry, is_job_name};
ghost use Rattle.rje_files.specs.Entry.{may_stand as MayStand};

use crate::entry::whole_in;
use crate::name::is_name_byte;
use crate::{Entry, JobName};

/// The number of the first that has no name, or a state that its job can't have.
pub(super) fn first_bad(entries: &[Entry]) -> Option<usize>
    ensures { result ≡ bad_entry entries.now }
{
    for (place, entry) in entries.iter().enumerate() {
        if !is_good(entry) {
            return Some(place + 1);
        }
    }
    None
}

fn is_good(entry: &Entry) -> bool
    ensures { result ≡ is_entry entry.now }
{
    has_name(&entry.name) && entry.job.whole == whole_in(entry.state)
}

/// Whether these bytes are a name.
pub(super) fn has_name(name: &JobName) -> bool
    ensures { result ≡ is_job_name name.now }
{
    let mut ended = false;
    for byte in name {
        if !may_stand(ended, *byte) {
            return false;
        }
        ended = *byte == b' ';
    }
    true
}

/// Whether this may be in a name that has ended or not: a blank anywhere, and a character where it has not ended.
pub(super) fn may_stand(ended: bool, byte: u8) -> bool
    ensures { result ≡ MayStand ended byte }
{
    byte == b' ' || !ended && is_name_byte(byte)
}
