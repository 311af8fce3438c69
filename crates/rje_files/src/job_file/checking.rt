//! Whether bytes are a job file, and else why not. Takes no memory.
ghost use Rattle.std.specs.Prelude.{◌≡◌, ◌∷◌, ◌<◌, List, ℕ, length, take, slice_index, IfSome, IfNone};
ghost use Rattle.rje_files.specs.JobFile.{IsFileUpTo};
ghost use Rattle.rje_files.specs.FileFault.{IsFileFault};
ghost use Rattle.rje_files.specs.Inside.Reading.Reader.{Expects, HasRead};

use super::reader::Reader;
use super::version::FileVersion;
use rje_jobs::FileFault;

/// The fault of bytes that are not a job file; `None` for a job file of this version or an older one.
pub(super) fn first_fault(newest: FileVersion, bytes: &[u8]) -> Option<FileFault>
    ensures fault { IfSome result (λ fault. IsFileFault (IsFileUpTo newest) bytes.now fault) }
    ensures file { IfNone result (IsFileUpTo newest bytes.now) }
{
    let mut reader = Reader::new(newest);
    let mut place = 0;
    while place < bytes.len() {
        let data = reader.data_due().min(bytes.len() - place);
        if data > 0 {
            // Any bytes may be data: they are passed over at once.
            reader = reader.behind_data(data);
            place += data;
        } else {
            match reader.step(bytes[place]) {
                Some(next) => reader = next,
                None => return Some(fault_at(newest, bytes, place, reader)),
            }
            place += 1;
        }
    }
    if reader.is_done() {
        None
    } else {
        Some(FileFault::Truncated(bytes.len()))
    }
}

/// The fault of a file that stops being one at this place.
fn fault_at(newest: FileVersion, bytes: &[u8], place: usize, reader: Reader) -> FileFault
    requires within { place < length bytes.now }
    requires read { HasRead (IsFileUpTo newest) (take place bytes.now) reader }
    requires refused { (xs : List ℕ) → Expects reader (slice_index bytes.now place ∷ xs) → ⊥ }
    ensures { IsFileFault (IsFileUpTo newest) bytes.now result }
{
    if place < 4 {
        FileFault::NotJobFile
    } else if place < 6 {
        if bytes.len() == 5 {
            FileFault::Truncated(5)
        } else {
            FileFault::Version(bytes[4] as u16 * 256 + bytes[5] as u16)
        }
    } else if reader.is_done() {
        FileFault::Trailing(place)
    } else {
        FileFault::BadField(place)
    }
}
