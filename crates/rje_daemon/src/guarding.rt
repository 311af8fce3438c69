//! Whether a station's folder is its user's own, and nobody else's to change.
ghost use Rattle.std.specs.Prelude.{◌≡◌, None, Some, false, true};
ghost use Rattle.rje_daemon.specs.Guarding.{belongs_to_another, may_others_write as others_may_write};
ghost use Rattle.rje_daemon.specs.declared.guarding.Openness.TheVariants.{OfAnother, Writable};

use rje_store::{Disk, FileAccess, FileKind};
use std::alloc::{AllocError, Global};

/// What the owner alone may write to: the folder itself, and all in it but what operators put in and take away.
const OWN_FOLDERS: [&str; 9] = [
    "", "/doubt", "/sent", "/refused", "/in", "/cut", "/print", "/punch", "/settle",
];

/// The station's own files, which are no links.
const OWN_FILES: [&str; 2] = ["/log", "/lock"];

/// The folder of the process itself: its owner is the user that the program runs as. It isn't there where the system shows no processes.
const OWN_PROCESS: &str = "/proc/self";

/// Why a station's folder isn't taken.
#[derive(Clone, Copy, Debug, PartialEq, Eq)]
pub(crate) enum Openness {
    /// This part of it belongs to another user, which isn't root.
    OfAnother(&'static str),
    /// Others than the owner of this part of it may write to it.
    Writable(&'static str),
    /// This file of it is no file, but a link or a device.
    NoFile(&'static str),
}

/// Why a station's folder isn't taken, if it isn't: a part of it belongs to another user, or others may write to what its owner alone may. They could put
/// other files and links there.
pub(crate) fn how_open<D: Disk>(
    disk: &D,
    alloc: Global,
    station: &str,
) -> Result<Option<Openness>, AllocError> {
    let user = own_user(disk);
    for part in OWN_FOLDERS {
        if let Some(found) = found_access(disk, alloc, station, part)? {
            let open = openness_of(found, part, user);
            if open.is_some() {
                return Ok(open);
            }
        }
    }
    open_file(disk, alloc, station, user)
}

/// The user that the program runs as; none where the system doesn't tell.
fn own_user<D: Disk>(disk: &D) -> Option<u32> {
    match disk.status(OWN_PROCESS) {
        Ok(found) => Some(found.access.owner),
        Err(_) => None,
    }
}

/// Why a part of the folder with this access isn't taken by this user, if it isn't.
fn openness_of(access: FileAccess, part: &'static str, user: Option<u32>) -> Option<Openness>
    ensures another { belongs_to_another access user ≡ true → result ≡ Some (OfAnother part.entry) }
    ensures writable { belongs_to_another access user ≡ false
        → others_may_write access ≡ true → result ≡ Some (Writable part.entry) }
    ensures own { belongs_to_another access user ≡ false
        → others_may_write access ≡ false → result ≡ None }
{
    if is_anothers(access, user) {
        Some(Openness::OfAnother(part))
    } else if may_others_write(access) {
        Some(Openness::Writable(part))
    } else {
        None
    }
}

/// The first of its own files that belongs to another user, that others may write to, or that is no file.
fn open_file<D: Disk>(
    disk: &D,
    alloc: Global,
    station: &str,
    user: Option<u32>,
) -> Result<Option<Openness>, AllocError> {
    for part in OWN_FILES {
        let path = format!(in alloc; "{station}{part}")?;
        // (what can't be read can't be used either, and is reported then)
        if let Ok(found) = disk.status_of_name(path.as_str()) {
            if found.kind != FileKind::Regular {
                return Ok(Some(Openness::NoFile(part)));
            }
            let open = openness_of(found.access, part, user);
            if open.is_some() {
                return Ok(open);
            }
        }
    }
    Ok(None)
}

/// Who may do what with a part of the folder, if it is there.
fn found_access<D: Disk>(
    disk: &D,
    alloc: Global,
    station: &str,
    part: &str,
) -> Result<Option<FileAccess>, AllocError> {
    let path = format!(in alloc; "{station}{part}")?;
    match disk.status(path.as_str()) {
        Ok(found) => Ok(Some(found.access)),
        Err(_) => Ok(None),
    }
}

/// Whether it belongs to another user than this one, which isn't root. Where the user isn't known it doesn't.
fn is_anothers(access: FileAccess, user: Option<u32>) -> bool
    ensures { result ≡ belongs_to_another access user }
{
    match user {
        Some(user) => access.owner != 0 && access.owner != user,
        None => false,
    }
}

/// Whether others than its owner may write to it. What its group may is what an ACL lets others do, if it has one.
fn may_others_write(access: FileAccess) -> bool
    ensures { result ≡ others_may_write access }
{
    access.mode & 0o022 != 0
}
