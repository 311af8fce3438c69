//! A file that grows, and is whole at every moment.
//!
//! There are two copies of it, which take turns. One stands under the file's name. The other, beside it, is older by one growth: it is
//! brought up to date from the first, changed and extended, put on disk, and renamed to the file's name, and the first stays as the older
//! one, by a second name that it was given before. So a growth costs as much as its bytes and the last one's, whatever the file's length,
//! and no bytes under the file's name are ever changed.
ghost use Rattle.std.specs.Prelude.{◌≡◌, ◌+◌, ◌<◌, ◌≤◌, ◌^◌, ℕ, List, Option, true, length, None, IfOk, IfSome, OnOk, string_bytes, option_map};
ghost use Rattle.rje_files.specs.Growth.{grown};
ghost use Rattle.rje_store.specs.Disk.{bytes_of, has_synced_name};
ghost use Rattle.rje_store.specs.Replacing.{Adds, IsBeside, IsOnDisk, IsPrivate, IsWhole, MayReplace, MayTry};
ghost use Rattle.rje_store.specs.FileStore.{MaySettle, older_name};
ghost use Rattle.rje_store.specs.Growing.{HasGrowing, IsGrowing, IsNewest, IsOlder, MayOpen};
ghost use Rattle.rje_store.specs.Inside.Filling.{AreTwo, HasGrown, HasTurned, IsNamed, IsSecond, KeepsNames, MayFill, MayLink, Turns};

use super::beside::{create_beside, give_access, link_beside, resolved, sync_folder};
use crate::disk::{Disk, FileKind};
use crate::new_access::NewAccess;
use crate::store::StoreFault;
use std::alloc::Global;
use std::io::{self, ErrorKind};

/// A file that grows.
#[derive(Drop)]
pub(super) struct Growing<D: Disk> {
    name: String,
    path: String,
    folder: D::Folder,
    newest: D::File,
    len: u64,
    // Made here, so that nobody else has a name for it.
    own: bool,
    older: Option<Older<D::File>>,
}

/// A copy that is older by a growth.
#[derive(Drop)]
struct Older<F: Drop> {
    file: F,
    path: String,
    len: u64,
    // In front, as many bytes may differ from the newest copy's.
    front: usize,
}

impl<D: Disk> Growing<D> {
    /// The file of this name as it is.
    pub(super) fn open(disk: &mut D, alloc: Global, name: &str) -> io::Result<Growing<D>>
        ensures asks { D.discloses
            → Adds (MayOpen D.leads name.now) (D.asked disk.old) (D.asked disk.new) }
        ensures growing { D.discloses → IfOk result (λ growing.
            HasGrowing D.leads D.opened D.folder_of growing (D.asked disk.new)) }
        ensures name { IfOk result (λ growing. string_bytes growing.name ≡ name.now) }
    {
        let path = resolved(disk, alloc, name)?;
        let text = path.as_str();
        let folder = disk.open_folder(text)?;
        let newest = disk.open_to_copy(text)?;
        let found = disk.status_of(&newest)?;
        if found.kind != FileKind::Regular {
            return Err(io::Error::from(ErrorKind::InvalidInput));
        }
        Ok(Growing {
            name: String::from_str(alloc, name)?,
            path,
            folder,
            newest,
            len: found.len,
            own: false,
            older: None,
        })
    }

    /// Whether this is the file of this name.
    pub(super) fn is_of(&self, name: &str) -> bool
        ensures { result ≡ true → string_bytes self.now.name ≡ name.now }
    {
        self.name.as_str() == name
    }

    /// The file as it is now, open.
    pub(super) fn newest(&self) -> &D::File {
        &self.newest
    }

    /// Removes what is beside the file.
    pub(super) fn settle(self, disk: &mut D)
        ensures { D.discloses → Adds (MaySettle (older_name self.older))
            (D.asked disk.old) (D.asked disk.new) }
    {
        let Growing {
            name: _,
            path: _,
            folder: _,
            newest: _,
            len: _,
            own: _,
            older,
        } = self;
        if let Some(
            Older {
                file: _,
                path,
                len: _,
                front: _,
            },
        ) = older
        {
            let _ = disk.remove(path.as_str());
        }
    }

    /// The file with one piece in front, in place of as many bytes, and another at the end. Where that fails, the file is as it was; but where
    /// it is unsynced it has them, and the disk may not.
    pub(super) fn extended(
        self,
        disk: &mut D,
        alloc: Global,
        front: &[u8],
        tail: &[u8],
    ) -> Result<Growing<D>, StoreFault>
        ensures asks { D.discloses → D.folder_of self.folder ≡ string_bytes self.path
            → (had : List ℕ)
            → IsGrowing D.opened had self (D.asked disk.old)
            → Adds (MayReplace (string_bytes self.path) (grown front.now tail.now had))
            (D.asked disk.old) (D.asked disk.new) }
        ensures on_disk { D.discloses → D.folder_of self.folder ≡ string_bytes self.path
            → (had : List ℕ)
            → IsGrowing D.opened had self (D.asked disk.old)
            → OnOk result
            (IsOnDisk (string_bytes self.path) (grown front.now tail.now had)
            (D.asked disk.new)) }
        ensures growing { D.discloses → D.folder_of self.folder ≡ string_bytes self.path
            → (had : List ℕ)
            → IsGrowing D.opened had self (D.asked disk.old)
            → IfOk result
            (λ growing. IsGrowing D.opened (grown front.now tail.now had) growing
            (D.asked disk.new)) }
        ensures same { IfOk result (λ growing. (growing.name ≡ self.name)
            × (growing.path ≡ self.path) × (growing.folder ≡ self.folder)) }
    {
        let Growing {
            name,
            path,
            folder,
            newest,
            len,
            own,
            older,
        } = self;
        let older = copy_to_grow(disk, alloc, path.as_str(), older, front.len())?;
        let growing = Growing {
            name,
            path,
            folder,
            newest,
            len,
            own,
            older: None,
        };
        match growing.turn(disk, alloc, &older, front, tail) {
            Ok(second) => Ok(growing.turned(older, second, front, tail)),
            Err(fault) => {
                let _ = disk.remove(older.path.as_str());
                Err(fault)
            }
        }
    }

    /// Has the older copy go on with these pieces, and gives it the file's name. The second name of the file, where it gets one.
    fn turn(
        &self,
        disk: &mut D,
        alloc: Global,
        older: &Older<D::File>,
        front: &[u8],
        tail: &[u8],
    ) -> Result<Option<String>, StoreFault>
        requires front { older.now.front ≤ length front.now }
        ensures asks { D.discloses → D.folder_of self.now.folder ≡ string_bytes self.now.path
            → (had : List ℕ)
            → IsNewest D.opened had self.now (D.asked disk.old)
            → IsOlder D.opened (string_bytes self.now.path) had older.now (D.asked disk.old)
            → Adds (MayReplace (string_bytes self.now.path) (grown front.now tail.now had))
            (D.asked disk.old) (D.asked disk.new) }
        ensures grows { D.discloses → D.folder_of self.now.folder ≡ string_bytes self.now.path
            → (had : List ℕ)
            → IsNewest D.opened had self.now (D.asked disk.old)
            → IsOlder D.opened (string_bytes self.now.path) had older.now (D.asked disk.old)
            → OnOk result (HasGrown (string_bytes self.now.path) (D.opened older.now.file)
            (D.opened self.now.newest) (grown front.now tail.now had) had (D.asked disk.new)) }
        ensures second { D.discloses → D.folder_of self.now.folder ≡ string_bytes self.now.path
            → (had : List ℕ)
            → IsNewest D.opened had self.now (D.asked disk.old)
            → IsOlder D.opened (string_bytes self.now.path) had older.now (D.asked disk.old)
            → IfOk result (λ second. IfSome second (λ name.
            IsSecond (string_bytes self.now.path) (string_bytes name) (D.asked disk.old)
            (D.asked disk.new))) }
        ensures own { IfOk result (λ second. IfSome second (λ _. self.now.own ≡ true)) }
        ensures fits { OnOk result ((length front.now ≤ self.now.len)
            × (self.now.len + length tail.now < 2 ^ 64)) }
    {
        let path = self.path.as_str();
        let beside = older.path.as_str();
        grown(disk, &self.newest, self.len, older, front, tail)?;
        put_in_place(disk, alloc, &self.folder, path, beside, self.own)
    }

    /// The older copy is the newest now, and what was the newest is the older one, where it has a second name.
    fn turned(
        self,
        older: Older<D::File>,
        second: Option<String>,
        front: &[u8],
        tail: &[u8],
    ) -> Growing<D>
        ensures name { result.name ≡ self.name }
        ensures path { result.path ≡ self.path }
        ensures folder { result.folder ≡ self.folder }
        ensures newest { result.newest ≡ older.file }
        ensures len { self.len + length tail.now < 2 ^ 64
            → result.len ≡ self.len + length tail.now }
        ensures own { result.own ≡ true }
        ensures older { result.older ≡ option_map
            (λ path. record {
              file = self.newest;
              path = path;
              len = self.len;
              front = length front.now;
            }) second }
    {
        let Growing {
            name,
            path,
            folder,
            newest,
            len,
            own: _,
            older: _,
        } = self;
        let Older {
            file,
            path: _,
            len: _,
            front: _,
        } = older;
        Growing {
            name,
            path,
            folder,
            newest: file,
            len: len.saturating_add(tail.len() as u64),
            own: true,
            older: match second {
                Some(path) => Some(Older {
                    file: newest,
                    path,
                    len,
                    front: front.len(),
                }),
                None => None,
            },
        }
    }
}

/// The older copy, where it differs in no more bytes in front than are written there; else an empty one.
fn copy_to_grow<D: Disk>(
    disk: &mut D,
    alloc: Global,
    path: &str,
    older: Option<Older<D::File>>,
    room: usize,
) -> io::Result<Older<D::File>>
    ensures asks { D.discloses → (had : List ℕ)
        → IfSome older (λ copy. IsOlder D.opened path.now had copy (D.asked disk.old))
        → Adds (MayTry path.now) (D.asked disk.old) (D.asked disk.new) }
    ensures older { D.discloses → (had : List ℕ)
        → IfSome older (λ copy. IsOlder D.opened path.now had copy (D.asked disk.old))
        → IfOk result (λ copy. IsOlder D.opened path.now had copy (D.asked disk.new)) }
    ensures room { IfOk result (λ copy. copy.front ≤ room) }
{
    match older {
        Some(older) => {
            if older.front <= room {
                return Ok(older);
            }
            let _ = disk.remove(older.path.as_str());
            first_copy(disk, alloc, path)
        }
        None => first_copy(disk, alloc, path),
    }
}

/// An empty copy.
fn first_copy<D: Disk>(disk: &mut D, alloc: Global, path: &str) -> io::Result<Older<D::File>>
    ensures asks { D.discloses → Adds (MayTry path.now) (D.asked disk.old) (D.asked disk.new) }
    ensures older { D.discloses → IfOk result (λ older. (had : List ℕ)
        → IsOlder D.opened path.now had older (D.asked disk.new)) }
    ensures front { IfOk result (λ older. older.front ≡ 0) }
{
    let beside = create_beside(disk, alloc, path, NewAccess::Private)?;
    Ok(Older {
        file: beside.file,
        path: beside.path,
        len: 0,
        front: 0,
    })
}

/// Gives the copy beside the file its name, on disk. The file, where it is our own, stays by a second name, which is returned; where it
/// gets none, the next growth copies it whole.
fn put_in_place<D: Disk>(
    disk: &mut D,
    alloc: Global,
    folder: &D::Folder,
    path: &str,
    beside: &str,
    own: bool,
) -> Result<Option<String>, StoreFault>
    ensures asks { D.discloses → D.folder_of folder.now ≡ path.now → IsBeside path.now beside.now
        → (bytes : List ℕ) → IsWhole beside.now bytes (D.asked disk.old)
        → Adds (MayReplace path.now bytes) (D.asked disk.old) (D.asked disk.new) }
    ensures turned { D.discloses → D.folder_of folder.now ≡ path.now
        → AreTwo path.now beside.now (D.asked disk.old)
        → OnOk result (HasTurned path.now beside.now (D.asked disk.old) (D.asked disk.new)) }
    ensures second { D.discloses → D.folder_of folder.now ≡ path.now
        → AreTwo path.now beside.now (D.asked disk.old)
        → IfOk result (λ second. IfSome second (λ name.
        IsSecond path.now (string_bytes name) (D.asked disk.old) (D.asked disk.new))) }
    ensures own { IfOk result (λ second. IfSome second (λ _. own ≡ true)) }
{
    let second = second_name(disk, alloc, path, beside, own);
    match rename_on_disk(disk, folder, beside, path) {
        Ok(()) => Ok(second),
        Err(fault) => {
            remove_second(disk, second);
            Err(fault)
        }
    }
}

/// A second name for the file, where it is our own and can have one; another than the copy beside it has.
fn second_name<D: Disk>(
    disk: &mut D,
    alloc: Global,
    path: &str,
    beside: &str,
    own: bool,
) -> Option<String>
    ensures asks { D.discloses → Adds (MayLink path.now) (D.asked disk.old) (D.asked disk.new) }
    ensures keeps { D.discloses → KeepsNames (D.asked disk.old) (D.asked disk.new) }
    ensures second { D.discloses → IfSome result (λ second. IsSecond path.now
        (string_bytes second) (D.asked disk.old) (D.asked disk.new)) }
    ensures own { IfSome result (λ _. own ≡ true) }
{
    if own {
        link_beside(disk, alloc, path, beside).ok()
    } else {
        None
    }
}

/// Takes the second name away again.
fn remove_second<D: Disk>(disk: &mut D, second: Option<String>)
    ensures { D.discloses → (path : List ℕ)
        → IfSome second (λ name. IsBeside path (string_bytes name))
        → Adds (MayTry path) (D.asked disk.old) (D.asked disk.new) }
{
    if let Some(second) = second {
        let _ = disk.remove(second.as_str());
    }
}

/// Gives a file another file's name, on disk.
fn rename_on_disk<D: Disk>(
    disk: &mut D,
    folder: &D::Folder,
    from: &str,
    to: &str,
) -> Result<(), StoreFault>
    ensures asks { D.discloses → D.folder_of folder.now ≡ to.now → (bytes : List ℕ)
        → IsBeside to.now from.now
        → IsWhole from.now bytes (D.asked disk.old)
        → Adds (MayReplace to.now bytes) (D.asked disk.old) (D.asked disk.new) }
    ensures named { D.discloses → D.folder_of folder.now ≡ to.now
        → OnOk result (IsNamed from.now to.now (D.asked disk.old) (D.asked disk.new)) }
{
    disk.rename(from, to)?;
    sync_folder(disk, folder)
}

/// Makes the older copy the newest one's extension, on disk.
fn grown<D: Disk>(
    disk: &mut D,
    newest: &D::File,
    len: u64,
    older: &Older<D::File>,
    front: &[u8],
    tail: &[u8],
) -> io::Result<()>
    ensures asks { D.discloses → IsPrivate (D.opened older.now.file) (D.asked disk.old)
        → Adds (MayFill (D.opened older.now.file)) (D.asked disk.old) (D.asked disk.new) }
    ensures room { OnOk result (length front.now ≤ len) }
    ensures fits { OnOk result (len + length tail.now < 2 ^ 64) }
    ensures turns { D.discloses
        → IfSome (bytes_of (D.opened older.now.file).number (D.asked disk.old))
        (λ bytes. older.now.len ≡ length bytes)
        → OnOk result (Turns (D.opened older.now.file) (D.opened newest.now) front.now
        tail.now (D.asked disk.old) (D.asked disk.new)) }
{
    if len < front.len() as u64 {
        return Err(io::Error::from(ErrorKind::InvalidInput));
    }
    if u64::MAX - len < tail.len() as u64 {
        return Err(io::Error::from(ErrorKind::InvalidInput));
    }
    if older.len == 0 {
        let found = disk.status_of(newest)?;
        give_access(disk, &older.file, found.access)?;
        return gone_on(disk, newest, older, front, tail);
    }
    gone_on(disk, newest, older, front, tail)
}

/// Has the older copy go on as the newest, with these pieces in front and at the end, on disk.
fn gone_on<D: Disk>(
    disk: &mut D,
    newest: &D::File,
    older: &Older<D::File>,
    front: &[u8],
    tail: &[u8],
) -> io::Result<()>
    ensures asks { D.discloses
        → Adds (MayFill (D.opened older.now.file)) (D.asked disk.old) (D.asked disk.new) }
    ensures turns { D.discloses
        → IfSome (bytes_of (D.opened older.now.file).number (D.asked disk.old))
        (λ bytes. older.now.len ≡ length bytes)
        → OnOk result (Turns (D.opened older.now.file) (D.opened newest.now) front.now
        tail.now (D.asked disk.old) (D.asked disk.new)) }
{
    disk.go_on(&older.file, newest, older.len, tail)?;
    disk.write_at(&older.file, 0, front)?;
    disk.sync(&older.file)
}
