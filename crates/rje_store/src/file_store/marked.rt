//! A file that has bytes set where it is, one after another: it is opened for the first of them and stays open for the others, until
//! something else is asked of the disk.
ghost use Rattle.std.specs.Prelude.{◌≡◌, true, IfOk, IfSome, OnOk, string_bytes};
ghost use Rattle.std.specs.Borrow.{Lends, sem};
ghost use Rattle.rje_store.specs.Replacing.{Adds};
ghost use Rattle.rje_store.specs.Growing.{MayOpen};
ghost use Rattle.rje_store.specs.FileStore.{HasSet, IsSet, MayMark, MaySet};
ghost use Rattle.rje_store.specs.Marked.{IsMarked};
ghost use Rattle.rje_store.specs.contracts.file_store.marked.MarkedDisk.{the_row};

use super::beside::resolved;
use super::locks::has_name;
use crate::disk::{Disk, FileKind};
use std::alloc::Global;
use std::io::{self, ErrorKind};
use std::marker::Model;

/// A disk, and the file on it that had the last byte set, if nothing else was asked since that may change anything. To a contract it is the
/// disk.
#[derive(Drop)]
pub(super) struct MarkedDisk<D: Disk> {
    disk: D,
    kept: Option<MarkedFile<D::File>>,
}

/// A file that has bytes set, open to be written.
#[derive(Drop)]
struct MarkedFile<F: Drop> {
    name: String,
    file: F,
    len: u64,
}

impl<D: Disk> Model for MarkedDisk<D> {
    ghost use Rattle.std.specs.Prelude.{IfSome};
    ghost use Rattle.rje_store.specs.Marked.{IsMarked};

    ghost Value = { D };

    ghost coded = { D.code };

    ghost view = { λ m. m.disk };

    // The file that is kept open is the one that its name leads to.
    ghost invariant = { λ m. D.discloses
        → IfSome m.kept (λ file. IsMarked D.leads D.opened file (D.asked m.disk)) };
}

impl<D: Disk> MarkedDisk<D> {
    /// This disk, and no file.
    pub(super) fn over(disk: D) -> Self
        ensures { result ≡ disk }
    {
        MarkedDisk { disk, kept: None }
    }

    /// The disk, to look at.
    pub(super) fn disk(&self) -> &D
        ensures { result.now ≡ self.now }
    {
        &self.disk
    }

    /// The disk, to change anything on it: no file is kept open.
    pub(super) fn closed(&mut self) -> &mut D
        ensures disk { result.now ≡ self.old }
        ensures* writes_back { sem 𝓛 (Lends
            (the_row D.row D.File.row D.Folder.row D.Disk D.File.Read) D.row self.entry result
            (λ w. w)) }
    {
        self.kept = None;
        &mut self.disk
    }

    /// Whether the file of this name is kept open, and has a name still.
    pub(super) fn has_open(&self, name: &str) -> bool {
        match &self.kept {
            Some(file) => file.is_of(name) && has_name(&self.disk, &file.file),
            None => false,
        }
    }

    /// Sets a byte where the file of this name is, on disk. Where that fails, the file is opened anew for the next one.
    pub(super) fn set_byte(
        &mut self,
        alloc: Global,
        name: &str,
        place: usize,
        byte: u8,
    ) -> io::Result<()>
        ensures asks { D.discloses → Adds (MaySet D.leads name.now place byte)
            (D.asked self.old) (D.asked self.new) }
        ensures sets { D.discloses → OnOk result (HasSet D.leads name.now place byte
            (D.asked self.old) (D.asked self.new)) }
    {
        let file = file_of(&mut self.disk, alloc, self.kept.take(), name)?;
        mark(&mut self.disk, &file, place, byte)?;
        self.kept = Some(file);
        Ok(())
    }
}

impl<F: Drop> MarkedFile<F> {
    /// Whether this is the file of this name.
    fn is_of(&self, name: &str) -> bool
        ensures { result ≡ true → string_bytes self.now.name ≡ name.now }
    {
        self.name.as_str() == name
    }
}

/// The file of this name: the one that is kept open, where that is it and it has a name still, else opened.
fn file_of<D: Disk>(
    disk: &mut D,
    alloc: Global,
    kept: Option<MarkedFile<D::File>>,
    name: &str,
) -> io::Result<MarkedFile<D::File>>
    ensures asks { D.discloses
        → Adds (MayOpen D.leads name.now) (D.asked disk.old) (D.asked disk.new) }
    ensures marked { D.discloses
        → IfSome kept (λ file. IsMarked D.leads D.opened file (D.asked disk.old))
        → IfOk result (λ file. IsMarked D.leads D.opened file (D.asked disk.new)) }
    ensures name { IfOk result (λ file. string_bytes file.name ≡ name.now) }
{
    match kept {
        Some(file) if file.is_of(name) && has_name(disk, &file.file) => Ok(file),
        _ => opened(disk, alloc, name),
    }
}

/// The file of this name, opened.
fn opened<D: Disk>(disk: &mut D, alloc: Global, name: &str) -> io::Result<MarkedFile<D::File>>
    ensures asks { D.discloses
        → Adds (MayOpen D.leads name.now) (D.asked disk.old) (D.asked disk.new) }
    ensures marked { D.discloses
        → IfOk result (λ file. IsMarked D.leads D.opened file (D.asked disk.new)) }
    ensures name { IfOk result (λ file. string_bytes file.name ≡ name.now) }
{
    let path = resolved(disk, alloc, name)?;
    let file = disk.open_to_write(path.as_str())?;
    let found = disk.status_of(&file)?;
    if found.kind != FileKind::Regular {
        return Err(io::Error::from(ErrorKind::InvalidInput));
    }
    Ok(MarkedFile {
        name: String::from_str(alloc, name)?,
        file,
        len: found.len,
    })
}

/// Sets a byte of the file, on disk.
fn mark<D: Disk>(disk: &mut D, file: &MarkedFile<D::File>, place: usize, byte: u8) -> io::Result<()>
    ensures asks { D.discloses → Adds (MayMark (D.opened file.now.file) place byte)
        (D.asked disk.old) (D.asked disk.new) }
    ensures sets { D.discloses → IsMarked D.leads D.opened file.now (D.asked disk.old)
        → OnOk result (IsSet (D.opened file.now.file) place byte
        (D.asked disk.old) (D.asked disk.new)) }
    ensures marked { D.discloses → IsMarked D.leads D.opened file.now (D.asked disk.old)
        → OnOk result (IsMarked D.leads D.opened file.now (D.asked disk.new)) }
{
    if file.len <= place as u64 {
        return Err(io::Error::from(ErrorKind::InvalidInput));
    }
    disk.write_at(&file.file, place as u64, &[byte])?;
    disk.sync_bytes(&file.file)
}
