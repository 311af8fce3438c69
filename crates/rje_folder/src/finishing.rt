//! How it is brought to its end that a file was taken over, or its name taken away, where that was broken off.
ghost use Rattle.std.specs.Prelude.{◌≡◌, ◌⊎◌, ◌≤◌, length, IfOk, IfSome, OnOk, string_bytes};
ghost use Rattle.std.specs.List.{IsFirstMatchOrLen};
ghost use Rattle.rje_store.specs.Replacing.{Adds};
ghost use Rattle.rje_folder.specs.FileNames.{IsNamedAfter};
ghost use Rattle.rje_folder.specs.Folder.{path_in};
ghost use Rattle.rje_folder.specs.Promising.{IsKeptElsewhere};
ghost use Rattle.rje_folder.specs.TakenName.{AreNext, IsTakenName, comes_after};
ghost use Rattle.rje_folder.specs.TakingOver.{MayFinish};

use crate::file_names::last_part;
use crate::folder::Folder;
use crate::folder_disk::FolderDisk;
use crate::folder_fault::FolderFault;
use crate::kept_names::KeptNames;
use crate::moving::drop_name;
use crate::opening::names_of;
use crate::taken_name::name_before;
use crate::taking_over::give_back;
use crate::tidying::{has_one_name, kept_name, second_in};
use rje_store::{FileKind, MAX_INPUT};
use std::alloc::{AllocError, Global};
use std::io::{self, ErrorKind};

/// How many hidden names are tried at once, at most: each takes some writes to the disk.
const MOST: usize = 8;

/// What came of it that some hidden names in out/ were tried.
#[derive(Debug, Drop)]
pub struct Finished {
    /// The one that was tried last: the next try begins with the names after it.
    pub last: String,
    /// Whether there may be more to try.
    pub is_left: bool,
    /// Those whose files didn't just get the name back that they had.
    pub others: Vec<OtherName>,
}

/// A hidden name in out/ whose file didn't just get the name back that it had.
#[derive(Debug, Drop)]
pub struct OtherName {
    /// The hidden name.
    pub hidden: String,
    /// The path that the file has now, or why it has the hidden name still.
    pub path: Result<String, FolderFault>,
}

/// The names in out/, and those in the folders to which files go from there, once these were asked for.
#[derive(Drop)]
struct Listed {
    out: Vec<String>,
    kept: Option<KeptNames>,
}

/// Gives some of those files of out/ their names back that have hidden ones, those of other users if they are at rest at this time: the first eight whose
/// hidden names come after this last one, and where these are fewer the first of all.
pub(crate) fn finish_some<D: FolderDisk>(
    disk: &mut D,
    alloc: Global,
    station: &str,
    last: &str,
    now: Option<i64>,
) -> Result<Finished, FolderFault>
    ensures { D.discloses → Adds (MayFinish D.opened D.File.remaining D.is_open D.is_file
        D.are_one station.now) (D.asked disk.old) (D.asked disk.new) }
{
    let out = names_of(disk, alloc, station, Folder::Out)?;
    let hidden = hidden_files(disk, alloc, station, out.as_slice());
    let hidden = hidden.map_err(|error| FolderFault::of(Folder::Out, &error))?;
    let is_left = MOST < hidden.len();
    let names = next_names(hidden, last);
    let mut listed = Listed { out, kept: None };
    let mut finished = Finished {
        last: String::from_str(alloc, last)?,
        is_left,
        others: Vec::new(alloc),
    };
    for hidden in names {
        let path = finish_one(disk, alloc, station, hidden.as_str(), &mut listed, now);
        finished.note(alloc, hidden, path)?;
    }
    Ok(finished)
}

impl Finished {
    /// Notes what came of a hidden name that was tried: the path that its file has now, if it was given one.
    fn note(
        &mut self,
        alloc: Global,
        hidden: String,
        path: Result<Option<String>, FolderFault>,
    ) -> Result<(), AllocError>
        ensures last { OnOk result (string_bytes self.new.last ≡ string_bytes hidden) }
    {
        self.last = String::from_str(alloc, hidden.as_str())?;
        let path = match path {
            Ok(None) => return Ok(()),
            Ok(Some(path)) => Ok(path),
            Err(fault) => Err(fault),
        };
        self.is_left = self.is_left || may_be_given_back(&path);
        self.others.push(OtherName { hidden, path })?;
        Ok(())
    }
}

/// Whether a file that wasn't given its name back may get it later: not one with other names.
fn may_be_given_back(path: &Result<String, FolderFault>) -> bool {
    match path {
        Ok(_) | Err(FolderFault::OtherNames) => false,
        Err(_) => true,
    }
}

/// The hidden names of files among these names in out/, in the order of their bytes. What is no file, as a folder, a pipe or a link, is passed over. It
/// fails for want of memory alone.
fn hidden_files<D: FolderDisk>(
    disk: &D,
    alloc: Global,
    station: &str,
    names: &[String],
) -> io::Result<Vec<String>> {
    let mut hidden = Vec::new(alloc);
    for name in names {
        if is_hidden_file(disk, alloc, station, name.as_str())? {
            hidden.push(String::from_str(alloc, name.as_str())?)?;
        }
    }
    hidden.sort()?;
    Ok(hidden)
}

/// Whether a name in out/ is the hidden one of a file. It fails for want of memory alone.
fn is_hidden_file<D: FolderDisk>(
    disk: &D,
    alloc: Global,
    station: &str,
    name: &str,
) -> io::Result<bool> {
    if name_before(alloc, name)?.is_none() {
        return Ok(false);
    }
    let path = Folder::Out.path(alloc, station, name)?;
    match disk.status_of_name(path.as_str()) {
        Ok(found) => Ok(found.kind == FileKind::Regular),
        Err(_) => Ok(false),
    }
}

/// Those of some names in order that are tried next, where this one was tried last: the first that come after it, and where these are too few the first of
/// all.
fn next_names(names: Vec<String>, last: &str) -> Vec<String>
    ensures { AreNext last.now names.items result.items }
{
    let mut next = names;
    let first = count_up_to(next.as_slice(), last);
    next.rotate_left(first);
    next.truncate(MOST);
    next
}

/// How many of some names in order don't come after this one.
fn count_up_to(names: &[String], last: &str) -> usize
    ensures first { IsFirstMatchOrLen (λ name. comes_after last.now (string_bytes name))
        names.now result }
    ensures within { result ≤ length names.now }
{
    for place in 0..names.len() {
        if last < names[place].as_str() {
            return place;
        }
    }
    names.len()
}

/// Gives a file the name back that it had in out/, which has this hidden one. The path that it has now, where that is another.
fn finish_one<D: FolderDisk>(
    disk: &mut D,
    alloc: Global,
    station: &str,
    hidden: &str,
    listed: &mut Listed,
    now: Option<i64>,
) -> Result<Option<String>, FolderFault>
    ensures { D.discloses → Adds (MayFinish D.opened D.File.remaining D.is_open D.is_file
        D.are_one station.now) (D.asked disk.old) (D.asked disk.new) }
{
    match name_before(alloc, hidden) {
        Ok(Some(name)) => finish(disk, alloc, station, name, hidden, listed, now),
        Ok(None) => Ok(None),
        Err(error) => Err(FolderFault::of(Folder::Out, &error)),
    }
}

/// The same, of a file that had this name, if it has the hidden one alone. If it has another one that is named after that, the hidden one is taken away;
/// and if it has others, nothing is done.
fn finish<D: FolderDisk>(
    disk: &mut D,
    alloc: Global,
    station: &str,
    name: &str,
    hidden: &str,
    listed: &mut Listed,
    now: Option<i64>,
) -> Result<Option<String>, FolderFault>
    requires named { IsTakenName name.now hidden.now }
    ensures { D.discloses → Adds (MayFinish D.opened D.File.remaining D.is_open D.is_file
        D.are_one station.now) (D.asked disk.old) (D.asked disk.new) }
{
    match stands_alone(disk, alloc, station, hidden) {
        Ok(true) => {
            let path = give_back(disk, alloc, station, name, hidden, MAX_INPUT as u64, now)?;
            Ok(other_than(name, path))
        }
        Ok(false) => match drop_hidden(disk, alloc, station, name, hidden, listed) {
            Ok(true) => Ok(None),
            Ok(false) => Err(FolderFault::OtherNames),
            Err(error) => Err(FolderFault::of(Folder::Out, &error)),
        },
        Err(error) => Err(FolderFault::of(Folder::Out, &error)),
    }
}

/// A path that isn't one of this name.
fn other_than(name: &str, path: String) -> Option<String> {
    if last_part(path.as_str()) == name {
        None
    } else {
        Some(path)
    }
}

/// Whether the file of a name in out/ has no other one.
fn stands_alone<D: FolderDisk>(
    disk: &D,
    alloc: Global,
    station: &str,
    hidden: &str,
) -> io::Result<bool> {
    let path = Folder::Out.path(alloc, station, hidden)?;
    has_one_name(disk, path.as_str())
}

/// Takes a hidden name away, whose file has another one that is named after the one that it had. Whether it has.
fn drop_hidden<D: FolderDisk>(
    disk: &mut D,
    alloc: Global,
    station: &str,
    name: &str,
    hidden: &str,
    listed: &mut Listed,
) -> io::Result<bool>
    requires named { IsTakenName name.now hidden.now }
    ensures { D.discloses → Adds (MayFinish D.opened D.File.remaining D.is_open D.is_file
        D.are_one station.now) (D.asked disk.old) (D.asked disk.new) }
{
    let path = Folder::Out.path(alloc, station, hidden)?;
    match other_name(disk, alloc, station, name, path.as_str(), listed)? {
        Some(kept) => match drop_name(disk, kept.as_str(), path.as_str()) {
            Ok(false) => Err(io::Error::from(ErrorKind::ResourceBusy)),
            dropped => dropped,
        },
        None => Ok(false),
    }
}

/// The path of another name of this file, in out/, sent/, doubt/ or refused/, that is named after this one. The names elsewhere are listed where they are
/// asked for first.
fn other_name<D: FolderDisk>(
    disk: &D,
    alloc: Global,
    station: &str,
    name: &str,
    file: &str,
    listed: &mut Listed,
) -> io::Result<Option<String>>
    ensures { IfOk result (λ kept. IfSome kept (λ path.
        IsKeptElsewhere station.now name.now (string_bytes path)
        ⊎ IsNamedAfter (path_in station.now Folder.Out name.now) (string_bytes path))) }
{
    let out = listed.out.as_slice();
    if let Some(path) = second_in(disk, alloc, station, Folder::Out, name, file, out)? {
        return Ok(Some(path));
    }
    if listed.kept.is_none() {
        listed.kept = Some(KeptNames::listed(disk, alloc, station)?);
    }
    match &listed.kept {
        Some(kept) => kept_name(disk, alloc, station, name, file, kept),
        None => Ok(None),
    }
}
