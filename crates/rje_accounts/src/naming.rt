//! Where the names of a station's accounts are.
ghost use Rattle.std.specs.Prelude.{◌≡◌, IfOk, string_bytes};
ghost use Rattle.rje_folder.specs.Folder.{path_in};
ghost use Rattle.rje_accounts.specs.Paths.{in_path, settle_folder, settle_path, tried_path as path_of_tried};

use rje_folder::Folder;
use rje_settle::SettleName;
use std::alloc::Global;
use std::io::{self, ErrorKind};

/// The path of the folder of the accounts.
pub(crate) fn settle_folder(alloc: Global, station: &str) -> io::Result<String>
    ensures { IfOk result (λ path. string_bytes path ≡ settle_folder station.now) }
{
    Ok(format!(in alloc; "{station}/settle")?)
}

/// The path of a name there.
pub fn settle_path(alloc: Global, station: &str, name: SettleName) -> io::Result<String>
    ensures { IfOk result (λ path. string_bytes path ≡ settle_path station.now name) }
{
    let text = name.text();
    match str::from_utf8(text.as_slice()) {
        Ok(text) => Ok(format!(in alloc; "{station}/settle/{text}")?),
        Err(_) => Err(io::Error::from(ErrorKind::InvalidFilename)),
    }
}

/// The path by which a file is tried before it is promised. It is none of the names of an account.
pub(crate) fn tried_path(alloc: Global, station: &str) -> io::Result<String>
    ensures { IfOk result (λ path. string_bytes path ≡ path_of_tried station.now) }
{
    Ok(format!(in alloc; "{station}/settle/.promise")?)
}

/// The path of a folder of the station.
pub(crate) fn path_of(alloc: Global, station: &str, folder: Folder) -> io::Result<String> {
    let folder = folder.as_str();
    Ok(format!(in alloc; "{station}/{folder}")?)
}

/// The path of a file of a folder of the station.
pub(crate) fn path_in(
    alloc: Global,
    station: &str,
    folder: Folder,
    name: &str,
) -> io::Result<String>
    ensures { IfOk result (λ path. string_bytes path ≡ path_in station.now folder name.now) }
{
    let folder = folder.as_str();
    Ok(format!(in alloc; "{station}/{folder}/{name}")?)
}

/// The path that a job of this number gets in in/.
pub(crate) fn in_path(alloc: Global, station: &str, stamp: &str, number: u64) -> io::Result<String>
    ensures { IfOk result (λ path. string_bytes path ≡ in_path station.now stamp.now number) }
{
    Ok(format!(in alloc; "{station}/in/{stamp}-{number}.job")?)
}
