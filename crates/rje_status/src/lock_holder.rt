//! Which process has a file locked.

use rje_store::{Disk, FileStatus, read_all};
use std::alloc::Global;

/// Where the system lists the locks of files, a line each: a number, `FLOCK`, `ADVISORY`, the kind, the process, the file and what of it is locked.
const LOCKS: &str = "/proc/locks";

/// The process that has the file of this path locked; none where no process that is seen from here has, or the system doesn't tell.
pub fn holder_of<D: Disk>(disk: &D, alloc: Global, path: &str) -> Option<u32> {
    let found = disk.status_of_name(path).ok()?;
    let locks = all_locks(disk, alloc)?;
    holder_in(locks.as_str(), &found)
}

/// Whether a process has the file of this path locked; none where the system doesn't tell.
pub(crate) fn is_locked<D: Disk>(disk: &D, alloc: Global, path: &str) -> Option<bool> {
    let found = disk.status_of_name(path).ok()?;
    let locks = all_locks(disk, alloc)?;
    Some(holder_in(locks.as_str(), &found).is_some())
}

/// The system's list.
fn all_locks<D: Disk>(disk: &D, alloc: Global) -> Option<String> {
    let mut locks = disk.open_to_read(LOCKS).ok()?;
    let bytes = read_all(alloc, &mut locks).ok()?;
    String::from_utf8(bytes).ok()
}

/// The process by that list that has this file locked.
fn holder_in(locks: &str, file: &FileStatus) -> Option<u32> {
    locks
        .split('\n')
        .find_map(|line| holder_of_line(line, file.device, file.inode))
}

/// The process in a line of that list, where it has this file locked.
fn holder_of_line(line: &str, device: u64, inode: u64) -> Option<u32> {
    let mut words = line.split(' ').filter(|word| !word.is_empty());
    if words.nth(1)? != "FLOCK" {
        return None;
    }
    let process = words.nth(2)?.parse::<u32>().ok()?;
    if process != 0 && is_file(words.next()?, device, inode) {
        Some(process)
    } else {
        None
    }
}

/// Whether a word of that list is of this file: the two numbers of its disk in hexadecimal digits, and its own, with colons between.
fn is_file(word: &str, device: u64, inode: u64) -> bool {
    let Some((disk, number)) = word.rsplit_once(':') else {
        return false;
    };
    let Some((major, minor)) = disk.split_once(':') else {
        return false;
    };
    u64::from_str_radix(major, 16).ok() == Some(major_of(device))
        && u64::from_str_radix(minor, 16).ok() == Some(minor_of(device))
        && number.parse::<u64>().ok() == Some(inode)
}

/// The first number of a disk.
fn major_of(device: u64) -> u64 {
    device >> 8 & 0xFFF | device >> 32 & 0xFFFF_F000
}

/// The second number of a disk.
fn minor_of(device: u64) -> u64 {
    device & 0xFF | device >> 12 & 0xFFFF_FF00
}
