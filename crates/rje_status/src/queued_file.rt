//! A file in a folder of a station.
ghost use Rattle.std.specs.Prelude.{◌≡◌, ◌-◌, ◌↔◌, IsTrue, None};
ghost use Rattle.rje_status.specs.QueuedFile.{seconds_of};

use rje_folder::FileIdentity;
use serde::Serialize;

/// A file in a folder of a station.
#[derive(Debug, Drop, Serialize)]
pub struct QueuedFile {
    /// Its name.
    pub name: String,
    /// How many bytes it has.
    pub bytes: u64,
    /// When these last changed, in seconds since 1970, and 0 if that was before.
    pub changed: u64,
    /// How many cards it has, if they were counted.
    pub cards: Option<u64>,
    /// Which file it is.
    #[serde(skip)]
    pub file: FileIdentity,
}

impl QueuedFile {
    /// This file, under this name.
    pub fn new(name: String, file: FileIdentity) -> QueuedFile
        ensures name { result.name ≡ name }
        ensures bytes { result.bytes ≡ file.len }
        ensures changed { result.changed ≡ seconds_of file.changed.seconds }
        ensures uncounted { result.cards ≡ None }
        ensures file { result.file ≡ file }
    {
        QueuedFile {
            name,
            bytes: file.len,
            changed: u64::try_from(file.changed.seconds).unwrap_or(0),
            cards: None,
            file,
        }
    }

    /// Whether another name is of the same file.
    pub fn is_of(&self, other: &QueuedFile) -> bool
        ensures { IsTrue result ↔ (self.now.file.device ≡ other.now.file.device)
            × (self.now.file.inode ≡ other.now.file.inode) }
    {
        self.file.device == other.file.device && self.file.inode == other.file.inode
    }

    /// For how many seconds it has been so at this time, in seconds since 1970; 0 if it changed after that.
    pub fn age(&self, now: u64) -> u64
        ensures { result ≡ now - self.now.changed }
    {
        now.saturating_sub(self.changed)
    }
}
