//! The names that a file may get.
ghost use Rattle.std.specs.Prelude.{◌≡◌, ◌≤◌, ◌+◌, true, Contains, IfOk, drop, length, nat_eq, string_bytes};
ghost use Rattle.std.specs.List.{starts_with, ends_with};
ghost use Rattle.rje_folder.specs.FileNames.{IsNameBefore, IsNameOf, IsWithNumber};
ghost use Rattle.rje_folder.specs.Inside.Calls.{first_number};

use crate::ready_file::ReadyFile;
use std::alloc::Global;
use std::io::{self, ErrorKind};

/// The most bytes of a name.
const LONGEST: usize = 255;

/// The most bytes of an ending that isn't one of a deck or a job file.
const LONGEST_ENDING: usize = 32;

/// The endings by which a file is a deck or a job file.
const ENDINGS: [&str; 5] = [
    ".job",
    ".printer.deck",
    ".punch.deck",
    ".transparent.deck",
    ".deck",
];

/// The names that a file may get, of which it gets the first that no file has.
#[derive(Clone, Copy, Debug)]
pub enum FileNames<'a> {
    /// This one, and then it with .2, .3 and so on before its ending: a file is what it was by them too. One that is too long for a name gets a number at
    /// once, and is shortened.
    Of(&'a str),
    /// Those with a number between two pieces, as `STEM-1.job`, `STEM-2.job`.
    Numbered {
        /// What is before the number and its dash.
        stem: &'a str,
        /// What is behind the number.
        ending: &'a str,
        /// The number of the first of them.
        first: u32,
    },
}

impl<'a> FileNames<'a> {
    /// The number of the first of them.
    pub(crate) fn first(self) -> u32
        ensures { result ≡ first_number self.entry }
    {
        match self {
            FileNames::Of(_) => 1,
            FileNames::Numbered {
                stem: _,
                ending: _,
                first,
            } => first,
        }
    }

    /// The name of this number.
    pub(crate) fn name(self, alloc: Global, number: u32) -> io::Result<String>
        ensures named { IfOk result (λ name. IsNameOf self.entry (string_bytes name)) }
        ensures next { first_number self.entry ≤ number → IfOk result (λ name.
            IsNameBefore self.entry (number + 1) (string_bytes name)) }
    {
        match self {
            FileNames::Of(path) if number <= 1 && last_part(path).len() <= LONGEST => {
                Ok(String::from_str(alloc, path)?)
            }
            FileNames::Of(path) => numbered(alloc, path, number),
            FileNames::Numbered {
                stem,
                ending,
                first: _,
            } => { Ok(format!(in alloc; "{stem}-{number}{ending}")?) }
        }
    }
}

/// A path with a number before the ending of its name, which is shortened in front of that where it would be too long.
fn numbered(alloc: Global, path: &str, number: u32) -> io::Result<String>
    ensures { IfOk result (λ other. IsWithNumber path.now (string_bytes other)) }
{
    let ending = ending_of(path);
    let digits = format!(in alloc; "{number}")?;
    let long = last_part(path)
        .len()
        .saturating_add(digits.len())
        .saturating_add(1);
    let stem = path.len().saturating_sub(ending.len());
    let front = front_of(path, stem.saturating_sub(long.saturating_sub(LONGEST)));
    let other = format!(in alloc; "{front}.{number}{ending}")?;
    if keeps_parts(path, front, ending)
        && ReadyFile::of_name(other.as_str()) == ReadyFile::of_name(path)
    {
        Ok(other)
    } else {
        Err(io::Error::from(ErrorKind::InvalidFilename))
    }
}

/// Whether a path begins and ends so, with no folder left out.
fn keeps_parts(path: &str, front: &str, ending: &str) -> bool
    ensures begins { result ≡ true → starts_with nat_eq path.now front.now ≡ true }
    ensures ends { result ≡ true → ends_with nat_eq path.now ending.now ≡ true }
    ensures folder { result ≡ true → Contains (drop (length front.now) path.now) 47 → ⊥ }
{
    let bytes = path.as_bytes();
    bytes.starts_with(front.as_bytes())
        && bytes.ends_with(ending.as_bytes())
        && match bytes.get(front.len()..) {
            Some(behind) => !behind.contains(&b'/'),
            None => false,
        }
}

/// What is after the last slash of a path.
pub(crate) fn last_part(path: &str) -> &str {
    match path.rsplit_once('/') {
        Some((_, name)) => name,
        None => path,
    }
}

/// The ending of a name, before which its number stands: that of a deck or a job file, else what it has from its last dot on.
pub(crate) fn ending_of(path: &str) -> &str {
    for ending in ENDINGS {
        if path.ends_with(ending) {
            return ending;
        }
    }
    let name = last_part(path);
    let Some((stem, _)) = name.rsplit_once('.') else {
        return "";
    };
    match name.get(stem.len()..) {
        Some(ending) if ending.len() <= LONGEST_ENDING => ending,
        _ => "",
    }
}

/// The first so many bytes of a path, or some fewer, so that no character is cut.
fn front_of(path: &str, most: usize) -> &str {
    for fewer in 0..4 {
        if let Some(front) = path.get(..most.saturating_sub(fewer)) {
            return front;
        }
    }
    ""
}
