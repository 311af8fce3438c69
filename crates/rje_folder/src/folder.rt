//! The folders of a station.
ghost use Rattle.std.specs.Prelude.{◌≡◌, IfOk, string_bytes};
ghost use Rattle.rje_folder.specs.Folder.{folder_name, has_hidden_names, path_in, path_of};

use std::alloc::Global;
use std::fmt::{self, Display, Formatter, Write};
use std::io;

/// A folder of a station.
#[derive(Clone, Copy, Debug, PartialEq, Eq)]
pub enum Folder {
    /// What is to be sent.
    Out,
    /// What was sent.
    Sent,
    /// What may have arrived.
    Doubt,
    /// What can't be sent.
    Refused,
    /// What came, as jobs.
    In,
    /// What came, as listings.
    Print,
    /// What came, as cards.
    Punch,
    /// What came, and was cut.
    Cut,
}

impl Folder {
    /// All of them.
    pub(crate) const ALL: [Folder; 8] = [
        Folder::Out,
        Folder::Sent,
        Folder::Doubt,
        Folder::Refused,
        Folder::In,
        Folder::Print,
        Folder::Punch,
        Folder::Cut,
    ];

    /// Its name.
    pub fn as_str(self) -> &'static str
        ensures { result.now ≡ folder_name self }
    {
        match self {
            Folder::Out => "out",
            Folder::Sent => "sent",
            Folder::Doubt => "doubt",
            Folder::Refused => "refused",
            Folder::In => "in",
            Folder::Print => "print",
            Folder::Punch => "punch",
            Folder::Cut => "cut",
        }
    }

    /// Whether a station makes hidden names in it.
    pub(crate) fn has_hidden_names(self) -> bool
        ensures { result ≡ has_hidden_names self }
    {
        match self {
            Folder::Out | Folder::Sent => false,
            _ => true,
        }
    }

    /// The path of the folder, where the station's own has this path.
    pub(crate) fn own_path(self, alloc: Global, station: &str) -> io::Result<String>
        ensures { IfOk result (λ path. string_bytes path ≡ path_of station.now self) }
    {
        let folder = self.as_str();
        Ok(format!(in alloc; "{station}/{folder}")?)
    }

    /// The path of a file in it, where the station's own folder has this path.
    pub(crate) fn path(self, alloc: Global, station: &str, name: &str) -> io::Result<String>
        ensures { IfOk result (λ path. string_bytes path ≡ path_in station.now self name.now) }
    {
        let folder = self.as_str();
        Ok(format!(in alloc; "{station}/{folder}/{name}")?)
    }
}

impl Display for Folder {
    fn fmt<W: Write>(&self, f: &mut Formatter<W>) -> fmt::Result {
        f.write_str(self.as_str())
    }
}
