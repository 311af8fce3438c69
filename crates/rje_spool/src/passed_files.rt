//! The files of out/ that are passed over.
ghost use Rattle.std.specs.Prelude.{◌≡◌, is_some, IfSome, None, OnOk, Some, string_bytes};
ghost use Rattle.std.specs.BTreeMap.{get_by_text};
ghost use Rattle.rje_folder.specs.declared.folder.Folder.{Folder};
ghost use Rattle.rje_folder.specs.Folder.{path_in};
ghost use Rattle.rje_spool.specs.Passing.{is_lasting as lasts};
ghost use Rattle.rje_spool.specs.declared.passed_files.Until.TheVariants.{NextLook, Replaced, ThisLook};

use rje_folder::{FileIdentity, FolderDisk, StationFolder};
use std::alloc::{AllocError, Global};
use std::collections::BTreeMap;
use std::io::ErrorKind;

/// How long a file is passed over.
#[derive(Clone, Copy, Debug, PartialEq, Eq)]
pub(crate) enum Until {
    /// At the next look at its folder, and not at the one after that.
    NextLook,
    /// At this look, and not at the next one.
    ThisLook,
    /// As long as this file has its name; none is known of one that can't be read.
    Replaced(Option<FileIdentity>),
}

/// The files of out/ that are passed over, by their names.
#[derive(Drop)]
pub(crate) struct PassedFiles {
    alloc: Global,
    files: BTreeMap<String, Until>,
}

impl PassedFiles {
    /// None.
    pub(crate) fn new(alloc: Global) -> PassedFiles {
        PassedFiles {
            alloc,
            files: BTreeMap::new(alloc),
        }
    }

    /// The file of this name is passed over so long.
    pub(crate) fn add(&mut self, name: String, until: Until) -> Result<(), AllocError>
        ensures added { OnOk result (get_by_text self.new.files (string_bytes name) ≡ Some until) }
    {
        match self.files.insert(name, until) {
            Ok(_) => Ok(()),
            Err(_) => Err(AllocError),
        }
    }

    /// The file of this name isn't passed over any more.
    pub(crate) fn forget(&mut self, name: &str)
        ensures { get_by_text self.new.files name.now ≡ None }
    {
        self.files.remove(name);
    }

    /// Whether the file of this name is passed over.
    pub(crate) fn has(&self, name: &str) -> bool
        ensures { result ≡ is_some (get_by_text self.now.files name.now) }
    {
        self.files.contains_key(name)
    }

    /// The folder was read, and these names lie ready there: those are forgotten that were passed over long enough, and those whose file is gone or
    /// another one. One that doesn't lie ready for now, since it has a name in doubt/ too, isn't forgotten.
    pub(crate) fn look_again<D: FolderDisk + Drop>(
        &mut self,
        folder: &StationFolder<D>,
        names: &[String],
    ) {
        let mut still = BTreeMap::new(self.alloc);
        for (name, until) in self.files.iter() {
            if let Some(until) = until.still(folder, name.as_str(), names) {
                if let Ok(name) = String::from_str(self.alloc, name.as_str()) {
                    let _ = still.insert(name, until);
                }
            }
        }
        self.files = still;
    }
}

impl Until {
    /// How long a file of this name is passed over still, if it is, at a look at which these names lie ready.
    fn still<D: FolderDisk + Drop>(
        self,
        folder: &StationFolder<D>,
        name: &str,
        names: &[String],
    ) -> Option<Until>
        ensures next { self ≡ NextLook → result ≡ Some ThisLook }
        ensures this { self ≡ ThisLook → result ≡ None }
        ensures same { (file : _) → self ≡ Replaced file → IfSome result (λ still. still ≡ self) }
        // It is passed over only as long as the disk says that this file has the name.
        ensures is_file { (file : _) → self ≡ Replaced (Some file) → IfSome result (λ still.
            D.is_file (D.asked folder.now.disk)
            (path_in (string_bytes folder.now.path) Folder.Out name.now) file) }
    {
        match self {
            Until::NextLook => Some(Until::ThisLook),
            Until::ThisLook => None,
            Until::Replaced(None) if !names.iter().any(|listed| listed.as_str() == name) => None,
            Until::Replaced(file) if folder.identity(name).ok() == file => {
                Some(Until::Replaced(file))
            }
            Until::Replaced(_) => None,
        }
    }
}

/// Whether a file that got no second name for this gets none later either. One for which there was no room may.
pub(crate) fn is_lasting(kind: ErrorKind) -> bool
    ensures { result ≡ lasts kind }
{
    matches!(
        kind,
        ErrorKind::PermissionDenied
            | ErrorKind::CrossesDevices
            | ErrorKind::TooManyLinks
            | ErrorKind::InvalidFilename
            | ErrorKind::Unsupported
    )
}
