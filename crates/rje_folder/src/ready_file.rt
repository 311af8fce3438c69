//! Which files lie ready, and what they are, by their names.
ghost use Rattle.std.specs.Prelude.{◌≡◌, IfOk};
ghost use Rattle.rje_folder.specs.ReadyFile.{AreReady, file_of_name, is_left_alone as left_alone};
ghost use Rattle.rje_folder.specs.declared.ready_file.ReadyFile.TheVariants.{Deck};

use rje_text::{Mode, Select};
use std::alloc::AllocError;

/// What a file that lies ready is.
#[derive(Clone, Copy, Debug, PartialEq, Eq)]
pub enum ReadyFile {
    /// A job file.
    JobFile,
    /// A deck.
    Deck {
        /// The device of its job.
        select: Select,
        /// How the texts of its job are written.
        mode: Mode,
    },
}

impl ReadyFile {
    /// What the file of this name is, by its ending: none where it is no such file.
    pub fn of_name(name: &str) -> Option<ReadyFile>
        ensures { result ≡ file_of_name name.now }
    {
        let name = name.as_bytes();
        if name.ends_with(b".job") {
            Some(ReadyFile::JobFile)
        } else if name.ends_with(b".printer.deck") {
            Some(deck(Select::Printer, Mode::Normal))
        } else if name.ends_with(b".punch.deck") {
            Some(deck(Select::Punch, Mode::Normal))
        } else if name.ends_with(b".transparent.deck") {
            Some(deck(Select::Punch, Mode::Transparent))
        } else if name.ends_with(b".deck") {
            Some(deck(Select::Unset, Mode::Normal))
        } else {
            None
        }
    }
}

fn deck(select: Select, mode: Mode) -> ReadyFile
    ensures { result ≡ Deck select mode }
{
    ReadyFile::Deck { select, mode }
}

/// Whether a file of this name is left alone: one that is being written, as a command's new file beside the one that it replaces, or held back.
pub fn is_left_alone(name: &str) -> bool
    ensures { result ≡ left_alone name.now }
{
    let name = name.as_bytes();
    name.starts_with(b".")
        || name.ends_with(b".part")
        || name.ends_with(b".hold")
        || name.ends_with(b".rje-0")
        || name.ends_with(b".rje-1")
}

/// Those of these names that aren't left alone, in the order of their bytes, each once.
pub fn ready_names(names: Vec<String>) -> Result<Vec<String>, AllocError>
    ensures { IfOk result (λ ready. AreReady names.items ready.items) }
{
    let mut names = names;
    names.retain(|name| !is_left_alone(name.as_str()));
    names.sort()?;
    names.dedup();
    Ok(names)
}
