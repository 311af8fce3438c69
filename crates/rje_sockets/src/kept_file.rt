//! The file that the jobs of a transmission are kept in.
ghost use Rattle.std.specs.Prelude.{◌≡◌, List, IfOk, IfErr, OnOk};
ghost use Rattle.rje_files.specs.declared.entry.Entry.{Entry};
ghost use Rattle.rje_sockets.specs.Inside.Opening.{IsDestinationFault, IsOpened};
ghost use Rattle.rje_store.specs.Store.{Discloses, IsSame};

use crate::existing_entries::ExistingEntries;
use rje_commands::{CommandFault, lock_file, look_at_file};
use rje_requests::Destination;
use rje_store::{Store, WriteMode};
use std::alloc::Global;

/// The file that the jobs of a transmission are kept in, which the command has for itself.
#[derive(Drop)]
pub struct KeptFile<'a> {
    /// Its name, and what becomes of the jobs that it holds already.
    pub(crate) into: Destination<'a>,
    /// How it can be written.
    pub(crate) place: WriteMode,
    /// What is before the jobs that come.
    pub(crate) front: ExistingEntries,
}

impl<'a> KeptFile<'a> {
    /// Has the file of a destination for the command alone, if it can be written, and reads what stays in it. A device or a pipe holds no
    /// jobs. Nothing is written yet.
    pub fn open<S: Store>(
        alloc: Global,
        into: Destination<'a>,
        store: &mut S,
    ) -> Result<KeptFile<'a>, CommandFault<'a>>
        ensures into { IfOk result (λ file. file.into ≡ into.entry) }
        ensures opened { IfOk result (λ file. (front : List Entry)
            × IsOpened front file (S.files store.old)) }
        ensures held { OnOk result (S.holds store.new into.entry.jobs.now) }
        ensures fault { IfErr result (IsDestinationFault into.entry (S.files store.old)) }
        ensures same { Discloses (S.files store.old) (S.files store.new) IsSame }
    {
        let place = look_at_file(into.jobs, store)?;
        lock_file(alloc, into.jobs, store)?;
        let front = match place {
            WriteMode::Growing => ExistingEntries::read(alloc, into, store)?,
            WriteMode::Once => ExistingEntries::none(alloc)?,
        };
        Ok(KeptFile { into, place, front })
    }
}
