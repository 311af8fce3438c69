//! Marks the jobs of a transmission in their file while they are counted.
ghost use Rattle.std.specs.Prelude.{◌≡◌, ◌⊎◌, ◌+◌, ℕ, List, Option, Some, Err, true, false, IfErr, IfOk, IfSome, OnOk, OnErr};
ghost use Rattle.std.specs.List.{slice_get};
ghost use Rattle.rje_jobs.specs.declared.job.Job.{Job};
ghost use Rattle.rje_files.specs.Marks.{AreMarks};
ghost use Rattle.rje_files.specs.Unsent.{IsLeft};
ghost use Rattle.rje_commands.specs.CommandFault.{IsFailing, status_of};
ghost use Rattle.rje_commands.specs.declared.command_fault.CommandFault.TheVariants.{OutOfStep};
ghost use Rattle.rje_sockets.specs.Ending.{MarksSent};
ghost use Rattle.rje_sockets.specs.Inside.Marking.{GoesOnMarking};
ghost use Rattle.rje_sockets.specs.NamedFiles.{NamesWritten};
ghost use Rattle.rje_store.specs.Store.{FileMap, Discloses, IsSame};

use rje_commands::{
    CommandFault, HeldFile, WriteCause, look_at_file, set_byte_of_file, write_file,
};
use rje_files::{MARK, sent_file};
use rje_store::{Store, WriteMode};
use std::alloc::Global;

/// Marks the jobs of a job file as they are counted: each by a byte in a copy of its own, which it puts in the file's place before anything
/// is said.
#[derive(Drop)]
pub struct SentMarker<'a> {
    alloc: Global,
    name: &'a str,
    /// The file as it was read.
    file: Vec<u8>,
    /// Where its jobs are marked.
    places: Vec<usize>,
    /// So many are marked.
    marked: usize,
    /// A mark failed, and no more are made.
    gave_up: bool,
}

impl<'a> SentMarker<'a> {
    /// Marks the jobs of this file, which the command has for itself, at these places. No job is marked yet.
    pub fn new(alloc: Global, held: HeldFile<'a>, places: Vec<usize>) -> SentMarker<'a>
        ensures name { result.name ≡ held.entry.name }
        ensures file { result.file ≡ held.entry.bytes }
        ensures places { result.places ≡ places }
        ensures none { result.marked ≡ 0 }
        ensures marking { result.gave_up ≡ false }
    {
        SentMarker {
            alloc,
            name: held.name(),
            file: held.into_bytes(),
            places,
            marked: 0,
            gave_up: false,
        }
    }

    /// Puts the copy that marks go into in the place of the file, with no job marked that wasn't: so what is said from then on can be marked.
    /// A device or a pipe takes no marks, and can't be written so.
    pub fn begin<S: Store>(&self, store: &mut S) -> Result<(), CommandFault<'a>>
        ensures begun { OnOk result (MarksSent self.now.file.items 0 self.now.name.now
            (S.files store.old) (S.files store.new)) }
        ensures status { IfErr result (λ fault. (jobs : List Job)
            → IsLeft self.now.file.items jobs → IsFailing (status_of fault)) }
        ensures names { IfErr result (NamesWritten self.now.name.now) }
        ensures same { OnErr result (Discloses (S.files store.old) (S.files store.new) IsSame) }
    {
        match look_at_file(self.name, store)? {
            WriteMode::Growing => self.write(0, store),
            WriteMode::Once => Err(CommandFault::CannotWrite(self.name, WriteCause::NoMarks)),
        }
    }

    /// Marks as many jobs as are counted. Where it can't, it changes no file, and marks no more from then on.
    pub fn mark<S: Store>(&mut self, counted: usize, store: &mut S)
        ensures marked { (before : ℕ) → GoesOnMarking self.old self.new before counted
            (S.files store.old) (S.files store.new) }
        ensures count { (self.new.marked ≡ self.old.marked) ⊎ (self.new.marked ≡ counted) }
        ensures still { self.new.marked ≡ self.old.marked
            → Discloses (S.files store.old) (S.files store.new) IsSame }
    {
        if self.gave_up || counted == self.marked {
            return;
        }
        match self.put(counted, store) {
            Ok(()) => self.marked = counted,
            Err(_) => self.gave_up = true,
        }
    }

    /// Marks so many jobs in the file that was read, written as a whole in the place of what is there.
    pub fn write<S: Store>(&self, counted: usize, store: &mut S) -> Result<(), CommandFault<'a>>
        ensures marked { OnOk result (MarksSent self.now.file.items counted self.now.name.now
            (S.files store.old) (S.files store.new)) }
        ensures status { IfErr result (λ fault. (jobs : List Job)
            → IsLeft self.now.file.items jobs → IsFailing (status_of fault)) }
        ensures names { IfErr result (NamesWritten self.now.name.now) }
        ensures same { OnErr result (Discloses (S.files store.old) (S.files store.new) IsSame) }
    {
        let bytes = sent_file(self.alloc, self.file.as_slice(), counted)?;
        write_file(self.name, bytes.as_slice(), store)
    }

    /// Marks so many jobs in the whole file, as `write` does, where the answers were in step; else it is in doubt which were received, and no
    /// more are marked.
    pub fn finish<S: Store>(
        &self,
        counted: usize,
        in_step: bool,
        store: &mut S,
    ) -> Result<(), CommandFault<'a>>
        ensures marked { OnOk result (MarksSent self.now.file.items counted self.now.name.now
            (S.files store.old) (S.files store.new)) }
        ensures doubt { in_step ≡ false → result ≡ Err OutOfStep }
        ensures status { IfErr result (λ fault. (jobs : List Job)
            → IsLeft self.now.file.items jobs → IsFailing (status_of fault)) }
        ensures names { IfErr result (NamesWritten self.now.name.now) }
        ensures same { OnErr result (Discloses (S.files store.old) (S.files store.new) IsSame) }
    {
        match in_step {
            true => self.write(counted, store),
            false => Err(CommandFault::OutOfStep),
        }
    }

    /// Makes another number of jobs marked.
    fn put<S: Store>(&self, counted: usize, store: &mut S) -> Result<(), CommandFault<'a>>
        ensures marked { OnOk result ((files : Option FileMap)
            → AreMarks self.now.file.items self.now.places.items
            → MarksSent self.now.file.items self.now.marked self.now.name.now files
            (S.files store.old)
            → MarksSent self.now.file.items counted self.now.name.now files
            (S.files store.new)) }
        ensures same { OnErr result (Discloses (S.files store.old) (S.files store.new) IsSame) }
    {
        match self.next_place(counted) {
            Some(place) => set_byte_of_file(self.alloc, self.name, place, MARK, store),
            None => self.write(counted, store),
        }
    }

    /// Where the next job is marked, where just one more is to be.
    fn next_place(&self, counted: usize) -> Option<usize>
        ensures place { IfSome result (λ place.
            slice_get self.now.places.items self.now.marked ≡ Some place) }
        ensures one { IfSome result (λ _. counted ≡ self.now.marked + 1) }
    {
        let marked = self.marked;
        if marked < counted && counted - marked == 1 && marked < self.places.len() {
            Some(self.places[marked])
        } else {
            None
        }
    }
}
