//! Keeps the jobs of a transmission in a file while they come.
ghost use Rattle.std.specs.Prelude.{◌≡◌, ◌+◌, ◌-◌, ◌^◌, ◌<◌, ◌≤◌, ◌++◌, ◌∷◌, ℕ, [], List, Option, length, map, take, None, Some, true, false, IfOk, IfSome, OnOk, OnErr, IfErr};
ghost use Rattle.rje_commands.specs.CommandFault.{IsFailing, status_of};
ghost use Rattle.rje_commands.specs.NamedFile.{IsWriteFault};
ghost use Rattle.rje_files.specs.declared.entry.Entry.{Entry};
ghost use Rattle.rje_files.specs.declared.job_file.version.FileVersion.TheVariants.{Second};
ghost use Rattle.rje_files.specs.Entry.{entry_of};
ghost use Rattle.rje_files.specs.JobFile.{IsEntryFileOf};
ghost use Rattle.rje_jobs.specs.declared.job.Job.{Job as Item};
ghost use Rattle.rje_sockets.specs.Ending.{MakesJobFile};
ghost use Rattle.rje_sockets.specs.Inside.Keeping.{AreKept, KeepsJobs, kept_after};
ghost use Rattle.rje_sockets.specs.Inside.Opening.{HasFront};
ghost use Rattle.rje_sockets.specs.NamedFiles.{NamesWritten};
ghost use Rattle.rje_store.specs.Store.{FileMap, Discloses, IsSame, Sets};

use crate::kept_file::KeptFile;
use rje_commands::{CommandFault, WriteCause, extend_file, write_file, write_grown};
use rje_files::{entries_of, growth_of, write_entries};
use rje_jobs::{Job, Jobs};
use rje_session::Totals;
use rje_store::{MAX_INPUT, Store, WriteMode};
use rje_text::TextFault;
use std::alloc::Global;

/// Keeps the jobs of a transmission in a file: each as soon as it has come to its end, or all at the end where the file is a device or a
/// pipe.
#[derive(Drop)]
pub struct JobWriter<'a> {
    alloc: Global,
    file: KeptFile<'a>,
    /// So many jobs are in the file, after those in front.
    kept: usize,
    /// It has so many bytes, where there are some.
    long: usize,
    /// How much has come.
    tally: Totals,
    /// Why a block was refused that hasn't come again so that it could be taken.
    refusal: Option<TextFault>,
}

impl<'a> JobWriter<'a> {
    /// Keeps jobs in this file. None is kept yet.
    pub fn new(alloc: Global, file: KeptFile<'a>) -> JobWriter<'a>
        ensures file { result.file ≡ file.entry }
        ensures none { result.kept ≡ 0 }
    {
        let tally = Totals::after_file(file.front.bytes.len());
        JobWriter {
            alloc,
            file,
            kept: 0,
            long: 0,
            tally,
            refusal: None,
        }
    }

    /// Why a block was refused that hasn't come again so that it could be taken.
    pub fn refusal(&self) -> Option<TextFault>
        ensures { result ≡ self.now.refusal }
    {
        self.refusal
    }

    /// Keeps the next of these jobs, where it has come to its end, and notes why the block that came last was refused, if it was. The file can't be written where they are more than it has, or than is
    /// held, also where the last one hasn't come to its end yet.
    pub fn keep<S: Store>(
        &mut self,
        jobs: &[Job],
        refusal: Option<TextFault>,
        store: &mut S,
    ) -> Result<(), CommandFault<'a>>
        ensures file { self.new.file ≡ self.old.file }
        ensures next { OnOk result (self.new.kept
            ≡ kept_after self.old.file.place self.old.kept jobs.now) }
        ensures kept { OnOk result ((front : List Entry) (files : Option FileMap)
            → HasFront front self.old.file.front
            → AreKept front (take self.old.kept jobs.now) self.old.long
            self.old.file.into.jobs.now files (S.files store.old)
            → AreKept front (take self.new.kept jobs.now) self.new.long
            self.old.file.into.jobs.now files (S.files store.new)) }
        ensures fault { IfErr result (IsWriteFault self.old.file.into.jobs.now) }
        ensures refused { OnOk result (IfSome refusal (λ why. self.new.refusal ≡ Some why)) }
        ensures unchanged { OnErr result (self.new ≡ self.old) }
        ensures same { OnErr result (Discloses (S.files store.old) (S.files store.new) IsSame) }
    {
        let tally = self.tally.after(jobs);
        if tally.is_too_much_for_one(MAX_INPUT) {
            return Err(CommandFault::CannotWrite(self.file.into.jobs, WriteCause::TooMuch));
        }
        if self.file.place == WriteMode::Growing
            && self.kept < jobs.len()
            && jobs[self.kept].whole
        {
            self.add(&jobs[self.kept], store)?;
        }
        self.refusal = refusal_after(self.refusal, refusal, tally == self.tally);
        self.tally = tally;
        Ok(())
    }

    /// Keeps what is left of these jobs: one that was cut, or all of them. Where there are none, the file is that of the entries in front.
    pub fn finish<S: Store>(
        &mut self,
        jobs: Vec<Job>,
        store: &mut S,
    ) -> Result<(), CommandFault<'a>>
        ensures file { OnOk result ((files : Option FileMap)
            → KeepsJobs self.old jobs.items files (S.files store.old)
            → MakesJobFile jobs.items self.old.file.into files (S.files store.new)) }
        ensures status { IfErr result (λ fault. IsFailing (status_of fault)) }
        ensures names { IfErr result (NamesWritten self.old.file.into.jobs.now) }
        ensures same { OnErr result (Discloses (S.files store.old) (S.files store.new) IsSame) }
    {
        let name = self.file.into.jobs;
        if jobs.is_empty() {
            return write_file(name, self.file.front.bytes.as_slice(), store);
        }
        if self.file.place == WriteMode::Once {
            return write_job_file(self.alloc, Jobs::from(jobs), name, store);
        }
        if self.kept < jobs.len() {
            self.add(&jobs[self.kept], store)?;
        }
        Ok(())
    }

    /// Puts one more job into the file.
    fn add<S: Store>(&mut self, job: &Job, store: &mut S) -> Result<(), CommandFault<'a>>
        ensures file { self.new.file ≡ self.old.file }
        ensures count { OnOk result (self.new.kept ≡ self.old.kept + 1) }
        ensures kept { OnOk result ((front : List Entry) (jobs : List Item) (files : Option FileMap)
            → length jobs ≡ self.old.kept → HasFront front self.old.file.front
            → AreKept front jobs self.old.long self.old.file.into.jobs.now files
            (S.files store.old)
            → AreKept front (jobs ++ job.now ∷ []) self.new.long self.old.file.into.jobs.now
            files (S.files store.new)) }
        ensures fault { IfErr result (IsWriteFault self.old.file.into.jobs.now) }
        ensures unchanged { OnErr result (self.new ≡ self.old) }
        ensures same { OnErr result (Discloses (S.files store.old) (S.files store.new) IsSame) }
    {
        let name = self.file.into.jobs;
        let Some(count) = self.entries() else {
            return Err(CommandFault::CannotWrite(name, WriteCause::TooMuch));
        };
        let growth = growth_of(self.alloc, count, job)?;
        self.long = if self.kept == 0 {
            let front = self.file.front.bytes.as_slice();
            write_grown(self.alloc, name, front, &growth, store)?
        } else {
            extend_file(self.alloc, name, self.long, &growth, store)?
        };
        self.kept += 1;
        Ok(())
    }

    /// How many entries the file has with the jobs that are kept, where one more can be counted.
    fn entries(&self) -> Option<usize>
        ensures count { IfSome result (λ n. n ≡ self.now.file.front.jobs + self.now.kept) }
        ensures room { IfSome result (λ n. n < 2 ^ 64 - 1) }
    {
        match self.file.front.jobs.checked_add(self.kept) {
            Some(count) if count < usize::MAX => Some(count),
            _ => None,
        }
    }
}

/// Why a block was refused that hasn't come again, after one more hearing: why the new one was, or, as long as nothing more came, the one
/// before.
fn refusal_after(
    before: Option<TextFault>,
    refusal: Option<TextFault>,
    is_still: bool,
) -> Option<TextFault>
    ensures refused { IfSome refusal (λ why. result ≡ Some why) }
    ensures still { refusal ≡ None → is_still ≡ true → result ≡ before }
    ensures taken { refusal ≡ None → is_still ≡ false → result ≡ None }
{
    match refusal {
        Some(why) => Some(why),
        None if is_still => before,
        None => None,
    }
}

/// Makes the version 2 file of these jobs the file of this name.
fn write_job_file<'a, S: Store>(
    alloc: Global,
    jobs: Jobs,
    name: &'a str,
    store: &mut S,
) -> Result<(), CommandFault<'a>>
    ensures file { OnOk result ((bytes : List ℕ)
        × IsEntryFileOf Second (map entry_of jobs) bytes × (length bytes ≤ MAX_INPUT)
        × Discloses (S.files store.old) (S.files store.new) (Sets name.entry.now bytes)) }
    ensures status { IfErr result (λ fault. IsFailing (status_of fault)) }
    ensures names { IfErr result (NamesWritten name.entry.now) }
    ensures same { OnErr result (Discloses (S.files store.old) (S.files store.new) IsSame) }
{
    let entries = entries_of(alloc, jobs)?;
    let file = write_entries(alloc, entries.as_slice())?;
    write_file(name, file.as_slice(), store)
}
