//! A job as it is in a job file.
ghost use Rattle.std.specs.Prelude.{◌≡◌, ◌↔◌, length, IfOk, IsTrue};
ghost use Rattle.rje_jobs.specs.Fitting.{AreSent, JobFits};
ghost use Rattle.rje_files.specs.declared.job_file.version.FileVersion.{FileVersion};
ghost use Rattle.rje_files.specs.JobFile.{entry_bytes};

use crate::entry::whole_in;
use crate::marks::FIELDS;
use crate::{Entry, FileRecords, JobName, State};
use rje_jobs::{Job, heading_fits, record_fits};
use rje_text::{Mode, Select};
use std::alloc::{AllocError, Global};
use std::marker::Model;

/// A job as it is in a job file, with its name and its state: its records stay where they are. Contracts see the entry.
#[derive(Drop)]
pub struct FileEntry<'a> {
    name: JobName,
    state: State,
    select: Select,
    mode: Mode,
    records: FileRecords<'a>,
}

impl<'a> Model for FileEntry<'a> {
    ghost use Rattle.rje_files.specs.declared.entry.Entry.{Entry as Item};

    ghost Value = { Item };

    ghost use Rattle.rje_files.specs.Entry.{entry_with, whole_of};

    ghost view = { λ e. entry_with e.name e.state (record {
      select = e.select;
      mode = e.mode;
      records = e.records;
      whole = whole_of e.state;
    }) };
}

ghost use Rattle.rje_files.specs.Entry.{entry_with, whole_of};

impl<'a> FileEntry<'a> {
    pub(crate) fn new(
        name: JobName,
        state: State,
        select: Select,
        mode: Mode,
        records: FileRecords<'a>,
    ) -> Self
        ensures { result ≡ entry_with name state (record {
          select = select;
          mode = mode;
          records = records.entry;
          whole = whole_of state;
        }) }
    {
        FileEntry {
            name,
            state,
            select,
            mode,
            records,
        }
    }

    /// The job's name.
    pub fn name(&self) -> &JobName
        ensures { result.now ≡ self.now.name }
    {
        &self.name
    }

    /// How far the job is.
    pub fn state(&self) -> State
        ensures { result ≡ self.now.state }
    {
        self.state
    }

    /// The job's device.
    pub fn select(&self) -> Select
        ensures { result ≡ self.now.job.select }
    {
        self.select
    }

    /// How the job's texts are written.
    pub fn mode(&self) -> Mode
        ensures { result ≡ self.now.job.mode }
    {
        self.mode
    }

    /// How many bytes the entry has in a version 2 file.
    pub(crate) fn len(&self) -> usize
        requires { length self.now.name ≡ 8 }
        ensures { result ≡ length (entry_bytes FileVersion.Second self.now) }
    {
        FIELDS + self.records.byte_len()
    }

    /// Whether the job is there to its end.
    pub(crate) fn is_whole(&self) -> bool
        ensures { result ≡ self.now.job.whole }
    {
        whole_in(self.state)
    }

    /// The job's records, from the first one on.
    pub fn records(&self) -> FileRecords<'a>
        ensures { result ≡ self.now.job.records }
    {
        self.records.again()
    }

    /// Whether the job can be sent: it is whole, each of its records can be sent, and a transparent job is for the punch.
    pub fn job_fits(&self) -> bool
        ensures fits { IsTrue result ↔ JobFits self.now.job }
    {
        heading_fits(self.select, self.mode, self.is_whole())
            && are_sent(self.records(), self.select, self.mode)
    }

    /// The entry, with its records in memory of their own.
    pub(crate) fn into_entry(self, alloc: Global) -> Result<Entry, AllocError>
        ensures { IfOk result (λ entry. entry ≡ self.entry) }
    {
        let FileEntry {
            name,
            state,
            select,
            mode,
            records,
        } = self;
        Ok(Entry {
            name,
            state,
            job: Job {
                select,
                mode,
                records: records.collect_records(alloc)?,
                whole: whole_in(state),
            },
        })
    }
}

/// Whether each of these records can be sent in a job of this selection and mode.
fn are_sent(records: FileRecords, select: Select, mode: Mode) -> bool
    ensures { IsTrue result ↔ AreSent select mode records.entry }
{
    for item in records {
        if !record_fits(&item, select, mode) {
            return false;
        }
    }
    true
}
