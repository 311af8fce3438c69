//! How a job is kept that comes: as a receipt, as one that counts, or as ever.

use super::SettlingFiles;
use crate::settling_fault::SettlingFault;
use rje_folder::FolderDisk;
use rje_jobs::Job;
use rje_receipts::receipt_of_job;
use rje_session::Spool;
use rje_spool::received_file;
use std::io::Write;
use std::mem;
use std::time::Clock;

impl<D: FolderDisk + Drop, C: Clock, W: Write, L: Write> SettlingFiles<D, C, W, L> {
    /// Keeps a job that came whole. On disk when it returns. The first of a transmission may be a receipt, by which the other end's promises are settled
    /// then.
    pub(crate) fn keep(&mut self, job: &Job) -> Result<(), SettlingFault> {
        let is_first = mem::replace(&mut self.is_first, false);
        if is_first && self.connection.looks() {
            if let Some(receipt) = receipt_of_job(job) {
                return self.take_receipt(receipt);
            }
        }
        if self.connection.counts() {
            self.keep_counted(job)?;
        } else {
            self.spool.keep(job)?;
        }
        self.connection.job_came();
        Ok(())
    }

    /// Keeps a job that counts.
    fn keep_counted(&mut self, job: &Job) -> Result<(), SettlingFault> {
        let kept = self.put_counted(job);
        match &kept {
            Ok(()) | Err(SettlingFault::OutOfMemory) => {}
            Err(_) => self.spool.note_not_kept(job),
        }
        kept
    }

    /// Counts a job, and puts it into in/ under its number.
    fn put_counted(&mut self, job: &Job) -> Result<(), SettlingFault> {
        let stamp = self.spool.stamp()?;
        let bytes = received_file(self.alloc, job)?;
        let kept = self.accounts.keep(bytes.as_slice(), stamp.as_str())?;
        self.spool
            .note_kept(job, kept.path, stamp.as_str(), kept.number);
        Ok(())
    }
}
