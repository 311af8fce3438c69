//! What is done by a receipt of the other end's.

use super::SettlingFiles;
use crate::filing::FiledJob;
use crate::settling_fault::SettlingFault;
use rje_folder::FolderDisk;
use rje_settle::{Promise, Receipt, Verdict};
use rje_spool::{RefusedFile, SettlingNotice};
use std::io::Write;
use std::time::Clock;

/// What is told of the place of a file that somebody has taken away.
const NO_FILE: &str = "no file";

/// The name in a path.
fn file_name(path: &str) -> &str {
    match path.rsplit_once('/') {
        Some((_, name)) => name,
        None => path,
    }
}

impl<D: FolderDisk + Drop, C: Clock, W: Write, L: Write> SettlingFiles<D, C, W, L> {
    /// A receipt of the other end's came: what is promised is settled by it, if it agrees.
    pub(crate) fn take_receipt(&mut self, receipt: Receipt) -> Result<(), SettlingFault> {
        let verdict = self.accounts.verdict(receipt);
        match verdict {
            Verdict::BeginsToCount => self.begin_to_count(receipt)?,
            Verdict::Agrees { came } => self.settle_by(receipt, came)?,
            // (told already, when the accounts were read)
            Verdict::DoesNotAgree if !self.accounts.is_in_order() => {}
            Verdict::DoesNotAgree => {
                let sent = self.accounts.sent();
                self.tell_of(SettlingNotice::DoesNotAgree {
                    kept: receipt.kept,
                    sent,
                });
            }
        }
        self.accounts.receive(receipt);
        self.connection.receipt_came(verdict);
        Ok(())
    }

    /// From now on the other end's jobs are counted from this receipt.
    fn begin_to_count(&mut self, receipt: Receipt) -> Result<(), SettlingFault> {
        self.accounts.note(receipt)?;
        self.tell_of(SettlingNotice::Begins(receipt.kept));
        Ok(())
    }

    /// So many of the promised jobs came by this receipt: those are sent, the first one first, and the others lie ready again, the last one first.
    fn settle_by(&mut self, receipt: Receipt, came: usize) -> Result<(), SettlingFault> {
        if came > 0 {
            self.accounts.note(receipt)?;
            self.attempts.forget();
        }
        if !self.has_told {
            self.has_told = true;
            self.tell_of(SettlingNotice::Agrees(receipt.kept));
        }
        for place in 0..came {
            self.settle_as_sent(place)?;
        }
        // (only then, since a further job of that file may have lain before it)
        match self.settle_rest_as_ready(came)? {
            Some(filed) => self.refuse_filed(&filed),
            None => Ok(()),
        }
    }

    /// The promised jobs from this place on haven't come. The file of one that was sent too often, if one was.
    fn settle_rest_as_ready(&mut self, from: usize) -> Result<Option<FiledJob>, SettlingFault> {
        let mut too_often = None;
        for place in (from..self.accounts.promises()).rev() {
            if let Some(filed) = self.settle_as_ready(place)? {
                too_often = Some(filed);
            }
        }
        Ok(too_often)
    }

    /// The promised job of this place came.
    fn settle_as_sent(&mut self, place: usize) -> Result<(), SettlingFault> {
        let Some(promise) = self.accounts.promise_at(place) else {
            return Ok(());
        };
        if self.accounts.is_filed(promise) {
            return self.accounts.drop_promise(promise);
        }
        self.spool.look_anew();
        match self.accounts.file_sent(promise, &mut self.spool) {
            Ok(filed) => {
                self.tell_came(&filed);
                self.accounts.drop_promise(promise)
            }
            Err(SettlingFault::OutOfMemory) => Err(SettlingFault::OutOfMemory),
            // (its promise stays, and it is tried again when the accounts are read)
            Err(fault) => {
                self.accounts.leave(promise, &fault, &mut self.spool);
                Ok(())
            }
        }
    }

    /// Tells that a promised job came, whose file is dealt with so, unless it was told as sent already.
    fn tell_came(&mut self, filed: &FiledJob) {
        let path = filed.path.as_deref().unwrap_or(NO_FILE);
        if filed.is_changed {
            self.tell_of(SettlingNotice::CameChanged(path));
        } else if !filed.was_sent {
            self.tell_of(SettlingNotice::Came(path));
        }
    }

    /// The promised job of this place hasn't come. Its file, if it was sent too often.
    fn settle_as_ready(&mut self, place: usize) -> Result<Option<FiledJob>, SettlingFault> {
        let Some(promise) = self.accounts.promise_at(place) else {
            return Ok(None);
        };
        let was_counted = self.accounts.was_counted(promise);
        let filed = match self.accounts.file_ready(promise) {
            Ok(filed) => filed,
            Err(fault) if self.failures.may_pass(&fault) => return Err(fault),
            // (its number is the next job's, so its promise doesn't stay)
            Err(fault) => {
                self.tell_not_ready(promise, &fault);
                self.accounts.drop_promise(promise)?;
                return Ok(None);
            }
        };
        self.failures.forget();
        self.accounts.drop_promise(promise)?;
        let path = filed.path.as_deref().unwrap_or(NO_FILE);
        self.spool.lies_ready(file_name(path));
        if was_counted || filed.was_sent {
            self.tell_of(SettlingNotice::CountedInVain(path));
            return Ok(None);
        }
        self.tell_of(SettlingNotice::HasNotCome(path));
        // (one that didn't go out, since a file of the station's own couldn't be written, isn't the other end's to keep)
        if self.unsaid.take() == Some(promise.receipt.kept) {
            return Ok(None);
        }
        if self.attempts.are_too_many(filed.file, promise.place) {
            self.attempts.forget();
            return Ok(Some(filed));
        }
        Ok(None)
    }

    /// Tells that the job of a promise hasn't come, and that its file can't be made ready.
    fn tell_not_ready(&mut self, promise: Promise, why: &SettlingFault) {
        let path = self.accounts.path_of(promise);
        if let Ok(why) = format!(in self.alloc; "{why}") {
            self.tell_of(SettlingNotice::NotReady(
                path.as_deref().unwrap_or(NO_FILE),
                why.as_str(),
            ));
        }
    }

    /// Puts a file of out/ aside whose job the other end doesn't keep.
    fn refuse_filed(&mut self, filed: &FiledJob) -> Result<(), SettlingFault> {
        let Some(path) = &filed.path else {
            return Ok(());
        };
        let file = self.accounts.identity(path.as_str())?;
        let name = String::from_str(self.alloc, file_name(path.as_str()))?;
        self.spool.refuse(name, file, RefusedFile::NotKept)?;
        Ok(())
    }
}
