//! The accounts of a station, on disk and as they are reckoned.
ghost use Rattle.std.specs.Prelude.{◌≡◌, ◌≤◌, ◌<◌, ◌↔◌, IfOk, IsTrue, OnOk, string_bytes};
ghost use Rattle.rje_settling.specs.Counting.{IsCounted, IsPromised};

use crate::filing::{FiledJob, file_as_ready, file_as_sent, path_of_promised, was_marked};
use crate::settling_fault::SettlingFault;
use rje_accounts::{
    Accounts, BroughtIn, bring_in, drop_promise, finish_job, keep_job, note_sent, promise,
    read_accounts,
};
use rje_folder::{FileIdentity, FolderDisk};
use rje_settle::{
    JobDigest, JobPlace, Promise, PromiseFault, Receipt, ReceivingAccount, SendingAccount, Verdict,
};
use rje_spool::{FolderSpool, GivenJob, Notice, SettlingNotice};
use std::alloc::Global;
use std::io::{self, Write};
use std::time::Clock;

/// A job that came, was counted, and has its name in in/.
#[derive(Debug, Drop)]
pub(crate) struct CountedJob {
    /// Its path in in/.
    pub(crate) path: String,
    /// Its number, of all that were kept ever.
    pub(crate) number: u64,
}

/// The accounts of a station: what the other end is known to have kept, what is promised to it, and what was kept of its jobs.
#[derive(Drop)]
pub(crate) struct StationAccounts<D: FolderDisk + Drop> {
    disk: D,
    alloc: Global,
    station: String,
    sending: SendingAccount,
    receiving: ReceivingAccount,
    // They are as they are on disk.
    is_read: bool,
    // The promises follow one another.
    is_in_order: bool,
    // The numbers of the promised jobs that were counted, and whose files stand where they belong: from this one on, up to that one.
    filed_from: u64,
    filed_to: u64,
}

impl<D: FolderDisk + Drop> StationAccounts<D> {
    /// Those of the station of this path, which weren't read yet.
    pub(crate) fn new(
        disk: D,
        alloc: Global,
        station: &str,
    ) -> Result<StationAccounts<D>, SettlingFault> {
        Ok(StationAccounts {
            disk,
            alloc,
            station: String::from_str(alloc, station)?,
            sending: SendingAccount::new(alloc, None),
            receiving: ReceivingAccount::new(Receipt::of_none()),
            is_read: false,
            is_in_order: true,
            filed_from: 0,
            filed_to: 0,
        })
    }

    /// Whether they are as they are on disk.
    pub(crate) fn is_read(&self) -> bool {
        self.is_read
    }

    /// Whether the promises follow one another: else nothing may be sent.
    pub(crate) fn is_in_order(&self) -> bool {
        self.is_in_order
    }

    /// Reads them anew, and brings to its end what was begun there. What was brought in by that, with this time in its name.
    pub(crate) fn read<C: Clock, W: Write, L: Write>(
        &mut self,
        stamp: &str,
        spool: &mut FolderSpool<D, C, W, L>,
    ) -> Result<Vec<BroughtIn>, SettlingFault>
        ensures filed { OnOk result ((self.new.filed_from ≡ 0) × (self.new.filed_to ≡ 0)) }
    {
        self.is_read = false;
        let accounts = read_accounts(&mut self.disk, self.alloc, self.station.as_str())?;
        let brought = self.finish_jobs(&accounts, stamp)?;
        self.finish_promises(&accounts, spool)?;
        self.receiving = accounts.receiving();
        self.reckon_sending(&accounts)?;
        self.forget_filed();
        self.is_read = true;
        Ok(brought)
    }

    /// Brings each job that came to its end.
    fn finish_jobs(
        &mut self,
        accounts: &Accounts,
        stamp: &str,
    ) -> Result<Vec<BroughtIn>, SettlingFault> {
        let mut all = Vec::new(self.alloc);
        for number in &accounts.come {
            let brought = finish_job(
                &mut self.disk,
                self.alloc,
                self.station.as_str(),
                stamp,
                accounts.kept,
                *number,
            )?;
            if let Some(brought) = brought {
                if all.push(brought).is_err() {
                    return Err(SettlingFault::OutOfMemory);
                }
            }
        }
        Ok(all)
    }

    /// Deals with the promises whose jobs came, and takes all away where nothing is known to have been kept.
    fn finish_promises<C: Clock, W: Write, L: Write>(
        &mut self,
        accounts: &Accounts,
        spool: &mut FolderSpool<D, C, W, L>,
    ) -> Result<(), SettlingFault> {
        for promise in &accounts.promises {
            if accounts.is_over(*promise) {
                self.finish_promise(*promise, spool)?;
            } else if accounts.sent.is_none() {
                self.drop_promise(*promise)?;
            }
        }
        Ok(())
    }

    /// Deals with a promise whose job came. Where its file can't be dealt with, that is told, and the promise stays.
    fn finish_promise<C: Clock, W: Write, L: Write>(
        &mut self,
        promise: Promise,
        spool: &mut FolderSpool<D, C, W, L>,
    ) -> Result<(), SettlingFault> {
        match self.file_sent(promise, spool) {
            Ok(_) => self.drop_promise(promise),
            Err(SettlingFault::OutOfMemory) => Err(SettlingFault::OutOfMemory),
            Err(fault) => {
                self.leave(promise, &fault, spool);
                Ok(())
            }
        }
    }

    /// The file of a promise whose job came can't be dealt with, for this reason: that is told, and where it lies in out/ it isn't sent.
    pub(crate) fn leave<C: Clock, W: Write, L: Write>(
        &mut self,
        promise: Promise,
        why: &SettlingFault,
        spool: &mut FolderSpool<D, C, W, L>,
    ) {
        let path = self.path_of(promise);
        let path = path.as_deref().unwrap_or("no file");
        if let Some((folder, name)) = path.rsplit_once('/') {
            if folder.ends_with("/out") {
                spool.pass_over(name);
            }
        }
        if let Ok(why) = format!(in self.alloc; "{why}") {
            spool.tell(Notice::Settling(SettlingNotice::NotFiled(path, why.as_str())));
        }
    }

    /// The account of what was sent; of nothing where the promises don't follow one another.
    fn reckon_sending(&mut self, accounts: &Accounts) -> Result<(), SettlingFault> {
        self.is_in_order = true;
        if accounts.sent.is_none() {
            self.sending = SendingAccount::new(self.alloc, None);
            return Ok(());
        }
        match accounts.sending(self.alloc) {
            Ok(sending) => self.sending = sending,
            Err(PromiseFault::OutOfMemory) => return Err(SettlingFault::OutOfMemory),
            Err(_) => {
                self.sending = SendingAccount::new(self.alloc, accounts.sent);
                self.is_in_order = false;
            }
        }
        Ok(())
    }

    /// What is said to the other end.
    pub(crate) fn receipt(&self) -> Receipt
        ensures { result ≡ self.now.receiving }
    {
        self.receiving.receipt()
    }

    /// How many jobs were sent, as far as is known: those that are promised too.
    pub(crate) fn sent(&self) -> u64 {
        match self.sending.all_said() {
            Some(receipt) => receipt.kept,
            None => 0,
        }
    }

    /// What a receipt comes to.
    pub(crate) fn verdict(&self, receipt: Receipt) -> Verdict {
        if self.is_in_order {
            self.sending.verdict(receipt)
        } else {
            Verdict::DoesNotAgree
        }
    }

    /// A receipt came, and each promise was dealt with as it says.
    pub(crate) fn receive(&mut self, receipt: Receipt) {
        if self.is_in_order {
            self.sending.receive(receipt);
        }
    }

    /// How many jobs are promised.
    pub(crate) fn promises(&self) -> usize {
        self.sending.promises().len()
    }

    /// The promise of this place.
    pub(crate) fn promise_at(&self, place: usize) -> Option<Promise> {
        self.sending.promises().get(place).copied()
    }

    /// The other end is known to have kept so much: on disk.
    pub(crate) fn note(&mut self, receipt: Receipt) -> Result<(), SettlingFault> {
        note_sent(&mut self.disk, self.alloc, self.station.as_str(), receipt)?;
        Ok(())
    }

    /// The job of this digest goes out next, which is this one of its file: it is promised, on disk.
    pub(crate) fn promise(
        &mut self,
        job: JobDigest,
        given: &GivenJob<'_>,
    ) -> Result<(), SettlingFault>
        ensures on_disk { D.discloses → OnOk result
            (IsPromised (string_bytes self.old.station) (record {
              name = given.now.name.now;
              digest = job.bytes;
              place = record { mark = given.now.mark; is_last = given.now.is_last };
            })
            self.old.sending self.new.sending (D.asked self.old.disk) (D.asked self.new.disk)) }
    {
        let place = JobPlace {
            mark: given.mark,
            is_last: given.is_last,
        };
        let receipt = self.sending.promise(job, place)?;
        match promise(
            &mut self.disk,
            self.alloc,
            self.station.as_str(),
            given.name,
            given.file,
            Promise { receipt, place },
        ) {
            Ok(()) => Ok(()),
            Err(fault) => {
                self.sending.take_back();
                Err(SettlingFault::from(fault))
            }
        }
    }

    /// The number of the job that was promised last.
    pub(crate) fn last_promised(&self) -> Option<u64> {
        let promise = self.sending.promises().last()?;
        Some(promise.receipt.kept)
    }

    /// The last promise is taken back, since its job didn't go out.
    pub(crate) fn take_back(&mut self) -> Result<(), SettlingFault> {
        match self.sending.take_back() {
            Some(promise) => self.drop_promise(promise),
            None => Ok(()),
        }
    }

    /// A promise is over.
    pub(crate) fn drop_promise(&mut self, over: Promise) -> Result<(), SettlingFault> {
        drop_promise(&mut self.disk, self.alloc, self.station.as_str(), over)?;
        Ok(())
    }

    /// The job that was promised last was counted, and its file stands where it belongs.
    pub(crate) fn note_filed(&mut self) {
        let Some(promise) = self.sending.promises().last() else {
            return;
        };
        let number = promise.receipt.kept;
        if self.filed_to != number {
            self.filed_from = number;
        }
        self.filed_to = number.saturating_add(1);
    }

    /// Nobody knows where the files of the promised jobs stand.
    pub(crate) fn forget_filed(&mut self)
        ensures { (self.new.filed_from ≡ 0) × (self.new.filed_to ≡ 0) }
    {
        self.filed_from = 0;
        self.filed_to = 0;
    }

    /// Whether the job of a promise was counted, and its file stands where it belongs.
    pub(crate) fn is_filed(&self, promise: Promise) -> bool
        ensures { IsTrue result ↔ (self.now.filed_from ≤ promise.receipt.kept)
            × (promise.receipt.kept < self.now.filed_to) }
    {
        let number = promise.receipt.kept;
        self.filed_from <= number && number < self.filed_to
    }

    /// Whether the job of a promise was counted, as far as is known and as its file says.
    pub(crate) fn was_counted(&self, promise: Promise) -> bool {
        self.is_filed(promise) || was_marked(&self.disk, self.alloc, self.station.as_str(), promise)
    }

    /// The path of the file of a promised job; none, where somebody has taken it away.
    pub(crate) fn path_of(&self, promise: Promise) -> Option<String> {
        path_of_promised(&self.disk, self.alloc, self.station.as_str(), promise)
    }

    /// What the other end had said before it kept the job of a promise; none, where that isn't known any more.
    fn said_before(&self, promise: Promise) -> Option<Receipt> {
        let promises = self.sending.promises();
        let place = promises.iter().position(|other| *other == promise)?;
        match place.checked_sub(1) {
            Some(before) => Some(promises.get(before)?.receipt),
            None => self.sending.known(),
        }
    }

    /// The job of a promise came: its file is dealt with so. This spool takes its name in out/ away.
    pub(crate) fn file_sent<C: Clock, W: Write, L: Write>(
        &mut self,
        promise: Promise,
        spool: &mut FolderSpool<D, C, W, L>,
    ) -> Result<FiledJob, SettlingFault> {
        let before = self.said_before(promise);
        let station = self.station.as_str();
        let filed = file_as_sent(&mut self.disk, self.alloc, station, promise, before)?;
        if let (Some(path), Some(name)) = (&filed.path, &filed.out) {
            spool.take_out(name.as_str(), path.as_str())?;
        }
        Ok(filed)
    }

    /// The job of a promise hasn't come: its file is dealt with so.
    pub(crate) fn file_ready(&mut self, promise: Promise) -> Result<FiledJob, SettlingFault> {
        let before = self.said_before(promise);
        let station = self.station.as_str();
        Ok(file_as_ready(&mut self.disk, self.alloc, station, promise, before)?)
    }

    /// Which file has this path.
    pub(crate) fn identity(&self, path: &str) -> io::Result<FileIdentity> {
        self.disk.identity(path)
    }

    /// Keeps the job of this job file: it is on disk, it is counted, and then it gets its name in in/, which has this time and its number.
    pub(crate) fn keep(&mut self, bytes: &[u8], stamp: &str) -> Result<CountedJob, SettlingFault>
        ensures counted { D.discloses → OnOk result
            (IsCounted (string_bytes self.old.station) self.old.receiving bytes.now
            (D.asked self.old.disk) (D.asked self.new.disk)) }
        ensures number { IfOk result (λ kept. kept.number ≡ self.new.receiving.kept) }
    {
        self.is_read = false;
        let kept = keep_job(
            &mut self.disk,
            self.alloc,
            self.station.as_str(),
            self.receiving.receipt(),
            bytes,
        )?;
        let brought = bring_in(
            &mut self.disk,
            self.alloc,
            self.station.as_str(),
            kept.kept,
            stamp,
        )?;
        self.receiving = ReceivingAccount::new(kept);
        self.is_read = true;
        Ok(CountedJob {
            path: brought.path,
            number: kept.kept,
        })
    }
}
