//! The files of a spool that settles doubt by receipts.
ghost use Rattle.std.specs.Prelude.{◌≡◌, ◌≢◌, IfOk, IfSome, OnOk, Some, true, false, string_bytes};
ghost use Rattle.rje_settle.specs.Connection.{MaySend, after_saying};
ghost use Rattle.rje_spool.specs.GivenFiles.{HasGoneOut, OfFile, file_of};
ghost use Rattle.rje_settling.specs.Counting.{IsOut, IsPromised, OutJob};
ghost use Rattle.rje_settling.specs.Giving.{IsGivenBy, IsJustReceipt};

mod receiving;
mod settling;

use crate::attempts::Attempts;
use crate::failures::Failures;
use crate::settling_fault::SettlingFault;
use crate::station_accounts::StationAccounts;
use rje_accounts::AccountsFault;
use rje_day::{Disposition, Inputs};
use rje_folder::{FolderDisk, FolderFault};
use rje_jobs::Job;
use rje_receipts::{receipt_job, receipt_of_job};
use rje_session::Spool;
use rje_settle::{Connection, JobDigest};
use rje_spool::{FolderSpool, Notice, RefusedFile, SettlingNotice, SpoolFault, received_file};
use rje_station::Station;
use std::alloc::Global;
use std::io::Write;
use std::time::Clock;

/// The files of a spool that settles doubt by receipts: those of the folder, the accounts, and the receipts of the connection.
#[derive(Drop)]
pub(crate) struct SettlingFiles<D: FolderDisk + Drop, C, W, L> {
    alloc: Global,
    spool: FolderSpool<D, C, W, L>,
    accounts: StationAccounts<D>,
    // Whether it calls, and for how many hearings it waits for a receipt until that is told.
    calls: bool,
    patience: u32,
    is_connected: bool,
    connection: Connection,
    // So many hearings more pass until it is told that no receipt came.
    waits: u32,
    // It was told on this connection that a receipt agrees.
    has_told: bool,
    // The transmission that was begun last is that of its own receipt.
    is_receipt: bool,
    // The job of a file of that transmission whose last block went out last, if one did.
    out: Option<usize>,
    // The next job that comes whole is the first of its transmission.
    is_first: bool,
    // The digest of the job that is next, and which one it is in its transmission.
    digest: Option<(usize, JobDigest)>,
    // The job of the transmission that was promised last.
    promised: Option<usize>,
    // The number of the promise that was made last, if its job didn't go out.
    unsaid: Option<u64>,
    attempts: Attempts,
    failures: Failures,
}

impl<D: FolderDisk + Drop, C: Clock, W: Write, L: Write> SettlingFiles<D, C, W, L> {
    /// Those of this spool and these accounts, which weren't read yet.
    pub(crate) fn new(
        alloc: Global,
        spool: FolderSpool<D, C, W, L>,
        accounts: StationAccounts<D>,
        calls: bool,
        patience: u32,
    ) -> SettlingFiles<D, C, W, L> {
        SettlingFiles {
            alloc,
            spool,
            accounts,
            calls,
            patience,
            is_connected: false,
            connection: Connection::new(calls),
            waits: patience,
            has_told: false,
            is_receipt: false,
            out: None,
            is_first: false,
            digest: None,
            promised: None,
            unsaid: None,
            attempts: Attempts::new(),
            failures: Failures::new(),
        }
    }

    /// Tells the operator this.
    pub(crate) fn tell(&mut self, notice: Notice) {
        self.spool.tell(notice);
    }

    /// Tells the operator this of the receipts.
    fn tell_of(&mut self, notice: SettlingNotice) {
        self.spool.tell(Notice::Settling(notice));
    }

    /// Whether what comes can be kept.
    pub(crate) fn can_receive(&mut self) -> bool {
        self.spool.can_receive()
    }

    /// Reads the accounts, and brings to its end what was begun there.
    pub(crate) fn read(&mut self) -> Result<(), SettlingFault> {
        let stamp = self.spool.stamp()?;
        let brought = self.accounts.read(stamp.as_str(), &mut self.spool)?;
        for job in &brought {
            if !job.was_there {
                self.tell_of(SettlingNotice::BroughtIn(job.path.as_str()));
            }
        }
        if !self.accounts.is_in_order() {
            self.tell_of(SettlingNotice::OutOfOrder);
        }
        self.spool.look_anew();
        Ok(())
    }

    /// A station begins: its accounts are read, and from now on receipts tell what may have arrived.
    pub(crate) fn begin(&mut self) -> Result<(), SettlingFault> {
        self.spool.begin_settling();
        let read = self.read();
        if let Err(fault) = &read {
            self.tell_fault(fault);
        }
        read
    }

    /// A connection begins. Where the accounts can't be read it is left.
    pub(crate) fn connect(&mut self) {
        self.is_connected = true;
        self.connection = Connection::new(self.calls);
        self.waits = self.patience;
        self.has_told = false;
        self.is_receipt = false;
        self.out = None;
        self.is_first = true;
        self.digest = None;
        self.promised = None;
        if let Err(fault) = self.read() {
            self.tell_fault(&fault);
        }
    }

    /// The connection is over.
    pub(crate) fn disconnect(&mut self) {
        self.is_connected = false;
    }

    /// Tells why something failed.
    fn tell_fault(&mut self, fault: &SettlingFault) {
        if let Ok(text) = format!(in self.alloc; "{fault}") {
            self.spool.tell(Notice::Failed(text.as_str()));
        }
    }

    /// What lies ready, and what the operator asks for. Its own receipt is said even if the operator holds what lies ready.
    pub(crate) fn seen(&mut self) -> Inputs {
        let seen = self.spool.seen();
        if !self.is_connected {
            return seen;
        }
        if !self.accounts.is_read() {
            return Inputs {
                ready: false,
                line_wanted: true,
                ..seen
            };
        }
        if self.connection.must_say() {
            return Inputs {
                ready: true,
                held: false,
                ..seen
            };
        }
        self.await_receipt();
        Inputs {
            ready: seen.ready && self.may_send(),
            ..seen
        }
    }

    /// Whether jobs may be sent.
    fn may_send(&self) -> bool
        ensures { result ≡ true → MaySend self.now.connection }
    {
        self.connection.may_send() && self.accounts.is_in_order()
    }

    /// A hearing passes: it is told where no receipt came for long.
    fn await_receipt(&mut self) {
        if self.connection.counts() || self.waits == 0 {
            return;
        }
        self.waits -= 1;
        if self.waits == 0 {
            self.tell_of(SettlingNotice::NoReceipt);
        }
    }

    /// The jobs of the next transmission: its own receipt alone where that is to be said, and else those of the first files that lie ready, where jobs
    /// may be sent.
    pub(crate) fn next(&mut self, alloc: Global) -> Result<Vec<Job>, SettlingFault>
        ensures given { IfOk result (λ jobs.
            IsGivenBy self.old.connection self.old.accounts.receiving jobs.items) }
    {
        self.out = None;
        self.digest = None;
        self.promised = None;
        let must_say = self.connection.must_say();
        self.is_receipt = must_say;
        if must_say {
            self.spool.give_none();
            return self.own_receipt(alloc);
        }
        if !self.may_send() {
            self.spool.give_none();
            return Ok(Vec::new(alloc));
        }
        self.own_jobs(alloc)
    }

    /// Its own receipt, as the one job of a transmission.
    fn own_receipt(&self, alloc: Global) -> Result<Vec<Job>, SettlingFault>
        ensures { IfOk result (λ jobs. IsJustReceipt self.now.accounts.receiving jobs.items) }
    {
        let mut jobs = Vec::new(alloc);
        match jobs.push(receipt_job(alloc, self.accounts.receipt())?) {
            Ok(()) => Ok(jobs),
            Err(_) => Err(SettlingFault::OutOfMemory),
        }
    }

    /// The jobs of the first files that lie ready. Where one has the form of a receipt its file is put aside, and none are given.
    fn own_jobs(&mut self, alloc: Global) -> Result<Vec<Job>, SettlingFault> {
        let jobs = self.spool.next(alloc)?;
        if self.refuses_receipt(jobs.as_slice())? {
            self.spool.give_none();
            self.spool.look_anew();
            return Ok(Vec::new(alloc));
        }
        Ok(jobs)
    }

    /// Puts the files aside of those of these jobs that have the form of a receipt. Whether there is one.
    fn refuses_receipt(&mut self, jobs: &[Job]) -> Result<bool, SettlingFault> {
        let mut refuses = false;
        for (number, job) in jobs.iter().enumerate() {
            if receipt_of_job(job).is_some() {
                self.refuse_given(number)?;
                refuses = true;
            }
        }
        Ok(refuses)
    }

    /// Puts the file of a job of the transmission aside, since the job has the form of a receipt.
    fn refuse_given(&mut self, job: usize) -> Result<(), SettlingFault> {
        let Some(given) = self.spool.given(job) else {
            return Ok(());
        };
        let name = String::from_str(self.alloc, given.name)?;
        let file = given.file;
        self.spool.refuse(name, file, RefusedFile::Receipt)?;
        Ok(())
    }

    /// A turn of this station is next. Whether its transmission goes on.
    pub(crate) fn look_on<'a>(&mut self, station: &Station<'a>) -> bool {
        if station.receiver().jobs().is_empty() {
            self.is_first = true;
        }
        let hashed = self.hash_next(station);
        self.spool.look_on(station) && hashed.is_ok() && self.accounts.is_read()
    }

    /// Something came that is neither kept nor answered yet. Whether it can be held.
    pub(crate) fn can_hold<'a>(&mut self, station: &Station<'a>) -> bool {
        self.spool.can_hold(station)
    }

    /// Makes the digest of the job that is sent next, where it isn't there yet.
    fn hash_next<'a>(&mut self, station: &Station<'a>) -> Result<(), SettlingFault> {
        let sender = station.sender();
        let next = sender.counted();
        if self.is_receipt || station.is_receiving() || next >= sender.jobs().len() {
            return Ok(());
        }
        if let Some((hashed, _)) = self.digest {
            if hashed == next {
                return Ok(());
            }
        }
        let file = received_file(self.alloc, &sender.jobs()[next])?;
        self.digest = Some((next, JobDigest::of(file.as_slice())));
        Ok(())
    }

    /// The last block of this job goes out next: it is promised, on disk, and its file has a name in doubt/, on disk.
    pub(crate) fn goes_out(&mut self, job: usize) -> Result<(), SettlingFault>
        ensures promised { D.discloses → OnOk result (self.old.is_receipt ≡ false → (out : OutJob)
            × IsOut job self.old.digest self.old.spool.files out
            × IsPromised (string_bytes self.old.accounts.station) out
            self.old.accounts.sending self.new.accounts.sending
            (D.asked self.old.accounts.disk) (D.asked self.new.accounts.disk)) }
        ensures out { D.discloses → OnOk result (self.old.is_receipt ≡ false → OfFile job
            (λ file now. HasGoneOut D.is_file self.old.spool.station file now
            self.old.spool.asked self.new.spool.asked) self.old.spool.files self.new.spool.files) }
    {
        if self.is_receipt {
            return Ok(());
        }
        self.promise_or_tell(job)?;
        self.put_out(job)?;
        self.unsaid = None;
        self.promised = Some(job);
        self.out = Some(job);
        Ok(())
    }

    /// Promises this job, on disk. If its file was replaced, that is told.
    fn promise_or_tell(&mut self, job: usize) -> Result<(), SettlingFault>
        ensures promised { D.discloses → OnOk result ((out : OutJob)
            × IsOut job self.old.digest self.old.spool.files out
            × IsPromised (string_bytes self.old.accounts.station) out
            self.old.accounts.sending self.new.accounts.sending
            (D.asked self.old.accounts.disk) (D.asked self.new.accounts.disk)) }
        ensures spool { OnOk result (self.new.spool ≡ self.old.spool) }
    {
        match self.promise(job) {
            Ok(()) => Ok(()),
            Err(fault) => Err(self.fault_of(job, fault)),
        }
    }

    /// The file of this job gets its name in doubt/, on disk. If it can't the promise stands: the file may have the name all the same, and the next receipt
    /// tells.
    fn put_out(&mut self, job: usize) -> Result<(), SettlingFault>
        ensures out { D.discloses → OnOk result (OfFile job
            (λ file now. HasGoneOut D.is_file self.old.spool.station file now
            self.old.spool.asked self.new.spool.asked) self.old.spool.files self.new.spool.files) }
        ensures accounts { self.new.accounts ≡ self.old.accounts }
    {
        match self.spool.goes_out(job) {
            Ok(()) => Ok(()),
            Err(fault) => {
                self.unsaid = self.accounts.last_promised();
                Err(SettlingFault::from(fault))
            }
        }
    }

    /// The fault of a job that can't be promised. That its file was replaced is told by the file's name.
    fn fault_of(&mut self, job: usize, fault: SettlingFault) -> SettlingFault {
        if fault != SettlingFault::Accounts(AccountsFault::Replaced) {
            return fault;
        }
        let Some(given) = self.spool.given(job) else {
            return fault;
        };
        let Ok(name) = String::from_str(self.alloc, given.name) else {
            return fault;
        };
        let Ok(text) = format!(in self.alloc; "{name}: {fault}") else {
            return fault;
        };
        self.spool.tell(Notice::Failed(text.as_str()));
        SettlingFault::Spool(SpoolFault::OfFile(FolderFault::Replaced))
    }

    /// Promises this job, on disk.
    fn promise(&mut self, job: usize) -> Result<(), SettlingFault>
        ensures promised { D.discloses → OnOk result ((out : OutJob)
            × IsOut job self.old.digest self.old.spool.files out
            × IsPromised (string_bytes self.old.accounts.station) out
            self.old.accounts.sending self.new.accounts.sending
            (D.asked self.old.accounts.disk) (D.asked self.new.accounts.disk)) }
        ensures spool { self.new.spool ≡ self.old.spool }
    {
        let Some(digest) = self.digest_of(job) else {
            return Err(SettlingFault::Accounts(AccountsFault::Replaced));
        };
        let Some(given) = self.spool.given(job) else {
            return Err(SettlingFault::Accounts(AccountsFault::Replaced));
        };
        self.accounts.promise(digest, &given)
    }

    /// The digest of this job, if it is the one that is next.
    fn digest_of(&self, job: usize) -> Option<JobDigest>
        ensures { IfSome result (λ digest. self.now.digest ≡ Some (job, digest)) }
    {
        match self.digest {
            Some((hashed, digest)) if hashed == job => Some(digest),
            _ => None,
        }
    }

    /// What became of this job.
    pub(crate) fn settle(&mut self, job: usize, what: Disposition) -> Result<(), SettlingFault>
        ensures said { self.old.is_receipt ≡ true
            → what ≡ Disposition.Sent → self.new.connection ≡ after_saying self.old.connection }
        ensures unsaid { self.old.is_receipt ≡ true
            → what ≢ Disposition.Sent → self.new.connection ≡ self.old.connection }
    {
        if self.is_receipt {
            if what == Disposition::Sent {
                self.connection.said();
            }
            return Ok(());
        }
        if what == Disposition::InDoubt {
            self.accounts.forget_filed();
        }
        self.spool.settle(job, what)?;
        if self.promised == Some(job) {
            self.promised = None;
            match what {
                Disposition::Sent => self.accounts.note_filed(),
                Disposition::Ready => self.accounts.take_back()?,
                Disposition::InDoubt => {}
            }
        }
        Ok(())
    }

    /// The job of a file of the last transmission whose last block went out last, if one did.
    pub(crate) fn last_out(&self) -> Option<usize> {
        self.out
    }

    /// Keeps a job that was cut.
    pub(crate) fn keep_cut(&mut self, job: &Job) -> Result<(), SettlingFault> {
        self.spool.keep_cut(job)?;
        Ok(())
    }
}
