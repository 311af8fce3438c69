//! The spool of a station's folder that settles doubt by receipts.
ghost use Rattle.std.specs.Prelude.{◌≡◌};

use crate::settling_fault::SettlingFault;
use crate::settling_files::SettlingFiles;
use crate::station_accounts::StationAccounts;
use rje_day::{Disposition, Inputs};
use rje_folder::FolderDisk;
use rje_jobs::Job;
use rje_session::Spool;
use rje_spool::{FolderSpool, Ledger, NoBook, Notice};
use rje_station::Station;
use std::alloc::Global;
use std::io::Write;
use std::time::Clock;

/// The spool of a station's folder whose partner settles doubt by receipts too. On each connection each end first says how many of the other's jobs it has
/// kept, ever, and their digest; so what may have arrived is told by the other end. What is done is entered in a book.
#[derive(Drop)]
pub struct SettlingSpool<D: FolderDisk + Drop, C, W, L, B: Ledger + Drop = NoBook> {
    files: SettlingFiles<D, C, W, L>,
    book: B,
}

impl<
    D: FolderDisk + Drop,
    C: Clock + Drop,
    W: Write + Drop,
    L: Write + Drop,
    B: Ledger + Drop,
> SettlingSpool<D, C, W, L, B> {
    /// That of this spool of the station's folder of this path, whose accounts are read on this disk. It reports if no receipt came within so many
    /// hearings. Nothing is entered yet.
    pub fn begin(
        alloc: Global,
        station: &str,
        disk: D,
        spool: FolderSpool<D, C, W, L>,
        calls: bool,
        patience: u32,
    ) -> Result<SettlingSpool<D, C, W, L, B>, SettlingFault> {
        let accounts = StationAccounts::new(disk, alloc, station)?;
        let mut files = SettlingFiles::new(alloc, spool, accounts, calls, patience);
        files.begin()?;
        Ok(SettlingSpool {
            files,
            book: B::new(),
        })
    }

    /// Tells the operator this.
    pub fn tell(&mut self, notice: Notice) {
        self.files.tell(notice);
    }

    /// Whether what comes can be kept: after a job that couldn't be, once a file of its length can.
    pub fn can_receive(&mut self) -> bool {
        self.files.can_receive()
    }

    /// A connection begins: the accounts are read anew. Where they can't be it is left.
    pub fn connect(&mut self) {
        self.files.connect();
    }

    /// The connection is over.
    pub fn disconnect(&mut self) {
        self.files.disconnect();
    }

    /// Answers came out of step: all jobs of the last transmission whose last block went out are in doubt, those that were counted too. The next receipt tells
    /// which came.
    pub fn doubt_all(&mut self) -> Result<(), SettlingFault> {
        let Some(last) = self.files.last_out() else {
            return Ok(());
        };
        let mut doubted = Ok(());
        for job in 0..last {
            let settled = self.settle(job, Disposition::InDoubt);
            if doubted.is_ok() {
                doubted = settled;
            }
        }
        let settled = self.settle(last, Disposition::InDoubt);
        if doubted.is_ok() { settled } else { doubted }
    }
}

impl<D: FolderDisk + Drop, C: Clock, W: Write, L: Write, B: Ledger + Drop> Spool
    for SettlingSpool<D, C, W, L, B> {
    type Fault = SettlingFault;

    ghost discloses = { B.discloses };

    ghost ledger = { λ s. B.entries s.book };

    fn seen(&mut self) -> Inputs {
        self.files.seen()
    }

    fn next(&mut self, alloc: Global) -> Result<Vec<Job>, SettlingFault> {
        let jobs = self.files.next(alloc)?;
        self.book.enter_given(jobs.as_slice());
        Ok(jobs)
    }

    fn look_on<'a>(&mut self, station: &Station<'a>) -> bool {
        self.files.look_on(station)
    }

    fn can_hold<'a>(&mut self, station: &Station<'a>) -> bool {
        self.files.can_hold(station)
    }

    fn goes_out(&mut self, job: usize) -> Result<(), SettlingFault> {
        self.files.goes_out(job)?;
        self.book.enter_out(job);
        Ok(())
    }

    fn settle(&mut self, job: usize, what: Disposition) -> Result<(), SettlingFault> {
        self.files.settle(job, what)?;
        self.book.enter_settled(job, what);
        Ok(())
    }

    fn keep(&mut self, job: &Job) -> Result<(), SettlingFault> {
        self.files.keep(job)?;
        self.book.enter_kept(job);
        Ok(())
    }

    fn keep_cut(&mut self, job: &Job) -> Result<(), SettlingFault> {
        self.files.keep_cut(job)?;
        self.book.enter_kept_cut(job);
        Ok(())
    }
}
