//! Where a station's jobs come from and go to.
ghost use Rattle.std.specs.Prelude.{◌≡◌, List, ◌∷◌, IfOk, OnErr};
ghost use Rattle.rje_jobs.specs.declared.job.Job.{Job as Item};
ghost use Rattle.rje_session.specs.Ledger.{Entry, Given, MayArrive, Settled, Kept, KeptCut, IsEntered, MayBeEntered};

use rje_day::{Disposition, Inputs};
use rje_jobs::Job;
use rje_station::Station;
use std::alloc::Global;

/// Where a station's jobs come from and go to. What becomes of each is entered in its ledger. Each call may fail at any time, and what one
/// that failed was to enter may be entered or not.
pub trait Spool {
    /// Why it failed.
    type Fault: Drop;

    /// The spool discloses its ledger.
    ghost discloses: { Type 0 };

    /// What was entered so far, the newest first.
    ghost ledger: { Self → List Entry };

    /// What lies ready, and what the operator asks for. Whether it is time to call isn't asked here.
    fn seen(&mut self) -> Inputs
        ensures none { discloses → ledger self.new ≡ ledger self.old };

    /// The jobs of the next transmission: those of the first files that lie ready.
    fn next(&mut self, alloc: Global) -> Result<Vec<Job>, Self::Fault>
        ensures given { discloses → IfOk result (λ jobs.
            ledger self.new ≡ Given jobs.items ∷ ledger self.old) }
        ensures failed { discloses → OnErr result ((jobs : List Item)
            × MayBeEntered (Given jobs) (ledger self.old) (ledger self.new)) };

    /// A turn of the transmission of this station is next: for whoever looks on. Whether it goes on: else the connection is left.
    fn look_on<'a>(&mut self, station: &Station<'a>) -> bool
        ensures none { discloses → ledger self.new ≡ ledger self.old };

    /// Something came that is neither kept nor answered yet. Whether it can be held: else it isn't answered, and the connection is left, as where
    /// more came than can be kept.
    fn can_hold<'a>(&mut self, station: &Station<'a>) -> bool
        ensures none { discloses → ledger self.new ≡ ledger self.old };

    /// The last block of this job goes out next: from now on it may have arrived. On disk when it returns.
    fn goes_out(&mut self, job: usize) -> Result<(), Self::Fault>
        ensures { discloses → IsEntered result (MayArrive job) (ledger self.old) (ledger self.new) };

    /// What became of this job.
    fn settle(&mut self, job: usize, what: Disposition) -> Result<(), Self::Fault>
        ensures { discloses
            → IsEntered result (Settled job what) (ledger self.old) (ledger self.new) };

    /// Keeps a job that came whole. On disk when it returns.
    fn keep(&mut self, job: &Job) -> Result<(), Self::Fault>
        ensures { discloses → IsEntered result (Kept job.now) (ledger self.old) (ledger self.new) };

    /// Keeps a job that was cut when its transmission ended. On disk when it returns.
    fn keep_cut(&mut self, job: &Job) -> Result<(), Self::Fault>
        ensures { discloses
            → IsEntered result (KeptCut job.now) (ledger self.old) (ledger self.new) };
}
