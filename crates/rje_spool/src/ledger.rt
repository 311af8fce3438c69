//! The ledger of a spool.
ghost use Rattle.std.specs.Prelude.{◌≡◌, List, [], ◌∷◌};
ghost use Rattle.rje_session.specs.Ledger.{Entry, Given, MayArrive, Settled, Kept, KeptCut};

use rje_day::Disposition;
use rje_jobs::Job;

/// The ledger of a spool: each call enters what it says. It gives nothing back, so what a spool does is the same with any.
pub trait Ledger {
    /// It discloses what was entered.
    ghost discloses: { Type 0 };

    /// What was entered so far, the newest first.
    ghost entries: { Self → List Entry };

    /// Nothing is entered yet.
    fn new() -> Self
        ensures none { discloses → entries result ≡ [] };

    /// A transmission begins: it is given these jobs.
    fn enter_given(&mut self, jobs: &[Job])
        ensures entered { discloses → entries self.new ≡ Given jobs.now ∷ entries self.old };

    /// From now on this job may have arrived.
    fn enter_out(&mut self, job: usize)
        ensures entered { discloses → entries self.new ≡ MayArrive job ∷ entries self.old };

    /// This became of a job.
    fn enter_settled(&mut self, job: usize, what: Disposition)
        ensures entered { discloses → entries self.new ≡ Settled job what ∷ entries self.old };

    /// A job that came whole is kept.
    fn enter_kept(&mut self, job: &Job)
        ensures entered { discloses → entries self.new ≡ Kept job.now ∷ entries self.old };

    /// A job that was cut is kept.
    fn enter_kept_cut(&mut self, job: &Job)
        ensures entered { discloses → entries self.new ≡ KeptCut job.now ∷ entries self.old };
}

/// No ledger: nothing is written down.
#[derive(Clone, Copy, Debug)]
pub struct NoBook;

impl Ledger for NoBook {
    ghost discloses = { ⊥ };

    ghost entries = { λ _. [] };

    fn new() -> NoBook {
        NoBook
    }

    fn enter_given(&mut self, _jobs: &[Job]) {}

    fn enter_out(&mut self, _job: usize) {}

    fn enter_settled(&mut self, _job: usize, _what: Disposition) {}

    fn enter_kept(&mut self, _job: &Job) {}

    fn enter_kept_cut(&mut self, _job: &Job) {}
}
