//! A spool in memory.
ghost use Rattle.std.specs.Prelude.{◌≡◌, [], ⊤};

use arrayvec::ArrayVec;
use rje_day::{Disposition, Inputs};
use rje_jobs::Job;
use rje_session::Spool;
use rje_station::Station;
use std::alloc::Global;
use std::mem;

/// What was entered.
#[derive(Clone, Copy, Debug, Default, PartialEq, Eq)]
pub(super) enum Note {
    #[default]
    Given,
    MayArrive(usize),
    Settled(usize, Disposition),
    Kept,
    KeptCut,
}

/// A spool that gives some jobs once, and notes what is entered.
#[derive(Drop)]
pub(super) struct Book {
    jobs: Vec<Job>,
    held: bool,
    /// After so many looks it is drained.
    looks: u32,
    /// The call of this number fails, from 1; none where it is 0.
    failing: u32,
    calls: u32,
    notes: ArrayVec<Note, 16>,
    /// So many turns go on.
    turns: u32,
    /// Nothing that comes can be held.
    full: bool,
}

/// Why the spool failed.
#[derive(Debug, Drop)]
pub(super) struct Broken;

impl Book {
    pub(super) fn new(jobs: Vec<Job>, looks: u32, failing: u32) -> Book {
        Book {
            jobs,
            held: false,
            looks,
            failing,
            calls: 0,
            notes: ArrayVec::new(),
            turns: u32::MAX,
            full: false,
        }
    }

    /// The operator holds back what lies ready.
    pub(super) fn hold(&mut self) {
        self.held = true;
    }

    /// The turn after so many doesn't go on.
    pub(super) fn leave_after(&mut self, turns: u32) {
        self.turns = turns;
    }

    /// Nothing that comes can be held.
    pub(super) fn fill(&mut self) {
        self.full = true;
    }

    /// What was entered, the oldest first.
    pub(super) fn notes(&self) -> &[Note] {
        self.notes.as_slice()
    }

    fn enter(&mut self, note: Note) -> Result<(), Broken> {
        self.calls = self.calls.saturating_add(1);
        if self.calls == self.failing {
            return Err(Broken);
        }
        let _ = self.notes.try_push(note);
        Ok(())
    }
}

impl Spool for Book {
    type Fault = Broken;

    ghost discloses = { ⊥ };

    ghost ledger = { λ _. [] };

    fn seen(&mut self) -> Inputs {
        let drained = self.looks == 0;
        self.looks = self.looks.saturating_sub(1);
        Inputs {
            ready: !self.jobs.is_empty(),
            held: self.held,
            drained,
            call_due: false,
            line_wanted: false,
        }
    }

    fn next(&mut self, alloc: Global) -> Result<Vec<Job>, Broken> {
        self.enter(Note::Given)?;
        Ok(mem::replace(&mut self.jobs, Vec::new(alloc)))
    }

    fn look_on<'a>(&mut self, _station: &Station<'a>) -> bool {
        let goes_on = self.turns > 0;
        self.turns = self.turns.saturating_sub(1);
        goes_on
    }

    fn can_hold<'a>(&mut self, station: &Station<'a>) -> bool {
        !self.full || station.receiver().jobs().is_empty()
    }

    fn goes_out(&mut self, job: usize) -> Result<(), Broken> {
        self.enter(Note::MayArrive(job))
    }

    fn settle(&mut self, job: usize, what: Disposition) -> Result<(), Broken> {
        self.enter(Note::Settled(job, what))
    }

    fn keep(&mut self, _job: &Job) -> Result<(), Broken> {
        self.enter(Note::Kept)
    }

    fn keep_cut(&mut self, _job: &Job) -> Result<(), Broken> {
        self.enter(Note::KeptCut)
    }
}
