//! The files of a station's spool, and its console.
ghost use Rattle.std.specs.Prelude.{◌≡◌, length, true, false, IfOk};
ghost use Rattle.rje_spool.specs.Backed.{GoesOn};
ghost use Rattle.rje_spool.specs.GivenFiles.{jobs_of};

mod filing;
mod giving;
mod keeping;
mod settling;

use crate::brake::Brake;
use crate::console::Console;
use crate::cut_job::CutJob;
use crate::due_paper::DuePaper;
use crate::given_files::GivenFiles;
use crate::hidden_files::HiddenFiles;
use crate::notice::Notice;
use crate::pace::Pace;
use crate::passed_files::PassedFiles;
use crate::spool_fault::SpoolFault;
use crate::told_names::ToldNames;
use crate::unkept::Unkept;
use crate::watching::Watching;
use rje_day::Inputs;
use rje_folder::{FolderDisk, FolderFault, StationFolder};
use rje_jobs::Job;
use rje_session::Totals;
use rje_station::Station;
use std::alloc::Global;
use std::io::Write;
use std::time::Clock;

/// The files of a station's spool: what lies in out/ goes to sent/, doubt/ or refused/, and what comes goes to in/, print/, punch/ and cut/. The
/// operator is told on a console.
#[derive(Drop)]
pub(crate) struct SpoolFiles<D: FolderDisk + Drop, C, W, L> {
    alloc: Global,
    folder: StationFolder<D>,
    console: Console<C, W, L>,
    // The names that lie ready as far as is known, the last one first.
    ready: Vec<String>,
    // The files that are of no use to the station for now.
    passed: PassedFiles,
    // Those that may have a hidden name.
    hidden: HiddenFiles,
    // How many names that are no text the operator was told of.
    unreadable: usize,
    // The files of the transmission that was begun last.
    given: GivenFiles,
    // How much a transmission is given.
    pace: Pace,
    // Whether the station sends.
    brake: Brake,
    // The time of what was kept last, and the number that comes next with it.
    stamp: String,
    number: u32,
    // The paper that is still to be made of the job that was kept last, and that job's path.
    due: Option<(String, DuePaper)>,
    watching: Watching,
    // How much has come of the transmission in hand.
    tally: Totals,
    // The job that was cut last.
    cut: Option<CutJob>,
    // What couldn't be kept.
    unkept: Unkept,
    // Why the folder couldn't be read last, as it was reported.
    look: Option<FolderFault>,
    // Whether the other end's receipts tell what may have arrived.
    settles: bool,
    // How many names that are left alone were reported lately.
    told: ToldNames,
    // Why there was no room for a second name or a copy of a file last, as it was told, since one was read.
    no_room: Option<FolderFault>,
}

impl<D: FolderDisk + Drop, C: Clock, W: Write, L: Write> SpoolFiles<D, C, W, L> {
    /// Those of this folder, with this console.
    pub(crate) fn new(
        alloc: Global,
        folder: StationFolder<D>,
        console: Console<C, W, L>,
    ) -> SpoolFiles<D, C, W, L>
        ensures folder { result.folder ≡ folder }
    {
        SpoolFiles {
            alloc,
            folder,
            console,
            ready: Vec::new(alloc),
            passed: PassedFiles::new(alloc),
            hidden: HiddenFiles::new(alloc),
            unreadable: 0,
            given: GivenFiles::new(alloc),
            pace: Pace::new(),
            brake: Brake::new(),
            stamp: String::new(alloc),
            number: 1,
            due: None,
            watching: Watching::new(),
            tally: Totals::after_file(0),
            cut: None,
            unkept: Unkept::new(),
            look: None,
            settles: false,
            told: ToldNames::new(),
            no_room: None,
        }
    }

    /// Tells the operator this.
    pub(crate) fn tell(&mut self, notice: Notice)
        ensures folder { self.new.folder ≡ self.old.folder }
    {
        self.console.tell(notice);
    }

    /// What lies ready, and what the operator asks for.
    pub(crate) fn seen(&mut self) -> Inputs
        ensures held { result.held ≡ true → result.ready ≡ false }
        ensures call { result.call_due ≡ false }
        ensures line { result.line_wanted ≡ false }
        ensures folder { self.new.folder ≡ self.old.folder }
    {
        let held = self.is_held();
        Inputs {
            ready: !held && self.may_send() && self.has_ready(),
            held,
            drained: self.folder.is_drained().unwrap_or(false),
            call_due: false,
            line_wanted: false,
        }
    }

    /// Gives the files of out/ their names back that have hidden ones, if it is time to.
    pub(crate) fn finish_hidden(&mut self)
        ensures on { D.discloses
            → GoesOn (D.asked self.old.folder.disk) (D.asked self.new.folder.disk) }
        ensures path { self.new.folder.path ≡ self.old.folder.path }
    {
        if !self.hidden.tries(self.console.stamps().clock()) {
            return;
        }
        let now = self.console.stamps().seconds();
        // (a folder that can't be read is reported by the look that comes next)
        if let Ok(finished) = self.folder.finish_taking_over(self.hidden.last(), now) {
            self.tell_hidden(finished.others.as_slice());
            self.hidden.left(finished.is_left, finished.last);
        }
    }

    /// Whether nothing is to be sent. What can't be read is taken for held.
    fn is_held(&mut self) -> bool
        ensures folder { self.new.folder ≡ self.old.folder }
    {
        match self.folder.is_held() {
            Ok(held) => held,
            Err(fault) => {
                self.tell_look(fault);
                true
            }
        }
    }

    /// Reports why the folder can't be read, once as long as it can't for that reason.
    fn tell_look(&mut self, why: FolderFault)
        ensures folder { self.new.folder ≡ self.old.folder }
    {
        if self.look == Some(why) {
            return;
        }
        if let Ok(text) = format!(in self.alloc; "{why}") {
            self.console.tell(Notice::Failed(text.as_str()));
        }
        self.look = Some(why);
    }

    /// The jobs of the next transmission: those of the first files that lie ready.
    pub(crate) fn next(&mut self) -> Result<Vec<Job>, SpoolFault>
        ensures numbered { IfOk result (λ jobs.
            jobs_of self.new.given.files.items ≡ length jobs.items) }
        ensures on { D.discloses
            → GoesOn (D.asked self.old.folder.disk) (D.asked self.new.folder.disk) }
        ensures path { self.new.folder.path ≡ self.old.folder.path }
    {
        self.watching = Watching::new();
        self.take_files()
    }

    /// A turn of this station is next. Whether its transmission goes on.
    pub(crate) fn look_on<'a>(&mut self, station: &Station<'a>) -> bool
        ensures folder { self.new.folder ≡ self.old.folder }
    {
        self.watching
            .look_on(station, &self.given, &mut self.console);
        self.has_room(station.receiver().jobs())
    }
}
