//! What a transmission is given of the files in out/.
ghost use Rattle.std.specs.Prelude.{◌≡◌, ◌≢◌, ◌↔◌, ◌||◌, ◌&&◌, [], length, nat_le, nat_lt, true, false, IfOk, IsTrue, OnOk, Some, string_bytes};
ghost use Rattle.std.specs.BTreeMap.{get_by_text};
ghost use Rattle.rje_folder.specs.declared.folder_fault.FolderFault.TheVariants.{BeingWritten, Failed, NoSecondName};
ghost use Rattle.rje_spool.specs.Backed.{GoesOn};
ghost use Rattle.rje_spool.specs.declared.passed_files.Until.TheVariants.{NextLook, Replaced};
ghost use Rattle.rje_spool.specs.GivenFiles.{jobs_of};
ghost use Rattle.rje_spool.specs.Pace.{has_as_much};
ghost use Rattle.rje_spool.specs.Passing.{IsNoRoom};
ghost use Rattle.rje_spool.specs.RefusedFile.{is_want_of_memory as is_want};

use super::SpoolFiles;
use crate::given_files::GivenFiles;
use crate::notice::{Notice, is_named};
use crate::outgoing::{Outgoing, outgoing_of};
use crate::pace::MOST_JOBS;
use crate::passed_files::{Until, is_lasting};
use crate::refused_file::RefusedFile;
use crate::spool_fault::SpoolFault;
use crate::told_names::Told;
use rje_folder::{FileIdentity, FolderDisk, FolderFault, OtherName};
use rje_jobs::{DeckFault, FileFault, Job};
use rje_store::MAX_INPUT;
use std::io::{ErrorKind, Write};
use std::time::Clock;

impl<D: FolderDisk + Drop, C: Clock, W: Write, L: Write> SpoolFiles<D, C, W, L> {
    /// Whether the station sends: one that has stopped does so again after a while, or once doubt/ is empty.
    pub(super) fn may_send(&mut self) -> bool
        ensures sends { nat_le 3 self.old.brake.doubts ≡ false → result ≡ true }
        ensures stopped { result ≡ false → self.new.brake ≡ self.old.brake }
        ensures folder { self.new.folder ≡ self.old.folder }
    {
        if !self.brake.is_on() || self.brake.is_over(self.console.stamps().clock()) {
            return true;
        }
        if self.folder.has_doubts().unwrap_or(true) {
            return false;
        }
        self.brake.release();
        true
    }

    /// Something lies ready. Where the list of names is used up, the folder is read anew.
    pub(super) fn has_ready(&mut self) -> bool
        ensures ready { IsTrue result ↔ (self.new.ready.items ≢ []) }
        ensures rest { self.old.ready.items ≢ [] → self.new.ready ≡ self.old.ready }
        ensures folder { self.new.folder ≡ self.old.folder }
    {
        if self.ready.is_empty() {
            self.ready = self.names_anew();
            self.tell_unreadable();
        }
        !self.ready.is_empty()
    }

    /// The names that lie ready, the last one first, except those that are passed over. None where the folder can't be read.
    fn names_anew(&mut self) -> Vec<String>
        ensures folder { self.new.folder ≡ self.old.folder }
    {
        let mut names = match self.folder.names_ready() {
            Ok(names) => names,
            Err(fault) => {
                self.tell_look(fault);
                return Vec::new(self.alloc);
            }
        };
        self.look = None;
        self.passed.look_again(&self.folder, names.as_slice());
        names.retain(|name| !self.passed.has(name.as_str()));
        names.reverse();
        names
    }

    /// Tells of the names in out/ that are no text, where they are more than was told.
    fn tell_unreadable(&mut self)
        ensures folder { self.new.folder ≡ self.old.folder }
    {
        let count = self.folder.unreadable_names().unwrap_or(self.unreadable);
        if count > self.unreadable {
            if let Ok(text) = format!(in self.alloc; "out: names that are no text: {count}") {
                self.console.tell(Notice::Failed(text.as_str()));
            }
        }
        self.unreadable = count;
    }

    /// Takes the next files that lie ready for a transmission, and gives their jobs. A file that can't be sent is put aside.
    pub(super) fn take_files(&mut self) -> Result<Vec<Job>, SpoolFault>
        ensures numbered { IfOk result (λ jobs.
            jobs_of self.new.given.files.items ≡ length jobs.items) }
        ensures on { D.discloses
            → GoesOn (D.asked self.old.folder.disk) (D.asked self.new.folder.disk) }
        ensures path { self.new.folder.path ≡ self.old.folder.path }
    {
        self.given = GivenFiles::new(self.alloc);
        let mut jobs = Vec::new(self.alloc);
        let mut cards: usize = 0;
        for _ in 0..MOST_JOBS {
            if self.is_enough(jobs.len(), cards) {
                break;
            }
            let Some(name) = self.ready.pop() else {
                break;
            };
            cards = cards.saturating_add(self.take_file(name, &mut jobs)?);
        }
        self.pace
            .begin(self.console.stamps().clock(), jobs.len(), cards);
        self.brake.begin();
        Ok(jobs)
    }

    /// Whether a transmission that has so many jobs, of so many cards, is given no more files: a station that has stopped sending tries one.
    fn is_enough(&self, jobs: usize, cards: usize) -> bool
        ensures { result ≡ (has_as_much self.now.pace.most jobs cards
            || nat_le 3 self.now.brake.doubts && nat_lt 0 jobs) }
    {
        self.pace.is_full(jobs, cards) || self.brake.is_on() && 0 < jobs
    }

    /// Takes this file for a transmission that has these jobs, and adds its own. How many cards they have. A file that can't get a second name is taken
    /// over, or passed over.
    fn take_file(&mut self, name: String, jobs: &mut Vec<Job>) -> Result<usize, SpoolFault>
        ensures numbered { OnOk result (jobs_of self.old.given.files.items ≡ length jobs.old.items
            → jobs_of self.new.given.files.items ≡ length jobs.new.items) }
        ensures on { D.discloses
            → GoesOn (D.asked self.old.folder.disk) (D.asked self.new.folder.disk) }
        ensures path { self.new.folder.path ≡ self.old.folder.path }
    {
        let file = self.folder.identity(name.as_str()).ok();
        let read = match self.folder.read(name.as_str(), MAX_INPUT as u64) {
            Ok(read) => read,
            Err(FolderFault::NoSecondName(ErrorKind::PermissionDenied)) => {
                self.take_over(name, file)?;
                return Ok(0);
            }
            Err(fault) => {
                self.leave(name, file, fault)?;
                return Ok(0);
            }
        };
        self.no_room = None;
        match outgoing_of(self.alloc, name.as_str(), read.bytes.as_slice()) {
            Ok(outgoing) => self.give(name, read.file, outgoing, jobs),
            Err(why) if is_want_of_memory(why) => Err(SpoolFault::OutOfMemory),
            Err(why) => {
                self.refuse(name, read.file, why)?;
                Ok(0)
            }
        }
    }

    /// Leaves a file that can't be read: one that is gone is forgotten, and one that is being written, or for which there is no room, is tried again.
    fn leave(
        &mut self,
        name: String,
        file: Option<FileIdentity>,
        fault: FolderFault,
    ) -> Result<(), SpoolFault>
        // One that is being written is passed over at the next look, and not after that.
        ensures written { OnOk result ((folder : _) → fault ≡ BeingWritten folder
            → get_by_text self.new.passed.files (string_bytes name) ≡ Some NextLook) }
        // So is one for whose second name, or copy, there is no room.
        ensures room { OnOk result ((kind : _) → IsNoRoom kind → fault ≡ NoSecondName kind
            → get_by_text self.new.passed.files (string_bytes name) ≡ Some NextLook) }
        ensures copy { OnOk result ((folder kind : _) → IsNoRoom kind → fault ≡ Failed folder kind
            → get_by_text self.new.passed.files (string_bytes name) ≡ Some NextLook) }
        ensures given { self.new.given ≡ self.old.given }
        ensures on { D.discloses
            → GoesOn (D.asked self.old.folder.disk) (D.asked self.new.folder.disk) }
        ensures path { self.new.folder.path ≡ self.old.folder.path }
    {
        match (fault, file) {
            (FolderFault::OutOfMemory, _) => Err(SpoolFault::OutOfMemory),
            (FolderFault::Failed(_, ErrorKind::NotFound), _) => Ok(()),
            (FolderFault::BeingWritten(_), _) => Ok(self.passed.add(name, Until::NextLook)?),
            (FolderFault::LeftHidden | FolderFault::Numbered, _) => {
                self.tell_why(name.as_str(), &fault);
                Ok(())
            }
            (FolderFault::TooLarge(_), Some(file)) => {
                self.refuse(name, file, RefusedFile::TooLong)
            }
            (FolderFault::NoSecondName(kind), _) if !is_lasting(kind) => self.try_later(
                name, fault,
            ),
            (FolderFault::NotLocked(_), _) => self.try_later(name, fault),
            (FolderFault::Failed(_, ErrorKind::StorageFull | ErrorKind::QuotaExceeded), _) => {
                self.try_later(name, fault)
            }
            (fault, file) => self.pass_over(name, file, &fault),
        }
    }

    /// Passes this file over for one look, as there is no room for a second name or a copy of it now. That is told once until a file is read.
    fn try_later(&mut self, name: String, why: FolderFault) -> Result<(), SpoolFault>
        ensures later { OnOk result (get_by_text self.new.passed.files (string_bytes name)
            ≡ Some NextLook) }
        ensures folder { self.new.folder ≡ self.old.folder }
        ensures given { self.new.given ≡ self.old.given }
    {
        if self.no_room != Some(why) {
            let place = match why {
                FolderFault::NoSecondName(_) => "out: ",
                _ => "",
            };
            if let Ok(text) = format!(in self.alloc; "{place}{why}") {
                self.console.tell(Notice::Failed(text.as_str()));
            }
            self.no_room = Some(why);
        }
        Ok(self.passed.add(name, Until::NextLook)?)
    }

    /// Takes this file over, which can't get a second name, as one of another user can't: a file of the station's own lies ready then, at the next look
    /// at the folder. One that isn't at rest is left for now.
    fn take_over(&mut self, name: String, file: Option<FileIdentity>) -> Result<(), SpoolFault>
        ensures given { self.new.given ≡ self.old.given }
        ensures on { D.discloses
            → GoesOn (D.asked self.old.folder.disk) (D.asked self.new.folder.disk) }
        ensures path { self.new.folder.path ≡ self.old.folder.path }
    {
        let now = self.console.stamps().seconds();
        let taken = self.folder.take_over(name.as_str(), MAX_INPUT as u64, now);
        match taken {
            Ok(path) => {
                self.tell_name_now(name.as_str(), path.as_str());
                Ok(())
            }
            Err(FolderFault::Replaced) => Ok(()),
            Err(fault) => {
                self.hidden.add(self.console.stamps().clock());
                self.leave(name, file, fault)
            }
        }
    }

    /// The jobs of this file are in the transmission. How many cards they have.
    fn give(
        &mut self,
        name: String,
        file: FileIdentity,
        outgoing: Outgoing,
        jobs: &mut Vec<Job>,
    ) -> Result<usize, SpoolFault>
        ensures folder { self.new.folder ≡ self.old.folder }
        ensures numbered { OnOk result (jobs_of self.old.given.files.items ≡ length jobs.old.items
            → jobs_of self.new.given.files.items ≡ length jobs.new.items) }
    {
        let Outgoing {
            jobs: more,
            places,
            labels,
        } = outgoing;
        let cards = cards_of(more.as_slice());
        self.given.add(name, file, more.len(), places, labels)?;
        let mut more = more.into_vec();
        jobs.append(&mut more)?;
        Ok(cards)
    }

    /// Puts a file aside that can't be sent. One that was replaced meanwhile, or that a command has locked, is read again.
    pub(super) fn refuse(
        &mut self,
        name: String,
        file: FileIdentity,
        why: RefusedFile,
    ) -> Result<(), SpoolFault>
        ensures given { self.new.given ≡ self.old.given }
        ensures on { D.discloses
            → GoesOn (D.asked self.old.folder.disk) (D.asked self.new.folder.disk) }
        ensures path { self.new.folder.path ≡ self.old.folder.path }
    {
        match self.put_aside(name.as_str(), file, why) {
            Ok(explained) => {
                self.console.tell(Notice::Refused(name.as_str(), why));
                if let Err(fault) = explained {
                    self.tell_unexplained(name.as_str(), &fault);
                }
                Ok(())
            }
            Err(FolderFault::Replaced | FolderFault::BeingWritten(_)) => {
                Ok(self.passed.add(name, Until::NextLook)?)
            }
            Err(fault) => {
                self.hidden.add(self.console.stamps().clock());
                self.tell_stays(name.as_str(), why, &fault);
                self.passed.add(name, Until::Replaced(Some(file)))?;
                Ok(())
            }
        }
    }

    /// Tells why a file isn't sent that can't be put aside, and why that can't be.
    fn tell_stays(&mut self, name: &str, why: RefusedFile, fault: &FolderFault)
        ensures folder { self.new.folder ≡ self.old.folder }
        ensures given { self.new.given ≡ self.old.given }
    {
        let text = match fault {
            FolderFault::LeftIn(_) => format!(in self.alloc; "{name}: {why}; {fault}"),
            _ => format!(in self.alloc; "{name}: {why}, and it stays in out/: {fault}"),
        };
        if let Ok(text) = text {
            self.tell_name(text.as_str());
        }
    }

    /// Reports that the reason of a file that was put aside couldn't be written beside it.
    fn tell_unexplained(&mut self, name: &str, fault: &FolderFault)
        ensures folder { self.new.folder ≡ self.old.folder }
        ensures given { self.new.given ≡ self.old.given }
    {
        if let Ok(text) = format!(in self.alloc;
            "{name}: why it is refused can't be written: {fault}"
        ) {
            self.tell_name(text.as_str());
        }
    }

    /// Puts a file into refused/, and why beside it. Whether that could be written, where the file is there.
    fn put_aside(
        &mut self,
        name: &str,
        file: FileIdentity,
        why: RefusedFile,
    ) -> Result<Result<(), FolderFault>, FolderFault>
        ensures given { self.new.given ≡ self.old.given }
        ensures on { D.discloses
            → GoesOn (D.asked self.old.folder.disk) (D.asked self.new.folder.disk) }
        ensures path { self.new.folder.path ≡ self.old.folder.path }
    {
        let path = self.folder.refuse(name, file)?;
        Ok(self.explain(path.as_str(), why))
    }

    /// Writes beside a file in refused/ why it is there.
    fn explain(&mut self, path: &str, why: RefusedFile) -> Result<(), FolderFault>
        ensures given { self.new.given ≡ self.old.given }
        ensures on { D.discloses
            → GoesOn (D.asked self.old.folder.disk) (D.asked self.new.folder.disk) }
        ensures path { self.new.folder.path ≡ self.old.folder.path }
    {
        match format!(in self.alloc; "{why}\n") {
            Ok(text) => {
                self.folder.explain(path, text.as_str())?;
                Ok(())
            }
            Err(_) => Err(FolderFault::OutOfMemory),
        }
    }

    /// Leaves this file alone that is of no use, and can't be put aside, until another one has its name.
    fn pass_over(
        &mut self,
        name: String,
        file: Option<FileIdentity>,
        why: &FolderFault,
    ) -> Result<(), SpoolFault>
        ensures passed { OnOk result (get_by_text self.new.passed.files (string_bytes name)
            ≡ Some (Replaced file)) }
        ensures folder { self.new.folder ≡ self.old.folder }
        ensures given { self.new.given ≡ self.old.given }
    {
        self.tell_why(name.as_str(), why);
        self.passed.add(name, Until::Replaced(file))?;
        Ok(())
    }

    /// Tells of the hidden names whose files didn't just get the name back that they had.
    pub(super) fn tell_hidden(&mut self, others: &[OtherName])
        ensures folder { self.new.folder ≡ self.old.folder }
        ensures given { self.new.given ≡ self.old.given }
    {
        for other in others {
            self.tell_other_name(other);
        }
    }

    /// The same of one: that it stays hidden is told once as long as it does, unless it is being written.
    fn tell_other_name(&mut self, other: &OtherName)
        ensures folder { self.new.folder ≡ self.old.folder }
        ensures given { self.new.given ≡ self.old.given }
    {
        let hidden = other.hidden.as_str();
        match &other.path {
            Ok(path) => self.console.tell(Notice::Renamed(hidden, path.as_str())),
            Err(FolderFault::BeingWritten(_) | FolderFault::OutOfMemory) => {}
            Err(_) if self.passed.has(hidden) => {}
            Err(why) => {
                self.console.tell(Notice::StaysHidden(hidden, *why));
                if let Ok(name) = String::from_str(self.alloc, hidden) {
                    let file = self.folder.identity(hidden).ok();
                    let _ = self.passed.add(name, Until::Replaced(file));
                }
            }
        }
    }

    /// Tells that a file of this name has this path now, where that isn't one of its name.
    fn tell_name_now(&mut self, name: &str, path: &str)
        ensures folder { self.new.folder ≡ self.old.folder }
        ensures given { self.new.given ≡ self.old.given }
    {
        if !is_named(path, name) {
            self.console.tell(Notice::Renamed(name, path));
        }
    }

    /// Tells why a file isn't sent now.
    fn tell_why(&mut self, name: &str, why: &FolderFault)
        ensures folder { self.new.folder ≡ self.old.folder }
        ensures given { self.new.given ≡ self.old.given }
        ensures passed { self.new.passed ≡ self.old.passed }
    {
        if let Ok(text) = format!(in self.alloc; "{name}: {why}") {
            self.tell_name(text.as_str());
        }
    }

    /// Tells this of a name in out/, unless as many were told of as are in a minute.
    fn tell_name(&mut self, text: &str)
        ensures folder { self.new.folder ≡ self.old.folder }
        ensures given { self.new.given ≡ self.old.given }
        ensures passed { self.new.passed ≡ self.old.passed }
    {
        match self.told.next(self.console.stamps().clock()) {
            Told::Name => self.console.tell(Notice::Failed(text)),
            Told::NoMore => self.console.tell(Notice::Failed(
                "out: more names are left alone, and not reported for a minute",
            )),
            Told::Nothing => {}
        }
    }

    /// The number of what is kept next, with its time.
    pub(super) fn number_anew(&mut self) -> Result<(), SpoolFault>
        ensures same { string_bytes self.new.stamp ≡ string_bytes self.old.stamp
            → self.new.number ≡ self.old.number }
        ensures other { string_bytes self.new.stamp ≢ string_bytes self.old.stamp
            → self.new.number ≡ 1 }
        ensures folder { self.new.folder ≡ self.old.folder }
    {
        let stamp = self.console.stamps().stamp()?;
        if stamp.as_str() != self.stamp.as_str() {
            self.stamp = stamp;
            self.number = 1;
        }
        Ok(())
    }
}

/// How many cards these jobs have.
fn cards_of(jobs: &[Job]) -> usize {
    jobs.iter()
        .map(|job| job.records.len())
        .fold(0, usize::saturating_add)
}

/// Whether a file isn't sent for want of memory alone.
fn is_want_of_memory(why: RefusedFile) -> bool
    ensures { result ≡ is_want why }
{
    matches!(
        why,
        RefusedFile::OutOfMemory
            | RefusedFile::Deck(DeckFault::OutOfMemory)
            | RefusedFile::File(FileFault::OutOfMemory)
    )
}
