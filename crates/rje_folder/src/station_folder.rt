//! The folder of a station.
ghost use Rattle.std.specs.Prelude.{◌≡◌, ◌⊎◌, ◌≤◌, length, true, IfOk, IsErrOf, None, OnOk, Some, string_bytes};
ghost use Rattle.rje_store.specs.Disk.{has_synced_name};
ghost use Rattle.rje_store.specs.Replacing.{Adds, IsOnDisk};
ghost use Rattle.rje_folder.specs.FileNames.{IsBetween, IsBetweenFrom, IsNumbered};
ghost use Rattle.rje_folder.specs.Folder.{path_in, path_of, why_path};
ghost use Rattle.rje_folder.specs.Keeping.{HasTriedToKeep, LeavesNone, MayKeep, MayTryToKeep, WasMade, WasNamed};
ghost use Rattle.rje_folder.specs.Marking.{IsMarked, IsSaid, MayMark, WasSaid};
ghost use Rattle.rje_folder.specs.Moving.{IsGone, IsMoved, IsSecond, MayMove};
ghost use Rattle.rje_folder.specs.Promising.{IsSent, IsSettled, MayDropCut, MayOpen, MayPromise, MayPutAside, MaySettle, WasOnDisk};
ghost use Rattle.rje_folder.specs.Reading.{IsLongerThan, IsReadOf, MayRead, OfSecond, WasLocked};
ghost use Rattle.rje_folder.specs.ReadyFile.{AreInOrder};
ghost use Rattle.rje_folder.specs.TakingOver.{IsTakenOver, MayFinish, MayTakeOver};
ghost use Rattle.rje_folder.specs.Trying.{IsLockedAs};
ghost use Rattle.rje_folder.specs.declared.folder_fault.FolderFault.TheVariants.{TooLarge};
ghost use Rattle.rje_folder.specs.declared.settled.OutName.TheVariants.{TakenAway};

use crate::file_identity::FileIdentity;
use crate::finishing::{Finished, finish_some};
use crate::folder::Folder;
use crate::folder_disk::FolderDisk;
use crate::folder_fault::FolderFault;
use crate::keeping::Kept;
use crate::marking::set_mark;
use crate::moving::is_this_file;
use crate::opening::{
    clear_up, is_there, locked, make_folders, names_of, names_ready, tidy_up, unreadable_names,
};
use crate::probing::try_to_keep;
use crate::promising::{promise, put_in_doubt, settle};
use crate::reading::{FileRead, identity, read_ready};
use crate::receiving::{drop_cut, explain, keep_in, refuse};
use crate::settled::Settled;
use crate::taking_over::take_over;
use crate::trying::AddedName;
use rje_day::Disposition;
use std::alloc::Global;

/// The folder of a station, which has it for itself.
#[derive(Drop)]
pub struct StationFolder<D: FolderDisk + Drop> {
    disk: D,
    alloc: Global,
    path: String,
    // Locked as long as it is open.
    lock: D::File,
    // The file that was promised last and isn't settled yet, locked as long as it is open: no command changes it, or puts another in its place.
    promised: Option<D::File>,
}

impl<D: FolderDisk + Drop> StationFolder<D> {
    /// Has the folder of this path for this station, with its folders on disk, and with what was begun there brought to its end, except hidden names
    /// (`finish_taking_over`). In use where another station has it.
    pub fn open(disk: D, alloc: Global, path: &str) -> Result<StationFolder<D>, FolderFault>
        ensures asks { D.discloses → IfOk result (λ station.
            Adds (MayOpen D.are_one path.now) (D.asked disk) (D.asked station.disk)) }
        // The names of its folders, which are in one folder.
        ensures on_disk { D.discloses → IfOk result (λ station.
            WasOnDisk (path_of path.now Folder.Out) (D.asked station.disk)) }
    {
        let mut disk = disk;
        make_folders(&mut disk, alloc, path)?;
        let lock = locked(&mut disk, alloc, path)?;
        clear_up(&mut disk, alloc, path)?;
        tidy_up(&mut disk, alloc, path)?;
        Ok(StationFolder {
            disk,
            alloc,
            path: String::from_str(alloc, path)?,
            lock,
            promised: None,
        })
    }

    /// The names in out/ of what lies ready, in the order of their bytes: those that aren't left alone, and whose file has no name in sent/,
    /// doubt/ or refused/.
    pub fn names_ready(&self) -> Result<Vec<String>, FolderFault>
        ensures { IfOk result (λ names. AreInOrder names.items) }
    {
        names_ready(&self.disk, self.alloc, self.path.as_str()).map_err(|error| FolderFault::of(
            Folder::Out,
            &error,
        ))
    }

    /// How many names in out/ are no text: their files are left alone.
    pub fn unreadable_names(&self) -> Result<usize, FolderFault> {
        unreadable_names(&self.disk, self.alloc, self.path.as_str()).map_err(
            |error| FolderFault::of(Folder::Out, &error),
        )
    }

    /// Which file has this name in out/.
    pub fn identity(&self, name: &str) -> Result<FileIdentity, FolderFault>
        ensures { IfOk result (D.is_file (D.asked self.now.disk)
            (path_in (string_bytes self.now.path) Folder.Out name.now)) }
    {
        identity(&self.disk, self.alloc, self.path.as_str(), name).map_err(|error| FolderFault::of(
            Folder::Out,
            &error,
        ))
    }

    /// All bytes of a file in out/, and which file it is. Too large where it has more than `most`; being written where it was written to meanwhile, or where
    /// a command has it locked; without a second name where it can't get one, as it has to before its last block is said.
    pub fn read(&mut self, name: &str, most: u64) -> Result<FileRead, FolderFault>
        ensures asks { D.discloses → Adds (MayRead (string_bytes self.old.path) name.now)
            (D.asked self.old.disk) (D.asked self.new.disk) }
        // It is read by a second name, which nobody else can give to another file.
        ensures all { D.discloses → IfOk result (λ read.
            OfSecond (string_bytes self.old.path) name.now
            (D.asked self.old.disk) (D.asked self.new.disk) (λ second. IsReadOf D.opened
            D.File.remaining (D.is_open (D.asked self.new.disk)) second read)) }
        // It is the file that stands under the name itself, as the disk said.
        ensures named { IfOk result (λ read. D.is_file (D.asked self.new.disk)
            (path_in (string_bytes self.old.path) Folder.Out name.now) read.file) }
        ensures free { IfOk result (WasLocked D.is_locked (D.is_open (D.asked self.new.disk))) }
        ensures limit { IfOk result (λ read. length read.bytes.items ≤ most) }
        ensures long { D.discloses → IsErrOf result (TooLarge Folder.Out)
            → OfSecond (string_bytes self.old.path) name.now
            (D.asked self.old.disk) (D.asked self.new.disk)
            (λ second. IsLongerThan D.opened D.File.remaining second most) }
        ensures path { self.new.path ≡ self.old.path }
    {
        read_ready(&mut self.disk, self.alloc, self.path.as_str(), name, most)
    }

    /// Whether the operator holds back what lies ready: a file `hold` is there.
    pub fn is_held(&self) -> Result<bool, FolderFault> {
        is_there(&self.disk, self.alloc, self.path.as_str(), "hold")
    }

    /// Whether the operator drains the station: a file `drain` is there.
    pub fn is_drained(&self) -> Result<bool, FolderFault> {
        is_there(&self.disk, self.alloc, self.path.as_str(), "drain")
    }

    /// Takes a file of out/ over that can't get a second name, as one of another user can't, and that is at rest at this time, in seconds since 1970; with
    /// none, at any (`FileIdentity::is_at_rest`); else it is being written. A copy of the station's own, of at most so many bytes,
    /// comes in its place. The path that it has then: of its name, or that with a number if another file has it meanwhile. Replaced if the file itself
    /// is another one meanwhile, which lies ready, and numbered if that has a number now. If a step fails, or the file is written to, it stays under its name, or under a hidden one until
    /// `finish_taking_over` gives it back.
    pub fn take_over(
        &mut self,
        name: &str,
        most: u64,
        now: Option<i64>,
    ) -> Result<String, FolderFault>
        ensures asks { D.discloses → Adds
            (MayTakeOver D.opened D.File.remaining D.is_open D.is_file D.are_one
            (string_bytes self.old.path) name.now)
            (D.asked self.old.disk) (D.asked self.new.disk) }
        ensures taken { D.discloses → IfOk result (λ path.
            IsTakenOver D.opened D.File.remaining D.is_open
            (path_in (string_bytes self.old.path) Folder.Out name.now) (string_bytes path)
            (D.asked self.old.disk) (D.asked self.new.disk)) }
        ensures named { IfOk result (λ path. IsNumbered
            (path_in (string_bytes self.old.path) Folder.Out name.now) (string_bytes path)) }
        ensures path { self.new.path ≡ self.old.path }
    {
        take_over(
            &mut self.disk,
            self.alloc,
            self.path.as_str(),
            name,
            most,
            now,
        )
    }

    /// Gives some of those files of out/ their names back that have a hidden one, as they were being taken over, those of other users if they are at rest
    /// at this time: eight at most, the first whose hidden names come after this one, and where these are fewer the first of all. So by as many calls as
    /// there are eights of them, each with the last name of the one before, each of them is tried.
    pub fn finish_taking_over(
        &mut self,
        last: &str,
        now: Option<i64>,
    ) -> Result<Finished, FolderFault>
        ensures asks { D.discloses → Adds (MayFinish D.opened D.File.remaining D.is_open D.is_file
            D.are_one (string_bytes self.old.path)) (D.asked self.old.disk) (D.asked self.new.disk) }
        ensures path { self.new.path ≡ self.old.path }
    {
        finish_some(&mut self.disk, self.alloc, self.path.as_str(), last, now)
    }

    /// Whether a new file of so many bytes can be kept in a folder, as far as a trial shows: one of zeros is made there under a name that is left alone,
    /// put on disk, and taken away again, whatever came of it. An invalid input where it is more than 32 MiB.
    pub fn try_to_keep(&mut self, folder: Folder, len: u64) -> Result<(), FolderFault>
        ensures asks { D.discloses → Adds
            (MayTryToKeep (path_of (string_bytes self.old.path) folder))
            (D.asked self.old.disk) (D.asked self.new.disk) }
        ensures tried { D.discloses → OnOk result
            (HasTriedToKeep (path_of (string_bytes self.old.path) folder) len
            (D.asked self.new.disk)) }
        ensures gone { D.discloses → LeavesNone (D.asked self.old.disk) (D.asked self.new.disk) }
        ensures path { self.new.path ≡ self.old.path }
    {
        try_to_keep(&mut self.disk, self.alloc, self.path.as_str(), folder, len).map_err(
            |error| FolderFault::of(folder, &error),
        )
    }

    /// Whether doubt/ has a file.
    pub fn has_doubts(&self) -> Result<bool, FolderFault> {
        let names = names_of(&self.disk, self.alloc, self.path.as_str(), Folder::Doubt)?;
        Ok(!names.is_empty())
    }

    /// Before the last block of the job of this file in out/ is said: the file gets a second name, in doubt/, on disk, and is locked until it is settled. That
    /// name's path. Replaced where another file has its name in out/, or it was written to, and being written where a command has it locked: then it has
    /// no second name, if that could be taken away again.
    pub fn promise(&mut self, name: &str, file: FileIdentity) -> Result<String, FolderFault>
        ensures asks { D.discloses → Adds
            (MayPromise D.is_file D.are_one (string_bytes self.old.path)
            (record { name = name.now; file = file }))
            (D.asked self.old.disk) (D.asked self.new.disk) }
        ensures second { D.discloses → IfOk result (λ doubt. IsSecond
            (path_in (string_bytes self.old.path) Folder.Out name.now) (string_bytes doubt)
            (D.asked self.old.disk) (D.asked self.new.disk)) }
        // The disk said that this file stands under that name.
        ensures file { IfOk result (λ doubt.
            D.is_file (D.asked self.new.disk) (string_bytes doubt) file) }
        ensures named { IfOk result (λ doubt. IsNumbered
            (path_in (string_bytes self.old.path) Folder.Doubt name.now) (string_bytes doubt)) }
        ensures locked { D.discloses → OnOk result ((lock : _) × (self.new.promised ≡ Some lock)
            × IsLockedAs D.is_locked D.is_open lock file (D.asked self.new.disk)) }
        ensures path { self.new.path ≡ self.old.path }
    {
        let AddedName { path, lock } = promise(
            &mut self.disk,
            self.alloc,
            self.path.as_str(),
            name,
            file,
        )?;
        self.promised = Some(lock);
        Ok(path)
    }

    /// Whether this file has this path, and wasn't written to.
    pub fn has_file(&self, path: &str, file: FileIdentity) -> Result<bool, FolderFault>
        ensures { IfOk result (λ has. has ≡ true
            → D.is_file (D.asked self.now.disk) path.now file) }
    {
        is_this_file(&self.disk, path, file).map_err(|error| FolderFault::of(Folder::Doubt, &error))
    }

    /// Once a job of a job file is counted that isn't the file's last: writes this byte at this place of this file, which has this path in doubt/.
    /// It is on disk then. Which file it is now. Replaced where another one has the path, or it was written to by others; an invalid input where
    /// it has no byte there.
    pub fn mark(
        &mut self,
        doubt: &str,
        place: u64,
        mark: u8,
        file: FileIdentity,
    ) -> Result<FileIdentity, FolderFault>
        ensures asks { D.discloses → Adds (MayMark doubt.now place mark)
            (D.asked self.old.disk) (D.asked self.new.disk) }
        ensures marked { D.discloses → OnOk result (IsMarked doubt.now place mark
            (D.asked self.old.disk) (D.asked self.new.disk)) }
        // The disk said that the file was this one, and which it is once the byte is on disk.
        ensures same { D.discloses → OnOk result (WasSaid D.opened D.is_open doubt.now file
            (D.asked self.new.disk)) }
        ensures renewed { D.discloses → IfOk result
            (IsSaid D.opened (D.is_open (D.asked self.new.disk)) doubt.now) }
        ensures in_doubt { D.discloses → has_synced_name doubt.now (D.asked self.old.disk) ≡ true
            → has_synced_name doubt.now (D.asked self.new.disk) ≡ true }
        ensures rest { self.new ≡ record self.old { disk = self.new.disk } }
    {
        match set_mark(&mut self.disk, doubt, place, mark, file) {
            Ok(Some(marked)) => Ok(marked),
            Ok(None) => Err(FolderFault::Replaced),
            Err(error) => Err(FolderFault::of(Folder::Doubt, &error)),
        }
    }

    /// Once it is known what becomes of a job that was promised, whose file has this name in out/ and this path in doubt/: it is in sent/, in
    /// doubt/ or in out/ alone, but where its name in out/ can't be taken away. Where it stands then.
    pub fn settle(
        &mut self,
        name: &str,
        doubt: &str,
        disposition: Disposition,
    ) -> Result<Settled, FolderFault>
        ensures asks { D.discloses → Adds
            (MaySettle D.are_one (string_bytes self.old.path) name.now doubt.now disposition)
            (D.asked self.old.disk) (D.asked self.new.disk) }
        ensures sent { D.discloses → disposition ≡ Disposition.Sent → IfOk result (λ settled.
            IsSent (string_bytes self.old.path) name.now doubt.now (string_bytes settled.path)
            (D.asked self.old.disk) (D.asked self.new.disk)) }
        ensures in_doubt { D.discloses → disposition ≡ Disposition.InDoubt
            → has_synced_name doubt.now (D.asked self.old.disk) ≡ true
            → has_synced_name doubt.now (D.asked self.new.disk) ≡ true }
        ensures ready { D.discloses → disposition ≡ Disposition.Ready → IfOk result (λ settled.
            (string_bytes settled.path ≡ doubt.now) ⊎ IsGone doubt.now (D.asked self.new.disk)) }
        ensures out { D.discloses → IfOk result (λ settled. settled.out ≡ TakenAway
            → IsGone (path_in (string_bytes self.old.path) Folder.Out name.now)
            (D.asked self.new.disk)) }
        ensures settled { IfOk result (λ settled. IsSettled disposition
            (string_bytes self.old.path) name.now doubt.now (string_bytes settled.path)) }
        ensures rest { self.new ≡ record self.old { disk = self.new.disk; promised = None } }
    {
        let settled = settle(
            &mut self.disk,
            self.alloc,
            self.path.as_str(),
            name,
            doubt,
            disposition,
        );
        self.promised = None;
        settled.map_err(|error| FolderFault::of(Folder::Doubt, &error))
    }

    /// What was counted may not have arrived after all: the file of this path in sent/, whose name in out/ was this, is moved to doubt/. Its path
    /// there.
    pub fn doubt(&mut self, sent: &str, name: &str) -> Result<String, FolderFault>
        ensures asks { D.discloses → Adds (MayMove D.are_one sent.now
            (IsNumbered (path_in (string_bytes self.old.path) Folder.Doubt name.now)))
            (D.asked self.old.disk) (D.asked self.new.disk) }
        ensures moved { D.discloses → IfOk result (λ doubt. IsMoved sent.now (string_bytes doubt)
            (D.asked self.old.disk) (D.asked self.new.disk)) }
        ensures named { IfOk result (λ doubt. IsNumbered
            (path_in (string_bytes self.old.path) Folder.Doubt name.now) (string_bytes doubt)) }
        ensures path { self.new.path ≡ self.old.path }
    {
        put_in_doubt(&mut self.disk, self.alloc, self.path.as_str(), sent, name).map_err(
            |error| FolderFault::of(Folder::Doubt, &error),
        )
    }

    /// Puts this file of out/, which can't be sent, into refused/. The path that it has there. Replaced where another file has its name, which stays.
    pub fn refuse(&mut self, name: &str, file: FileIdentity) -> Result<String, FolderFault>
        ensures asks { D.discloses → Adds
            (MayPutAside D.is_file D.are_one (string_bytes self.old.path)
            (record { name = name.now; file = file }))
            (D.asked self.old.disk) (D.asked self.new.disk) }
        ensures moved { D.discloses → IfOk result (λ refused. IsMoved
            (path_in (string_bytes self.old.path) Folder.Out name.now) (string_bytes refused)
            (D.asked self.old.disk) (D.asked self.new.disk)) }
        // The disk had said that this file stands under the name in out/.
        ensures file { OnOk result (D.is_file (D.asked self.old.disk)
            (path_in (string_bytes self.old.path) Folder.Out name.now) file) }
        ensures path { self.new.path ≡ self.old.path }
    {
        refuse(&mut self.disk, self.alloc, self.path.as_str(), name, file)
    }

    /// Says in a file beside a file of refused/, of this path, why it is refused: PATH.why. Its path. It is on disk then, and so is its name.
    pub fn explain(&mut self, refused: &str, why: &str) -> Result<String, FolderFault>
        ensures asks { D.discloses → Adds
            (MayKeep (path_of (string_bytes self.old.path) Folder.Refused)
            (IsNumbered (why_path refused.now)) why.now)
            (D.asked self.old.disk) (D.asked self.new.disk) }
        ensures on_disk { D.discloses → IfOk result (λ path.
            IsOnDisk (string_bytes path) why.now (D.asked self.new.disk)) }
        ensures named { IfOk result (λ path.
            IsNumbered (why_path refused.now) (string_bytes path)) }
        ensures path { self.new.path ≡ self.old.path }
    {
        explain(&mut self.disk, self.alloc, self.path.as_str(), refused, why).map_err(
            |error| FolderFault::of(Folder::Refused, &error),
        )
    }

    /// Makes these bytes a new file of a folder: STAMP-N, from this number on the first that no file has, with this ending. Its path, and the number
    /// that comes after the one it has. It is on disk then, and so is its name.
    pub fn keep(
        &mut self,
        folder: Folder,
        stamp: &str,
        first: u32,
        ending: &str,
        bytes: &[u8],
    ) -> Result<Kept, FolderFault>
        ensures asks { D.discloses → Adds
            (MayKeep (path_of (string_bytes self.old.path) folder)
            (IsBetween (path_in (string_bytes self.old.path) folder stamp.now) ending.now)
            bytes.now) (D.asked self.old.disk) (D.asked self.new.disk) }
        ensures on_disk { D.discloses → IfOk result (λ kept.
            IsOnDisk (string_bytes kept.path) bytes.now (D.asked self.new.disk)) }
        ensures made { D.discloses → IfOk result (λ kept. WasMade
            (string_bytes kept.path) (D.asked self.old.disk) (D.asked self.new.disk)) }
        ensures named_new { D.discloses → IfOk result (λ kept. WasNamed
            (string_bytes kept.path) (D.asked self.old.disk) (D.asked self.new.disk)) }
        ensures named { IfOk result (λ kept. IsBetweenFrom
            (path_in (string_bytes self.old.path) folder stamp.now) ending.now first kept.next
            (string_bytes kept.path)) }
        ensures path { self.new.path ≡ self.old.path }
    {
        keep_in(
            &mut self.disk,
            self.alloc,
            self.path.as_str(),
            folder,
            stamp,
            first,
            ending,
            bytes,
        )
        .map_err(|error| FolderFault::of(folder, &error))
    }

    /// Which file has this path in a folder of the station.
    pub fn identity_at(&self, path: &str) -> Result<FileIdentity, FolderFault>
        ensures { IfOk result (D.is_file (D.asked self.now.disk) path.now) }
    {
        let found = self.disk.identity(path);
        found.map_err(|error| FolderFault::of(Folder::Cut, &error))
    }

    /// Takes this file of cut/ away, which has this path. Replaced where it is another one, which stays.
    pub fn drop_cut(&mut self, path: &str, file: FileIdentity) -> Result<(), FolderFault>
        ensures asks { D.discloses → Adds (MayDropCut D.is_file path.now file)
            (D.asked self.old.disk) (D.asked self.new.disk) }
        ensures path { self.new.path ≡ self.old.path }
    {
        match drop_cut(&mut self.disk, path, file) {
            Ok(true) => Ok(()),
            Ok(false) => Err(FolderFault::Replaced),
            Err(error) => Err(FolderFault::of(Folder::Cut, &error)),
        }
    }

    /// Lets the folder go, and gives back the disk.
    pub fn close(self) -> D
        ensures { result ≡ self.disk }
    {
        let StationFolder {
            disk,
            alloc: _,
            path: _,
            lock: _,
            promised: _,
        } = self;
        disk
    }
}
