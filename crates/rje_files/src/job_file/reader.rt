//! A place in a job file, moved on byte by byte, and past data at once.
ghost use Rattle.std.specs.Prelude.{◌≡◌, ℕ, ◌∷◌, [], List, ◌+◌, ◌*◌, ◌^◌, ◌-◌, ◌<◌, ◌≤◌, true, false, IfSome, IfNone};
ghost use Rattle.rje_files.specs.Inside.Reading.Grammar.{Records, AfterMode, Entries, is_action_byte, version_read};
ghost use Rattle.rje_files.specs.Entry.{may_stand};
ghost use Rattle.rje_files.specs.Inside.Reading.Reader.{Expects, Rest, IsSound, IsStep, IsSkip, data_due_in};

use super::HEAD;
use super::name::may_stand;
use super::version::FileVersion;
use rje_text::{Action, MAX_RECORD};

/// What comes next in a job file. Of a number, a name or data so many bytes are left; a number's bytes so far make a value,
/// and a name has ended or not.
#[derive(Clone, Copy)]
pub(crate) enum Due {
    Head(usize),
    Version,
    JobCount(usize, u64),
    Name(usize, bool),
    State,
    Select,
    Mode,
    Whole,
    RecordCount(usize, u64),
    Action,
    Length,
    Data(usize),
    Nothing,
}

/// A place in a job file: what comes next, and how many jobs, and records of the job in hand, come after it. The version is the newest that is
/// read, and after the version's bytes the file's.
#[derive(Clone, Copy)]
pub(crate) struct Reader {
    due: Due,
    version: FileVersion,
    jobs: u64,
    records: u64,
}

impl Reader {
    /// At the front of a file of this version or an older one.
    pub(super) fn new(newest: FileVersion) -> Reader
        ensures due { result.due ≡ Due.Head 0 }
        ensures newest { result.version ≡ newest }
    {
        Reader {
            due: Due::Head(0),
            version: newest,
            jobs: 0,
            records: 0,
        }
    }

    /// Whether the file is at its end.
    pub(super) fn is_done(&self) -> bool
        requires { IsSound self.now }
        ensures done { result ≡ true → Expects self.now [] }
        ensures more { result ≡ false → Expects self.now [] → ⊥ }
    {
        match self.due {
            Due::Nothing => true,
            Due::Head(_) => false,
            Due::Version => false,
            Due::JobCount(_, _) => false,
            Due::Name(_, _) => false,
            Due::State => false,
            Due::Select => false,
            Due::Mode => false,
            Due::Whole => false,
            Due::RecordCount(_, _) => false,
            Due::Action => false,
            Due::Length => false,
            Due::Data(_) => false,
        }
    }

    /// After the byte, if it may come.
    pub(super) fn step(&self, byte: u8) -> Option<Reader>
        requires { IsSound self.now }
        ensures step { IfSome result (λ next. IsStep self.now byte next) }
        ensures refused { IfNone result ((xs : List ℕ) → Expects self.now (byte ∷ xs) → ⊥) }
    {
        match self.due {
            Due::Head(place) => self.after_head(place, byte),
            Due::JobCount(left, so_far) => Some(self.after_job_count(left, so_far, byte)),
            Due::Version => self.after_version(byte),
            Due::Name(left, ended) => self.after_name(left, ended, byte),
            Due::State => if byte < 4 {
                Some(self.at(Due::Select))
            } else {
                None
            },
            Due::Select => if byte < 3 {
                Some(self.at(Due::Mode))
            } else {
                None
            },
            Due::Mode => if byte < 2 {
                Some(self.after_mode())
            } else {
                None
            },
            Due::Whole => if byte < 2 {
                Some(self.at(Due::RecordCount(8, 0)))
            } else {
                None
            },
            Due::RecordCount(left, so_far) => Some(self.after_record_count(left, so_far, byte)),
            Due::Action => if is_action(byte) {
                Some(self.at(Due::Length))
            } else {
                None
            },
            Due::Length => self.after_length(byte),
            Due::Data(left) => Some(if left == 1 {
                next_record(self.version, self.jobs, self.records)
            } else {
                self.at(Due::Data(left - 1))
            }),
            Due::Nothing => None,
        }
    }

    /// How many data bytes are due.
    pub(super) fn data_due(&self) -> usize
        ensures { result ≡ data_due_in self.now }
    {
        match self.due {
            Due::Data(left) => left,
            _ => 0,
        }
    }

    /// After `count` of the data bytes that are due.
    pub(super) fn behind_data(&self, count: usize) -> Reader
        requires some { 0 < count }
        requires within { count ≤ data_due_in self.now }
        ensures { IsSkip self.now count result }
    {
        let left = self.data_due() - count;
        if left == 0 {
            next_record(self.version, self.jobs, self.records)
        } else {
            self.at(Due::Data(left))
        }
    }

    fn after_head(&self, place: usize, byte: u8) -> Option<Reader>
        requires due { self.now.due ≡ Due.Head place }
        requires place { place < 5 }
        ensures step { IfSome result (λ next. IsStep self.now byte next) }
        ensures refused { IfNone result ((xs : List ℕ) → Expects self.now (byte ∷ xs) → ⊥) }
    {
        if byte != HEAD[place] {
            None
        } else if place == 4 {
            Some(self.at(Due::Version))
        } else {
            Some(self.at(Due::Head(place + 1)))
        }
    }

    fn after_version(&self, byte: u8) -> Option<Reader>
        requires { self.now.due ≡ Due.Version }
        ensures step { IfSome result (λ next. IsStep self.now byte next) }
        ensures refused { IfNone result ((xs : List ℕ) → Expects self.now (byte ∷ xs) → ⊥) }
    {
        match version_at(self.version, byte) {
            Some(version) => Some(Reader {
                due: Due::JobCount(8, 0),
                version,
                ..*self
            }),
            None => None,
        }
    }

    fn after_name(&self, left: usize, ended: bool, byte: u8) -> Option<Reader>
        requires due { self.now.due ≡ Due.Name left ended }
        requires sound { IsSound self.now }
        ensures step { IfSome result (λ next. IsStep self.now byte next) }
        ensures refused { IfNone result ((xs : List ℕ) → Expects self.now (byte ∷ xs) → ⊥) }
    {
        if !may_stand(ended, byte) {
            None
        } else if left == 1 {
            Some(self.at(Due::State))
        } else {
            Some(self.at(Due::Name(left - 1, byte == b' ')))
        }
    }

    /// After a mode: whether the job is whole, in the first version.
    fn after_mode(&self) -> Reader
        ensures sound { IsSound result }
        ensures there { (xs : List ℕ)
            → AfterMode self.now.version (Rest self.now.version self.now.jobs) xs
            → Expects result xs }
        ensures back { (xs : List ℕ) → Expects result xs
            → AfterMode self.now.version (Rest self.now.version self.now.jobs) xs }
    {
        match self.version {
            FileVersion::First => self.at(Due::Whole),
            FileVersion::Second => self.at(Due::RecordCount(8, 0)),
        }
    }

    fn after_job_count(&self, left: usize, so_far: u64, byte: u8) -> Reader
        requires due { self.now.due ≡ Due.JobCount left so_far }
        requires sound { IsSound self.now }
        ensures { IsStep self.now byte result }
    {
        let number = with_byte(so_far, left, byte);
        if left == 1 {
            next_record(self.version, number, 0)
        } else {
            self.at(Due::JobCount(left - 1, number))
        }
    }

    fn after_record_count(&self, left: usize, so_far: u64, byte: u8) -> Reader
        requires due { self.now.due ≡ Due.RecordCount left so_far }
        requires sound { IsSound self.now }
        ensures { IsStep self.now byte result }
    {
        let number = with_byte(so_far, left, byte);
        if left == 1 {
            next_record(self.version, self.jobs, number)
        } else {
            self.at(Due::RecordCount(left - 1, number))
        }
    }

    fn after_length(&self, byte: u8) -> Option<Reader>
        requires { self.now.due ≡ Due.Length }
        ensures step { IfSome result (λ next. IsStep self.now byte next) }
        ensures refused { IfNone result ((xs : List ℕ) → Expects self.now (byte ∷ xs) → ⊥) }
    {
        if byte == 0 {
            Some(next_record(self.version, self.jobs, self.records))
        } else if byte as usize <= MAX_RECORD {
            Some(self.at(Due::Data(byte as usize)))
        } else {
            None
        }
    }

    fn at(&self, due: Due) -> Reader
        ensures { result ≡ record self.now { due = due } }
    {
        Reader { due, ..*self }
    }
}

/// At the next record, or the next job, or the end.
fn next_record(version: FileVersion, jobs: u64, records: u64) -> Reader
    ensures sound { IsSound result }
    ensures there { (xs : List ℕ) → Records records (Entries version jobs) xs → Expects result xs }
    ensures back { (xs : List ℕ) → Expects result xs → Records records (Entries version jobs) xs }
{
    if records > 0 {
        Reader {
            due: Due::Action,
            version,
            jobs,
            records: records - 1,
        }
    } else if jobs > 0 {
        Reader {
            due: first_due(version),
            version,
            jobs: jobs - 1,
            records: 0,
        }
    } else {
        Reader {
            due: Due::Nothing,
            version,
            jobs: 0,
            records: 0,
        }
    }
}

/// An entry's first field.
fn first_due(version: FileVersion) -> Due
    ensures first { version ≡ FileVersion.First → result ≡ Due.Select }
    ensures second { version ≡ FileVersion.Second → result ≡ Due.Name 8 false }
{
    match version {
        FileVersion::First => Due::Select,
        FileVersion::Second => Due::Name(8, false),
    }
}

/// The version of this byte, if it is read.
fn version_at(newest: FileVersion, byte: u8) -> Option<FileVersion>
    ensures { result ≡ version_read newest byte }
{
    match newest {
        FileVersion::First => if byte == 1 {
            Some(FileVersion::First)
        } else {
            None
        },
        FileVersion::Second => if byte == 1 {
            Some(FileVersion::First)
        } else if byte == 2 {
            Some(FileVersion::Second)
        } else {
            None
        },
    }
}

/// A number of which `left` bytes are missing, with one byte more.
fn with_byte(so_far: u64, left: usize, byte: u8) -> u64
    requires more { 0 < left }
    requires left { left ≤ 8 }
    requires fits { so_far < 256 ^ (8 - left) }
    ensures value { result ≡ so_far * 256 + byte }
    ensures bound { result < 256 ^ (8 - (left - 1)) }
{
    so_far * 256 + byte as u64
}

/// Whether this is the byte of an action.
fn is_action(byte: u8) -> bool
    ensures { result ≡ is_action_byte byte }
{
    byte == 0 || Action::of(byte).is_some()
}
