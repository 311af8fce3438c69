//! The files that the program reads and writes by name.
ghost use Rattle.std.specs.Prelude.{◌≡◌, ◌≢◌, ℕ, ◌<◌, ◌≤◌, ◌↔◌, ◌++◌, ◌⊎◌, List, Option, length, IfOk, IfErr, IfSome, IsErrOf, IsOkUnless, OnOk, OnErr, false};
ghost use Rattle.std.specs.IoError.{error_kind};
ghost use Rattle.rje_files.specs.Growth.{grown};
ghost use Rattle.rje_store.specs.declared.store.StoreFault.TheVariants.{OutOfMemory, TooShort};
ghost use Rattle.rje_store.specs.Store.{FileMap, Discloses, IsSame, Sets, SetsByte, Extends, Has, IsMissing, of_error};

use crate::reading::MAX_INPUT;
use std::alloc::{AllocError, Global};
use std::io::{self, ErrorKind};
use thiserror::Error;

/// Why a file isn't read or written.
#[derive(Clone, Copy, Debug, PartialEq, Eq, Error)]
pub enum StoreFault {
    /// There is no memory for it.
    #[error("out of memory")]
    OutOfMemory,
    /// There is no such file to read.
    #[error("no such file")]
    Missing,
    /// Another process has it to change it.
    #[error("in use")]
    InUse,
    /// It is written, but the disk may not have it. Only a store that discloses no files fails so.
    #[error("written, but the disk may not have it")]
    Unsynced,
    /// It has more than `MAX_INPUT` bytes, or would have.
    #[error("too long")]
    TooLong,
    /// It has fewer bytes than are to be changed.
    #[error("too short")]
    TooShort,
    /// The system fails so. Only a store that discloses no files does.
    #[error("{0}")]
    Failed(ErrorKind),
}

impl From<io::Error> for StoreFault {
    ghost from_gives = { λ error fault. fault ≡ of_error (error_kind error) };

    fn from(error: io::Error) -> StoreFault {
        match error.kind() {
            ErrorKind::OutOfMemory => StoreFault::OutOfMemory,
            ErrorKind::NotFound => StoreFault::Missing,
            kind => StoreFault::Failed(kind),
        }
    }
}

impl From<AllocError> for StoreFault {
    ghost from_gives = { λ _ fault. fault ≡ OutOfMemory };

    fn from(_error: AllocError) -> StoreFault {
        StoreFault::OutOfMemory
    }
}

/// How a file can be written.
#[derive(Clone, Copy, Debug, PartialEq, Eq)]
pub enum WriteMode {
    /// It can grow, and is whole at every moment.
    Growing,
    /// It is written once, as a device or a pipe is.
    Once,
}

/// Files by name. A store that discloses its files is known to keep them; one that discloses none may return anything.
pub trait Store {
    /// The files, where the store discloses them.
    ghost files: { Self → Option FileMap };

    /// The store has the file of this name for itself: nobody else changes it.
    ghost holds: { Self → List ℕ → Type 0 } = { λ _ _. Unit {0} };

    /// Has the file of this name, which may be there or not, for this store alone, as long as it lives. In use where another process has it;
    /// missing where there can't be such a file. A store may fail at any time; one in memory has all its files for itself.
    fn lock(&mut self, alloc: Global, name: &str) -> Result<(), StoreFault>
        ensures held { OnOk result (holds self.new name.now) }
        ensures same { Discloses (files self.old) (files self.new) IsSame };

    /// The bytes of a file that the store has for itself, and which are the file's until the store changes them.
    fn read_held(&mut self, alloc: Global, name: &str) -> Result<Vec<u8>, StoreFault>
        requires held { holds self.old name.now }
        ensures has { IfOk result (λ bytes. Has (files self.old) name.now bytes.items) }
        ensures limit { IfOk result (λ bytes. length bytes.items ≤ MAX_INPUT) }
        ensures missing { IsErrOf result StoreFault.Missing → IsMissing (files self.old) name.now }
        ensures still { (other : List ℕ) → holds self.old other → holds self.new other }
        ensures same { Discloses (files self.old) (files self.new) IsSame }
    {
        self.read(alloc, name)
    }

    /// The bytes of a file, which has at most 16,777,216. A store may fail at any time.
    fn read(&mut self, alloc: Global, name: &str) -> Result<Vec<u8>, StoreFault>
        ensures has { IfOk result (λ bytes. Has (files self.old) name.now bytes.items) }
        ensures limit { IfOk result (λ bytes. length bytes.items ≤ MAX_INPUT) }
        ensures missing { IsErrOf result StoreFault.Missing → IsMissing (files self.old) name.now }
        ensures still { (other : List ℕ) → holds self.old other → holds self.new other }
        ensures same { Discloses (files self.old) (files self.new) IsSame };

    /// Makes these bytes the file of this name, in place of what it had. A store may fail at any time.
    fn write(&mut self, name: &str, bytes: &[u8]) -> Result<(), StoreFault>
        ensures sets { OnOk result (Discloses (files self.old) (files self.new)
            (Sets name.now bytes.now)) }
        ensures same { OnErr result (Discloses (files self.old) (files self.new) IsSame) };

    /// Looks how a file of this name can be written, if it can, and changes none. A store that discloses its files lets them grow. A store
    /// may fail at any time.
    fn look(&mut self, _name: &str) -> Result<WriteMode, StoreFault>
        ensures grows { IfSome (files self.old) (λ _. IfOk result (λ place.
            place ≡ WriteMode.Growing)) }
        ensures same { Discloses (files self.old) (files self.new) IsSame }
    {
        Ok(WriteMode::Growing)
    }

    /// Whether two names are of one file. A store may fail at any time.
    fn is_one_file(&mut self, _alloc: Global, one: &str, other: &str) -> Result<bool, StoreFault>
        ensures two { IfOk result (λ is_one. is_one ≡ false → one.now ≢ other.now) }
        ensures same { Discloses (files self.old) (files self.new) IsSame }
    {
        Ok(one == other)
    }

    /// Makes the file of this name begin with one piece, in place of as many bytes, and go on after its end with another: all of it or
    /// nothing. A store may fail at any time, and does where there is no such file, or one with fewer bytes than the piece in front.
    fn extend(
        &mut self,
        alloc: Global,
        name: &str,
        front: &[u8],
        tail: &[u8],
    ) -> Result<(), StoreFault>
        ensures extends { OnOk result (Discloses (files self.old) (files self.new)
            (Extends name.now front.now tail.now)) }
        ensures same { OnErr result (Discloses (files self.old) (files self.new) IsSame) }
    {
        let bytes = self.read(alloc, name)?;
        let longer = grown_bytes(alloc, bytes.as_slice(), front, tail)?;
        self.write(name, longer.as_slice())
    }

    /// Makes the byte at this place of the file of this name this one, and leaves all else of it: or it changes nothing. A store may fail at
    /// any time, and does where there is no such byte.
    fn set_byte(
        &mut self,
        alloc: Global,
        name: &str,
        place: usize,
        byte: u8,
    ) -> Result<(), StoreFault>
        ensures sets { OnOk result (Discloses (files self.old) (files self.new)
            (SetsByte name.now place byte)) }
        ensures same { OnErr result (Discloses (files self.old) (files self.new) IsSame) }
    {
        let mut bytes = self.read(alloc, name)?;
        if bytes.len() <= place {
            return Err(StoreFault::TooShort);
        }
        bytes[place] = byte;
        self.write(name, bytes.as_slice())
    }

    /// Gives up what the store holds for the growth of a file. The file stays.
    fn settle(&mut self)
        ensures same { Discloses (files self.old) (files self.new) IsSame }
    {}
}

/// These bytes with one piece in front, in place of as many, and another at the end. Too short where they are fewer than the piece in front.
pub fn grown_bytes(
    alloc: Global,
    bytes: &[u8],
    front: &[u8],
    tail: &[u8],
) -> Result<Vec<u8>, StoreFault>
    ensures grown { IfOk result (λ longer. longer.items ≡ grown front.now tail.now bytes.now) }
    ensures room { IfOk result (λ _. length front.now ≤ length bytes.now) }
    ensures short { IsErrOf result StoreFault.TooShort ↔ length bytes.now < length front.now }
    ensures fault { IfErr result (λ fault. (fault ≡ OutOfMemory) ⊎ (fault ≡ TooShort)) }
{
    let Some((_, rest)) = bytes.split_at_checked(front.len()) else {
        return Err(StoreFault::TooShort);
    };
    let mut longer = Vec::new(alloc);
    append(front, &mut longer)?;
    append(rest, &mut longer)?;
    append(tail, &mut longer)?;
    Ok(longer)
}

fn append(piece: &[u8], bytes: &mut Vec<u8>) -> Result<(), StoreFault>
    ensures appends { OnOk result (bytes.new.items ≡ bytes.old.items ++ piece.now) }
    ensures memory { IsOkUnless result StoreFault.OutOfMemory }
{
    match bytes.extend_from_slice(piece) {
        Ok(()) => Ok(()),
        Err(_) => Err(StoreFault::OutOfMemory),
    }
}
