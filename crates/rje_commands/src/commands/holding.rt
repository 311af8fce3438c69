//! Files that a command has for itself, from before they are read until they were last written.
ghost use Rattle.std.specs.Prelude.{◌≡◌, IfOk, IfErr, OnOk, option_map};
ghost use Rattle.rje_commands.specs.Commands.{OfFile, IsThere};
ghost use Rattle.rje_commands.specs.NamedFile.{IsHoldFault, IsReadFault, IsWriteFault};
ghost use Rattle.rje_store.specs.Store.{Discloses, IsSame};

use crate::command_fault::CommandFault;
use crate::commands::inputs::not_read;
use crate::commands::output::not_written;
use rje_store::{Store, StoreFault};
use std::alloc::Global;

/// A file that the command has for itself, with its bytes as they were read then. Nobody else changes it, as long as the store lives.
#[derive(Drop)]
pub struct HeldFile<'a> {
    name: &'a str,
    bytes: Vec<u8>,
}

impl<'a> HeldFile<'a> {
    /// Has the file of this name for the command alone, and reads it.
    pub fn take<S: Store>(
        alloc: Global,
        name: &'a str,
        store: &mut S,
    ) -> Result<HeldFile<'a>, CommandFault<'a>>
        ensures name { IfOk result (λ held. held.name.now ≡ name.entry.now) }
        ensures file { IfOk result (λ held.
            OfFile name.entry.now (S.files store.old) (λ file. held.bytes.items ≡ file)) }
        ensures fault { IfErr result (IsHoldFault name.entry.now) }
        ensures same { Discloses (S.files store.old) (S.files store.new) IsSame }
    {
        match store.lock(alloc, name) {
            Ok(()) => {}
            Err(StoreFault::Missing) => return Err(not_read(name, StoreFault::Missing)),
            Err(fault) => return Err(not_written(name, fault)),
        }
        match store.read_held(alloc, name) {
            Ok(bytes) => Ok(HeldFile { name, bytes }),
            Err(fault) => Err(not_read(name, fault)),
        }
    }

    /// Its bytes.
    pub fn bytes(&self) -> &[u8]
        ensures { result.now ≡ self.now.bytes.items }
    {
        self.bytes.as_slice()
    }

    /// Its name.
    pub fn name(&self) -> &'a str
        ensures { result ≡ self.now.name }
    {
        self.name
    }

    /// Its bytes, given away.
    pub fn into_bytes(self) -> Vec<u8>
        ensures { result ≡ self.entry.bytes }
    {
        self.bytes
    }
}

/// Has the file of this name, which may be there or not, for the command alone.
pub fn lock_file<'a, S: Store>(
    alloc: Global,
    name: &'a str,
    store: &mut S,
) -> Result<(), CommandFault<'a>>
    ensures held { OnOk result (S.holds store.new name.entry.now) }
    ensures fault { IfErr result (IsWriteFault name.entry.now) }
    ensures same { Discloses (S.files store.old) (S.files store.new) IsSame }
{
    match store.lock(alloc, name) {
        Ok(()) => Ok(()),
        // There can't be such a file: whoever looks how it can be written finds out why.
        Err(StoreFault::Missing) => {
            let fault = store.look(name).err().unwrap_or(StoreFault::Missing);
            Err(not_written(name, fault))
        }
        Err(fault) => Err(not_written(name, fault)),
    }
}

/// The bytes of a file that the command has for itself, and none where there is no such file.
pub fn read_if_there<'a, S: Store>(
    alloc: Global,
    name: &'a str,
    store: &mut S,
) -> Result<Option<Vec<u8>>, CommandFault<'a>>
    requires held { S.holds store.old name.now }
    ensures file { IfOk result (λ found.
        IsThere name.entry.now (S.files store.old) (option_map (λ bytes. bytes.items) found)) }
    ensures fault { IfErr result (IsReadFault name.entry.now) }
    ensures held { S.holds store.new name.entry.now }
    ensures same { Discloses (S.files store.old) (S.files store.new) IsSame }
{
    match store.read_held(alloc, name) {
        Ok(bytes) => Ok(Some(bytes)),
        Err(StoreFault::Missing) => Ok(None),
        Err(fault) => Err(not_read(name, fault)),
    }
}
