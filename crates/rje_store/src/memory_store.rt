//! Files in memory.
ghost use Rattle.std.specs.Prelude.{◌≡◌, ◌≢◌, ◌+◌, ◌≤◌, ◌↔◌, ℕ, List, None, Some, Ok, true, false, length, IfOk, IfErr, OnOk, OnErr, IsOk, IsErrOf, IsOkUnless};
ghost use Rattle.rje_store.specs.Store.{IsSame, Sets, SetsByte, Extends, IsTooLong, HasFewer};
ghost use Rattle.rje_store.specs.MemoryStore.{IsOfMemory, files_of};

use crate::reading::MAX_INPUT;
use crate::store::{Store, StoreFault, WriteMode, grown_bytes};
use std::alloc::Global;
use std::collections::BTreeMap;

/// Files in memory. It discloses its files, and fails only as it must.
#[derive(Drop)]
pub struct MemoryStore {
    alloc: Global,
    files: BTreeMap<String, Vec<u8>>,
}

impl MemoryStore {
    /// No files yet. Takes no memory.
    pub fn new(alloc: Global) -> Self
        ensures { (name : List ℕ) → files_of result name ≡ None }
    {
        MemoryStore {
            alloc,
            files: BTreeMap::new(alloc),
        }
    }
}

impl Store for MemoryStore {
    ghost files = { λ store. Some (files_of store) };

    fn lock(&mut self, _alloc: Global, _name: &str) -> Result<(), StoreFault>
        ensures locks { IsOk result }
        ensures same { IsSame (files_of self.old) (files_of self.new) }
    {
        Ok(())
    }

    fn read(&mut self, alloc: Global, name: &str) -> Result<Vec<u8>, StoreFault>
        ensures has { IfOk result (λ bytes. files_of self.old name.now ≡ Some bytes.items) }
        ensures limit { IfOk result (λ bytes. length bytes.items ≤ MAX_INPUT) }
        ensures missing { IsErrOf result StoreFault.Missing ↔ files_of self.old name.now ≡ None }
        ensures long { IsErrOf result StoreFault.TooLong ↔ IsTooLong (files_of self.old name.now) }
        ensures fault { IfErr result IsOfMemory }
        ensures same { IsSame (files_of self.old) (files_of self.new) }
    {
        match self.files.get(name) {
            Some(bytes) if bytes.len() <= MAX_INPUT => {
                Vec::from_slice(alloc, bytes.as_slice()).map_err(|_| StoreFault::OutOfMemory)
            }
            Some(_) => Err(StoreFault::TooLong),
            None => Err(StoreFault::Missing),
        }
    }

    fn write(&mut self, name: &str, bytes: &[u8]) -> Result<(), StoreFault>
        ensures sets { OnOk result (Sets name.now bytes.now (files_of self.old)
            (files_of self.new)) }
        ensures memory { IsOkUnless result StoreFault.OutOfMemory }
        ensures same { OnErr result (IsSame (files_of self.old) (files_of self.new)) }
    {
        let Ok(bytes) = Vec::from_slice(self.alloc, bytes) else {
            return Err(StoreFault::OutOfMemory);
        };
        let Ok(name) = String::from_str(self.alloc, name) else {
            return Err(StoreFault::OutOfMemory);
        };
        match self.files.insert(name, bytes) {
            Ok(_) => Ok(()),
            Err(_) => Err(StoreFault::OutOfMemory),
        }
    }

    fn look(&mut self, _name: &str) -> Result<WriteMode, StoreFault>
        ensures grows { result ≡ Ok WriteMode.Growing }
        ensures same { IsSame (files_of self.old) (files_of self.new) }
    {
        Ok(WriteMode::Growing)
    }

    fn is_one_file(&mut self, _alloc: Global, one: &str, other: &str) -> Result<bool, StoreFault>
        ensures same_name { IfOk result (λ is_one. is_one ≡ true ↔ one.now ≡ other.now) }
        ensures two { IfOk result (λ is_one. is_one ≡ false → one.now ≢ other.now) }
        ensures never { OnErr result ⊥ }
        ensures same { IsSame (files_of self.old) (files_of self.new) }
    {
        Ok(one == other)
    }

    fn extend(
        &mut self,
        alloc: Global,
        name: &str,
        front: &[u8],
        tail: &[u8],
    ) -> Result<(), StoreFault>
        ensures extends { OnOk result (Extends name.now front.now tail.now (files_of self.old)
            (files_of self.new)) }
        ensures missing { IsErrOf result StoreFault.Missing ↔ files_of self.old name.now ≡ None }
        ensures short { IsErrOf result StoreFault.TooShort
            ↔ HasFewer (length front.now) (files_of self.old name.now) }
        ensures fault { IfErr result IsOfMemory }
        ensures same { OnErr result (IsSame (files_of self.old) (files_of self.new)) }
    {
        let Some(bytes) = self.files.get(name) else {
            return Err(StoreFault::Missing);
        };
        let longer = grown_bytes(alloc, bytes.as_slice(), front, tail)?;
        self.write(name, longer.as_slice())
    }

    fn set_byte(
        &mut self,
        _alloc: Global,
        name: &str,
        place: usize,
        byte: u8,
    ) -> Result<(), StoreFault>
        ensures sets { OnOk result (SetsByte name.now place byte (files_of self.old)
            (files_of self.new)) }
        ensures missing { IsErrOf result StoreFault.Missing ↔ files_of self.old name.now ≡ None }
        ensures short { IsErrOf result StoreFault.TooShort
            ↔ HasFewer (place + 1) (files_of self.old name.now) }
        ensures fault { IfErr result IsOfMemory }
        ensures memory { ¬ (IsErrOf result StoreFault.OutOfMemory) }
        ensures same { OnErr result (IsSame (files_of self.old) (files_of self.new)) }
    {
        let Some(bytes) = self.files.get_mut(name) else {
            return Err(StoreFault::Missing);
        };
        if bytes.len() <= place {
            return Err(StoreFault::TooShort);
        }
        bytes[place] = byte;
        Ok(())
    }
}
