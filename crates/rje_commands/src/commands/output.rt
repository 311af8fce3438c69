//! What a command gives: to its output, and to a file.
ghost use Rattle.std.specs.Prelude.{◌≡◌, ◌≢◌, ◌≤◌, ◌+◌, length, IfOk, IfSome, OnOk, OnErr, IfErr, true};
ghost use Rattle.std.specs.List.{flat_map};
ghost use Rattle.rje_files.specs.Growth.{grown};
ghost use Rattle.rje_commands.specs.NamedFile.{IsWriteFault, IsWriteFaultOf};
ghost use Rattle.rje_commands.specs.CommandFault.{is_of_output};
ghost use Rattle.rje_store.specs.Store.{Discloses, Extends, IsSame, Sets, SetsByte};
ghost use Rattle.std.specs.Io.KnownBytes.{Appends};

use crate::command_fault::CommandFault;
use crate::write_cause::WriteCause;
use rje_files::Growth;
use rje_print::PrintedLine;
use rje_store::{MAX_INPUT, Store, StoreFault, WriteMode, grown_bytes};
use std::alloc::Global;
use std::io::Write;

/// Prints a text in one piece.
pub fn put<'a, O: Write>(text: &[u8], out: &mut O) -> Result<(), CommandFault<'a>>
    ensures text { OnOk result (Appends (O.contents out.old) (O.contents out.new) text.now) }
    ensures fault { IfErr result (λ fault. is_of_output fault ≡ true) }
{
    match out.write_all(text) {
        Ok(()) => Ok(()),
        Err(error) => Err(CommandFault::of_output(&error)),
    }
}

/// Prints lines, one after another.
pub fn put_lines<'a, O: Write>(lines: &[PrintedLine], out: &mut O) -> Result<(), CommandFault<'a>>
    ensures text { OnOk result (Appends (O.contents out.old) (O.contents out.new)
        (flat_map (λ line. line.items) lines.now)) }
    ensures fault { IfErr result (λ fault. is_of_output fault ≡ true) }
{
    for line in lines {
        put(line.as_slice(), out)?;
    }
    Ok(())
}

/// Makes these bytes the file of this name, where they are no more than are read of a file.
pub fn write_file<'a, S: Store>(
    name: &'a str,
    bytes: &[u8],
    store: &mut S,
) -> Result<(), CommandFault<'a>>
    ensures sets { OnOk result (Discloses (S.files store.old) (S.files store.new)
        (Sets name.entry.now bytes.now)) }
    ensures limit { OnOk result (length bytes.now ≤ MAX_INPUT) }
    ensures fault { IfErr result (IsWriteFault name.entry.now) }
    ensures same { OnErr result (Discloses (S.files store.old) (S.files store.new) IsSame) }
{
    if MAX_INPUT < bytes.len() {
        return Err(not_written(name, StoreFault::TooLong));
    }
    match store.write(name, bytes) {
        Ok(()) => Ok(()),
        Err(fault) => Err(not_written(name, fault)),
    }
}

/// Makes these bytes with a growth the file of this name, where they are no more than are read of a file. Returns how many they are.
pub fn write_grown<'a, S: Store>(
    alloc: Global,
    name: &'a str,
    bytes: &[u8],
    growth: &Growth,
    store: &mut S,
) -> Result<usize, CommandFault<'a>>
    ensures sets { OnOk result (Discloses (S.files store.old) (S.files store.new)
        (Sets name.entry.now (grown growth.now.front.items growth.now.tail.items bytes.now))) }
    ensures length { IfOk result (λ long. (long ≡ length (grown growth.now.front.items
        growth.now.tail.items bytes.now)) × (long ≤ MAX_INPUT)) }
    ensures fault { IfErr result (IsWriteFault name.entry.now) }
    ensures same { OnErr result (Discloses (S.files store.old) (S.files store.new) IsSame) }
{
    match grown_bytes(
        alloc,
        bytes,
        growth.front.as_slice(),
        growth.tail.as_slice(),
    ) {
        Ok(longer) => {
            write_file(name, longer.as_slice(), store)?;
            Ok(longer.len())
        }
        Err(fault) => Err(not_written(name, fault)),
    }
}

/// Looks how a file of this name can be written, before there is anything to write.
pub fn look_at_file<'a, S: Store>(
    name: &'a str,
    store: &mut S,
) -> Result<WriteMode, CommandFault<'a>>
    ensures grows { IfSome (S.files store.old) (λ _. IfOk result (λ place.
        place ≡ WriteMode.Growing)) }
    ensures fault { IfErr result (IsWriteFault name.entry.now) }
    ensures same { Discloses (S.files store.old) (S.files store.new) IsSame }
{
    match store.look(name) {
        Ok(place) => Ok(place),
        Err(fault) => Err(not_written(name, fault)),
    }
}

/// Looks whether the file of this name can be another one than that which is sent, of another name.
pub fn look_beside<'a, S: Store>(
    alloc: Global,
    other: &str,
    name: &'a str,
    store: &mut S,
) -> Result<(), CommandFault<'a>>
    ensures two { OnOk result (other.now ≢ name.entry.now) }
    ensures fault { IfErr result (IsWriteFault name.entry.now) }
    ensures same { Discloses (S.files store.old) (S.files store.new) IsSame }
{
    look_apart(alloc, other, name, WriteCause::IsSent, store)
}

/// Looks whether the file of this name can be another one than that of another name: where it is the same, it can't be written for this cause.
pub(super) fn look_apart<'a, S: Store>(
    alloc: Global,
    other: &str,
    name: &'a str,
    cause: WriteCause,
    store: &mut S,
) -> Result<(), CommandFault<'a>>
    ensures two { OnOk result (other.now ≢ name.entry.now) }
    ensures fault { IfErr result (IsWriteFault name.entry.now) }
    ensures same { Discloses (S.files store.old) (S.files store.new) IsSame }
{
    match store.is_one_file(alloc, other, name) {
        Ok(false) => Ok(()),
        Ok(true) => Err(CommandFault::CannotWrite(name, cause)),
        Err(fault) => Err(not_written(name, fault)),
    }
}

/// Makes the file of this name go on, where it has `long` bytes, and it grows to no more than are read of a file.
/// Returns how many it has then.
pub fn extend_file<'a, S: Store>(
    alloc: Global,
    name: &'a str,
    long: usize,
    growth: &Growth,
    store: &mut S,
) -> Result<usize, CommandFault<'a>>
    ensures extends { OnOk result (Discloses (S.files store.old) (S.files store.new)
        (Extends name.entry.now growth.now.front.items growth.now.tail.items)) }
    ensures length { IfOk result (λ longer.
        (longer ≡ long + length growth.now.tail.items) × (longer ≤ MAX_INPUT)) }
    ensures fault { IfErr result (IsWriteFault name.entry.now) }
    ensures same { OnErr result (Discloses (S.files store.old) (S.files store.new) IsSame) }
{
    let tail = growth.tail.as_slice();
    let longer = match long.checked_add(tail.len()) {
        Some(longer) if longer <= MAX_INPUT => longer,
        _ => return Err(not_written(name, StoreFault::TooLong)),
    };
    match store.extend(alloc, name, growth.front.as_slice(), tail) {
        Ok(()) => Ok(longer),
        Err(fault) => Err(not_written(name, fault)),
    }
}

/// Makes one byte of the file of this name this one.
pub fn set_byte_of_file<'a, S: Store>(
    alloc: Global,
    name: &'a str,
    place: usize,
    byte: u8,
    store: &mut S,
) -> Result<(), CommandFault<'a>>
    ensures sets { OnOk result (Discloses (S.files store.old) (S.files store.new)
        (SetsByte name.entry.now place byte)) }
    ensures fault { IfErr result (IsWriteFault name.entry.now) }
    ensures same { OnErr result (Discloses (S.files store.old) (S.files store.new) IsSame) }
{
    match store.set_byte(alloc, name, place, byte) {
        Ok(()) => Ok(()),
        Err(fault) => Err(not_written(name, fault)),
    }
}

/// Why the file of this name isn't written.
pub(super) fn not_written(name: &str, fault: StoreFault) -> CommandFault<'_>
    ensures named { IsWriteFault name.entry.now result }
    ensures of { IsWriteFaultOf name.entry.now fault result }
{
    match fault {
        StoreFault::OutOfMemory => CommandFault::OutOfMemory,
        StoreFault::InUse => CommandFault::InUse(name),
        StoreFault::Unsynced => CommandFault::Unsynced(name),
        fault => CommandFault::CannotWrite(name, WriteCause::Store(fault)),
    }
}
