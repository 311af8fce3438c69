//! One run of the program that reports what lies in the folder of a station.
ghost use Rattle.std.specs.Prelude.{◌≡◌, ◌⊎◌};
ghost use Rattle.rje_status.specs.Status.{IsStatusStatus};

use crate::reading::read_status;
use crate::station_status::StationStatus;
use crate::status_fault::StatusFault;
use crate::text::put_status;
use rje_cli::parse;
use rje_commands::{CommandFault, tell};
use rje_names::PrintedName;
use rje_program::tell_words;
use rje_requests::{Order, StatusOrder};
use rje_store::SystemDisk;
use std::alloc::Global;
use std::fs::File;
use std::io::Write;
use std::rt::Files;
use std::time::Clock;

/// Prints what lies in the folder that these words name, which are those after the program's name, and returns the exit status: 0 where nothing
/// asks for the operator (or it gave help), 1 where something does, 2 where the words ask for another command, or none, 3 where the folder can't be read or `out` can't be
/// written, 5 where there was no memory, 141 where nobody reads `out` any more.
pub fn status_command<R, O: Write, E: Write>(
    rt: &R,
    alloc: Global,
    words: &[&str],
    out: &mut O,
    err: &mut E,
) -> u8
where
    R: Clock + Files<File = File> + Alloc + Clone + Drop,
    ensures status { IsStatusStatus result }
{
    let order = match parse(alloc, words) {
        Ok(Order::Status(order)) => order,
        Ok(_) => return tell(&CommandFault::NoCommand, err),
        Err(fault) => return tell_words(&fault, out, err),
    };
    let status = match read_status(&SystemDisk::new(rt), alloc, order.folder) {
        Ok(status) => status,
        Err(fault) => return report(&fault, order.folder, err),
    };
    match put(rt, alloc, &order, &status, out) {
        Ok(()) => u8::from(status.asks),
        Err(fault) => tell(&fault, err),
    }
}

/// Prints it in the form that is asked for.
fn put<R: Clock, O: Write>(
    rt: &R,
    alloc: Global,
    order: &StatusOrder,
    status: &StationStatus,
    out: &mut O,
) -> Result<(), CommandFault<'static>> {
    let put = match order.json {
        true => match serde_json::to_string(alloc, status) {
            Ok(text) => writeln!(out, "{text}"),
            Err(_) => return Err(CommandFault::OutOfMemory),
        },
        false => put_status(status, seconds(rt), out),
    };
    put.map_err(|error| CommandFault::of_output(&error))
}

/// The whole seconds since 1970; none if they can't be had.
fn seconds<R: Clock>(rt: &R) -> Option<u64> {
    Some(rt.since_1970().ok()?.as_secs())
}

/// Reports why a folder can't be read, and returns the exit status.
fn report<E: Write>(fault: &StatusFault, folder: &str, err: &mut E) -> u8
    ensures { (result ≡ 3) ⊎ (result ≡ 5) }
{
    match fault {
        StatusFault::OutOfMemory => tell(&CommandFault::OutOfMemory, err),
        _ => {
            let _ = writeln!(err, "rje: {}{fault}", PrintedName(folder));
            3
        }
    }
}
