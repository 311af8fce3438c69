//! The program `rje`: jobs of cards and lines over a Binary Synchronous line.
#![tactic(auto)]

use rje_commands::CommandFault;
use rje_daemon::station_command;
use rje_program::{command, is_for_sockets, is_for_station, is_for_status, socket_command};
use rje_status::status_command;
use rje_store::FileStore;
use std::fs::{File, OpenOptions};
use std::io::IsTerminal;
use std::os::fd::AsRawFd;
use std::process::ExitCode;
use std::{env, io};

fn main(rt: HostRuntime) -> ExitCode {
    match run(&rt) {
        Ok(status) => ExitCode::from(status),
        Err(error) => ExitCode::from(told(&rt, &error)),
    }
}

/// Runs the command of the program's words.
fn run(rt: &HostRuntime) -> io::Result<u8> {
    let alloc = rt.alloc();
    let words: Vec<String> = env::args(rt)?.skip(1).collect(alloc)?;
    let words: Vec<&str> = words.iter().map(|word| word.as_str()).collect(alloc)?;
    if words.is_empty() && rt.stdin().is_terminal() {
        let _ = eprintln!(rt;
            "rje: reads a deck from the terminal, up to Ctrl-D; rje --help tells the commands"
        );
    }
    let _held = [held_number(rt), held_number(rt), held_number(rt)];
    if is_for_station(words.as_slice()) {
        return Ok(station_command(
            rt,
            alloc,
            words.as_slice(),
            &mut rt.stdout(),
            &mut rt.stderr(),
            rt.stderr().is_terminal(),
        ));
    }
    if is_for_status(words.as_slice()) {
        return Ok(status_command(
            rt,
            alloc,
            words.as_slice(),
            &mut rt.stdout(),
            &mut rt.stderr(),
        ));
    }
    let mut store = FileStore::new(rt, alloc);
    let status = if is_for_sockets(words.as_slice()) {
        socket_command(
            rt,
            alloc,
            words.as_slice(),
            &mut store,
            &mut rt.stdout(),
            &mut rt.stderr(),
            rt.stderr().is_terminal(),
        )
    } else {
        command(
            alloc,
            words.as_slice(),
            &mut store,
            &mut rt.stdin(),
            &mut rt.stdout(),
            &mut rt.stderr(),
        )
    };
    store.release();
    Ok(status)
}

/// The null device under the number of a standard stream that is closed, so that no file and no connection gets the number, and with it what is
/// written to the stream. It is open for what the stream isn't for: reading a closed input fails, and so does writing to a closed output. Where there is
/// no null device it is the folder of all, which can be neither read so nor written.
fn held_number(rt: &HostRuntime) -> Option<File> {
    let held = match OpenOptions::new().write(true).open(rt, "/dev/null") {
        Ok(null) => null,
        Err(_) => File::open(rt, "/").ok()?,
    };
    match held.as_raw_fd() {
        0 => Some(held),
        1 | 2 => {
            drop(held);
            unwritable(rt)
        }
        _ => None,
    }
}

/// The null device open to be read, or the folder of all.
fn unwritable(rt: &HostRuntime) -> Option<File> {
    match File::open(rt, "/dev/null") {
        Ok(null) => Some(null),
        Err(_) => File::open(rt, "/").ok(),
    }
}

/// Reports why the words can't be had: there is no memory for them, or they aren't text.
fn told(rt: &HostRuntime, error: &io::Error) -> u8 {
    if error.kind() == io::ErrorKind::OutOfMemory {
        let _ = eprintln!(rt; "rje: {}", CommandFault::OutOfMemory);
        return CommandFault::OutOfMemory.status();
    }
    let _ = eprintln!(rt; "rje: the command line is no text");
    2
}
