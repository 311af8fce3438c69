//! One run of the program as a station.
ghost use Rattle.std.specs.Prelude.{◌≡◌, ◌==◌, if◌then◌else◌};
ghost use Rattle.rje_daemon.specs.Running.{IsStationStatus, calls, is_want_of_memory as is_want};

use crate::attendant::Attendant;
use crate::attending::attend;
use crate::doorway::Door;
use crate::guarding::{Openness, how_open};
use crate::line_note::LineNote;
use crate::log_file::LogFile;
use crate::speaking::most_quiet;
use crate::state_file::StateFile;
use crate::station_spool::StationSpool;
use rje_cli::parse;
use rje_commands::{CommandFault, tell};
use rje_day::{Day, Settings};
use rje_folder::{Folder, FolderFault, StationFolder};
use rje_names::PrintedName;
use rje_program::tell_words;
use rje_requests::{Callers, Order, Partner, StationOrder};
use rje_settling::{SettlingFault, SettlingSpool};
use rje_spool::{Console, FolderSpool, Notice};
use rje_status::holder_of;
use rje_store::{Disk, SystemDisk};
use std::alloc::Global;
use std::fmt::Display;
use std::fs::File;
use std::io::{self, ErrorKind, Write};
use std::net::{Net, OpenListener, SocketAddr, TcpListener};
use std::rt::Files;
use std::thread;
use std::time::{Clock, Duration};

/// How many times more a folder is tried that is in use.
const LOCK_TRIES: u32 = 25;

/// How long it waits before it tries again, in milliseconds.
const LOCK_PAUSE: u64 = 20;

/// Runs the station that these words ask for, which are those after the program's name, and returns its exit status: 0 where it was drained, or
/// its one connection is over (or it gave help), 2 where the words ask for no station, 3 where its folder can't be used, another station has
/// it, or it can't listen, 5 where there was no memory. What happens goes to `err`, and to the log in the folder.
pub fn station_command<R, O: Write, E: Write>(
    rt: &R,
    alloc: Global,
    words: &[&str],
    out: &mut O,
    err: &mut E,
    is_terminal: bool,
) -> u8
where
    R: Net + Clock + Files<File = File> + Alloc + Clone + Drop,
    ensures status { IsStationStatus result }
{
    let order = match parse(alloc, words) {
        Ok(Order::Station(order)) => order,
        Ok(_) => return tell(&CommandFault::NoCommand, err),
        Err(fault) => return tell_words(&fault, out, err),
    };
    match run(rt, alloc, &order, err, is_terminal) {
        Ok(()) => 0,
        Err(StationEnd::Folder(FolderFault::InUse)) => tell_in_use(rt, alloc, order.folder, err),
        Err(end) => tell_end(&end, order.folder, err),
    }
}

/// Tells that another station has this folder, and which process that is, where it is known; and returns the exit status.
fn tell_in_use<R: Files<File = File>, E: Write>(
    rt: &R,
    alloc: Global,
    folder: &str,
    err: &mut E,
) -> u8
    ensures { result ≡ 3 }
{
    let printed = PrintedName(folder);
    let holder = match format!(in alloc; "{folder}/lock") {
        Ok(lock) => holder_of(&SystemDisk::new(rt), alloc, lock.as_str()),
        Err(_) => None,
    };
    let _ = match holder {
        Some(process) => writeln!(err, "rje: {printed} is in use by process {process}"),
        None => writeln!(err, "rje: {printed} is in use"),
    };
    3
}

/// Tells why a station in this folder ends that wasn't to, and returns the exit status.
fn tell_end<E: Write>(end: &StationEnd, folder: &str, err: &mut E) -> u8
    ensures { result ≡ (if is_want end.now then 5 else 3) }
{
    if end.is_want_of_memory() {
        return tell(&CommandFault::OutOfMemory, err);
    }
    let folder = PrintedName(folder);
    let _ = match end {
        // No folder can be made in one that isn't there.
        StationEnd::Folder(FolderFault::Failed(Folder::Out, ErrorKind::NotFound)) => {
            writeln!(err, "rje: {folder}: no such folder")
        }
        StationEnd::Folder(fault) => writeln!(err, "rje: {folder}: {fault}"),
        StationEnd::Open(Openness::OfAnother(part)) => {
            writeln!(err, "rje: {folder}{part}: belongs to another user")
        }
        StationEnd::Settling(fault) => writeln!(err, "rje: {folder}: {fault}"),
        StationEnd::Open(Openness::Writable(part)) => {
            writeln!(
                err,
                "rje: {folder}{part}: others may write to it (chmod go-w)"
            )
        }
        StationEnd::Open(Openness::NoFile(part)) => writeln!(err, "rje: {folder}{part}: no file"),
        StationEnd::Log(error) => writeln!(err, "rje: {folder}/log: {}", error.kind()),
        StationEnd::Listener(address, error) => writeln!(
            err,
            "rje: can't listen on {address}: {}\nrje: line failed",
            error.kind()
        ),
    };
    3
}

/// Why a station ends that wasn't to.
#[derive(Drop)]
enum StationEnd {
    /// Its folder can't be used.
    Folder(FolderFault),
    /// Its folder isn't its owner's alone.
    Open(Openness),
    /// Its accounts can't be used, by which doubt is settled.
    Settling(SettlingFault),
    /// Its log can't be written.
    Log(io::Error),
    /// It can't listen at this address.
    Listener(SocketAddr, io::Error),
}

/// Why a station that is to be called can't listen, and at which address.
#[derive(Drop)]
struct ListenFault {
    address: SocketAddr,
    error: io::Error,
}

impl StationEnd {
    /// Whether there was no memory for it.
    fn is_want_of_memory(&self) -> bool
        ensures { result ≡ is_want self.now }
    {
        match self {
            StationEnd::Folder(fault) => *fault == FolderFault::OutOfMemory,
            StationEnd::Log(error) => error.kind() == ErrorKind::OutOfMemory,
            StationEnd::Listener(_, error) => error.kind() == ErrorKind::OutOfMemory,
            StationEnd::Settling(SettlingFault::OutOfMemory) => true,
            StationEnd::Settling(_) => false,
            StationEnd::Open(_) => false,
        }
    }
}

/// Has the folder, and stays on the line. A folder of no name isn't there.
fn run<R, E: Write>(
    rt: &R,
    alloc: Global,
    order: &StationOrder,
    err: &mut E,
    is_terminal: bool,
) -> Result<(), StationEnd>
where
    R: Net + Clock + Files<File = File> + Alloc + Clone + Drop,
{
    if order.folder.is_empty() {
        let fault = FolderFault::Failed(Folder::Out, ErrorKind::NotFound);
        return Err(StationEnd::Folder(fault));
    }
    let path = whole_path(rt, alloc, order.folder)?;
    guard(rt, alloc, path.as_str())?;
    let folder = opened(rt, alloc, path.as_str()).map_err(StationEnd::Folder)?;
    let log = LogFile::open(rt, alloc, path.as_str()).map_err(StationEnd::Log)?;
    let state = state_file(rt, alloc, path.as_str())?;
    let rewrites = is_terminal && !order.quiet;
    let console = Console::new(rt, alloc, &mut *err, log, rewrites);
    let mut spool = FolderSpool::new(alloc, folder, console);
    spool.tell(Notice::Began(order.folder));
    if !order.settle {
        return ended(serve(rt, alloc, order, spool, state));
    }
    let disk = SystemDisk::new(rt);
    let calls = matches!(order.partner, Partner::Calls(_));
    let patience = most_quiet(order.patience);
    match SettlingSpool::begin(alloc, path.as_str(), disk, spool, calls, patience) {
        Ok(spool) => ended(serve::<
            R,
            SettlingSpool<SystemDisk<R>, &R, &mut E, LogFile<R>>,
            SystemDisk<R>,
        >(rt, alloc, order, spool, state)),
        Err(fault) => Err(StationEnd::Settling(fault)),
    }
}

/// The file in which the station of this folder notes what it is doing.
fn state_file<'a, R: Files<File = File>>(
    rt: &'a R,
    alloc: Global,
    folder: &str,
) -> Result<StateFile<SystemDisk<'a, R>>, StationEnd> {
    StateFile::new(SystemDisk::new(rt), alloc, folder).map_err(|_| StationEnd::Folder(
        FolderFault::OutOfMemory,
    ))
}

/// Has the folder of this path for this station. One that is in use is tried again for half a second: a look at it locks it for a moment.
fn opened<'a, R: Clock + Files<File = File> + Alloc + Clone + Drop>(
    rt: &'a R,
    alloc: Global,
    path: &str,
) -> Result<StationFolder<SystemDisk<'a, R>>, FolderFault> {
    for _ in 0..LOCK_TRIES {
        match StationFolder::open(SystemDisk::new(rt), alloc, path) {
            Err(FolderFault::InUse) => thread::sleep(rt, Duration::from_millis(LOCK_PAUSE)),
            opened => return opened,
        }
    }
    StationFolder::open(SystemDisk::new(rt), alloc, path)
}

/// How a station ended that was served so.
fn ended(served: Result<(), ListenFault>) -> Result<(), StationEnd> {
    match served {
        Ok(()) => Ok(()),
        Err(ListenFault { address, error }) => Err(StationEnd::Listener(address, error)),
    }
}

/// Stays on the line with this spool: calls, or is called. It notes what it is doing in this file.
fn serve<R: Net + Clock, S: StationSpool + Drop, D: Disk + Drop>(
    rt: &R,
    alloc: Global,
    order: &StationOrder,
    spool: S,
    state: StateFile<D>,
) -> Result<(), ListenFault> {
    match order.partner {
        Partner::Calls(address) => {
            stay_on(rt, alloc, order, address, None, spool, state);
            Ok(())
        }
        Partner::Listens(address, callers) => {
            listen(rt, alloc, order, address, callers, spool, state)
        }
    }
}

/// The path of the folder that a name leads to, without links: where they lead later changes nothing. The name itself if that path is no text.
fn whole_path<R: Files<File = File>>(
    rt: &R,
    alloc: Global,
    name: &str,
) -> Result<String, StationEnd> {
    match SystemDisk::new(rt).whole_path(alloc, name) {
        Ok(path) => Ok(path),
        Err(error) if error.kind() == ErrorKind::InvalidFilename => owned(alloc, name),
        Err(error) if error.kind() == ErrorKind::OutOfMemory => {
            Err(StationEnd::Folder(FolderFault::OutOfMemory))
        }
        Err(error) => Err(StationEnd::Folder(FolderFault::Failed(Folder::Out, error.kind()))),
    }
}

/// This name as a text of its own.
fn owned(alloc: Global, name: &str) -> Result<String, StationEnd> {
    String::from_str(alloc, name).map_err(|_| StationEnd::Folder(FolderFault::OutOfMemory))
}

/// Refuses a folder that isn't this user's own, or that others may change.
fn guard<R: Files<File = File>>(rt: &R, alloc: Global, folder: &str) -> Result<(), StationEnd> {
    match how_open(&SystemDisk::new(rt), alloc, folder) {
        Ok(None) => Ok(()),
        Ok(Some(open)) => Err(StationEnd::Open(open)),
        Err(_) => Err(StationEnd::Folder(FolderFault::OutOfMemory)),
    }
}

/// Listens at this address, and attends to the calls. What ends the station is told where it can't.
fn listen<R: Net + Clock, S: StationSpool + Drop, D: Disk + Drop>(
    rt: &R,
    alloc: Global,
    order: &StationOrder,
    address: SocketAddr,
    callers: Callers,
    mut spool: S,
    state: StateFile<D>,
) -> Result<(), ListenFault> {
    match listener_at(rt, address) {
        Ok((listener, own)) => {
            spool.tell(Notice::Listening(own));
            let door = Some(Door::new(listener, callers));
            stay_on(rt, alloc, order, own, door, spool, state);
            Ok(())
        }
        Err(error) => {
            if let Ok(text) = format!(in alloc; "can't listen on {address}: {}", error.kind()) {
                spool.tell(Notice::Failed(text.as_str()));
            }
            spool.tell(Notice::Ended);
            Err(ListenFault { address, error })
        }
    }
}

/// A listener at this address, which never waits, and the address that it has.
fn listener_at<R: Net>(rt: &R, address: SocketAddr) -> io::Result<(R::Listener, SocketAddr)> {
    let listener = TcpListener::bind(rt, address)?;
    listener.set_nonblocking(true)?;
    let own = listener.local_addr()?;
    Ok((listener, own))
}

/// Stays on the line, where it calls this address or is called at it through this door, until the station ends.
fn stay_on<'o, R: Net + Clock, S: StationSpool + Drop, A: Display + Drop, D: Disk + Drop>(
    rt: &R,
    alloc: Global,
    order: &StationOrder,
    own: A,
    door: Option<Door<'o, R::Listener>>,
    spool: S,
    state: StateFile<D>,
) {
    let mut day = Day::new(settings_of(order));
    let own = format!(in alloc; "{own}").ok();
    let note = LineNote::new(rt, alloc, state, own);
    let mut attendant = Attendant::new(rt, spool, door, order.progress, note);
    attend(rt, alloc, order, &mut day, &mut attendant);
    attendant.note.ends();
    attendant.spool.tell(Notice::Ended);
}

/// How the station spends its day.
fn settings_of(order: &StationOrder) -> Settings
    ensures calls { result.calls ≡ calls order.now.partner }
    ensures once { result.once ≡ order.now.once }
    ensures patience { result.patience ≡ (if order.now.patience == 0 then 4_294_967_295
        else order.now.patience) }
{
    Settings {
        calls: matches!(order.partner, Partner::Calls(_)),
        once: order.once,
        patience: most_quiet(order.patience),
    }
}
