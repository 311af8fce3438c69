//! The spool of a station, as it is told of its connections.

use rje_folder::FolderDisk;
use rje_session::Spool;
use rje_settling::{SettlingFault, SettlingSpool};
use rje_spool::{FolderSpool, Ledger, Notice, SpoolFault};
use std::alloc::Global;
use std::io::Write;
use std::time::Clock;

/// The spool of a station: it is told where a connection begins and is over, and has a console.
pub(crate) trait StationSpool: Spool {
    /// Tells the operator this.
    fn tell(&mut self, notice: Notice);

    /// Tells the operator why it failed, where it hasn't yet.
    fn tell_fault(&mut self, alloc: Global, fault: Self::Fault);

    /// Whether what comes can be kept.
    fn can_receive(&mut self) -> bool;

    /// A connection begins.
    fn connect(&mut self);

    /// The connection is over.
    fn disconnect(&mut self);

    /// All jobs of the last transmission are in doubt.
    fn doubt_all(&mut self) -> Result<(), Self::Fault>;
}

impl<D: FolderDisk + Drop, C: Clock, W: Write, L: Write, B: Ledger + Drop> StationSpool
    for FolderSpool<D, C, W, L, B> {
    fn tell(&mut self, notice: Notice) {
        FolderSpool::tell(self, notice);
    }

    fn tell_fault(&mut self, alloc: Global, fault: SpoolFault) {
        if let SpoolFault::OfFile(_) = fault {
            return;
        }
        if let Ok(text) = format!(in alloc; "{fault}") {
            FolderSpool::tell(self, Notice::Failed(text.as_str()));
        }
    }

    fn can_receive(&mut self) -> bool {
        FolderSpool::can_receive(self)
    }

    fn connect(&mut self) {}

    fn disconnect(&mut self) {}

    fn doubt_all(&mut self) -> Result<(), SpoolFault> {
        FolderSpool::doubt_all(self)
    }
}

impl<
    D: FolderDisk + Drop,
    C: Clock + Drop,
    W: Write + Drop,
    L: Write + Drop,
    B: Ledger + Drop,
> StationSpool for SettlingSpool<D, C, W, L, B> {
    fn tell(&mut self, notice: Notice) {
        SettlingSpool::tell(self, notice);
    }

    fn tell_fault(&mut self, alloc: Global, fault: SettlingFault) {
        if let SettlingFault::Spool(SpoolFault::OfFile(_)) = fault {
            return;
        }
        if let Ok(text) = format!(in alloc; "{fault}") {
            SettlingSpool::tell(self, Notice::Failed(text.as_str()));
        }
    }

    fn can_receive(&mut self) -> bool {
        SettlingSpool::can_receive(self)
    }

    fn connect(&mut self) {
        SettlingSpool::connect(self);
    }

    fn disconnect(&mut self) {
        SettlingSpool::disconnect(self);
    }

    fn doubt_all(&mut self) -> Result<(), SettlingFault> {
        SettlingSpool::doubt_all(self)
    }
}
