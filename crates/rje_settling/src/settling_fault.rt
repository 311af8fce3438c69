//! Why a spool fails that settles doubt by receipts.

use rje_accounts::AccountsFault;
use rje_settle::PromiseFault;
use rje_spool::SpoolFault;
use std::alloc::AllocError;
use std::io;
use thiserror::Error;

/// Why a spool fails that settles doubt by receipts.
#[derive(Debug, Drop, PartialEq, Eq, Error)]
pub enum SettlingFault {
    /// There is no memory.
    #[error("out of memory")]
    OutOfMemory,
    /// The spool of the folder failed.
    #[error("{0}")]
    Spool(SpoolFault),
    /// The accounts can't be used.
    #[error("{0}")]
    Accounts(AccountsFault),
    /// A job can't be promised.
    #[error("settle: a job can't be promised")]
    Promise(PromiseFault),
}

impl From<SpoolFault> for SettlingFault {
    fn from(fault: SpoolFault) -> SettlingFault {
        match fault {
            SpoolFault::OutOfMemory => SettlingFault::OutOfMemory,
            fault => SettlingFault::Spool(fault),
        }
    }
}

impl From<AccountsFault> for SettlingFault {
    fn from(fault: AccountsFault) -> SettlingFault {
        match fault {
            AccountsFault::OutOfMemory => SettlingFault::OutOfMemory,
            fault => SettlingFault::Accounts(fault),
        }
    }
}

impl From<PromiseFault> for SettlingFault {
    fn from(fault: PromiseFault) -> SettlingFault {
        match fault {
            PromiseFault::OutOfMemory => SettlingFault::OutOfMemory,
            fault => SettlingFault::Promise(fault),
        }
    }
}

impl From<io::Error> for SettlingFault {
    fn from(error: io::Error) -> SettlingFault {
        SettlingFault::from(AccountsFault::from(error))
    }
}

impl From<AllocError> for SettlingFault {
    fn from(_refused: AllocError) -> SettlingFault {
        SettlingFault::OutOfMemory
    }
}
