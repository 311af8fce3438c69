//! How often a file couldn't be made ready again.
ghost use Rattle.std.specs.Prelude.{◌≡◌, ◌+◌, min, true};

use crate::settling_fault::SettlingFault;
use rje_accounts::AccountsFault;
use std::io::ErrorKind;

/// So often in a row it is tried again on the next connection.
const MOST: u32 = 3;

/// How often in a row a file couldn't be made ready again, for a reason that may pass.
#[derive(Debug, Drop)]
pub(crate) struct Failures {
    count: u32,
}

impl Failures {
    /// It never failed.
    pub(crate) fn new() -> Failures
        ensures { result.count ≡ 0 }
    {
        Failures { count: 0 }
    }

    /// It failed for this reason. Whether it is tried again on the next connection, as the reason may pass: after some times in a row it isn't.
    pub(crate) fn may_pass(&mut self, why: &SettlingFault) -> bool
        ensures count { self.new.count ≡ min (self.old.count + 1) 4294967295 }
        ensures memory { why.now ≡ SettlingFault.OutOfMemory → result ≡ true }
    {
        self.count = self.count.saturating_add(1);
        match why {
            SettlingFault::OutOfMemory => true,
            SettlingFault::Accounts(AccountsFault::Failed(kind)) => {
                !is_lasting(*kind) && self.count <= MOST
            }
            SettlingFault::Accounts(_) => self.count <= MOST,
            SettlingFault::Spool(_) => self.count <= MOST,
            SettlingFault::Promise(_) => self.count <= MOST,
        }
    }

    /// It didn't fail.
    pub(crate) fn forget(&mut self)
        ensures { self.new.count ≡ 0 }
    {
        self.count = 0;
    }
}

/// Whether a file that failed so fails again.
fn is_lasting(kind: ErrorKind) -> bool {
    matches!(
        kind,
        ErrorKind::PermissionDenied
            | ErrorKind::InvalidInput
            | ErrorKind::InvalidFilename
            | ErrorKind::CrossesDevices
            | ErrorKind::TooManyLinks
            | ErrorKind::Unsupported
    )
}
