//! The receipts of one connection.
ghost use Rattle.std.specs.Prelude.{◌≡◌, ◌↔◌, IsTrue};
ghost use Rattle.rje_settle.specs.Connection.{MayCount, MayLook, MaySend, MustSay, after_job, after_receipt, after_saying, first_state};

use crate::{Came, Verdict};
use std::marker::Model;

/// What came and is due of the receipts of one connection. Both ends say theirs: the one that calls
/// says it first, the other one once one came, and each says it again after it has kept something.
/// Nothing is sent before the other end's came and agreed.
#[derive(Debug, Drop)]
pub struct Connection {
    calls: bool,
    came: Came,
    agrees: bool,
    is_due: bool,
}

impl Model for Connection {
    ghost use Rattle.rje_settle.specs.Connection.{ConnectionState};

    ghost Value = { ConnectionState };

    ghost view = { λ c. record {
      calls = c.calls;
      came = c.came;
      agrees = c.agrees;
      is_due = c.is_due;
    } };
}

impl Connection {
    /// A connection that begins.
    pub fn new(calls: bool) -> Self
        ensures { result ≡ first_state calls }
    {
        Connection {
            calls,
            came: Came::Nothing,
            agrees: false,
            is_due: true,
        }
    }

    /// Whether the station's own receipt is the next thing that it says.
    pub fn must_say(&self) -> bool
        ensures { IsTrue result ↔ MustSay self.now }
    {
        self.is_due && (self.calls || self.came == Came::Receipt)
    }

    /// Whether jobs may be sent.
    pub fn may_send(&self) -> bool
        ensures { IsTrue result ↔ MaySend self.now }
    {
        self.came == Came::Receipt && self.agrees && !self.is_due
    }

    /// Whether a job that comes counts among those that were kept.
    pub fn counts(&self) -> bool
        ensures { IsTrue result ↔ MayCount self.now }
    {
        self.came == Came::Receipt
    }

    /// Whether the first job of a transmission is read as a receipt.
    pub fn looks(&self) -> bool
        ensures { IsTrue result ↔ MayLook self.now }
    {
        self.came != Came::Job
    }

    /// The station's own receipt was said, the whole of it.
    pub fn said(&mut self)
        ensures { self.new ≡ after_saying self.old }
    {
        self.is_due = false;
    }

    /// A receipt of the other end's came, and this was found by it. Where receipts aren't looked
    /// for nothing changes.
    pub fn receipt_came(&mut self, verdict: Verdict)
        ensures { self.new ≡ after_receipt verdict self.old }
    {
        match self.came {
            Came::Nothing | Came::Receipt => {
                self.came = Came::Receipt;
                self.agrees = verdict.is_good();
            }
            Came::Job => {}
        }
    }

    /// A job of the other end's came that is no receipt, and was kept.
    pub fn job_came(&mut self)
        ensures { self.new ≡ after_job self.old }
    {
        match self.came {
            Came::Receipt => self.is_due = true,
            Came::Nothing | Came::Job => self.came = Came::Job,
        }
    }
}
