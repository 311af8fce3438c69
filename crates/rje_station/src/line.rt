//! The line between two stations.
ghost use Rattle.std.specs.Prelude.{◌≡◌, ◌≤◌, ◌<◌, ◌+◌, ℕ, Option, Some, length, IfOk, IfErr, OnOk, OnErr};
ghost use Rattle.rje_station.specs.Line.{Talk, Passes, Rose, Sends, Hears, IsWithin, one_more};
ghost use Rattle.rje_station.specs.declared.line_fault.LineFault.{LineFault as Fault};

use crate::{Came, LineFault};

/// A half-duplex line. What it means is how many transmissions were begun on it, how many of its calls failed, the last fault and which calls may
/// fail, and, where it discloses its bytes, which it sent last and which come before it goes quiet.
pub trait Line {
    /// How many calls have failed. Nothing is said of a line where this is `u64::MAX`.
    ghost failures: { Self → ℕ };

    /// How many transmissions were begun, those that failed among them; it stays at `u64::MAX`.
    ghost transmissions: { Self → ℕ };

    /// The last fault.
    ghost last_fault: { Self → Option Fault };

    /// Whether a call may fail that sends this many bytes, or listens where that is 0, and comes after that many other calls.
    ghost may_fail: { Self → ℕ → ℕ → Type 0 };

    /// The bytes that were sent last, and those that come before the next Quiet. `None`: the line doesn't disclose them.
    ghost talk: { Self → Option Talk };

    /// Sends these bytes.
    fn transmit(&mut self, bytes: &[u8]) -> Result<(), LineFault>
        ensures grows { failures self.old ≤ failures self.new }
        ensures failed { OnErr result (Rose (failures self.old) (failures self.new)) }
        ensures may { OnErr result (may_fail self.old (length bytes.now) 0) }
        ensures fault { IfErr result (λ fault. last_fault self.new ≡ Some fault) }
        ensures same { OnOk result (last_fault self.new ≡ last_fault self.old) }
        ensures ages { (bytes calls : ℕ) → may_fail self.new bytes calls
            → may_fail self.old bytes (1 + calls) }

        // A transmission that fails was begun.
        ensures begun { transmissions self.new ≡ one_more (transmissions self.old) }
        ensures sent { OnOk result (Passes (talk self.old) (talk self.new) (Sends bytes.now)) };

    /// Waits for bytes, and puts them at the front of the slice, which isn't empty.
    fn listen(&mut self, piece: &mut [u8]) -> Result<Came, LineFault>
        requires room { 0 < length piece.old }
        ensures grows { failures self.old ≤ failures self.new }
        ensures failed { OnErr result (Rose (failures self.old) (failures self.new)) }
        ensures may { OnErr result (may_fail self.old 0 0) }
        ensures fault { IfErr result (λ fault. last_fault self.new ≡ Some fault) }
        ensures same { OnOk result (last_fault self.new ≡ last_fault self.old) }
        ensures ages { (bytes calls : ℕ) → may_fail self.new bytes calls
            → may_fail self.old bytes (1 + calls) }
        ensures none { transmissions self.new ≡ transmissions self.old }
        ensures within { IfOk result (λ came. IsWithin came (length piece.new)) }
        ensures heard { IfOk result (λ came.
            Passes (talk self.old) (talk self.new) (Hears came piece.new)) };
}
