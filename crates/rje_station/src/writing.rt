//! Frames that can be written.
ghost use Rattle.bsc_frame.specs.Written.{Written};
ghost use Rattle.rje_station.specs.Inside.Writing.{CanBeWritten};

use arrayvec::ArrayVec;
use bsc_frame::{Frame, MAX_TRANSMISSION, write_frame};

/// Room for the longest transmission that is written.
pub(crate) type Transmission = ArrayVec<u8, MAX_TRANSMISSION>;

/// Writes the transmission of a frame that can be written, in place of what was there.
pub(crate) fn write(frame: &Frame, out: &mut Transmission)
    requires { CanBeWritten frame.now }
    ensures { Written frame.now out.new.items }
{
    if write_frame(frame, out).is_err() {
        unreachable!();
    }
}
