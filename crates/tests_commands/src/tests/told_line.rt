//! A line of the tests' own that is given beforehand what comes in each hearing.
ghost use Rattle.std.specs.Prelude.{◌+◌, ◌-◌, ◌^◌, min, Some, None, ⊤};

use arrayvec::ArrayVec;
use rje_station::{Came, Line, LineFault};

/// A line that gives one of these in each listening, and then nothing. An empty one is Quiet. What is sent is kept, as much as there is room for.
#[derive(Drop)]
pub(super) struct ToldLine<'a> {
    coming: &'a [&'a [u8]],
    // How many of them were given.
    given: usize,
    pub(super) sent: ArrayVec<u8, 256>,
    transmissions: u64,
}

impl<'a> ToldLine<'a> {
    /// A line on which this comes.
    pub(super) fn new(coming: &'a [&'a [u8]]) -> ToldLine<'a> {
        ToldLine {
            coming,
            given: 0,
            sent: ArrayVec::new(),
            transmissions: 0,
        }
    }
}

impl Line for ToldLine<'_> {
    // No call fails.
    ghost failures = { λ _. 0 };

    ghost transmissions = { λ line. line.transmissions };

    ghost last_fault = { λ _. None };

    ghost may_fail = { λ _ _ _. ⊤ };

    ghost talk = { λ _. None };

    fn transmit(&mut self, bytes: &[u8]) -> Result<(), LineFault> {
        self.transmissions = self.transmissions.saturating_add(1);
        let _ = self.sent.try_extend_from_slice(bytes);
        Ok(())
    }

    fn listen(&mut self, piece: &mut [u8]) -> Result<Came, LineFault> {
        let Some(next) = self.coming.get(self.given) else {
            return Ok(Came::Quiet);
        };
        self.given = self.given.saturating_add(1);
        let count = next.len().min(piece.len());
        if count == 0 {
            return Ok(Came::Quiet);
        }
        piece[..count].copy_from_slice(&next[..count]);
        Ok(Came::Bytes(count))
    }
}
