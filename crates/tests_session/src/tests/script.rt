//! A line of the tests' own.
ghost use Rattle.std.specs.Prelude.{◌+◌, ◌-◌, ◌^◌, ◌<◌, ◌≤◌, min, Some, None, ⊤};

use arrayvec::ArrayVec;
use rje_session::InStep;
use rje_station::{Came, Line, LineFault};

/// What is heard, one piece in each hearing, and then nothing more; and what was said.
#[derive(Drop)]
pub(super) struct Script {
    pieces: &'static [&'static [u8]],
    place: usize,
    /// The transmission of this number fails, from 1; none where it is 0.
    failing: u64,
    /// An answer comes as the other end hangs up, once there is nothing more to hear.
    strays: bool,
    hung_up: bool,
    /// It begins anew so often once there is nothing more to hear.
    again: u32,
    /// At this place so many hearings bring nothing.
    pause: Option<(usize, u32)>,
    /// The third byte of each transmission, by which its kind is known.
    said: ArrayVec<u8, 64>,
    /// The fourth byte of each reply of two bytes, by which it is known which one it is.
    replies: ArrayVec<u8, 64>,
    transmissions: u64,
    failures: u64,
    last_fault: Option<LineFault>,
}

impl Script {
    pub(super) fn new(pieces: &'static [&'static [u8]], failing: u64) -> Script {
        Script {
            pieces,
            place: 0,
            failing,
            strays: false,
            hung_up: false,
            again: 0,
            pause: None,
            said: ArrayVec::new(),
            replies: ArrayVec::new(),
            transmissions: 0,
            failures: 0,
            last_fault: None,
        }
    }

    /// An answer comes as the other end hangs up, once there is nothing more to hear.
    pub(super) fn stray(&mut self) {
        self.strays = true;
    }

    /// All is heard so many times more.
    pub(super) fn repeat(&mut self, times: u32) {
        self.again = times;
    }

    /// At this place so many hearings bring nothing.
    pub(super) fn pause(&mut self, place: usize, hearings: u32) {
        self.pause = Some((place, hearings));
    }

    /// The fourth byte of each reply of two bytes.
    pub(super) fn replies(&self) -> &[u8] {
        self.replies.as_slice()
    }

    /// Whether all was heard.
    pub(super) fn is_heard(&self) -> bool {
        self.place >= self.pieces.len() && self.again == 0
    }

    /// How often the station spoke.
    pub(super) fn transmissions(&self) -> u64 {
        self.transmissions
    }

    /// The third byte of each transmission.
    pub(super) fn said(&self) -> &[u8] {
        self.said.as_slice()
    }
}

impl Line for Script {
    ghost failures = { λ line. line.failures };

    ghost transmissions = { λ line. line.transmissions };

    ghost last_fault = { λ line. line.last_fault };

    ghost may_fail = { λ _ _ _. ⊤ };

    ghost talk = { λ _. None };

    fn transmit(&mut self, bytes: &[u8]) -> Result<(), LineFault> {
        self.transmissions = self.transmissions.saturating_add(1);
        if self.transmissions == self.failing {
            self.failures = self.failures.saturating_add(1);
            self.last_fault = Some(LineFault::Closed);
            return Err(LineFault::Closed);
        }
        if bytes.len() > 2 {
            let _ = self.said.try_push(bytes[2]);
        }
        if bytes.len() > 3 && bytes[2] == 0x10 {
            let _ = self.replies.try_push(bytes[3]);
        }
        Ok(())
    }

    fn listen(&mut self, piece: &mut [u8]) -> Result<Came, LineFault> {
        if self.place >= self.pieces.len() && self.again > 0 {
            self.again = self.again.saturating_sub(1);
            self.place = 0;
        }
        if self.place >= self.pieces.len() && self.strays {
            self.hung_up = true;
            self.failures = self.failures.saturating_add(1);
            self.last_fault = Some(LineFault::Closed);
            return Err(LineFault::Closed);
        }
        if self.place >= self.pieces.len() {
            return Ok(Came::Quiet);
        }
        if let Some((place, hearings)) = self.pause {
            if place == self.place && hearings > 0 {
                self.pause = Some((place, hearings - 1));
                return Ok(Came::Quiet);
            }
        }
        let bytes = self.pieces[self.place];
        self.place += 1;
        if bytes.is_empty() || bytes.len() > piece.len() {
            return Ok(Came::Quiet);
        }
        piece[..bytes.len()].copy_from_slice(bytes);
        Ok(Came::Bytes(bytes.len()))
    }
}

impl InStep for Script {
    fn is_in_step(&mut self) -> bool {
        !self.strays || !self.hung_up
    }
}
