//! What a station hears with.
ghost use Rattle.std.specs.Prelude.{◌≡◌, ◌≤◌, IfOk, IfErr};
ghost use Rattle.rje_station.specs.Line.{Passes, Ages, MayNotHear, Fails};
ghost use Rattle.rje_station.specs.Hearing.{IsLost, Hearing, Babbling};
ghost use Rattle.rje_station.specs.Inside.Hearing.{heard_of};

use crate::hear_fault::HearFault;
use crate::heard_kind::HeardKind;
use crate::{Came, Line};
use arrayvec::ArrayVec;
use bsc_codes::MAX_TEXT;
use bsc_frame::{FedKind, Listener};

/// The most bytes that are read in one hearing.
pub const MAX_HEARD: usize = 8192;

/// What a station hears with: its listener, and where the pieces of one hearing come.
#[derive(Drop)]
pub(crate) struct FrameReader {
    listener: Listener,
    piece: [u8; 512],
    // The text of the last block that was heard.
    pub(crate) text: ArrayVec<u8, MAX_TEXT>,
}

impl FrameReader {
    /// An ear that has heard nothing.
    pub(crate) fn new() -> Self {
        FrameReader {
            listener: Listener::new(),
            piece: [0; 512],
            text: ArrayVec::new(),
        }
    }

    /// Listens until a frame came or the line is quiet. Each piece goes to the listener as it comes, and bytes after a frame are dropped.
    pub(crate) fn hear<L: Line>(&mut self, line: &mut L) -> Result<HeardKind, HearFault>
        ensures grows { L.failures line.old ≤ L.failures line.new }
        ensures none { L.transmissions line.new ≡ L.transmissions line.old }
        ensures ages { Ages (L.may_fail line.old) (L.may_fail line.new) }
        ensures heard { IfOk result (λ h. Passes (L.talk line.old) (L.talk line.new)
            (λ t u. Hearing t u (heard_of h self.new.text.items))) }
        ensures lost { IfErr result (λ fault.
            IsLost (Fails (MayNotHear (L.may_fail line.old)) (L.failures line.old)
            (L.failures line.new) (L.last_fault line.new))
            (Passes (L.talk line.old) (L.talk line.new) Babbling) fault) }
    {
        self.listener.reset();
        let mut room = MAX_HEARD;
        loop {
            match line.listen(&mut self.piece).map_err(HearFault::Lost)? {
                Came::Quiet => return Ok(HeardKind::without_frame(self.listener.quiet())),
                Came::Bytes(n) => {
                    let fed = n.min(room);
                    let heard = &self.piece[..fed];
                    let FedKind { used: _, kind } = self.listener.feed_into(heard, &mut self.text);
                    if let Some(kind) = kind {
                        return Ok(HeardKind::Frame(kind));
                    }
                    if room < n {
                        return Err(HearFault::Babble);
                    }
                    room -= n;
                }
            }
        }
    }
}
