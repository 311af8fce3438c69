//! What is heard of bytes.
ghost use Rattle.std.specs.Prelude.{◌≡◌, ◌≤◌, length, take, drop};
ghost use Rattle.rje_monitor.specs.Hearing.{IsHeardFirst, mode_left as left_by, mode_after_block, mode_after_frame, mode_after as mode_after_of};

use bsc_codes::{Block, Closing};
use bsc_frame::{Fed, Frame, Heard, Listener};
use rje_text::{Mode, count_records, one_fault};

/// What is heard first of some bytes.
#[derive(Debug, PartialEq, Eq, Drop)]
pub(crate) struct Hearing {
    pub(crate) heard: Heard,
    /// How many of the bytes it takes: those of a frame's transmission, and else all.
    pub(crate) used: usize,
}

impl Hearing {
    /// What is heard first of these bytes.
    pub(crate) fn of(bytes: &[u8]) -> Self
        ensures used { result.used ≤ length bytes.now }
        ensures heard { IsHeardFirst result.heard bytes.now
            (take result.used bytes.now) (drop result.used bytes.now) }
    {
        let mut listener = Listener::new();
        let Fed { used, frame } = listener.feed(bytes);
        let heard = match frame {
            Some(frame) => Heard::Frame(frame),
            None => listener.quiet(),
        };
        Hearing { heard, used }
    }
}

/// The mode of the job's earlier blocks after what was heard; `None` where the next block is its job's first.
pub(crate) fn mode_after(so_far: Option<Mode>, heard: &Heard) -> Option<Mode>
    ensures { result ≡ mode_after_of so_far heard.now }
{
    match heard {
        Heard::Frame(frame) => after_frame(so_far, frame),
        Heard::Bad | Heard::Noise | Heard::Quiet => so_far,
    }
}

fn after_frame(so_far: Option<Mode>, frame: &Frame) -> Option<Mode>
    ensures { result ≡ mode_after_frame so_far frame.now }
{
    match frame {
        Frame::Block(block) => after_block(so_far, block),
        Frame::Eot => None,
        Frame::Enq
        | Frame::Ack0
        | Frame::Ack1
        | Frame::Nak
        | Frame::Wack
        | Frame::Rvi
        | Frame::Ttd
        | Frame::Abort => so_far,
    }
}

/// The mode after a block: one that isn't read, which a receiver refuses, leaves it as it was.
#[tactic(auto, using(crate::proofs::ModesLeft::read_counted, crate::proofs::ModesLeft::unread_refused))]
fn after_block(so_far: Option<Mode>, block: &Block) -> Option<Mode>
    ensures { result ≡ mode_after_block so_far block.now }
{
    one_fault();
    match count_records(block, so_far) {
        Ok(_) => mode_left(block),
        Err(_) => so_far,
    }
}

/// The mode that a block leaves to the next one of its job, where one follows.
fn mode_left(block: &Block) -> Option<Mode>
    ensures { result ≡ left_by block.now.closing block.now.transparent }
{
    match block.closing {
        Closing::Etb if block.transparent => Some(Mode::Transparent),
        Closing::Etb => Some(Mode::Normal),
        Closing::Etx => None,
    }
}
