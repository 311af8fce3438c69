//! The listener.
ghost use Rattle.std.specs.Prelude.{◌≡◌, ◌≢◌, ◌≤◌, false, ℕ, List, [], ◌++◌, length, take, IfSome, IfNone, OnSome};
ghost use Rattle.bsc_frame.specs.Transmission.{Transmission, HasNoFrame};
ghost use Rattle.bsc_frame.specs.Heard.{IsHeard};
ghost use Rattle.bsc_frame.specs.FrameKind.{frame_of, is_block};
ghost use Rattle.bsc_frame.specs.Listener.{HasTaken};

mod bytes;
mod data;
mod stage;
mod step;
mod sync;
mod text;

use crate::{Fed, FedKind, Frame, Heard};
use arrayvec::ArrayVec;
use bsc_check::Check;
use bsc_codes::MAX_TEXT;
use bytes::{put_text, take_bytes};
pub(crate) use data::in_front_of_dle;
use stage::{Stage, heard_in};
use std::marker::Model;

/// Hears frames in bytes that come in any pieces. It keeps what has come of one transmission, at most 512 data bytes of it, and their
/// running check; no call takes memory. Bytes that can no longer become a transmission are taken until `quiet` or `reset`.
#[derive(Drop)]
pub struct Listener {
    stage: Stage,
    // the data bytes, from the start of a text on
    text: ArrayVec<u8, MAX_TEXT>,
    // from the start of a text on, the check of the data bytes, and then of the closing byte too
    check: Check,
}

impl Model for Listener {
    ghost use Rattle.bsc_frame.specs.Inside.Listening.HeardSoFar.{HeardSoFar};

    ghost Value = { HeardSoFar };

    ghost use Rattle.bsc_frame.specs.Inside.Listening.Stage.{so_far_of, CheckRuns};

    ghost view = { λ l. so_far_of l.stage l.text.items };

    ghost invariant = { λ l. CheckRuns l.stage l.text.items l.check };
}

impl Listener {
    /// A listener that has taken no bytes.
    #[tactic(auto, using(crate::proofs::Feeding::taken_none))]
    pub fn new() -> Self
        ensures { HasTaken result [] }
    {
        Listener {
            stage: Stage::Pads,
            text: ArrayVec::new(),
            check: Check::new(),
        }
    }

    /// Makes the listener as new.
    #[tactic(auto, using(crate::proofs::Feeding::taken_none))]
    pub fn reset(&mut self)
        ensures { HasTaken self.new [] }
    {
        self.stage = Stage::Pads;
    }

    /// Takes bytes up to the last byte of a frame, or all of them where no frame becomes whole. After a frame the listener is as new.
    #[tactic(auto, using(crate::proofs::Feeding::taken_none))]
    pub fn feed(&mut self, piece: &[u8]) -> Fed
        ensures used { result.used ≤ length piece.now }
        // A frame is that of the transmission that ends with the last byte that was used.
        ensures frame { IfSome result.frame (λ f. (bytes : List ℕ) → HasTaken self.old bytes
            → Transmission f (bytes ++ take result.used piece.now)) }
        ensures as_new { OnSome result.frame (HasTaken self.new []) }
        // Without a frame all bytes were used, and no prefix of what was taken is a transmission.
        ensures whole { IfNone result.frame (result.used ≡ length piece.now) }
        ensures none { IfNone result.frame ((bytes : List ℕ) → HasTaken self.old bytes
            → HasNoFrame (bytes ++ piece.now)) }
        ensures on { IfNone result.frame ((bytes : List ℕ) → HasTaken self.old bytes
            → HasTaken self.new (bytes ++ piece.now)) }
    {
        let (used, kind) = take_bytes(&mut self.stage, &mut self.text, &mut self.check, piece);
        let Some(kind) = kind else {
            return Fed { used, frame: None };
        };
        Fed {
            used,
            frame: Some(kind.into_frame(&mut self.text)),
        }
    }

    /// Does what `feed` does, and gives the frame's kind alone: a block's text takes the place of what the room held. Nothing of a block's
    /// size is given back.
    #[tactic(auto, using(crate::proofs::Feeding::taken_none))]
    pub fn feed_into(&mut self, piece: &[u8], room: &mut ArrayVec<u8, MAX_TEXT>) -> FedKind
        ensures used { result.used ≤ length piece.now }
        // A frame is that of the transmission that ends with the last byte that was used.
        ensures frame { IfSome result.kind (λ kind. (bytes : List ℕ) → HasTaken self.old bytes
            → Transmission (frame_of kind room.new.items) (bytes ++ take result.used piece.now)) }
        ensures kept { IfSome result.kind (λ kind. is_block kind ≡ false → room.new ≡ room.old) }
        ensures as_new { OnSome result.kind (HasTaken self.new []) }
        // Without a frame all bytes were used, and no prefix of what was taken is a transmission.
        ensures whole { IfNone result.kind ((result.used ≡ length piece.now)
            × (room.new ≡ room.old)) }
        ensures none { IfNone result.kind ((bytes : List ℕ) → HasTaken self.old bytes
            → HasNoFrame (bytes ++ piece.now)) }
        ensures on { IfNone result.kind ((bytes : List ℕ) → HasTaken self.old bytes
            → HasTaken self.new (bytes ++ piece.now)) }
    {
        let (used, kind) = take_bytes(&mut self.stage, &mut self.text, &mut self.check, piece);
        let Some(kind) = kind else {
            return FedKind { used, kind: None };
        };
        put_text(kind, &self.text, room);
        FedKind {
            used,
            kind: Some(kind),
        }
    }

    /// What was heard, where the line goes quiet: never a frame. The listener is as new afterwards.
    pub fn quiet(&mut self) -> Heard
        ensures heard { (bytes : List ℕ) → HasTaken self.old bytes → IsHeard bytes result }
        ensures never { (f : Frame) → result ≢ Heard.Frame f }
        ensures as_new { HasTaken self.new [] }
    {
        let heard = heard_in(self.stage);
        self.reset();
        heard
    }
}
