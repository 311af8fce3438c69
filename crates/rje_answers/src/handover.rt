//! What is handed to a station, hearing by hearing.
ghost use Rattle.std.specs.Prelude.{◌≡◌, ◌≢◌, ◌<◌, ◌≤◌, ◌++◌, ℕ, List, [], length, take, drop, false};
ghost use Rattle.rje_answers.specs.Handover.{Hands, IsHandedOn, nothing_waits};

use crate::Given;
use crate::spelling::spell;
use arrayvec::ArrayVec;
use bsc_frame::MAX_TRANSMISSION;
use bsc_link::Reply;
use std::marker::Model;

/// What a listening station is given next.
#[derive(Clone, Copy)]
pub enum Handed {
    /// Nothing waits for it.
    Nothing,
    /// The line is quiet.
    Quiet,
    /// This many bytes, at the front of the slice that it gave.
    Bytes(usize),
}

/// What waits for a station to be listened to: quiet, then bytes, then quiet again. It takes no memory.
#[derive(Drop)]
pub struct Handover {
    is_quiet: bool,
    bytes: ArrayVec<u8, MAX_TRANSMISSION>,
    // How many of them were handed on.
    place: usize,
    is_quiet_after: bool,
}

impl Model for Handover {
    ghost use Rattle.std.specs.Prelude.{◌≤◌, drop, length};
    ghost use Rattle.rje_answers.specs.Handover.{Waiting};

    ghost Value = { Waiting };

    ghost view = { λ h. record {
      is_quiet = h.is_quiet;
      left = drop h.place h.bytes.items;
      is_quiet_after = h.is_quiet_after;
    } };

    ghost invariant = { λ h. h.place ≤ length h.bytes.items };
}

impl Handover {
    /// Nothing waits.
    pub fn new() -> Self
        ensures { result ≡ nothing_waits }
    {
        Handover {
            is_quiet: false,
            bytes: ArrayVec::new(),
            place: 0,
            is_quiet_after: false,
        }
    }

    /// Nothing waits any more.
    pub fn clear(&mut self)
        ensures { self.new ≡ nothing_waits }
    {
        self.is_quiet = false;
        self.bytes.clear();
        self.place = 0;
        self.is_quiet_after = false;
    }

    /// This waits now: an answer, or EOT; a bid after a hearing that is quiet; what else was heard, and then quiet.
    pub fn begin(&mut self, given: Given<Reply>)
        ensures { IsHandedOn given self.new }
    {
        self.is_quiet = given == Given::Bid;
        spell(given, &mut self.bytes);
        self.place = 0;
        self.is_quiet_after = matches!(given, Given::InVain(_));
    }

    /// The next part of what waits. No bytes are handed on before they are listened to.
    pub fn next(&mut self, piece: &mut [u8]) -> Handed
        requires room { 0 < length piece.old }
        ensures hands { Hands self.old piece.new result self.new }
        ensures within { (n : ℕ) → result ≡ Handed.Bytes n → n ≤ length piece.new }
    {
        if self.is_quiet {
            self.is_quiet = false;
            return Handed::Quiet;
        }
        if self.place == self.bytes.len() {
            return self.go_quiet();
        }
        let count = put_in_front(&self.bytes.as_slice()[self.place..], piece);
        self.place += count;
        Handed::Bytes(count)
    }

    /// The line is quiet, if it is to be after the bytes.
    fn go_quiet(&mut self) -> Handed
        requires empty { self.old.left ≡ [] }
        requires heard { self.old.is_quiet ≡ false }
        ensures hands { (piece : List ℕ) → Hands self.old piece result self.new }
        ensures none { (n : ℕ) → result ≢ Handed.Bytes n }
    {
        if !self.is_quiet_after {
            return Handed::Nothing;
        }
        self.is_quiet_after = false;
        Handed::Quiet
    }
}

/// Puts as many bytes at the front of a slice as there is room for, and returns how many.
fn put_in_front(bytes: &[u8], piece: &mut [u8]) -> usize
    requires some { 0 < length bytes.now }
    requires room { 0 < length piece.old }
    ensures some { 0 < result }
    ensures few { result ≤ length bytes.now }
    ensures within { result ≤ length piece.new }
    ensures put { bytes.now ≡ take result piece.new ++ drop result bytes.now }
{
    let count = bytes.len().min(piece.len());
    piece[..count].copy_from_slice(&bytes[..count]);
    count
}
