//! A line in memory.
ghost use Rattle.std.specs.Prelude.{◌≡◌, ◌≢◌, ◌⊎◌, ◌<◌, ◌≤◌, ◌+◌, ℕ, ◌∷◌, [], Some, ◌↔◌, ◌==◌, ◌||◌, length, map, min, take, drop, IfOk, OnOk, IfErr, OnErr, IsErr, IsTrue, true, false};
ghost use Rattle.rje_station.specs.Line.{Rose, Sends, Hears, IsWithin, one_more};
ghost use Rattle.line_world.specs.MemoryLine.{empty_line, pieces_in, ready, given_to, pieces_left, came_with, laid, talk_of, may_fail_on, last_fault_of, after_put, after_fail_at, after_call, after_failing, after_transmitting, after_listening};

use arrayvec::ArrayVec;
use bsc_frame::MAX_TRANSMISSION;
use rje_station::{Came, Line, LineFault};
use std::alloc::{AllocError, Global};
use std::marker::Model;

/// A line in memory: the bytes that come are handed in, and the last transmission is kept. No call takes memory.
#[derive(Drop)]
pub struct MemoryLine {
    pieces: Vec<Vec<u8>>,
    // The piece in hand, and how many of its bytes were given.
    piece: usize,
    given: usize,
    sent: ArrayVec<u8, MAX_TRANSMISSION>,
    // How many transmissions were begun.
    transmissions: u64,
    failures: u64,
    // Which call from now on fails, from 1; 0: none.
    until_failure: u64,
}

impl Model for MemoryLine {
    ghost use Rattle.line_world.specs.MemoryLine.{LineInMemory, pieces_in};
    ghost use Rattle.std.specs.Prelude.{drop};

    ghost Value = { LineInMemory };

    ghost view = { λ l. record {
      waiting = pieces_in (λ p. p.items) l.given (drop l.piece l.pieces.items);
      sent = l.sent.items;
      transmissions = l.transmissions;
      failures = l.failures;
      until_failure = l.until_failure;
    } };
}

impl MemoryLine {
    /// A line on which nothing comes, nothing was sent and no call fails.
    pub fn new(alloc: Global) -> MemoryLine
        ensures { result ≡ empty_line }
    {
        MemoryLine {
            pieces: Vec::new(alloc),
            piece: 0,
            given: 0,
            sent: ArrayVec::new(),
            transmissions: 0,
            failures: 0,
            until_failure: 0,
        }
    }

    /// Hands in the bytes that come, in these pieces, in place of what wasn't given yet.
    pub fn put(&mut self, pieces: Vec<Vec<u8>>)
        ensures { self.new ≡ after_put (map (λ p. p.items) pieces.items) self.old }
    {
        self.pieces = pieces;
        self.piece = 0;
        self.given = 0;
    }

    /// Hands in bytes that come in one piece, in place of what wasn't given yet. They take the room of a piece that came alone before.
    pub(crate) fn put_whole(&mut self, alloc: Global, bytes: &[u8]) -> Result<(), AllocError>
        ensures put { OnOk result (self.new ≡ after_put (bytes.now ∷ []) self.old) }
        ensures calm { self.new.until_failure ≡ self.old.until_failure }
    {
        if let [piece] = self.pieces.as_mut_slice() {
            piece.clear();
            piece.extend_from_slice(bytes)?;
            self.piece = 0;
            self.given = 0;
            return Ok(());
        }
        let mut pieces = Vec::new(alloc);
        pieces.push(Vec::from_slice(alloc, bytes)?)?;
        self.put(pieces);
        Ok(())
    }

    /// The last transmission.
    pub fn sent(&self) -> &[u8]
        ensures sent { result.now ≡ self.now.sent }
        ensures short { length self.now.sent ≤ 1033 }
    {
        self.sent.as_slice()
    }

    /// Makes this call from now on fail, counted from 1, and once; 0 takes that back.
    pub fn fail_at(&mut self, call: u64)
        ensures { self.new ≡ after_fail_at call self.old }
    {
        self.until_failure = call;
    }

    /// Counts a call, and tells whether it fails: where it is named to, or can't be done.
    fn fails(&mut self, impossible: bool) -> bool
        ensures told { result ≡ (self.old.until_failure == 1 || impossible) }
        ensures state { self.new ≡ after_call result self.old }
        ensures grows { self.old.failures ≤ self.new.failures }
    {
        let failed = self.until_failure == 1 || impossible;
        self.until_failure = self.until_failure.saturating_sub(1);
        if failed {
            self.failures = self.failures.saturating_add(1);
        }
        failed
    }
}

impl Line for MemoryLine {
    ghost use Rattle.std.specs.Prelude.{Some};

    ghost failures = { λ line. line.failures };

    ghost transmissions = { λ line. line.transmissions };

    ghost last_fault = { last_fault_of };

    ghost may_fail = { may_fail_on };

    ghost talk = { λ line. Some (talk_of line) };

    fn transmit(&mut self, bytes: &[u8]) -> Result<(), LineFault>
        ensures grows { self.old.failures ≤ self.new.failures }
        ensures failed { OnErr result (Rose self.old.failures self.new.failures) }
        ensures may { OnErr result (may_fail_on self.old (length bytes.now) 0) }
        ensures last { IfErr result (λ fault. last_fault_of self.new ≡ Some fault) }
        ensures same { OnOk result (last_fault_of self.new ≡ last_fault_of self.old) }
        ensures ages { (bytes calls : ℕ) → may_fail_on self.new bytes calls
            → may_fail_on self.old bytes (1 + calls) }
        ensures begun { self.new.transmissions ≡ one_more self.old.transmissions }
        ensures sent { OnOk result (Sends bytes.now (talk_of self.old) (talk_of self.new)) }

        // The call fails that was named, and a transmission of more than 1,033 bytes; nothing else does.
        ensures only { IsErr result ↔ ((self.old.until_failure ≡ 1) ⊎ (1033 < length bytes.now)) }
        ensures fault { IfErr result (λ fault. fault ≡ LineFault.Failed) }
        ensures kept { OnOk result (self.new ≡ after_transmitting bytes.now self.old) }
        ensures unchanged { OnErr result (self.new ≡ after_failing self.old) }
    {
        self.transmissions = self.transmissions.saturating_add(1);
        if self.fails(MAX_TRANSMISSION < bytes.len()) {
            return Err(LineFault::Failed);
        }
        self.sent.clear();
        let Ok(()) = self.sent.try_extend_from_slice(bytes) else {
            unreachable!()
        };
        Ok(())
    }

    fn listen(&mut self, piece: &mut [u8]) -> Result<Came, LineFault>
        requires room { 0 < length piece.old }
        ensures grows { self.old.failures ≤ self.new.failures }
        ensures failed { OnErr result (Rose self.old.failures self.new.failures) }
        ensures may { OnErr result (may_fail_on self.old 0 0) }
        ensures last { IfErr result (λ fault. last_fault_of self.new ≡ Some fault) }
        ensures same { OnOk result (last_fault_of self.new ≡ last_fault_of self.old) }
        ensures ages { (bytes calls : ℕ) → may_fail_on self.new bytes calls
            → may_fail_on self.old bytes (1 + calls) }
        ensures none { self.new.transmissions ≡ self.old.transmissions }
        ensures within { IfOk result (λ came. IsWithin came (length piece.new)) }
        ensures heard { IfOk result (λ came.
            Hears came piece.new (talk_of self.old) (talk_of self.new)) }

        // The pieces come in order, empty ones are passed over, one longer than the slice comes in parts, and then it is quiet.
        ensures came { IfOk result (λ came. came
            ≡ came_with (given_to (length piece.old) (ready self.old.waiting))) }
        ensures bytes { OnOk result (piece.new
            ≡ laid (given_to (length piece.old) (ready self.old.waiting)) piece.old) }
        ensures left { OnOk result (self.new ≡ after_listening (length piece.old) self.old) }

        // The call fails that was named, and gives nothing; nothing else does.
        ensures only { IsErr result ↔ (self.old.until_failure ≡ 1) }
        ensures fault { IfErr result (λ fault. fault ≡ LineFault.Failed) }
        ensures unchanged { OnErr result (self.new ≡ after_call true self.old) }
        ensures untouched { OnErr result (piece.new ≡ piece.old) }
    {
        if self.fails(false) {
            return Err(LineFault::Failed);
        }
        pass_empty(self.pieces.as_slice(), &mut self.piece, &mut self.given);
        if self.piece < self.pieces.len() {
            let n = copy_front(self.pieces[self.piece].as_slice(), self.given, piece);
            self.given += n;
            return Ok(Came::Bytes(n));
        }
        Ok(Came::Quiet)
    }
}

/// Passes over pieces of which every byte was given.
fn pass_empty(pieces: &[Vec<u8>], piece: &mut usize, given: &mut usize)
    ensures ready { pieces_in (λ p. p.items) given.new (drop piece.new pieces.now)
        ≡ ready (pieces_in (λ p. p.items) given.old (drop piece.old pieces.now)) }
{
    while *piece < pieces.len() && pieces[*piece].len() <= *given {
        *piece += 1;
        *given = 0;
    }
}

/// Copies what wasn't given of a piece to the front of a slice, as far as there is room: how many bytes.
fn copy_front(piece: &[u8], given: usize, out: &mut [u8]) -> usize
    requires { given ≤ length piece.now }
    ensures count { result ≡ length (take (length out.old) (drop given piece.now)) }
    ensures laid { out.new ≡ laid (take (length out.old) (drop given piece.now)) out.old }
{
    let (_, rest) = piece.split_at(given);
    let n = rest.len().min(out.len());
    let (front, _) = rest.split_at(n);
    out[..n].copy_from_slice(front);
    n
}
