//! A line over a connection.
ghost use Rattle.std.specs.Prelude.{◌≡◌, ◌+◌, ◌-◌, ◌^◌, ◌<◌, ◌≤◌, List, length, min, IfErr, IfOk, OnErr, OnOk, None, Some, true, ⊤};
ghost use Rattle.std.specs.Io.{ReadsAtMost};
ghost use Rattle.std.specs.Io.KnownBytes.{ReadConsumes, WriteAppends};
ghost use Rattle.rje_station.specs.Line.{IsWithin, Rose, one_more};
ghost use Rattle.rje_net.specs.Hearing.{Brought, Happens, HappensInTurn, HandsOn, Listens, MayAwait, ReadsJust, ReadsThrough, Says, WritesThrough, awaits_answer, brought_by, brought_in, keeps};
ghost use Rattle.rje_net.specs.Inside.Reading.{came_of as comes_to, waited_in_vain};
ghost use Rattle.rje_net.specs.Words.{HasWord};

use crate::first_bytes::is_pad;
use crate::first_word::has_word;
use crate::line_cause::LineCause;
use crate::observed_stream::{MAX_AHEAD, ObservedStream};
use arrayvec::ArrayVec;
use bsc_codes::PAD;
use bsc_link::{Rank, Reply};
use rje_answers::{Answers, Given, Handed, Handover, Said};
use rje_station::{Came, Line, LineFault, MAX_HEARD};
use std::io::{self, ErrorKind, Read, Write};
use std::mem;
use std::net::{OpenStream, Shutdown};
use std::time::{Clock, Duration};

/// So many interruptions of one hearing are passed over.
const MAX_INTERRUPTIONS: u32 = 1_000_000;

/// The most bytes that are read at once where an answer is awaited.
const MAX_PIECE: usize = 160;

/// So many pieces come at most before an answer.
const MAX_PIECES: u32 = 64;

/// So many pieces, or times that none comes, are heard after the end before the other end has hung up.
const MAX_LAST_PIECES: u32 = 16;

/// So many milliseconds each of these is waited for.
const LAST_WAIT: u64 = 250;

/// A line over a stream whose reads and writes time out. It tells no bytes. What it gives where an answer is awaited is that answer, EOT, or
/// the bid of an end to which it yields, and else quiet: what crosses or comes late is no answer (crate `rje_answers`).
#[derive(Drop)]
pub struct SocketLine<S> {
    stream: S,
    // How many transmissions were begun.
    transmissions: u64,
    failures: u64,
    last_fault: Option<LineFault>,
    // Which answer belongs to what was said last.
    answers: Answers,
    // What was heard and waits for the station.
    handover: Handover,
    // Whether more came than one hearing takes, and no answer.
    babbles: bool,
}

impl<S: OpenStream + Drop> SocketLine<S> {
    /// A line over this connection for a station of this rank, on which a hearing waits so many milliseconds, at least 1, for more bytes, and
    /// a transmission for the peer to take its bytes. A secondary yields to a bid that crosses its own.
    pub fn new(stream: S, milliseconds: u16, rank: Rank) -> io::Result<SocketLine<S>>
        ensures unused { IfOk result (λ line. line.transmissions ≡ 0) }
        ensures calm { IfOk result (λ line. (line.failures ≡ 0) × (line.last_fault ≡ None)) }
    {
        let time = Some(Duration::from_millis(u64::from(milliseconds)));
        stream.set_nodelay(true)?;
        stream.set_read_timeout(time)?;
        stream.set_write_timeout(time)?;
        Ok(SocketLine {
            stream,
            transmissions: 0,
            failures: 0,
            last_fault: None,
            answers: Answers::new(rank == Rank::Secondary),
            handover: Handover::new(),
            babbles: false,
        })
    }
}

impl<S: OpenStream + Read> SocketLine<S> {
    /// Says no more, and hears the other end out until it hangs up, for four seconds at most: whether no answer came after EOT was said, now or
    /// before. One that came belongs to something said earlier, and what was counted may not have been received.
    pub fn ends_in_step(&mut self) -> bool
        ensures none { self.new.transmissions ≡ self.old.transmissions }
    {
        if self.answers.has_ended() && !self.answers.strayed() {
            let _ = self.stream.shutdown(Shutdown::Write);
            let _ = self
                .stream
                .set_read_timeout(Some(Duration::from_millis(LAST_WAIT)));
            hear_out(&mut self.stream, &mut self.answers);
        }
        !self.answers.strayed()
    }
}

impl<C: Clock, S> SocketLine<ObservedStream<C, S>> {
    /// How long it took from the first bid or answer to what came then, where something did.
    pub fn waited(&self) -> Option<Duration> {
        self.stream.waited()
    }

    /// Why the line failed last, where it did.
    pub fn cause(&self) -> Option<LineCause>
        ensures { self.now.last_fault ≡ None → result ≡ None }
    {
        let cause = match (self.last_fault?, self.stream.failure()) {
            (LineFault::Failed, Some(kind)) => LineCause::of_kind(kind),
            _ => LineCause::HungUp,
        };
        let first = self.stream.first();
        match cause {
            LineCause::HungUp if first.begin_otherwise() => Some(LineCause::NoTransmission(first)),
            cause => Some(cause),
        }
    }
}

impl<C: Clock, S: Read> SocketLine<ObservedStream<C, S>> {
    /// Whether the other end says a word, now or within so many hearings: it is heard later. Pads, SYN and noise are passed over.
    pub fn is_spoken_on(&mut self, hearings: u32) -> bool
        ensures none { self.new.transmissions ≡ self.old.transmissions }
        ensures word { result ≡ true → HasWord self.new.stream.ahead.items }
    {
        comes_soon(&mut self.stream, hearings)
    }
}

impl<S> SocketLine<S> {
    /// Whether an answer came after EOT was said, as far as was heard.
    pub fn has_strayed(&self) -> bool
        ensures { result ≡ self.now.answers.kept.strayed }
    {
        self.answers.strayed()
    }

    /// Counts a failure.
    fn failed(&mut self, fault: LineFault) -> LineFault
        ensures still { self.new.stream ≡ self.old.stream }
        ensures counted { self.new.failures ≡ min (self.old.failures + 1) (2 ^ 64 - 1) }
        ensures grows { self.old.failures ≤ self.new.failures }
        ensures none { self.new.transmissions ≡ self.old.transmissions }
        ensures told { result ≡ fault }
        ensures last { self.new.last_fault ≡ Some fault }
        ensures rest { keeps self.new.answers self.new.handover self.new.babbles
            ≡ keeps self.old.answers self.old.handover self.old.babbles }
    {
        self.last_fault = Some(fault);
        self.failures = self.failures.saturating_add(1);
        fault
    }
}

impl<S: Read + Write> Line for SocketLine<S> {
    ghost failures = { λ line. line.failures };

    ghost transmissions = { λ line. line.transmissions };

    ghost last_fault = { λ line. line.last_fault };

    // Any call may fail.
    ghost may_fail = { λ _ _ _. ⊤ };

    ghost talk = { λ _. None };

    fn transmit(&mut self, bytes: &[u8]) -> Result<(), LineFault>
        ensures grows { self.old.failures ≤ self.new.failures }
        ensures failed { OnErr result (Rose self.old.failures self.new.failures) }
        ensures fault { IfErr result (λ fault. self.new.last_fault ≡ Some fault) }
        ensures same { OnOk result (self.new.last_fault ≡ self.old.last_fault) }
        ensures begun { self.new.transmissions ≡ one_more self.old.transmissions }

        // The stream took all of it, or if this failed a front of it.
        ensures taken { WritesThrough (S.contents self.old.stream) (S.contents self.new.stream)
            result bytes.now }
        ensures said { Says (keeps self.old.answers self.old.handover self.old.babbles) bytes.now
            (keeps self.new.answers self.new.handover self.new.babbles) }
    {
        self.transmissions = self.transmissions.saturating_add(1);
        self.answers.say(Said::of(bytes));
        self.handover.clear();
        self.babbles = false;
        match write_through(&mut self.stream, bytes) {
            Ok(()) => Ok(()),
            Err(_) => Err(self.failed(LineFault::Failed)),
        }
    }

    fn listen(&mut self, piece: &mut [u8]) -> Result<Came, LineFault>
        requires room { 0 < length piece.old }
        ensures grows { self.old.failures ≤ self.new.failures }
        ensures failed { OnErr result (Rose self.old.failures self.new.failures) }
        ensures fault { IfErr result (λ fault. self.new.last_fault ≡ Some fault) }
        ensures same { OnOk result (self.new.last_fault ≡ self.old.last_fault) }
        ensures none { self.new.transmissions ≡ self.old.transmissions }
        ensures within { IfOk result (λ came. IsWithin came (length piece.new)) }

        // What is read, and what the station is handed of it.
        ensures read { (brought : List Brought)
            × ReadsJust (S.remaining self.old.stream) (S.remaining self.new.stream) result brought
            × IfOk result (λ came.
            Listens (keeps self.old.answers self.old.handover self.old.babbles) brought came piece.new
            (keeps self.new.answers self.new.handover self.new.babbles)) }
    {
        match self.hear(piece) {
            Ok(came) => Ok(came),
            Err(fault) => Err(self.failed(fault)),
        }
    }
}

impl<S: Read> SocketLine<S> {
    /// Awaits an answer, if one is due, and hands the station the next part of what it is given; or else what comes.
    fn hear(&mut self, piece: &mut [u8]) -> Result<Came, LineFault>
        requires room { 0 < length piece.old }
        ensures same { (self.new.failures ≡ self.old.failures)
            × (self.new.last_fault ≡ self.old.last_fault)
            × (self.new.transmissions ≡ self.old.transmissions) }
        ensures within { IfOk result (λ came. IsWithin came (length piece.new)) }
        ensures read { (brought : List Brought)
            × ReadsJust (S.remaining self.old.stream) (S.remaining self.new.stream) result brought
            × IfOk result (λ came.
            Listens (keeps self.old.answers self.old.handover self.old.babbles) brought came piece.new
            (keeps self.new.answers self.new.handover self.new.babbles)) }
    {
        self.await_answer()?;
        self.hand_on(piece)
    }

    /// Awaits the answer to what was said, if one is due. What the station is given of what comes waits for it then.
    fn await_answer(&mut self) -> Result<(), LineFault>
        ensures same { (self.new.failures ≡ self.old.failures)
            × (self.new.last_fault ≡ self.old.last_fault)
            × (self.new.transmissions ≡ self.old.transmissions) }
        ensures read { (brought : List Brought)
            × ReadsJust (S.remaining self.old.stream) (S.remaining self.new.stream) result brought
            × OnOk result (
            MayAwait (keeps self.old.answers self.old.handover self.old.babbles) brought
            (keeps self.new.answers self.new.handover self.new.babbles)) }
    {
        if self.awaits_answer() {
            match await_given(&mut self.stream, &mut self.answers)? {
                Given::Nothing => self.babbles = true,
                given => self.handover.begin(given),
            }
        }
        Ok(())
    }

    /// Whether an answer is awaited, and not too much came for it.
    fn awaits_answer(&self) -> bool
        ensures { result ≡ awaits_answer (keeps self.now.answers self.now.handover self.now.babbles) }
    {
        self.answers.awaits() && !self.babbles
    }

    /// Hands the station the next part of what waits for it: bytes without an end if too much came, or, if nothing waits, what one read brings.
    fn hand_on(&mut self, piece: &mut [u8]) -> Result<Came, LineFault>
        requires room { 0 < length piece.old }
        ensures same { (self.new.failures ≡ self.old.failures)
            × (self.new.last_fault ≡ self.old.last_fault)
            × (self.new.transmissions ≡ self.old.transmissions) }
        ensures within { IfOk result (λ came. IsWithin came (length piece.new)) }
        ensures read { (brought : List Brought)
            × ReadsJust (S.remaining self.old.stream) (S.remaining self.new.stream) result brought
            × IfOk result (λ came.
            HandsOn (keeps self.old.answers self.old.handover self.old.babbles) brought came piece.new
            (keeps self.new.answers self.new.handover self.new.babbles)) }
    {
        if self.babbles {
            piece.fill(PAD);
            return Ok(Came::Bytes(piece.len()));
        }
        match self.handover.next(piece) {
            Handed::Quiet => Ok(Came::Quiet),
            Handed::Bytes(count) => Ok(Came::Bytes(count)),
            Handed::Nothing => read_through(&mut self.stream, &mut self.answers, piece),
        }
    }
}

/// What is given of what comes where an answer is awaited: nothing, where more comes than one hearing takes.
fn await_given<S: Read>(stream: &mut S, answers: &mut Answers) -> Result<Given<Reply>, LineFault>
    ensures read { (brought : List Brought)
        × ReadsJust (S.remaining stream.old) (S.remaining stream.new) result brought
        × IfOk result (λ given. HappensInTurn answers.old brought given answers.new) }
{
    let mut piece = [0; MAX_PIECE];
    let mut taken: usize = 0;
    for _ in 0..MAX_PIECES {
        let came = came_in(stream, &mut piece)?;
        taken = taken.saturating_add(count_of(came));
        match happen(answers, came, &piece) {
            Given::Nothing if taken <= MAX_HEARD => {}
            given => return Ok(given),
        }
    }
    Ok(Given::Nothing)
}

/// How many bytes came.
fn count_of(came: Came) -> usize {
    match came {
        Came::Bytes(count) => count,
        Came::Quiet => 0,
    }
}

/// What came happens at the end that awaits an answer. What its station is given of it.
fn happen(answers: &mut Answers, came: Came, piece: &[u8]) -> Given<Reply>
    requires within { IsWithin came (length piece.now) }
    ensures { Happens answers.old (brought_by came piece.now) result answers.new }
{
    match came {
        Came::Bytes(count) => answers.hear(&piece[..count]),
        Came::Quiet => answers.quiet(),
    }
}

/// What comes where none is awaited, as it comes. Only after EOT is an answer looked for that nobody awaits.
fn read_through<S: Read>(
    stream: &mut S,
    answers: &mut Answers,
    piece: &mut [u8],
) -> Result<Came, LineFault>
    requires room { 0 < length piece.old }
    ensures within { IfOk result (λ came. IsWithin came (length piece.new)) }
    ensures read { ReadsJust (S.remaining stream.old) (S.remaining stream.new) result
        (brought_in result piece.new) }
    ensures heard { IfOk result (λ came.
        ReadsThrough answers.old came piece.new answers.new) }
{
    let came = came_in(stream, piece)?;
    if came == Came::Quiet || answers.has_ended() {
        happen(answers, came, piece);
    }
    Ok(came)
}

/// Writes all of these bytes, or, if that fails, a front of them.
fn write_through<S: Write>(stream: &mut S, bytes: &[u8]) -> io::Result<()>
    ensures { WritesThrough (S.contents stream.old) (S.contents stream.new) result bytes.now }
{
    let mut place: usize = 0;
    for _ in 0..MAX_INTERRUPTIONS {
        if place >= bytes.len() {
            return Ok(());
        }
        place += write_some(stream, &bytes[place..])?;
    }
    Err(io::Error::from(ErrorKind::Interrupted))
}

/// Writes some of these bytes, which aren't none, and answers how many: none, if it was interrupted.
fn write_some<S: Write>(stream: &mut S, bytes: &[u8]) -> io::Result<usize>
    ensures within { IfOk result (λ count. count ≤ length bytes.now) }
    ensures written { WriteAppends (S.contents stream.old) (S.contents stream.new) result bytes.now }
{
    match stream.write(bytes) {
        Ok(0) => Err(io::Error::from(ErrorKind::WriteZero)),
        Err(error) if error.kind() == ErrorKind::Interrupted => Ok(0),
        written => written,
    }
}

/// Hears what comes until the other end hangs up, or for long.
fn hear_out<S: Read>(stream: &mut S, answers: &mut Answers) {
    let mut piece = [0; MAX_PIECE];
    for _ in 0..MAX_LAST_PIECES {
        match came_in(stream, &mut piece) {
            Ok(Came::Bytes(count)) => answers.hear(&piece[..count]),
            Ok(Came::Quiet) => answers.quiet(),
            Err(_) => return,
        };
        if answers.strayed() {
            return;
        }
    }
}

/// Whether a word comes within so many quiet hearings, which is read ahead. A caller has none of which so much else came that it is no answer
/// either, or in one hearing more than is read ahead.
fn comes_soon<C: Clock, S: Read>(stream: &mut ObservedStream<C, S>, hearings: u32) -> bool
    ensures word { result ≡ true → HasWord stream.new.ahead.items }
{
    let mut came = ArrayVec::new();
    let mut quiet: u32 = 0;
    for turn in 0..hearings.saturating_add(MAX_PIECES) {
        match hear_on(stream, &mut came) {
            Ok(Came::Quiet) => quiet = quiet.saturating_add(1),
            Ok(Came::Bytes(_)) => {
                if is_read_ahead(stream, &mut came) {
                    return true;
                }
            }
            Err(_) => return false,
        }
        if quiet >= hearings || turn.saturating_sub(quiet) >= MAX_PIECES || came.is_full() {
            return false;
        }
    }
    false
}

/// Reads what came in this hearing ahead, where it has a word. Whether it has.
fn is_read_ahead<C, S>(
    stream: &mut ObservedStream<C, S>,
    came: &mut ArrayVec<u8, MAX_AHEAD>,
) -> bool
    ensures word { result ≡ true → HasWord stream.new.ahead.items }
{
    let spoken = has_word(came.as_slice());
    if spoken {
        stream.read_ahead(mem::replace(came, ArrayVec::new()));
    }
    spoken
}

/// Hears on after what came in this hearing, as far as there is room; the next one begins where the line is quiet. Pads in front aren't kept.
fn hear_on<S: Read>(stream: &mut S, came: &mut ArrayVec<u8, MAX_AHEAD>) -> Result<Came, LineFault> {
    let mut piece = [0; MAX_AHEAD];
    let room = (MAX_AHEAD - came.len()).max(1);
    let heard = came_in(stream, &mut piece[..room])?;
    match heard {
        Came::Quiet => came.clear(),
        Came::Bytes(count) => keep(&piece[..count], came),
    }
    Ok(heard)
}

/// Keeps these bytes, as far as there is room, after what came, except pads before all.
fn keep(piece: &[u8], came: &mut ArrayVec<u8, MAX_AHEAD>) {
    for byte in piece {
        if !came.is_full() && (!came.is_empty() || !is_pad(*byte)) {
            came.push(*byte);
        }
    }
}

/// What comes of one read.
fn came_in<S: Read>(stream: &mut S, piece: &mut [u8]) -> Result<Came, LineFault>
    requires room { 0 < length piece.old }
    ensures within { IfOk result (λ came. IsWithin came (length piece.new)) }
    ensures read { ReadsJust (S.remaining stream.old) (S.remaining stream.new) result
        (brought_in result piece.new) }
{
    came_of(read_on(stream, piece))
}

/// What a read comes to: it is quiet where nothing came while it waited, and the line is closed where the stream gives no more.
fn came_of(read: io::Result<usize>) -> Result<Came, LineFault>
    ensures { result ≡ comes_to read }
{
    match read {
        Ok(0) => Err(LineFault::Closed),
        Ok(count) => Ok(Came::Bytes(count)),
        Err(error) if is_time_out(error.kind()) => Ok(Came::Quiet),
        Err(_) => Err(LineFault::Failed),
    }
}

/// Reads, and reads again where it was interrupted.
fn read_on<S: Read>(stream: &mut S, piece: &mut [u8]) -> io::Result<usize>
    ensures bound { ReadsAtMost result piece.new }
    ensures bytes { ReadConsumes (S.remaining stream.old) (S.remaining stream.new) result piece.new }
{
    for _ in 0..MAX_INTERRUPTIONS {
        match stream.read(piece) {
            Err(error) if error.kind() == ErrorKind::Interrupted => {}
            answer => return answer,
        }
    }
    Err(io::Error::from(ErrorKind::Interrupted))
}

/// Whether a read that fails so waited and nothing came.
fn is_time_out(kind: ErrorKind) -> bool
    ensures { result ≡ waited_in_vain kind }
{
    matches!(kind, ErrorKind::WouldBlock | ErrorKind::TimedOut)
}
