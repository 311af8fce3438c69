//! The orders of the program's commands.
ghost use Rattle.std.specs.Prelude.{◌≡◌};
ghost use Rattle.rje_requests.specs.Existing.{existing_chosen};

use crate::choice::Choice;
use crate::connection::Connection;
use crate::device::Device;
use crate::job_numbers::JobNumbers;
use crate::mark::Mark;
use crate::station::StationOrder;
use crate::status::StatusOrder;
use bsc_link::Rank;
use rje_files::JobName;
use rje_jobs::Form;

/// The deck, or the capture, that is standard input.
pub const STANDARD_INPUT: &str = "-";

/// What the program is asked for.
#[derive(Clone, Copy, Debug, PartialEq, Eq)]
pub enum Order<'a> {
    /// A command over files.
    Files(FileOrder<'a>),
    /// A command over sockets.
    Sockets(SocketOrder<'a>),
    /// A station that stays on the line.
    Station(StationOrder<'a>),
    /// A look at the folder of a station.
    Status(StatusOrder<'a>),
}

/// A command over files.
#[derive(Clone, Copy, Debug, PartialEq, Eq)]
pub enum FileOrder<'a> {
    /// The blocks of a deck. The deck `-` is standard input.
    Blocks(&'a str),
    /// A job file of a deck's job.
    Cards(CardsOrder<'a>),
    /// A line for each job of a job file.
    Show(ShowOrder<'a>),
    /// Whether the jobs of a job file can be sent.
    Check(&'a str),
    /// The listings and the punched cards of a job file.
    Print(PrintOrder<'a>),
    /// The run of a job file's jobs over a script.
    Try(TryOrder<'a>),
    /// What is heard of bytes as they stood on a line.
    Monitor(MonitorOrder<'a>),
    /// A job file of some jobs of another one.
    Take(TakeOrder<'a>),
    /// A mark for some jobs of a job file.
    Mark(MarkOrder<'a>),
}

/// A command over sockets.
#[derive(Clone, Copy, Debug, PartialEq, Eq)]
pub enum SocketOrder<'a> {
    /// A transmission between both ends in this process.
    Loop(LoopOrder<'a>),
    /// A transmission to a receiver.
    Send(SendOrder<'a>),
    /// A transmission from a sender.
    Receive(ReceiveOrder<'a>),
    /// A transmission each way over one connection.
    Exchange(ExchangeOrder<'a>),
}

/// What `cards` is asked for.
#[derive(Clone, Copy, Debug, PartialEq, Eq)]
pub struct CardsOrder<'a> {
    /// The deck. `-` is standard input.
    pub deck: &'a str,
    /// The job file that is written.
    pub jobs: &'a str,
    /// The device of the deck's job.
    pub device: Device,
    /// The name of the deck's job: blanks where it has none.
    pub name: JobName,
    /// Whether the job is added to those that the job file holds.
    pub append: bool,
}

/// What `show` is asked for.
#[derive(Clone, Copy, Debug, PartialEq, Eq)]
pub struct ShowOrder<'a> {
    /// The job file.
    pub jobs: &'a str,
    /// Which of its jobs are shown.
    pub choice: Choice,
    /// Whether the records of each of these are shown too.
    pub records: bool,
}

/// What `print` is asked for.
#[derive(Clone, Copy, Debug, PartialEq, Eq)]
pub struct PrintOrder<'a> {
    /// The job file.
    pub jobs: &'a str,
    /// Which of its jobs are printed.
    pub choice: Choice,
    /// How the cards of a job for the punch are printed.
    pub form: Form,
}

/// What `try` is asked for.
#[derive(Clone, Copy, Debug, PartialEq, Eq)]
pub struct TryOrder<'a> {
    /// The job file that is sent.
    pub jobs: &'a str,
    /// The script of losses and damage.
    pub script: &'a str,
}

/// What `monitor` is asked for.
#[derive(Clone, Copy, Debug, PartialEq, Eq)]
pub struct MonitorOrder<'a> {
    /// The capture. `-` is standard input.
    pub capture: &'a str,
    /// Whether it is text, a transmission a line in hexadecimal digits, and not the bytes themselves.
    pub hex: bool,
}

/// What `take` is asked for.
#[derive(Clone, Copy, Debug, PartialEq, Eq)]
pub struct TakeOrder<'a> {
    /// The job file from which jobs are taken. It stays as it is.
    pub jobs: &'a str,
    /// The job file that is written.
    pub new: &'a str,
    /// Which jobs are taken.
    pub numbers: JobNumbers<'a>,
    /// Whether the jobs are added to those that the job file holds which is written; else there is to be no such file.
    pub append: bool,
}

/// What `mark` is asked for.
#[derive(Clone, Copy, Debug, PartialEq, Eq)]
pub struct MarkOrder<'a> {
    /// The job file.
    pub jobs: &'a str,
    /// Which of its jobs are marked.
    pub numbers: JobNumbers<'a>,
    /// The mark that they are given.
    pub mark: Mark,
}

/// What `loop` is asked for.
#[derive(Clone, Copy, Debug, PartialEq, Eq)]
pub struct LoopOrder<'a> {
    /// The job file that is sent.
    pub jobs: &'a str,
    /// How long a hearing waits for more bytes, in milliseconds, 1 to 60000.
    pub timeout: u16,
    /// Whether each turn is reported on standard error as it happens.
    pub trace: bool,
    /// Whether nothing is shown on a terminal of how far it is.
    pub quiet: bool,
}

/// What `send` is asked for.
#[derive(Clone, Copy, Debug, PartialEq, Eq)]
pub struct SendOrder<'a> {
    /// The job file that is sent.
    pub jobs: &'a str,
    /// The connection to the receiver.
    pub connection: Connection<'a>,
}

/// What `receive` is asked for.
#[derive(Clone, Copy, Debug, PartialEq, Eq)]
pub struct ReceiveOrder<'a> {
    /// The job file that is received into.
    pub into: Destination<'a>,
    /// The connection to the sender.
    pub connection: Connection<'a>,
    /// Whether a call that brings nothing is followed by the next one.
    pub waits: bool,
    /// After so many hearings in a row without a word it leaves, 0 to 1000000000; with 0 never.
    pub patience: u32,
}

/// A job file that is received into.
#[derive(Clone, Copy, Debug, PartialEq, Eq)]
pub struct Destination<'a> {
    /// Its name.
    pub jobs: &'a str,
    /// What becomes of the jobs that it holds already.
    pub existing: Existing,
}

/// What becomes of the jobs that a file which is received into holds already.
#[derive(Clone, Copy, Debug, PartialEq, Eq)]
pub enum Existing {
    /// The jobs that come replace them.
    Replace,
    /// A file that holds jobs is refused.
    Refuse,
    /// They stay as they are, and the jobs that come stand after them.
    Append,
}

impl Existing {
    /// What the options for a new file and for adding to one choose: none where both are given.
    pub fn chosen(new: bool, append: bool) -> Option<Existing>
        ensures existing { result ≡ existing_chosen new append }
    {
        match (new, append) {
            (false, false) => Some(Existing::Replace),
            (true, false) => Some(Existing::Refuse),
            (false, true) => Some(Existing::Append),
            (true, true) => None,
        }
    }
}

/// What `exchange` is asked for.
#[derive(Clone, Copy, Debug, PartialEq, Eq)]
pub struct ExchangeOrder<'a> {
    /// The job file that is sent.
    pub send: &'a str,
    /// The job file that is received into.
    pub received: Destination<'a>,
    /// The connection to the other end.
    pub connection: Connection<'a>,
    /// Which of the two ends this one is: where both bid at once the secondary yields.
    pub rank: Rank,
    /// After so many hearings in a row without a word it leaves, 0 to 1000000000; with 0 never.
    pub patience: u32,
}
