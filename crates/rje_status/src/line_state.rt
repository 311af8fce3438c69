//! What a station is doing on its line.
use serde::{Deserialize, Serialize};

/// What a station is doing on its line, as it notes it in its folder. Times are in seconds since 1970.
#[derive(Debug, Drop, PartialEq, Serialize, Deserialize)]
pub struct LineState {
    /// What it is doing.
    pub state: Activity,
    /// Since when.
    pub since: u64,
    /// The address at which it awaits calls, or the other end's.
    pub address: String,
    /// When it calls next, if it waits for that.
    pub next_call: Option<u64>,
    /// The transmission in hand, if there is one.
    pub transmission: Option<TransmissionState>,
}

/// What a station is doing on its line.
#[derive(Clone, Copy, Debug, PartialEq, Eq, Serialize, Deserialize)]
#[serde(rename_all = "lowercase")]
pub enum Activity {
    /// It awaits a call.
    Listening,
    /// It waits until it calls next.
    Waiting,
    /// It calls the other end.
    Calling,
    /// It has a connection with the other end.
    Connected,
}

/// A transmission in hand, and how far it is.
#[derive(Clone, Copy, Debug, PartialEq, Eq, Serialize, Deserialize)]
pub struct TransmissionState {
    /// Whose it is.
    pub way: Way,
    /// Since when it has been in hand.
    pub since: u64,
    /// Which of its jobs is in hand, from 1; 0 if none is yet.
    pub job: u64,
    /// How many jobs it has, if that is known.
    pub jobs: Option<u64>,
    /// How many records of it came, or are acknowledged: of its own, those of whole jobs.
    pub records: u64,
}

/// Whose a transmission is.
#[derive(Clone, Copy, Debug, PartialEq, Eq, Serialize, Deserialize)]
#[serde(rename_all = "lowercase")]
pub enum Way {
    /// The station's own.
    Out,
    /// The other end's.
    In,
}

/// The name of the file in a station's folder in which it notes what it is doing.
pub const STATE_FILE: &str = "status";
